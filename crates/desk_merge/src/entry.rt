//! A review with its revision.

use house_base::Name;

/// A review that a desk holds.
#[derive(Clone, Copy, Debug, PartialEq, Eq)]
pub struct Entry {
    /// The person who reviews.
    pub reviewer: Name,
    /// The applicant that is reviewed.
    pub proposal: Name,
    /// The greater of two revisions counts.
    pub revision: u64,
    /// From 0 to 100.
    pub points: u32,
}
