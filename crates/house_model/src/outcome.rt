//! What clusters and applicants get, as the rows of an outcome.

use house_base::Name;

/// What a cluster got: its cents, its quota over the common denominator, its seats at the draw, and how many
/// of them its members fill.
#[derive(Clone, Copy, Debug, PartialEq, Eq)]
pub struct ClusterRow {
    pub cents: u64,
    pub quota: u64,
    pub seats: u64,
    pub filled: u64,
}

/// What an applicant got: its cluster, counted from 1, its rank there, its cents, its chance over the common
/// denominator, and whether the draw selects it.
#[derive(Clone, Copy, Debug, PartialEq, Eq)]
pub struct ApplicantRow {
    pub name: Name,
    pub person: Name,
    pub cluster: u32,
    pub rank: u32,
    pub cents: u64,
    pub chance: u64,
    pub chosen: bool,
}
