//! A review line of a command file.

use crate::name::Name;

/// A review line, word by word. A part is None where its word is missing or not of its form.
#[derive(Clone, Copy, Debug, PartialEq, Eq)]
pub struct ReviewLine {
    /// Whether the line has 4 words.
    pub whole: bool,
    /// The person who reviews.
    pub reviewer: Option<Name>,
    /// The applicant that is reviewed.
    pub proposal: Option<Name>,
    /// The points, from 0 to 100.
    pub points: Option<u32>,
}
