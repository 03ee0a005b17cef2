//! The phases of a call.

/// How far a call has come.
#[derive(Clone, Copy, Debug, PartialEq, Eq)]
pub enum Phase {
    /// Applicants are named and put into clusters.
    Opening,
    /// The assignment stands, and reviews are taken.
    Reviewing,
    /// No more reviews are taken.
    Closed,
    /// The lottery was drawn.
    Drawn,
}
