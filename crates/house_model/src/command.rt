//! The commands of a command file, with what their words say.

use house_base::{Call, Name, Seed};

/// A command that a line gives.
#[derive(Clone, Copy, Debug, PartialEq, Eq)]
pub enum Command {
    Call(Call),
    /// An applicant and the person to whom it belongs.
    Applicant(Name, Name),
    /// A person and the applicant that it may not review.
    Conflict(Name, Name),
    /// A person and its cluster, from 1.
    Place(Name, u32),
    /// The seed from which the clusters are drawn.
    Partition(Seed),
    /// A person and the applicant that it reviews.
    Pair(Name, Name),
    /// The digest to which the lottery has to keep.
    Seal([u8; 32]),
    Assign,
    Close,
    Draw(u64),
    /// The seed from which the draw is made.
    Lottery(Seed),
}
