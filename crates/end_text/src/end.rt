//! How a run has ended.

use house_base::Reason;

/// How a run has ended.
#[derive(Clone, Copy, Debug, PartialEq, Eq)]
pub enum RunEnd {
    /// The lottery was drawn.
    Done,
    /// An accepted assignment has reached the goal.
    Settled,
    /// The line of this number, from 1, was refused, or the end of the lines is.
    Refused(u64, Reason),
    /// No valid assignment exists.
    Short,
}

/// How a run has ended, with the text that says so.
#[derive(Drop)]
pub struct EndText {
    pub end: RunEnd,
    pub text: Vec<u8>,
}
