//! What a line of a command file is.

use house_base::{Reason, ReviewLine};
use house_model::{Command, Verb};

/// What a line is, by itself.
#[derive(Clone, Copy, Debug, PartialEq, Eq)]
pub enum Line {
    /// Nothing, or a comment.
    Blank,
    House(Command),
    Review(ReviewLine),
    /// A line of the house that can be no command, whatever came before it.
    Bad(Verb, Reason),
}
