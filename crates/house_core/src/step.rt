//! The answers of a run.

use cut_gap::Cut;
use house_base::{Memory, Plan, Reason, Took};
use report_text::Outcome;
use review_desk::Desk;

/// What a line did to a run.
#[derive(Clone, Copy, Debug, PartialEq, Eq)]
pub enum Step {
    /// The run goes on.
    Going(Took),
    /// The line, by its number from 1, is refused, and has ended the run.
    Refused(u64, Reason),
    /// The line asks for an assignment, no valid one exists, and this has ended the run.
    Short,
    /// Want of memory has ended the run.
    Memory,
}

/// How a run ends.
#[derive(Drop)]
pub enum Ending<'a> {
    /// An accepted assignment has reached the goal: its setting, and, where the goal looks at its pairs, the desk that
    /// has them.
    Settled(&'a Plan, Option<&'a Desk>),
    /// The lottery was drawn, and this is the outcome for the report.
    Done(Outcome),
    /// The line of this number, from 1, was refused, or the end of the lines is.
    Refused(u64, Reason),
    /// The setting has no valid assignment, which the cut shows.
    Short(&'a Plan, &'a Cut),
    Memory,
}

/// Why a run has no outcome.
#[derive(Clone, Copy, Debug, PartialEq, Eq)]
pub enum EndFault {
    /// The line of this number, from 1, was refused, or the end of the lines is.
    Refused(u64, Reason),
    /// No valid assignment exists.
    Short,
    Memory,
}

impl From<Memory> for EndFault {
    ghost use Rattle.std.specs.Prelude.{◌≡◌};
    ghost use Rattle.house_core.specs.declared.step.EndFault.TheVariants as fault;

    ghost from_gives = { λ _ e. e ≡ fault.Memory };

    fn from(_: Memory) -> Self {
        EndFault::Memory
    }
}
