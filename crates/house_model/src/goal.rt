//! What a command file is run for.

/// What a command file is run for.
#[derive(Clone, Copy, Debug, PartialEq, Eq)]
pub enum Goal {
    /// The report of the selection.
    Run,
    /// The pairs of the assignment.
    Pairs,
    /// Whether there is a valid assignment.
    Feasible,
}
