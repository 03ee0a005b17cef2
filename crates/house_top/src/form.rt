//! What a call of the program asks for.

use crate::document::Document;
use house_base::Name;
use house_model::Goal;

/// What the words of a call of the program ask for.
#[derive(Clone, Copy, Debug, PartialEq, Eq)]
pub enum Form {
    /// `run`, `pairs` or `feasible` alone: to run the lines of the input for a goal.
    Input(Goal),
    /// `run` with the names of a call file and of a register: to run the lines that these open the call with, and then
    /// those of the input, for the report.
    Opened,
    /// `audit` with the name of a file: to run the lines of the input for the report, and to store the audit of the run.
    Audit,
    /// `slip` with a name: to run the lines of the input for the report, and to tell the slip of the applicant of this name in
    /// place of it.
    Slip(Name),
    /// `check` with the name of a slip, or `replay` with that of an audit: to say of the file what it is worth, by itself.
    /// `migrate` with the names of two audits: to say it of the first, and to store its second version under the other.
    Judged(Document),
    /// `join` with the names of two desk files: to tell the desk file of their join.
    Join,
    /// `reserve` with the name of a file of withdrawals: to run the lines of the input for the report, and to tell behind it
    /// who moves up, and the board.
    Reserve,
}
