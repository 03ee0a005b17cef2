//! The slip of an applicant, from a run that has come to its report.

#![tactic(auto)]

pub mod laws;
mod text;

pub use text::slip_text;
