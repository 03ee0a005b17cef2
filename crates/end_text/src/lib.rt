//! The text with which a run ends: its report, the pairs of its assignment, its refusal, or its shortage.

#![tactic(auto)]

pub mod end;
pub mod laws;
mod text;

pub use end::{EndText, RunEnd};
pub use text::end_text;
