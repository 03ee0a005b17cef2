//! Who moves up when applicants withdraw, from a run that has come to its report.

#![tactic(auto)]

mod text;

pub use text::{Reserve, reserve_text};
