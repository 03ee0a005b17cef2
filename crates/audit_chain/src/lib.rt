//! The audit file: the lines of a run with what became of each, chained by digests, and the text that the run wrote, as
//! rows of JSON.

#![tactic(auto)]

mod chain;
pub mod fault;
pub mod laws;
mod line;
pub mod parts;
mod print;
pub mod read;
mod reading;
mod row;
pub mod text;
mod value;

pub use fault::RowFault;
pub use parts::first_row;
pub use read::{read_rows, row_version};
pub use text::{audit_text, audit1_text};

#[cfg(test)]
mod tests;
