//! The reviews of several desks, with revision numbers, and their join.

#![tactic(auto)]

mod entries;
mod entry;
mod fault;
mod into_lines;
pub mod laws;
mod merge;
mod read;
mod review_text;
mod scan;
#[cfg(test)]
mod tests;

pub use entries::Entries;
pub use entry::Entry;
pub use fault::DeskFault;
pub use into_lines::put;
pub use review_text::{MOST_REVIEW_BYTES, ReviewText};
