//! Look-ups by name: different names with their numbers, and hints at the numbers that save nearly every search.

#![tactic(auto)]

mod hints;
pub mod index;

pub use index::NameIndex;

#[cfg(test)]
mod tests;
