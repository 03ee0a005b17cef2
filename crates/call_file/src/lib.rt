//! The call file and the register of a call: a small TOML file and a CSV file, as the opening lines that they stand
//! for.

#![tactic(auto)]

mod entry;
pub mod fault;
pub mod key;
pub mod opening;
mod pass;
mod records;
pub mod settings;
mod values;

pub use fault::OpenFault;
pub use key::Key;
pub use opening::open_lines;

#[cfg(test)]
mod tests;
