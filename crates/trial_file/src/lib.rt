//! The trial file: a large lawful call that is made out of a number, the same on every machine.

#![tactic(auto)]

mod file;
pub mod laws;
mod names;
mod reviews;
mod rows;
mod stream;
#[cfg(test)]
mod tests;
mod told;

pub use file::made_file;
pub use told::write_trial;
