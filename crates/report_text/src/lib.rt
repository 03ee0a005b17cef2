//! The outcome of a call, and the texts that are written of it, of an assignment, of a refusal, of a shortage and of a
//! refused file.

#![tactic(auto)]

mod bad_file;
mod outcome;
mod pairs;
mod refusal;
mod report;
mod shortage;

pub use bad_file::{write_bad_key, write_bad_record, write_bad_toml};
pub use house_model::{ApplicantRow, ClusterRow};
pub use outcome::Outcome;
pub use pairs::write_pairs;
pub use refusal::write_refused;
pub use report::write_report;
pub use shortage::write_short;

#[cfg(test)]
mod tests;
