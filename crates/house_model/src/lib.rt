//! The definitions of the record that a command file is, and their laws.

#![tactic(auto)]

pub mod command;
pub mod end_texts;
pub mod examples;
pub mod faults;
pub mod goal;
pub mod headline;
pub mod interleaving;
pub mod isolation;
pub mod limits;
pub mod outcome;
pub mod read_back;
pub mod register_laws;
pub mod runs;
pub mod seed_laws;
pub mod verb;

pub use command::Command;
pub use goal::Goal;
pub use outcome::{ApplicantRow, ClusterRow};
pub use verb::Verb;
