//! Slips: short texts from which anybody can check one applicant's chance. A slip is written here (`write_slip`), and
//! checked (`check_slip`).

#![tactic(auto)]

mod ballot;
mod check;
mod count;
mod head;
pub mod laws;
mod persons;
mod stop;
mod word;
mod write;
mod write_ballot;

pub use check::{SlipFault, Verdict, check_slip};
pub use persons::slip_persons;
pub use write::{SlipWrite, write_slip};

#[cfg(test)]
mod tests;
#[cfg(test)]
mod write_tests;
