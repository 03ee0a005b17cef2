//! The outcome of a call: what each cluster and each applicant gets at a draw.

#![tactic(auto)]

mod applicants;
mod clusters;
mod make;

pub use make::outcome_of;
