//! The ranks of the applicants in their clusters.

#![tactic(auto)]

pub mod place;

pub use place::rank;
