//! The desk that takes the reviews of a call: which review lines are kept, and the points that stand for each pair.

#![tactic(auto)]

pub mod desk;
pub mod kind;
pub mod places;

pub use desk::{Desk, Review};
pub use kind::kind_before;
