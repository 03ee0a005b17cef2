//! The assignment of reviewers to proposals with which the reviews of a call begin.

#![tactic(auto)]

pub mod answer;
pub mod computed;
mod demand;
pub mod fault;
mod feasibility;
pub mod hand_made;
mod members;
mod settling;
mod valid;

pub use answer::First;
pub use computed::first;
pub use fault::GivenFault;
pub use feasibility::shortage;
pub use hand_made::given;

#[cfg(test)]
mod tests;
