//! Pairs that meet all needs and rooms, by augmenting paths, or the shortage that shows that there are none; and
//! pairs that are settled one by one, by rerouting the others.
#![tactic(auto)]

mod closed;
mod draft;
mod flow;
mod places;
mod reroute;
mod rooms;
mod search;
mod serving;
mod solving;
mod turned;
mod walk;
mod ways;

pub use flow::{Flow, Started};
pub use solving::{Solved, solve};

#[cfg(test)]
mod tests;
