//! The small types of a peer selection call: names, seeds, numbers, grids, the plan of a call, and the
//! answers that a line of a command file gets.

#![tactic(auto)]

pub mod answer;
pub mod call;
pub mod grid;
pub mod laws;
pub mod limits;
pub mod memory;
pub mod name;
pub mod number;
pub mod phase;
pub mod plan;
pub mod review;
pub mod rows;
pub mod seed;
pub mod tables;

pub use answer::{Asides, Kind, Reason, Took};
pub use call::Call;
pub use grid::Grid;
pub use memory::Memory;
pub use name::Name;
pub use number::read_number;
pub use phase::Phase;
pub use plan::{Owner, Person, Plan};
pub use review::ReviewLine;
pub use seed::Seed;

#[cfg(test)]
mod tests;
