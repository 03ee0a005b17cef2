//! The register of a call: who applied for whom, which pairs may not be, who stands in which cluster, and the
//! pairs of a hand-made assignment. No call walks through what is held.

#![tactic(auto)]

pub mod book;
pub mod fault;
mod pair_list;
mod places;
mod roll;
mod rows;

pub use book::Book;
pub use fault::BookFault;

#[cfg(test)]
mod tests;
