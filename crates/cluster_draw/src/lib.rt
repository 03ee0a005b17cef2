//! The plan of a call: the applicants of its register in place order, with the clusters into which their persons
//! were put, or which a seed draws for them.

#![tactic(auto)]

mod conflicts;
pub mod fault;
pub mod laws;
mod people;
mod placings;
pub mod plan;

pub use fault::FreezeFault;
pub use plan::freeze;

#[cfg(test)]
mod tests;
