//! The scores of the applicants and the cents of the clusters, for the points that stand at a desk.

#![tactic(auto)]

pub mod row;
pub mod rows;
pub mod tally;
pub mod totals;

pub use tally::Tally;
pub use totals::Totals;

#[cfg(test)]
mod tests;
