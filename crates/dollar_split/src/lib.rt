//! How one person's dollar is split among the proposals that it reviews, by the largest remainder.

#![tactic(auto)]

pub mod largest_remainder;

pub use largest_remainder::split;

#[cfg(test)]
mod tests;
