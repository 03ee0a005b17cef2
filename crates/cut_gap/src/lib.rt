//! Cuts of a bipartite assignment, and whether one shows that needs and rooms cannot be met.
#![tactic(auto)]

pub mod cut;
pub mod laws;
pub mod short;

pub use cut::Cut;
pub use short::is_short;
