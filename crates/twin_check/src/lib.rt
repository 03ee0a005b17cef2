//! The comparison of two command files for one person: its chances in each, and whether the two agree in all but what it
//! writes as a reviewer.

#![tactic(auto)]

mod agree;
mod compare;
pub mod half;
pub mod laws;
mod outcome;
mod run;
#[cfg(test)]
mod tests;
mod text;

pub use compare::twin;
pub use half::{Chances, Half, Twin};
pub use text::write_twin;
