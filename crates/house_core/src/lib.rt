//! A call's run, one line at a time.

#![tactic(auto)]

mod assigning;
mod commands;
mod house;
mod round;
mod state;
mod step;

pub use house::House;
pub use step::{EndFault, Ending, Step};
