//! A run that hears its input as it is read: behind lines that open it, in pieces, within the limits, and up to a line
//! that ends the run.

#![tactic(auto)]

mod fault;
mod hearing;
mod input;
mod kept;
mod line_run;
mod opening;
mod piece;

pub use fault::InputFault;
pub use input::{Heard, hear_input};
pub use kept::Kept;
pub use line_run::LineRun;
pub use opening::{Opening, take_opening};
