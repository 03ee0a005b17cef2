//! The text of a command file: its lines, what a line says, and the line of a command.

#![tactic(auto)]

mod command;
pub mod cutter;
pub mod cutting;
pub mod laws;
pub mod line;
pub mod lines;
mod print;
pub mod read;
mod review;
pub mod strict;
#[cfg(test)]
mod tests;
mod words;

pub use command::read_digest;
pub use cutter::{Cutter, Fed};
pub use cutting::{cut, first_line, first_line_feed, within, without_return};
pub use house_model::{Command, Verb};
pub use line::Line;
pub use lines::Lines;
pub use print::print_command;
pub use read::{is_blank_at_once, read_line};
pub use words::next_word;
