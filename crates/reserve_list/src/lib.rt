//! Withdrawals after a draw: who holds a seat then, who moves up, and each one's exact chance.

#![tactic(auto)]

mod board;
mod fault;
mod file;
pub mod laws;
mod line;
mod rows;
mod start;
mod text;

pub use board::Board;
pub use fault::{BoardFault, LeaveFault, Moved};
pub use file::{leave, write_reserve};
pub use text::write_board;

#[cfg(test)]
mod tests;
