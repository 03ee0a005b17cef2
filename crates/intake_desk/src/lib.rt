//! The intake desk: the lines of an input are taken one by one into a journal, each is told once no crash can lose it,
//! and the journal's lines are shown.

#![tactic(auto)]

mod call;
mod intake;
mod show;
mod status;
#[cfg(test)]
mod tests;
mod told;
mod waiting;
mod words;

pub use call::desk;
pub use intake_log::{Disk, FileDisk, Log, MemoryDisk, PutFault, StartFault, Stopped};
pub use status::{DeskStatus, Desked};
pub use words::Asked;
