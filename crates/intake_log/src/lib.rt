//! Lines that are taken one by one into a journal, so that none that was acknowledged is lost by a crash.

#![tactic(auto)]

mod entry;
pub mod fault;
pub mod journal_laws;
pub mod limits;
mod load;
pub mod log;
mod scan;
#[cfg(test)]
mod tests;

pub use disk_io::{Disk, FileDisk, MemoryDisk};
pub use fault::{PutFault, StartFault, Stopped};
pub use log::Log;
