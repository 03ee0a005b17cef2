//! A file that is read and written in place: a trait that says what each call does and what a crash may leave at
//! any moment, a form of it in memory that tears by a script, and an adapter over a real file.

#![tactic(auto)]

pub mod disk;
pub mod file_disk;
pub mod memory_disk;
pub mod step;

pub use disk::Disk;
pub use file_disk::FileDisk;
pub use memory_disk::MemoryDisk;

#[cfg(test)]
mod tests;
