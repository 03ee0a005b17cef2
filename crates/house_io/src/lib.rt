//! What a program reads from, writes to and keeps files in: traits that say what each call does, forms of
//! them in memory, and adapters over the real thing.

#![tactic(auto)]

pub mod adapters;
pub mod faults;
mod file_map;
pub mod files;
pub mod folder;
pub mod map_shelf;
pub mod plain;
pub mod plain_shelf;
mod script;
pub mod sink;
pub mod source;
pub mod text;

pub use adapters::{InputSource, OutputSink};
pub use faults::Failed;
pub use files::{Files, LoadFault, Shelf};
pub use folder::FolderShelf;
pub use map_shelf::MapShelf;
pub use plain::{PlainSink, PlainSource};
pub use plain_shelf::PlainShelf;
pub use sink::{Sink, give_all};
pub use source::Source;
pub use text::{TextSink, TextSource};
