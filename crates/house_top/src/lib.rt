//! The program as one call over what it reads from, writes to and keeps files in.

#![tactic(auto)]

mod answer;
mod bad;
mod call;
mod desks;
mod document;
mod filed;
mod form;
mod forms;
mod opening;
mod replay;
mod run;
mod slip;
mod status;
mod store;
mod words;

pub use bad::Bad;
pub use call::{house, read_only};
pub use document::Document;
pub use form::Form;
pub use status::Status;
pub use words::is_storing;
