//! Lines of words, as they are written.

#![tactic(auto)]

mod line;
mod word;

pub use line::push_line;
pub use word::Word;
