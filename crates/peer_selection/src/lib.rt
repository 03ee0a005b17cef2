//! The mechanism of a call in which applicants review each other: its definitions, over a setting, an assignment and
//! points, and its laws.

#![tactic(auto)]

pub mod first_laws;
pub mod laws;
pub mod mark_laws;
pub mod shortage_laws;
pub mod worked;
