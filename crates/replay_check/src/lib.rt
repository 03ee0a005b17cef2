//! The check of an audit: its lines are run again, and what comes of them is compared with what the audit says.

#![tactic(auto)]

mod check;
mod differ;
pub mod fresh_audit;
pub mod laws;
pub mod migrate_audit;
pub mod replay_audit;
mod rerun;
pub mod row;

pub use fresh_audit::Fresh;
pub use migrate_audit::{Migrated, migrate};
pub use replay_audit::{Ending, Replayed, replay};
pub use row::{Kept, Right};

#[cfg(test)]
mod tests;
