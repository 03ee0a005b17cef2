//! Files that are judged by themselves.

/// The most bytes of an audit.
pub const MOST_AUDIT_BYTES: usize = 268_435_456;

/// What a file is judged as.
#[derive(Clone, Copy, Debug, PartialEq, Eq)]
pub enum Document {
    /// A slip: whether the chance that it prints is the right one.
    Slip,
    /// An audit of either version: whether it is the audit of its lines.
    Audit,
    /// An audit of either version, which is to be brought to the second.
    OldAudit,
}
