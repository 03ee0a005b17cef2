//! The sizes up to which an input is read.

/// The most bytes of a command file.
pub const MOST_BYTES: usize = 16_777_216;

/// The most lines of a command file.
pub const MOST_LINES: usize = 1_048_576;
