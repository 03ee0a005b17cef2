//! A row that differs, without its line feed.

use std::marker::Model;

/// A row as the file has it.
#[derive(Drop)]
pub struct Kept {
    row: Vec<u8>,
}

impl Model for Kept {
    ghost use Rattle.std.specs.Prelude.{ℕ, List};

    ghost Value = { List ℕ };

    ghost view = { λ k. k.row.items };
}

/// A row as it should be.
#[derive(Drop)]
pub struct Right {
    row: Vec<u8>,
}

impl Model for Right {
    ghost use Rattle.std.specs.Prelude.{ℕ, List};

    ghost Value = { List ℕ };

    ghost view = { λ r. r.row.items };
}

ghost use Rattle.std.specs.Prelude.{◌≡◌};

impl Kept {
    pub(crate) fn new(row: Vec<u8>) -> Kept
        ensures { result ≡ row.items }
    {
        Kept { row }
    }

    /// The bytes of the row.
    pub fn bytes(&self) -> &[u8]
        ensures { result.now ≡ self.now }
    {
        self.row.as_slice()
    }
}

impl Right {
    pub(crate) fn new(row: Vec<u8>) -> Right
        ensures { result ≡ row.items }
    {
        Right { row }
    }

    /// The bytes of the row.
    pub fn bytes(&self) -> &[u8]
        ensures { result.now ≡ self.now }
    {
        self.row.as_slice()
    }
}
