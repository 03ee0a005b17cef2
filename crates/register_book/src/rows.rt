//! Rows of bits, which tell whether a pair of a person and an applicant is held.

ghost use Rattle.std.specs.Prelude.{◌≡◌, ℕ, ◌+◌, ◌*◌, ◌<◌, ◌≤◌, ◌↔◌, true, false, [], ◌==◌, ◌&&◌, ◌||◌, OnOk, OnErr, IfSome, IfNone, length};
ghost use Rattle.register_book.specs.Rows.{holds};

use house_base::rows::next_bit;
use std::alloc::{AllocError, Global};
use std::marker::Model;

/// The bits of a word.
pub const WORD_BITS: usize = 64;

/// The words of a row, which has a bit for each applicant that a call may have.
pub const ROW_WORDS: usize = 16;

/// The bits of a row.
pub const ROW_BITS: usize = 1024;

/// Rows of bits: a row for each person, in it a bit for each applicant.
#[derive(Drop)]
pub struct Rows {
    words: Vec<u64>,
}

impl Model for Rows {
    ghost use Rattle.std.specs.Prelude.{ℕ, List};

    ghost Value = { List ℕ };

    ghost view = { λ rows. rows.words.items };
}

impl Rows {
    /// No rows.
    pub fn new(alloc: Global) -> Rows
        ensures { result ≡ [] }
    {
        Rows {
            words: Vec::new(alloc),
        }
    }

    /// Whether a bit is set. It is not where the row is missing.
    pub fn has(&self, row: u32, column: u32) -> bool
        requires { column < ROW_BITS }
        ensures { result ≡ holds self.now row column }
    {
        let at = row as usize * ROW_BITS + column as usize;
        match self.words.get(at / WORD_BITS) {
            Some(word) => (*word >> (at % WORD_BITS)) & 1 == 1,
            None => false,
        }
    }

    /// The first column from one on whose bit is set in a row.
    pub fn next(&self, row: u32, from: u32) -> Option<u32>
        requires { (row + 1) * ROW_WORDS ≤ length self.now }
        ensures from { IfSome result (λ c. from ≤ c) }
        ensures below { IfSome result (λ c. c < ROW_BITS) }
        ensures set { IfSome result (λ c. holds self.now row c ≡ true) }
        ensures before { IfSome result (λ c. (q : ℕ) → from ≤ q → q < c → holds self.now row q ≡ false) }
        ensures none { IfNone result ((q : ℕ) → from ≤ q → holds self.now row q ≡ false) }
    {
        next_bit(&self.words, row, from)
    }

    /// Sets one bit, and leaves every other.
    pub fn set(&mut self, row: u32, column: u32)
        requires row_below { (row + 1) * ROW_WORDS ≤ length self.old }
        requires column_below { column < ROW_BITS }
        ensures length { length self.new ≡ length self.old }
        ensures bits { (r c : ℕ) → holds self.new r c ≡ (holds self.old r c || (r == row && c == column)) }
    {
        let at = row as usize * ROW_BITS + column as usize;
        self.words[at / WORD_BITS] |= 1 << (at % WORD_BITS);
    }

    /// Makes sure that there are this many rows. A new row has no bit.
    pub fn make_rows(&mut self, rows: u32) -> Result<(), AllocError>
        ensures rows { OnOk result (rows * ROW_WORDS ≤ length self.new) }
        ensures longer { length self.old ≤ length self.new }
        ensures bits { (r c : ℕ) → holds self.new r c ≡ holds self.old r c }
        ensures refused { OnErr result (self.new ≡ self.old) }
    {
        let len = rows as usize * ROW_WORDS;
        if self.words.len() < len {
            self.words.resize(len, 0)?;
        }
        Ok(())
    }
}
