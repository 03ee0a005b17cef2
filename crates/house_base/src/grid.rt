//! Squares of truth values.

ghost use Rattle.std.specs.Prelude.{◌≡◌, ℕ, ◌+◌, ◌*◌, ◌/◌, ◌%◌, ◌<◌, ◌≤◌, ◌==◌, ◌&&◌, if◌then◌else◌};
ghost use Rattle.std.specs.Prelude.{true, false, length, replicate, IfOk, IfSome, IfNone};
ghost use Rattle.std.specs.Int.{bit_at};
ghost use Rattle.house_base.specs.Grid.{cell};
ghost use Rattle.house_base.specs.declared.rows.TheConstants.{ROW_WORDS, WORD_BITS};

use crate::limits::MOST_APPLICANTS;
use crate::memory::Memory;
use crate::rows::{ROW_WORDS, has_bit, next_bit, set_bit, set_word, word};
use std::alloc::Global;
use std::marker::Model;

/// A square of truth values, as the pairs of an assignment or the pairs that may not be. Each row is kept in words of
/// 64 bits.
#[derive(Drop)]
pub struct Grid {
    side: u32,
    words: Vec<u64>,
}

impl Model for Grid {
    ghost use Rattle.std.specs.Prelude.{◌≡◌, ℕ, ◌*◌, ◌<◌, ◌≤◌, false, vec_len};
    ghost use Rattle.house_base.specs.declared.limits.TheConstants.{MOST_APPLICANTS};
    ghost use Rattle.house_base.specs.declared.rows.TheConstants.{ROW_WORDS, ROW_BITS};
    ghost use Rattle.house_base.specs.Grid.{Square, square_of_words};
    ghost use Rattle.house_base.specs.Rows.{has};

    ghost Value = { Square };

    ghost view = { λ g. square_of_words g.side g.words.items };

    ghost invariant = { λ g. (g.side ≤ MOST_APPLICANTS) × (vec_len g.words ≡ g.side * ROW_WORDS)
        × ((r c : ℕ) → r < g.side → g.side ≤ c → c < ROW_BITS → has g.words.items r c ≡ false) };
}

impl Grid {
    /// A square with this many rows and columns, all false.
    pub fn new(alloc: Global, side: u32) -> Result<Grid, Memory>
        requires { side ≤ MOST_APPLICANTS }
        ensures side { IfOk result (λ grid. grid.side ≡ side) }
        ensures empty { IfOk result (λ grid. (row column : ℕ) → cell grid row column ≡ false) }
        ensures whole { IfOk result (λ grid. grid ≡ record { side = side; cells = replicate (side * side) false }) }
    {
        Ok(Grid {
            side,
            words: vec![in alloc; 0; side as usize * ROW_WORDS]?,
        })
    }

    /// The same square.
    pub fn copy(&self, alloc: Global) -> Result<Grid, Memory>
        ensures { IfOk result (λ grid. grid ≡ self.now) }
    {
        Ok(Grid {
            side: self.side,
            words: self.words.to_vec(alloc)?,
        })
    }

    /// How many rows and columns there are.
    pub fn side(&self) -> u32
        ensures value { result ≡ self.now.side }
        ensures most { result ≤ MOST_APPLICANTS }
    {
        self.side
    }

    pub fn get(&self, row: u32, column: u32) -> bool
        requires row_below { row < self.now.side }
        requires column_below { column < self.now.side }
        ensures { result ≡ cell self.now row column }
    {
        has_bit(&self.words, row, column)
    }

    /// Sets one place, and leaves every other.
    pub fn set(&mut self, row: u32, column: u32, value: bool)
        requires row_below { row < self.old.side }
        requires column_below { column < self.old.side }
        ensures side { self.new.side ≡ self.old.side }
        ensures as_many { length self.new.cells ≡ length self.old.cells }
        ensures cells { (r c : ℕ) → r < self.old.side → c < self.old.side →
            cell self.new r c ≡ (if r == row && c == column then value else cell self.old r c) }
    {
        set_bit(&mut self.words, row, column, value);
    }

    /// The first column from one on that is true in a row.
    pub fn next_in_row(&self, row: u32, from: u32) -> Option<u32>
        requires { row < self.now.side }
        ensures from { IfSome result (λ c. from ≤ c) }
        ensures below { IfSome result (λ c. c < self.now.side) }
        ensures true_there { IfSome result (λ c. cell self.now row c ≡ true) }
        ensures before { IfSome result (λ c. (q : ℕ) → from ≤ q → q < c → cell self.now row q ≡ false) }
        ensures none { IfNone result ((q : ℕ) → from ≤ q → q < self.now.side → cell self.now row q ≡ false) }
    {
        next_bit(&self.words, row, from)
    }

    /// One word of a row: 64 columns, the first in the lowest bit. It has no bit behind the last column.
    pub fn word(&self, row: u32, at: usize) -> u64
        requires row_below { row < self.now.side }
        requires at_below { at < ROW_WORDS }
        ensures bits { (i : ℕ) → i < WORD_BITS → at * WORD_BITS + i < self.now.side
            → (bit_at result i == 1) ≡ cell self.now row (at * WORD_BITS + i) }
        ensures clear { (i : ℕ) → i < WORD_BITS → self.now.side ≤ at * WORD_BITS + i → bit_at result i ≡ 0 }
    {
        word(&self.words, row, at)
    }

    /// Sets 64 columns of a row, and leaves every other place.
    pub fn set_word(&mut self, row: u32, at: usize, word: u64)
        requires row_below { row < self.old.side }
        requires at_below { at < ROW_WORDS }
        requires clear { (i : ℕ) → i < WORD_BITS → self.old.side ≤ at * WORD_BITS + i → bit_at word i ≡ 0 }
        ensures side { self.new.side ≡ self.old.side }
        ensures as_many { length self.new.cells ≡ length self.old.cells }
        ensures cells { (r c : ℕ) → r < self.old.side → c < self.old.side →
            cell self.new r c ≡ (if r == row && c / WORD_BITS == at
            then bit_at word (c % WORD_BITS) == 1 else cell self.old r c) }
    {
        set_word(&mut self.words, row, at, word);
    }
}
