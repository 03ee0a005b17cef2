//! Squares with rows and columns exchanged.

ghost use Rattle.std.specs.Prelude.{◌≡◌, ℕ, ◌+◌, ◌<◌, ◌≤◌, ◌==◌, IfOk, if◌then◌else◌};
ghost use Rattle.std.specs.Int.{bit_at};
ghost use Rattle.house_base.specs.Grid.{cell};
ghost use Rattle.house_base.specs.declared.rows.TheConstants.{WORD_BITS, ROW_BITS};
ghost use Rattle.house_base.specs.declared.limits.TheConstants.{MOST_APPLICANTS};

use house_base::limits::MOST_APPLICANTS;
use house_base::rows::{ROW_BITS, ROW_WORDS, WORD_BITS};
use house_base::{Grid, Memory};
use std::alloc::Global;

/// The square in which rows and columns are exchanged.
pub fn turned_square(alloc: Global, square: &Grid) -> Result<Grid, Memory>
    ensures side { IfOk result (λ other. other.side ≡ square.now.side) }
    ensures cells { IfOk result (λ other. (r c : ℕ) → r < square.now.side → c < square.now.side
        → cell other c r ≡ cell square.now r c) }
{
    let side = square.side();
    let mut other = Grid::new(alloc, side)?;
    for column in 0..side {
        turn_column(square, &mut other, column);
    }
    Ok(other)
}

/// Copies a column of a square to a row of another.
fn turn_column(square: &Grid, other: &mut Grid, column: u32)
    requires side { other.old.side ≡ square.now.side }
    requires few { square.now.side ≤ MOST_APPLICANTS }
    requires below { column < square.now.side }
    ensures side { other.new.side ≡ other.old.side }
    ensures cells { (r c : ℕ) → r < square.now.side → c < square.now.side
        → cell other.new c r ≡ (if c == column then cell square.now r c else cell other.old c r) }
{
    for at in 0..ROW_WORDS {
        let word = column_word(square, (at * WORD_BITS) as u32, column);
        other.set_word(column, at, word);
    }
}

/// 64 rows of a column, the first in the lowest bit. There is no bit behind the last row.
fn column_word(square: &Grid, first: u32, column: u32) -> u64
    requires first_below { first < ROW_BITS }
    requires few { square.now.side ≤ MOST_APPLICANTS }
    requires column_below { column < square.now.side }
    ensures bits { (i : ℕ) → i < WORD_BITS → first + i < square.now.side
        → (bit_at result i == 1) ≡ cell square.now (first + i) column }
    ensures clear { (i : ℕ) → i < WORD_BITS → square.now.side ≤ first + i → bit_at result i ≡ 0 }
{
    let count = square.side().saturating_sub(first).min(WORD_BITS as u32);
    let mut word = 0;
    for i in 0..count {
        word |= u64::from(square.get(first + i, column)) << i;
    }
    word
}
