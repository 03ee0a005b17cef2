//! Rows of bits in words.

ghost use Rattle.std.specs.Prelude.{◌≡◌, ◌≢◌, ℕ, ◌+◌, ◌*◌, ◌/◌, ◌%◌, ◌<◌, ◌≤◌, true, false, ◌==◌, ◌&&◌};
ghost use Rattle.std.specs.Prelude.{length, vec_len, IfSome, IfNone, if◌then◌else◌};
ghost use Rattle.std.specs.Int.{bit_at};
ghost use Rattle.house_base.specs.Rows.{has};
ghost use Rattle.house_base.specs.declared.rows.TheConstants.{WORD_BITS, ROW_WORDS, ROW_BITS};

/// The bits of a word.
pub const WORD_BITS: usize = 64;

/// The words of a row.
pub const ROW_WORDS: usize = 16;

/// The bits of a row: one for each applicant that a call may have.
pub const ROW_BITS: usize = 1024;

/// The word with one bit set or cleared.
fn with_bit(word: u64, bit: u32, value: bool) -> u64
    requires { bit < 64 }
    ensures here { bit_at result bit ≡ (if value then 1 else 0) }
    ensures others { (i : ℕ) → i < 64 → i ≢ bit → bit_at result i ≡ bit_at word i }
{
    if value {
        word | (1 << bit)
    } else {
        word & !(1 << bit)
    }
}

/// The first bit of a word from one on that is set.
fn first_bit(word: u64, from: u32) -> Option<u32>
    requires { from < 64 }
    ensures from { IfSome result (λ bit. from ≤ bit) }
    ensures below { IfSome result (λ bit. bit < 64) }
    ensures set { IfSome result (λ bit. bit_at word bit ≡ 1) }
    ensures before { IfSome result (λ bit. (i : ℕ) → from ≤ i → i < bit → bit_at word i ≡ 0) }
    ensures none { IfNone result ((i : ℕ) → from ≤ i → i < 64 → bit_at word i ≡ 0) }
{
    let rest = word & (u64::MAX << from);
    if rest == 0 {
        None
    } else {
        Some(rest.trailing_zeros())
    }
}

/// Whether a bit is set.
pub fn has_bit(words: &[u64], row: u32, column: u32) -> bool
    requires row_below { (row + 1) * ROW_WORDS ≤ length words.now }
    requires column_below { column < ROW_BITS }
    ensures { result ≡ has words.now row column }
{
    let at = row as usize * ROW_WORDS + column as usize / WORD_BITS;
    (words[at] >> (column as usize % WORD_BITS)) & 1 == 1
}

/// Sets or clears one bit, and leaves every other.
pub fn set_bit(words: &mut Vec<u64>, row: u32, column: u32, value: bool)
    requires row_below { (row + 1) * ROW_WORDS ≤ vec_len words.old }
    requires column_below { column < ROW_BITS }
    ensures len { vec_len words.new ≡ vec_len words.old }
    ensures bits { (r c : ℕ) → c < ROW_BITS
        → has words.new.items r c ≡ (if r == row && c == column then value else has words.old.items r c) }
{
    let at = row as usize * ROW_WORDS + column as usize / WORD_BITS;
    words[at] = with_bit(words[at], column % WORD_BITS as u32, value);
}

/// One word of a row: 64 columns, the first in the lowest bit.
pub fn word(words: &[u64], row: u32, at: usize) -> u64
    requires row_below { (row + 1) * ROW_WORDS ≤ length words.now }
    requires at_below { at < ROW_WORDS }
    ensures { (i : ℕ) → i < WORD_BITS → (bit_at result i == 1) ≡ has words.now row (at * WORD_BITS + i) }
{
    words[row as usize * ROW_WORDS + at]
}

/// Sets 64 columns of a row, and leaves every other bit.
pub fn set_word(words: &mut Vec<u64>, row: u32, at: usize, word: u64)
    requires row_below { (row + 1) * ROW_WORDS ≤ vec_len words.old }
    requires at_below { at < ROW_WORDS }
    ensures len { vec_len words.new ≡ vec_len words.old }
    ensures bits { (r c : ℕ) → c < ROW_BITS → has words.new.items r c
        ≡ (if r == row && c / WORD_BITS == at then bit_at word (c % WORD_BITS) == 1 else has words.old.items r c) }
{
    words[row as usize * ROW_WORDS + at] = word;
}

/// The first bit of a row from a column on that is set.
pub fn next_bit(words: &[u64], row: u32, from: u32) -> Option<u32>
    requires { (row + 1) * ROW_WORDS ≤ length words.now }
    ensures from { IfSome result (λ c. from ≤ c) }
    ensures below { IfSome result (λ c. c < ROW_BITS) }
    ensures set { IfSome result (λ c. has words.now row c ≡ true) }
    ensures before { IfSome result (λ c. (q : ℕ) → from ≤ q → q < c → has words.now row q ≡ false) }
    ensures none { IfNone result ((q : ℕ) → from ≤ q → q < ROW_BITS → has words.now row q ≡ false) }
{
    let first = row as usize * ROW_WORDS;
    let mut low = from % WORD_BITS as u32;
    for at in from as usize / WORD_BITS..ROW_WORDS {
        if let Some(bit) = first_bit(words[first + at], low) {
            return Some((at * WORD_BITS) as u32 + bit);
        }
        low = 0;
    }
    None
}
