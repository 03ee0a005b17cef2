//! The parts of a slip's words.

ghost use Rattle.std.specs.Prelude.{◌≡◌, ◌≤◌, ◌-◌, ◌^◌, ◌==◌, ◌&&◌, ◌||◌, not, nat_lt, true, false, length, position, slice_index, IfSome, IfNone};
ghost use Rattle.std.specs.Char.{is_ascii_digit};
ghost use Rattle.std.specs.List.{after_first, before_first, list_all};
ghost use Rattle.std.specs.Str.{bytes_eq};
ghost use Rattle.house_base.specs.Name.{is_name};
ghost use Rattle.house_base.specs.Number.{is_canonical};
ghost use Rattle.house_model.specs.Faults.{is_within};
ghost use Rattle.house_model.specs.Said.{number};
ghost use Rattle.slip_check.specs.Form.{before_slash, behind_slash, is_cell, is_share};
ghost use Rattle.slip_check.specs.Form.{before_colon, behind_colon};

use house_base::limits::MOST_POINTS;
use house_base::{Name, read_number};

/// A chance over a denominator. The denominator is 0 where it has more than 64 bits.
#[derive(Clone, Copy)]
pub struct Share {
    pub chance: u64,
    pub den: u64,
}

/// A proposal with its points.
#[derive(Clone, Copy)]
pub struct Cell {
    pub proposal: Name,
    pub points: u32,
}

/// Whether a word is another.
pub fn is_word(word: &[u8], other: &[u8]) -> bool
    ensures { result ≡ bytes_eq word.now other.now }
{
    word == other
}

/// The name that a word spells.
pub fn read_name(word: &[u8]) -> Option<Name>
    ensures form { IfSome result (λ name. is_name word.now ≡ true) }
    ensures value { IfSome result (λ name. name ≡ word.now) }
    ensures none { IfNone result (is_name word.now ≡ false) }
{
    Name::read(word)
}

/// The share that a word spells.
pub fn read_share(word: &[u8]) -> Option<Share>
    ensures form { IfSome result (λ share. is_share word.now ≡ true) }
    ensures chance { IfSome result (λ share. share.chance ≡ number (before_slash word.now)) }
    ensures den { IfSome result (λ share. share.den ≡ number (behind_slash word.now)) }
    ensures none { IfNone result (is_share word.now ≡ false) }
{
    let (chance, den) = cut_at(word, b'/');
    let Some(chance) = read_number(chance, u64::MAX) else {
        return None;
    };
    if is_canonical(den) {
        Some(Share {
            chance,
            den: number(den),
        })
    } else {
        None
    }
}

/// The cell that a word spells.
pub fn read_cell(word: &[u8]) -> Option<Cell>
    ensures form { IfSome result (λ cell. is_cell word.now ≡ true) }
    ensures proposal { IfSome result (λ cell. cell.proposal ≡ before_colon word.now) }
    ensures points { IfSome result (λ cell. cell.points ≡ number (behind_colon word.now)) }
    ensures most { IfSome result (λ cell. cell.points ≤ MOST_POINTS) }
    ensures none { IfNone result (is_cell word.now ≡ false) }
{
    let (proposal, points) = cut_at(word, b':');
    let Some(proposal) = read_name(proposal) else {
        return None;
    };
    match read_within(points, 0, MOST_POINTS) {
        Some(points) => Some(Cell { proposal, points }),
        None => None,
    }
}

/// The number within bounds that a word spells.
pub fn read_within(word: &[u8], low: u32, high: u32) -> Option<u32>
    ensures form { IfSome result (λ n. is_within low high word.now ≡ true) }
    ensures value { IfSome result (λ n. n ≡ number word.now) }
    ensures low { IfSome result (λ n. low ≤ n) }
    ensures high { IfSome result (λ n. n ≤ high) }
    ensures none { IfNone result (is_within low high word.now ≡ false) }
{
    let Some(number) = read_number(word, u64::from(high)) else {
        return None;
    };
    if number < u64::from(low) {
        return None;
    }
    Some(number as u32)
}

/// The number that a word spells; 0 where it spells none of 64 bits.
#[tactic(auto, unfolding(house_model::specs::Said::number))]
fn number(word: &[u8]) -> u64
    ensures { result ≡ number word.now }
{
    match read_number(word, u64::MAX) {
        Some(number) => number,
        None => 0,
    }
}

/// What stands before and behind the first such byte of a word: all and nothing where there is none.
fn cut_at(word: &[u8], byte: u8) -> (&[u8], &[u8])
    ensures before { result.0.now ≡ before_first (λ b. b == byte) word.now }
    ensures behind { result.1.now ≡ after_first (λ b. b == byte) word.now }
{
    match first_at(word, byte) {
        Some(at) => {
            let (before, rest) = word.split_at(at);
            (before, &rest[1..])
        }
        None => (word, &[]),
    }
}

/// Where the first such byte stands.
fn first_at(word: &[u8], byte: u8) -> Option<usize>
    ensures { result ≡ position (λ b. b == byte) word.now }
{
    word.iter().position(|b| *b == byte)
}

/// Whether a word is `0`, or digits whose first is not `0`.
fn is_canonical(word: &[u8]) -> bool
    ensures { result ≡ is_canonical word.now }
{
    !word.is_empty() && are_digits(word) && (word.len() == 1 || word[0] != b'0')
}

fn are_digits(word: &[u8]) -> bool
    ensures { result ≡ list_all is_ascii_digit word.now }
{
    word.iter().all(|byte| byte.is_ascii_digit())
}
