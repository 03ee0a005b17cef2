//! The first two lines of a slip.

ghost use Rattle.std.specs.Prelude.{◌≡◌, ◌≤◌, true, false, length, IfSome, IfNone};
ghost use Rattle.house_base.specs.declared.limits.TheConstants.{MOST_APPLICANTS, MOST_SEATS};
ghost use Rattle.house_model.specs.Said.{number};
ghost use Rattle.slip_check.specs.Form.{Rows, before_slash, behind_slash, denominator_in, is_on_form, word_at};
ghost use Rattle.command_text.specs.Strict.{row_of};

use crate::word::{Share, is_word, read_name, read_share, read_within};
use command_text::strict::{before_feed, four_words};
use house_base::Name;
use house_base::limits::{DOLLAR, MOST_APPLICANTS, MOST_SEATS};

/// What the first line of a slip says.
#[derive(Clone, Copy)]
pub struct Head {
    pub name: Name,
    pub share: Share,
}

/// What its second line says.
#[derive(Clone, Copy)]
pub struct Sizes {
    pub seats: u32,
    pub persons: u32,
}

/// Reads the first line of a slip. None where it is off the form.
pub fn read_head(line: &[u8]) -> Option<Head>
    ensures form { IfSome result (λ head. (before : Rows) → length before ≡ 0 → is_on_form before line.now ≡ true) }
    ensures name { IfSome result (λ head. head.name ≡ word_at (row_of line.now) 1) }
    ensures chance { IfSome result (λ head. head.share.chance ≡ number (before_slash (word_at (row_of line.now) 3))) }
    ensures den { IfSome result (λ head. head.share.den ≡ number (behind_slash (word_at (row_of line.now) 3))) }
    ensures long { IfSome result (λ head. 2 ≤ length line.now) }
    ensures none { IfNone result ((before : Rows) → length before ≡ 0 → is_on_form before line.now ≡ false) }
{
    let Some(text) = before_feed(line) else {
        return None;
    };
    let Some((slip, name, chance, share)) = four_words(text) else {
        return None;
    };
    if !is_word(slip, b"slip") {
        return None;
    }
    if !is_word(chance, b"chance") {
        return None;
    }
    let Some(name) = read_name(name) else {
        return None;
    };
    match read_share(share) {
        Some(share) => Some(Head { name, share }),
        None => None,
    }
}

/// Reads the second line of a slip, whose first has this denominator. None where it is off the form.
pub fn read_sizes(line: &[u8], den: u64) -> Option<Sizes>
    ensures form { IfSome result (λ sizes. (before : Rows) → length before ≡ 1 → denominator_in before ≡ den →
        is_on_form before line.now ≡ true) }
    ensures seats { IfSome result (λ sizes. sizes.seats ≡ number (word_at (row_of line.now) 1)) }
    ensures persons { IfSome result (λ sizes. sizes.persons ≡ number (word_at (row_of line.now) 3)) }
    ensures most_seats { IfSome result (λ sizes. sizes.seats ≤ MOST_SEATS) }
    ensures some_persons { IfSome result (λ sizes. 1 ≤ sizes.persons) }
    ensures most_persons { IfSome result (λ sizes. sizes.persons ≤ MOST_APPLICANTS) }
    ensures long { IfSome result (λ sizes. 2 ≤ length line.now) }
    ensures none { IfNone result ((before : Rows) → length before ≡ 1 → denominator_in before ≡ den →
        is_on_form before line.now ≡ false) }
{
    let Some(text) = before_feed(line) else {
        return None;
    };
    let Some((seats, number, persons, count)) = four_words(text) else {
        return None;
    };
    if !is_word(seats, b"seats") {
        return None;
    }
    if !is_word(persons, b"persons") {
        return None;
    }
    let Some(seats) = read_within(number, 1, MOST_SEATS) else {
        return None;
    };
    let Some(persons) = read_within(count, 1, MOST_APPLICANTS) else {
        return None;
    };
    if den == u64::from(persons) * u64::from(DOLLAR) {
        Some(Sizes { seats, persons })
    } else {
        None
    }
}
