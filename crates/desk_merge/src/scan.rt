//! The line at the front of a text, as a desk file has it.

ghost use Rattle.std.specs.Prelude.{◌≡◌, ◌++◌, ◌∷◌, ◌<◌, ◌≤◌, ◌^◌, ◌-◌, ◌==◌, ℕ, All, false, true, [], IsTrue, IfSome, IfNone, codes, decimal, length, position};
ghost use Rattle.std.specs.Char.{is_ascii_digit};
ghost use Rattle.house_base.specs.declared.limits.TheConstants.{MOST_POINTS};
ghost use Rattle.house_base.specs.Name.{is_name};
ghost use Rattle.house_base.specs.Text.{Text};
ghost use Rattle.desk_merge.specs.Desk.{IsItem, entry_line};
ghost use Rattle.desk_merge.specs.Entry.{item_of};
ghost use Rattle.desk_merge.specs.Joined.{Item};
ghost use Rattle.desk_merge.specs.Scan.{HasNo, key_then, review_then};

use crate::entry::Entry;
use house_base::limits::MOST_POINTS;
use house_base::{Name, read_number};

/// The item whose line a text begins with, and what stands behind that line. None where it begins with none.
pub(crate) fn first_entry(text: &[u8]) -> Option<(Entry, &[u8])>
    ensures found { IfSome result (λ cut. text.now ≡ entry_line (item_of cut.0) ++ cut.1.now) }
    ensures formed { IfSome result (λ cut. IsItem (item_of cut.0)) }
    ensures none { IfNone result ((e : Item) (rest : Text) → IsItem e → text.now ≡ entry_line e ++ rest → ⊥) }
{
    let Some((reviewer, proposal, rest)) = first_key(text) else {
        return None;
    };
    let Some(reviewer) = Name::read(reviewer) else {
        return None;
    };
    let Some(proposal) = Name::read(proposal) else {
        return None;
    };
    let Some((revision, points, rest)) = first_review(rest) else {
        return None;
    };
    Some((
        Entry {
            reviewer,
            proposal,
            revision,
            points,
        },
        rest,
    ))
}

/// The words of a line for its reviewer, its proposal and its points. None where a text is no line of an item.
pub(crate) fn key_and_points(line: &[u8]) -> Option<(&[u8], &[u8], &[u8])>
    ensures found { (e : Item) → IsItem e → line.now ≡ entry_line e → IfSome result (λ words.
        (words.0.now ≡ e.0.0) × (words.1.now ≡ e.0.1) × (words.2.now ≡ decimal e.1.1)) }
    ensures none { IfNone result ((e : Item) → IsItem e → line.now ≡ entry_line e → ⊥) }
{
    let Some((reviewer, proposal, rest)) = first_key(line) else {
        return None;
    };
    let Some((_revision, rest)) = cut_at(rest, b' ') else {
        return None;
    };
    let Some((points, _behind)) = cut_at(rest, b'\n') else {
        return None;
    };
    Some((reviewer, proposal, points))
}

/// The two words behind `entry`, and what stands behind them. None where a text does not begin so.
pub(crate) fn first_key(text: &[u8]) -> Option<(&[u8], &[u8], &[u8])>
    ensures found { IfSome result (λ cut. text.now ≡ key_then cut.0.now cut.1.now cut.2.now) }
    ensures reviewer { IfSome result (λ cut. HasNo 32 cut.0.now) }
    ensures proposal { IfSome result (λ cut. HasNo 32 cut.1.now) }
    ensures none { IfNone result ((reviewer proposal rest : Text) → HasNo 32 reviewer
        → text.now ≡ key_then reviewer proposal rest → ⊥) }
{
    let Some(rest) = text.strip_prefix(b"entry ") else {
        return None;
    };
    let Some((reviewer, rest)) = cut_at(rest, b' ') else {
        return None;
    };
    let Some((proposal, rest)) = cut_at(rest, b' ') else {
        return None;
    };
    Some((reviewer, proposal, rest))
}

/// The revision and the points that end a line, and what stands behind the line. None where a text does not begin so.
fn first_review(text: &[u8]) -> Option<(u64, u32, &[u8])>
    ensures found { IfSome result (λ cut. text.now ≡ review_then cut.0 cut.1 cut.2.now) }
    ensures points { IfSome result (λ cut. cut.1 ≤ MOST_POINTS) }
    ensures none { IfNone result ((revision points : ℕ) (rest : Text) → revision < 2 ^ 64 → points ≤ MOST_POINTS
        → text.now ≡ review_then revision points rest → ⊥) }
{
    let Some((revision, rest)) = first_number(text, b' ', u64::MAX) else {
        return None;
    };
    let Some((points, rest)) = first_number(rest, b'\n', u64::from(MOST_POINTS)) else {
        return None;
    };
    Some((revision, points as u32, rest))
}

/// The number before the first such byte, and what stands behind the byte. None where none up to `most` stands there.
fn first_number(text: &[u8], byte: u8, most: u64) -> Option<(u64, &[u8])>
    requires { is_ascii_digit byte ≡ false }
    ensures found { IfSome result (λ cut. text.now ≡ decimal cut.0 ++ byte ∷ cut.1.now) }
    ensures most { IfSome result (λ cut. cut.0 ≤ most) }
    ensures none { IfNone result ((n : ℕ) (rest : Text) → n ≤ most → text.now ≡ decimal n ++ byte ∷ rest → ⊥) }
{
    let Some((word, rest)) = cut_at(text, byte) else {
        return None;
    };
    let Some(number) = read_number(word, most) else {
        return None;
    };
    Some((number, rest))
}

/// What stands before and behind the first such byte. None where there is none.
fn cut_at(text: &[u8], byte: u8) -> Option<(&[u8], &[u8])>
    ensures found { IfSome result (λ cut. text.now ≡ cut.0.now ++ byte ∷ cut.1.now) }
    ensures free { IfSome result (λ cut. HasNo byte cut.0.now) }
    ensures none { IfNone result ((before behind : Text) → text.now ≡ before ++ byte ∷ behind → ⊥) }
{
    match first_at(text, byte) {
        Some(at) => {
            let (before, rest) = text.split_at(at);
            Some((before, &rest[1..]))
        }
        None => None,
    }
}

/// Where the first such byte stands.
fn first_at(text: &[u8], byte: u8) -> Option<usize>
    ensures value { result ≡ position (λ b. b == byte) text.now }
    ensures none { IfNone result (HasNo byte text.now) }
{
    text.iter().position(|b| *b == byte)
}
