//! The review line of an entry.

use house_base::limits::MOST_NAME_BYTES;
use std::marker::Model;

/// How many bytes a review line has at most: its first word, two names, points up to 100, and the spaces between.
pub const MOST_REVIEW_BYTES: usize = 60;

const _: () = prove!(MOST_REVIEW_BYTES == 12 + 2 * MOST_NAME_BYTES);

/// A review line of a command file, in a place of fixed size.
#[derive(Drop)]
pub struct ReviewText {
    bytes: [u8; MOST_REVIEW_BYTES],
    len: usize,
}

impl Model for ReviewText {
    ghost use Rattle.std.specs.Prelude.{◌≡◌, ◌≤◌, ℕ, List, length, take};
    ghost use Rattle.desk_merge.specs.declared.review_text.TheConstants.{MOST_REVIEW_BYTES};

    ghost Value = { List ℕ };

    ghost view = { λ r. take r.len r.bytes };

    ghost invariant = { λ r. (r.len ≤ MOST_REVIEW_BYTES) × (length r.bytes ≡ MOST_REVIEW_BYTES) };
}

impl ReviewText {
    ghost use Rattle.std.specs.Prelude.{◌≡◌, ◌≤◌, ◌++◌, ◌∷◌, codes, length};
    ghost use Rattle.house_base.specs.declared.limits.TheConstants.{MOST_NAME_BYTES};

    /// The line of these words.
    pub(crate) fn of(reviewer: &[u8], proposal: &[u8], points: &[u8]) -> ReviewText
        requires reviewer { length reviewer.now ≤ MOST_NAME_BYTES }
        requires proposal { length proposal.now ≤ MOST_NAME_BYTES }
        requires points { length points.now ≤ 3 }
        ensures { result ≡ codes "review " ++ (reviewer.now ++ 32 ∷ (proposal.now ++ 32 ∷ points.now)) }
    {
        let mut bytes = [0; MOST_REVIEW_BYTES];
        let len = place(&mut bytes, 0, b"review ");
        let len = place(&mut bytes, len, reviewer);
        let len = place(&mut bytes, len, b" ");
        let len = place(&mut bytes, len, proposal);
        let len = place(&mut bytes, len, b" ");
        let len = place(&mut bytes, len, points);
        ReviewText { bytes, len }
    }

    /// The bytes of the line, without a line feed.
    pub fn line(&self) -> &[u8]
        ensures { result.now ≡ self.now }
    {
        &self.bytes[..self.len]
    }
}

ghost use Rattle.std.specs.Prelude.{◌≡◌, ◌≤◌, ◌+◌, ◌++◌, length, take};

/// Writes a text at a place, and tells where it ends.
fn place(bytes: &mut [u8], at: usize, text: &[u8]) -> usize
    requires { at + length text.now ≤ length bytes.old }
    ensures end { result ≡ at + length text.now }
    ensures placed { take result bytes.new ≡ take at bytes.old ++ text.now }
{
    let end = at + text.len();
    bytes[at..end].copy_from_slice(text);
    end
}
