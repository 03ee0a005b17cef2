//! The reading of a review line.

ghost use Rattle.std.specs.Prelude.{◌≡◌, drop, length, ◌==◌};
ghost use Rattle.house_base.specs.Number.{number_up_to};
ghost use Rattle.house_base.specs.declared.limits.TheConstants.{MOST_POINTS};
ghost use Rattle.house_model.specs.Text.{words};
ghost use Rattle.command_text.specs.Arguments.{argument};
ghost use Rattle.command_text.specs.Reading.{name_in};

use crate::words::{next_word, three_words};
use house_base::limits::MOST_POINTS;
use house_base::{Name, ReviewLine, read_number};

/// Reads the words that follow `review`.
pub fn read_review(rest: &[u8]) -> ReviewLine
    ensures whole { result.whole ≡ (length (words rest.now) == 3) }
    ensures reviewer { result.reviewer ≡ name_in (argument (words rest.now) 0) }
    ensures proposal { result.proposal ≡ name_in (argument (words rest.now) 1) }
    ensures points { result.points ≡ number_up_to MOST_POINTS (argument (words rest.now) 2) }
{
    match three_words(rest) {
        Some((reviewer, proposal, points)) => review_of(true, reviewer, proposal, points),
        None => {
            let (reviewer, rest) = word_or_none(rest);
            let (proposal, rest) = word_or_none(rest);
            let (points, _) = word_or_none(rest);
            review_of(false, reviewer, proposal, points)
        }
    }
}

/// The review line of these words.
fn review_of(whole: bool, reviewer: &[u8], proposal: &[u8], points: &[u8]) -> ReviewLine
    ensures whole { result.whole ≡ whole }
    ensures reviewer { result.reviewer ≡ name_in reviewer.now }
    ensures proposal { result.proposal ≡ name_in proposal.now }
    ensures points { result.points ≡ number_up_to MOST_POINTS points.now }
{
    ReviewLine {
        whole,
        reviewer: read_name(reviewer),
        proposal: read_name(proposal),
        points: read_points(points),
    }
}

/// The name that a word spells.
fn read_name(word: &[u8]) -> Option<Name>
    ensures { result ≡ name_in word.now }
{
    Name::read(word)
}

/// The points that a word spells.
fn read_points(word: &[u8]) -> Option<u32>
    ensures { result ≡ number_up_to MOST_POINTS word.now }
{
    let points = read_number(word, u64::from(MOST_POINTS))?;
    Some(points as u32)
}

/// The first word of a line and what follows it; an empty word where no word is left.
#[tactic(auto, unfolding(house_model::specs::Text::words))]
fn word_or_none(line: &[u8]) -> (&[u8], &[u8])
    ensures word { result.0.now ≡ argument (words line.now) 0 }
    ensures rest { words result.1.now ≡ drop 1 (words line.now) }
{
    next_word(line).unwrap_or((&[], &[]))
}
