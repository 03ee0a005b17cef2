//! The review lines of a trial.

ghost use Rattle.std.specs.Prelude.{◌≡◌, ◌≤◌, ◌<◌, ◌+◌, ◌*◌, ◌++◌, OnOk, flat_map, length};
ghost use Rattle.house_base.specs.declared.limits.TheConstants.{MOST_APPLICANTS, MOST_REVIEWS};
ghost use Rattle.house_model.specs.Report.{line_of};
ghost use Rattle.peer_selection.specs.Counting.{numbers_below};
ghost use Rattle.trial_file.specs.Stream.{key_words};
ghost use Rattle.trial_file.specs.Trial.{review_row, reviews_by, rows_text, trial_names};

use crate::names::name_at;
use crate::stream::next_word;
use house_base::limits::MOST_POINTS;
use house_base::{Memory, Name};
use line_text::Word::{Number, Text};
use line_text::push_line;
use rand_chacha::ChaCha8Rng;
use std::alloc::Global;

/// Appends the reviews of all applicants, each of so many, with points from a generator that is at its start.
pub(crate) fn push_reviews(
    alloc: Global,
    names: &[Name],
    reviews: u32,
    generator: &mut ChaCha8Rng,
    out: &mut Vec<u8>,
) -> Result<(), Memory>
    requires are { names.now ≡ trial_names (length names.now) }
    requires few_names { length names.now ≤ MOST_APPLICANTS }
    requires few_reviews { reviews ≤ MOST_REVIEWS }
    requires stream { generator.old.stream ≡ 0 }
    requires start { generator.old.word_pos ≡ 0 }
    ensures text { OnOk result (out.new.items ≡ out.old.items ++ rows_text
        (flat_map (reviews_by (key_words generator.old.key) (length names.now) reviews) (numbers_below (length names.now)))) }
    ensures words { OnOk result (generator.new ≡ record generator.old { word_pos = length names.now * reviews }) }
{
    for reviewer in 0..names.len() {
        push_reviews_by(alloc, names, reviewer, reviews, generator, out)?;
    }
    Ok(())
}

/// Appends the reviews by the applicant at an index: of those behind it, round all of them.
fn push_reviews_by(
    alloc: Global,
    names: &[Name],
    reviewer: usize,
    reviews: u32,
    generator: &mut ChaCha8Rng,
    out: &mut Vec<u8>,
) -> Result<(), Memory>
    requires are { names.now ≡ trial_names (length names.now) }
    requires few_names { length names.now ≤ MOST_APPLICANTS }
    requires few_reviews { reviews ≤ MOST_REVIEWS }
    requires within { reviewer < length names.now }
    requires stream { generator.old.stream ≡ 0 }
    requires words { generator.old.word_pos ≡ reviewer * reviews }
    ensures text { OnOk result (out.new.items ≡
        out.old.items ++ rows_text (reviews_by (key_words generator.old.key) (length names.now) reviews reviewer)) }
    ensures words { OnOk result (generator.new ≡ record generator.old { word_pos = (reviewer + 1) * reviews }) }
{
    for distance in 0..reviews {
        let proposal = (reviewer + 1 + distance as usize) % names.len();
        let points = next_word(generator) % (MOST_POINTS + 1);
        push_review(
            alloc,
            name_at(names, reviewer),
            name_at(names, proposal),
            points,
            out,
        )?;
    }
    Ok(())
}

/// Appends a review line.
fn push_review(
    alloc: Global,
    reviewer: Name,
    proposal: Name,
    points: u32,
    out: &mut Vec<u8>,
) -> Result<(), Memory>
    ensures { OnOk result (out.new.items ≡ out.old.items ++ line_of (review_row reviewer proposal points)) }
{
    let words = [
        Text(b"review"),
        Text(reviewer.bytes()),
        Text(proposal.bytes()),
        Number(u64::from(points)),
    ];
    push_line(alloc, &words, out)
}
