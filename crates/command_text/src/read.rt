//! The reading of one line.

ghost use Rattle.std.specs.Prelude.{◌≡◌, slice_index, true, ◌==◌, ◌||◌};
ghost use Rattle.house_model.specs.Text.{is_blank, is_empty};
ghost use Rattle.house_model.specs.Verbs.{verb_of};
ghost use Rattle.command_text.specs.Reading.{Reads};

use crate::command::read_command;
use crate::line::Line;
use crate::review::read_review;
use crate::words::next_word;
use house_model::Verb;

/// Reads one line. A line of the house that can be no command is answered by the first of form, name and
/// range that fits.
pub fn read_line(line: &[u8]) -> Line
    ensures { Reads line.now result }
{
    if is_blank_at_once(line) {
        return Line::Blank;
    }
    let Some((first, rest)) = next_word(line) else {
        return Line::Blank;
    };
    if is_comment(first) {
        return Line::Blank;
    }
    if first == b"review".as_slice() {
        return Line::Review(read_review(rest));
    }
    let verb = verb_of(first);
    match read_command(verb, rest) {
        Ok(command) => Line::House(command),
        Err(reason) => Line::Bad(verb, reason),
    }
}

/// Whether a line is seen to be blank by its first byte: it is empty, or it begins as a comment does.
pub fn is_blank_at_once(line: &[u8]) -> bool
    ensures value { result ≡ (is_empty line.now || slice_index line.now 0 == 35) }
    ensures blank { result ≡ true → is_blank line.now ≡ true }
{
    match line {
        [] => true,
        [first, ..] => *first == b'#',
    }
}

/// Whether a text begins as a comment does.
fn is_comment(text: &[u8]) -> bool
    ensures { result ≡ (slice_index text.now 0 == 35) }
{
    matches!(text, [b'#', ..])
}

/// The command that a word gives.
#[tactic(auto, unfolding(house_model::specs::Verbs::verb_of))]
fn verb_of(word: &[u8]) -> Verb
    ensures { result ≡ verb_of word.now }
{
    if word == b"call".as_slice() {
        Verb::Call
    } else if word == b"applicant".as_slice() {
        Verb::Applicant
    } else if word == b"conflict".as_slice() {
        Verb::Conflict
    } else if word == b"place".as_slice() {
        Verb::Place
    } else if word == b"partition".as_slice() {
        Verb::Partition
    } else if word == b"pair".as_slice() {
        Verb::Pair
    } else if word == b"seal".as_slice() {
        Verb::Seal
    } else if word == b"assign".as_slice() {
        Verb::Assign
    } else if word == b"close".as_slice() {
        Verb::Close
    } else if word == b"draw".as_slice() {
        Verb::Draw
    } else if word == b"lottery".as_slice() {
        Verb::Lottery
    } else {
        Verb::Other
    }
}
