//! The reviews of a desk, put into the lines of a command file.

ghost use Rattle.std.specs.Prelude.{◌≡◌, ◌∷◌, ◌++◌, [], IfOk, OnOk};
ghost use Rattle.command_text.specs.Held.{HasNoFeed};
ghost use Rattle.house_model.specs.Text.{Lines as Rest};
ghost use Rattle.desk_merge.specs.Put.{due, is_close, put_in, review_lines};

use crate::entries::Entries;
use command_text::{Lines, next_word};
use house_base::Memory;
use std::alloc::Global;

/// The lines with the review lines of all entries, in their order, in front of the first line whose first word is `close`,
/// whatever else stands on it. The lines as they are where there is none.
pub fn put(alloc: Global, lines: &Lines, entries: &Entries) -> Result<Lines, Memory>
    ensures { IfOk result (λ all. all ≡ put_in lines.now entries.now) }
{
    let mut all = Lines::new(alloc);
    let mut waits = true;
    for index in 0..lines.count() {
        waits = push_line(entries, lines.line(index), waits, &mut all)?;
    }
    Ok(all)
}

/// Appends a line; where the first close is waited for and this is it, the review lines of all entries come before it. Tells
/// whether it is still waited for.
fn push_line(entries: &Entries, line: &[u8], waits: bool, all: &mut Lines) -> Result<bool, Memory>
    requires { HasNoFeed line.now }
    ensures { IfOk result (λ still. (rest : Rest) → all.new ++ due still entries.now rest
        ≡ all.old ++ due waits entries.now (line.now ∷ rest)) }
{
    if waits && is_close(line) {
        push_close(entries, line, all)?;
        return Ok(false);
    }
    all.push(line)?;
    Ok(waits)
}

/// Appends the review lines of all entries, and then the close.
fn push_close(entries: &Entries, close: &[u8], all: &mut Lines) -> Result<(), Memory>
    requires { HasNoFeed close.now }
    ensures { OnOk result (all.new ≡ all.old ++ review_lines entries.now ++ close.now ∷ []) }
{
    push_reviews(entries, all)?;
    all.push(close)?;
    Ok(())
}

/// Appends the review lines of all entries, in their order.
fn push_reviews(entries: &Entries, lines: &mut Lines) -> Result<(), Memory>
    ensures { OnOk result (lines.new ≡ lines.old ++ review_lines entries.now) }
{
    for index in 0..entries.count() {
        let review = entries.review_text(index);
        lines.push(review.line())?;
    }
    Ok(())
}

/// Whether the first word of a line is `close`.
fn is_close(line: &[u8]) -> bool
    ensures { result ≡ is_close line.now }
{
    match next_word(line) {
        Some((word, _)) => word == b"close".as_slice(),
        None => false,
    }
}
