//! The lines of a text, cut off one by one.

ghost use Rattle.std.specs.Prelude.{◌≡◌, ◌<◌, [], ◌∷◌, length, IfOk, IfSome, IfNone, position, All, false, not, ◌==◌};
ghost use Rattle.house_model.specs.Heard.{is_over};
ghost use Rattle.house_model.specs.Text.{lines, without_return};
ghost use Rattle.command_text.specs.Held.{HasNoFeed};

use crate::lines::Lines;
use house_base::Memory;
use house_model::limits::{MOST_BYTES, MOST_LINES};
use memchr::memchr;
use std::alloc::Global;

/// How many bytes are near.
const NEAR: usize = 4;

/// The lines of a text.
pub fn cut(alloc: Global, bytes: &[u8]) -> Result<Lines, Memory>
    ensures { IfOk result (λ cut. cut ≡ lines bytes.now) }
{
    let mut lines = Lines::new(alloc);
    let mut rest = bytes;
    while let Some((line, after)) = first_line(rest) {
        lines.push(line)?;
        rest = after;
    }
    Ok(lines)
}

/// Whether a text is within the limits on its bytes and on its lines.
pub fn within(bytes: &[u8]) -> bool
    ensures { result ≡ not (is_over bytes.now) }
{
    bytes.len() <= MOST_BYTES && count_lines(bytes) <= MOST_LINES
}

/// How many lines a text has.
fn count_lines(text: &[u8]) -> usize
    ensures { result ≡ length (lines text.now) }
{
    let mut rest = text;
    let mut count = 0;
    while let Some((_, after)) = first_line(rest) {
        rest = after;
        count += 1;
    }
    count
}

/// The first line of a text, without its line end, and the text behind it. None where the text is empty.
pub fn first_line(text: &[u8]) -> Option<(&[u8], &[u8])>
    ensures found { IfSome result (λ cut. lines text.now ≡ cut.0.now ∷ lines cut.1.now) }
    ensures shorter { IfSome result (λ cut. length cut.1.now < length text.now) }
    ensures no_line_feed { IfSome result (λ cut. HasNoFeed cut.0.now) }
    ensures none { IfNone result (lines text.now ≡ []) }
{
    if text.is_empty() {
        return None;
    }
    match first_line_feed(text) {
        Some(end) => {
            let (line, after) = text.split_at(end);
            Some((without_return(line), &after[1..]))
        }
        None => Some((without_return(text), &[])),
    }
}

/// Where the first line feed stands. It may be near, as behind a short comment, so that a few bytes are looked at one by
/// one before the wide search begins.
pub fn first_line_feed(text: &[u8]) -> Option<usize>
    ensures value { result ≡ position (λ byte. byte == 10) text.now }
    ensures none { IfNone result (HasNoFeed text.now) }
{
    let near = text.len().min(NEAR);
    match near_line_feed(&text[..near]) {
        Some(at) => Some(at),
        None => match memchr(b'\n', &text[near..]) {
            Some(at) => Some(near + at),
            None => None,
        },
    }
}

/// The same, of a few bytes.
fn near_line_feed(text: &[u8]) -> Option<usize>
    ensures value { result ≡ position (λ byte. byte == 10) text.now }
    ensures none { IfNone result (HasNoFeed text.now) }
{
    text.iter().position(|byte| *byte == b'\n')
}

/// A line without the carriage return that may end it.
pub fn without_return(line: &[u8]) -> &[u8]
    ensures { result.now ≡ without_return line.now }
{
    line.strip_suffix(b"\r").unwrap_or(line)
}
