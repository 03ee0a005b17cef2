//! The line that the value of a row says.

ghost use Rattle.std.specs.Prelude.{◌≡◌, All, ◌++◌, ◌==◌, IfOk, is_some, option_and_then, option_map, false, if◌then◌else◌, None};
ghost use Rattle.std.specs.List.{list_any};
ghost use Rattle.std.specs.Option.{option_to_list};
ghost use Rattle.std.specs.Result.{result_ok};
ghost use Rattle.hex.specs.Hex.{decode_of};
ghost use Rattle.serde_json.specs.View.{view};
ghost use Rattle.audit_chain.specs.Form.{line_as_text, line_named, line_of_digits, without_feed};
ghost use Rattle.command_text.specs.Held.{HasNoFeed};
ghost use Rattle.audit_chain.specs.File.{IsLine};

use crate::value::{is_line_value, text_at};
use command_text::Lines;
use hex::FromHexError;
use house_base::Memory;
use serde_json::Value;
use std::alloc::Global;

/// Appends the line that the value of a row says. It answers whether it says one; where it says none nothing changes.
#[tactic(auto, unfolding(crate::specs::Form::line_named))]
pub(crate) fn push_line(
    alloc: Global,
    lines: &mut Lines,
    version: u32,
    value: &Value,
) -> Result<bool, Memory>
    ensures pushed { IfOk result (λ pushed. pushed ≡ is_some (line_named version (view value.now))) }
    ensures lines { IfOk result (λ _. lines.new ≡ lines.old ++ option_to_list (line_named version (view value.now))) }
    ensures each { IfOk result (λ _. All IsLine lines.old → All IsLine lines.new) }
{
    if !is_line_value(value) {
        return Ok(false);
    }
    match text_at(value, "hex") {
        Some(digits) => push_digits(alloc, lines, digits),
        None => push_text(lines, version, value),
    }
}

/// Appends the line that digits in hexadecimal stand for.
fn push_digits(alloc: Global, lines: &mut Lines, digits: &str) -> Result<bool, Memory>
    ensures pushed { IfOk result (λ pushed. pushed
        ≡ is_some (option_and_then without_feed (line_of_digits digits.now))) }
    ensures lines { IfOk result (λ _. lines.new ≡ lines.old
        ++ option_to_list (option_and_then without_feed (line_of_digits digits.now))) }
    ensures each { IfOk result (λ _. All IsLine lines.old → All IsLine lines.new) }
{
    match bytes_of(alloc, digits)? {
        Some(line) => push_without_feed(lines, &line),
        None => Ok(false),
    }
}

/// Appends the line that is there as text, where the version has such.
fn push_text(lines: &mut Lines, version: u32, value: &Value) -> Result<bool, Memory>
    ensures pushed { IfOk result (λ pushed. pushed
        ≡ is_some (option_and_then without_feed (line_as_text version (view value.now)))) }
    ensures lines { IfOk result (λ _. lines.new ≡ lines.old
        ++ option_to_list (option_and_then without_feed (line_as_text version (view value.now)))) }
    ensures each { IfOk result (λ _. All IsLine lines.old → All IsLine lines.new) }
{
    if version != 2 {
        return Ok(false);
    }
    match text_at(value, "text") {
        Some(text) => push_without_feed(lines, text.as_bytes()),
        None => Ok(false),
    }
}

/// Appends a line, where it has no line feed.
fn push_without_feed(lines: &mut Lines, line: &[u8]) -> Result<bool, Memory>
    ensures pushed { IfOk result (λ pushed. pushed ≡ is_some (without_feed line.now)) }
    ensures lines { IfOk result (λ _. lines.new ≡ lines.old ++ option_to_list (without_feed line.now)) }
    ensures each { IfOk result (λ _. All IsLine lines.old → All IsLine lines.new) }
{
    if has_feed(line) {
        return Ok(false);
    }
    lines.push(line)?;
    Ok(true)
}

/// Whether a text has a line feed.
fn has_feed(text: &[u8]) -> bool
    ensures value { result ≡ list_any (λ byte. byte == 10) text.now }
    ensures none { result ≡ false → HasNoFeed text.now }
{
    text.iter().any(|byte| *byte == b'\n')
}

/// The bytes that digits in hexadecimal stand for, in either case.
fn bytes_of(alloc: Global, digits: &str) -> Result<Option<Vec<u8>>, Memory>
    ensures { IfOk result (λ bytes. option_map (λ b. b.items) bytes ≡ line_of_digits digits.now) }
{
    match hex::decode(alloc, digits) {
        Ok(bytes) => Ok(Some(bytes)),
        Err(FromHexError::OutOfMemory) => Err(Memory),
        Err(_) => Ok(None),
    }
}
