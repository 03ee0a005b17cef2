//! What stands in a row as JSON.

ghost use Rattle.std.specs.Prelude.{◌≡◌, IfOk, option_map};
ghost use Rattle.std.specs.List.{list_all};
ghost use Rattle.hex.specs.Hex.{is_hex_digit};
ghost use Rattle.serde_json.specs.View.{view};
ghost use Rattle.audit_chain.specs.Form.{has_digest, has_mark, has_members, is_digest_text, is_line_value, is_mark_word, is_report_value, names_the_format, number_at, text_at, value_of, version_named};

use crate::row::FORMAT_NAME;
use house_base::Memory;
use serde_json::Value;
use serde_json::error::Category;
use std::alloc::Global;

/// How many digits a digest has in hexadecimal.
const DIGEST_DIGITS: usize = 64;

/// The value that a row is as JSON, where it is one.
#[tactic(auto, unfolding(crate::specs::Form::value_of))]
pub(crate) fn value_of(alloc: Global, row: &[u8]) -> Result<Option<Value>, Memory>
    ensures { IfOk result (λ value. option_map view value ≡ value_of row.now) }
{
    match Value::from_slice(alloc, row) {
        Ok(value) => Ok(Some(value)),
        Err(error) => match error.classify() {
            Category::Memory => Err(Memory),
            _ => Ok(None),
        },
    }
}

/// The version that the value of a first row names.
#[tactic(auto, unfolding(crate::specs::Form::version_named))]
pub(crate) fn version_named(value: &Value) -> Option<u32>
    ensures { result ≡ version_named (view value.now) }
{
    if !has_members(value, 2) || !is_named(value) {
        return None;
    }
    match number_at(value, "version") {
        Some(1) => Some(1),
        Some(2) => Some(2),
        _ => None,
    }
}

/// Whether the value is that of a last row.
#[tactic(auto, unfolding(crate::specs::Form::is_report_value))]
pub(crate) fn is_report_value(value: &Value) -> bool
    ensures { result ≡ is_report_value (view value.now) }
{
    has_members(value, 1) && text_at(value, "report").is_some()
}

#[tactic(auto, unfolding(crate::specs::Form::is_line_value))]
/// Whether the value has all that a line's row has beside the line.
pub(crate) fn is_line_value(value: &Value) -> bool
    ensures { result ≡ is_line_value (view value.now) }
{
    has_members(value, 4)
        && has_mark(value)
        && has_digest(value)
        && number_at(value, "line").is_some()
}

/// The text under a key.
pub(crate) fn text_at<'a>(value: &'a Value, key: &str) -> Option<&'a str>
    ensures { option_map (λ text. text.now) result ≡ text_at key.now (view value.now) }
{
    match value.get(key) {
        Some(found) => found.as_str(),
        None => None,
    }
}

/// The whole number under a key.
fn number_at(value: &Value, key: &str) -> Option<u64>
    ensures { result ≡ number_at key.now (view value.now) }
{
    match value.get(key) {
        Some(found) => found.as_u64(),
        None => None,
    }
}

/// Whether the value is an object with so many members.
fn has_members(value: &Value, count: usize) -> bool
    ensures { result ≡ has_members count (view value.now) }
{
    match value.as_object() {
        Some(members) => members.len() == count,
        None => false,
    }
}

/// Whether the name of the format stands where it has to.
fn is_named(value: &Value) -> bool
    ensures { result ≡ names_the_format (view value.now) }
{
    match text_at(value, "format") {
        Some(name) => name == FORMAT_NAME,
        None => false,
    }
}

/// Whether the word for what became of a line stands where it has to.
fn has_mark(value: &Value) -> bool
    ensures { result ≡ has_mark (view value.now) }
{
    match text_at(value, "aside") {
        Some(word) => is_mark_word(word),
        None => false,
    }
}

/// Whether the digits of a digest stand where they have to.
fn has_digest(value: &Value) -> bool
    ensures { result ≡ has_digest (view value.now) }
{
    match text_at(value, "digest") {
        Some(digits) => is_digest_text(digits),
        None => false,
    }
}

/// Whether a text is one of the words for what became of a line.
fn is_mark_word(word: &str) -> bool
    ensures { result ≡ is_mark_word word.now }
{
    word == "none"
        || word == "form"
        || word == "early"
        || word == "late"
        || word == "unknown"
        || word == "unassigned"
        || word == "range"
}

/// Whether a text is the digits of a digest.
fn is_digest_text(text: &str) -> bool
    ensures { result ≡ is_digest_text text.now }
{
    text.len() == DIGEST_DIGITS && are_hex_digits(text.as_bytes())
}

/// Whether all bytes are digits in hexadecimal.
fn are_hex_digits(text: &[u8]) -> bool
    ensures { result ≡ list_all is_hex_digit text.now }
{
    text.iter().all(|byte| is_hex_digit(*byte))
}

/// Whether a byte is a digit in hexadecimal, in either case.
fn is_hex_digit(byte: u8) -> bool
    ensures { result ≡ is_hex_digit byte }
{
    matches!(byte, b'0'..=b'9' | b'a'..=b'f' | b'A'..=b'F')
}
