//! The row of a line, as its bytes. Made as a value of JSON, as the first and the last row are, each line would cost a map
//! and five strings.

ghost use Rattle.std.specs.Prelude.{◌≡◌, ◌≤◌, ◌++◌, ◌==◌, ◌||◌, OnOk, decimal, true};
ghost use Rattle.hex.specs.Hex.{encode_lower};
ghost use Rattle.json.specs.Print.{escape, escape_byte};
ghost use Rattle.audit_chain.specs.Chain.{goes_as_text, is_printable, line_row, mark_word, row_text};
ghost use Rattle.audit_chain.specs.Printed.{digits_end, row_head, text_end};

use crate::row::{is_printable, mark_word};
use house_base::{Memory, Took};
use std::alloc::Global;

/// Appends the row of a line with its mark, the digest behind it, and its place, counted from 1.
pub(crate) fn push_line_row(
    alloc: Global,
    audit: &mut Vec<u8>,
    version: u32,
    mark: Took,
    digest: &[u8; 32],
    place: u64,
    line: &[u8],
) -> Result<(), Memory>
    ensures { OnOk result (audit.new.items ≡ audit.old.items
        ++ row_text (line_row version mark digest.now place line.now)) }
{
    push_head(alloc, audit, mark, digest)?;
    if goes_as_text(version, line) {
        push_text_end(alloc, audit, place, line)?;
        return Ok(());
    }
    push_digits_end(alloc, audit, line, place)?;
    Ok(())
}

/// Whether a line goes as text into the rows of a version, and not as digits.
fn goes_as_text(version: u32, line: &[u8]) -> bool
    ensures { result ≡ goes_as_text version line.now }
{
    version == 2 && is_printable(line)
}

/// Appends the front of a row, with the mark and the digest.
fn push_head(
    alloc: Global,
    audit: &mut Vec<u8>,
    mark: Took,
    digest: &[u8; 32],
) -> Result<(), Memory>
    ensures { OnOk result (audit.new.items ≡ audit.old.items ++ row_head (mark_word mark) (encode_lower digest.now)) }
{
    let digits = hex::encode(alloc, digest.as_slice())?;
    audit.extend_from_slice(b"{\"aside\":\"")?;
    audit.extend_from_slice(mark_word(mark).as_bytes())?;
    audit.extend_from_slice(b"\",\"digest\":\"")?;
    audit.extend_from_slice(digits.as_bytes())?;
    Ok(())
}

/// Appends the rest of a row whose line goes as text.
fn push_text_end(alloc: Global, audit: &mut Vec<u8>, place: u64, line: &[u8]) -> Result<(), Memory>
    requires { is_printable line.now ≡ true }
    ensures { OnOk result (audit.new.items ≡ audit.old.items ++ text_end place line.now) }
{
    audit.extend_from_slice(b"\",\"line\":")?;
    push_number(alloc, audit, place)?;
    audit.extend_from_slice(b",\"text\":\"")?;
    push_escaped(audit, line)?;
    audit.extend_from_slice(b"\"}\n")?;
    Ok(())
}

/// Appends the rest of a row whose line goes as digits.
fn push_digits_end(
    alloc: Global,
    audit: &mut Vec<u8>,
    line: &[u8],
    place: u64,
) -> Result<(), Memory>
    ensures { OnOk result (audit.new.items ≡ audit.old.items ++ digits_end (encode_lower line.now) place) }
{
    let digits = hex::encode(alloc, line)?;
    audit.extend_from_slice(b"\",\"hex\":\"")?;
    audit.extend_from_slice(digits.as_bytes())?;
    audit.extend_from_slice(b"\",\"line\":")?;
    push_number(alloc, audit, place)?;
    audit.extend_from_slice(b"}\n")?;
    Ok(())
}

/// Appends printable characters as they stand in a string of JSON: a quote and a backslash have a backslash before them.
fn push_escaped(audit: &mut Vec<u8>, text: &[u8]) -> Result<(), Memory>
    requires { is_printable text.now ≡ true }
    ensures { OnOk result (audit.new.items ≡ audit.old.items ++ escape text.now) }
{
    for byte in text {
        push_character(audit, *byte)?;
    }
    Ok(())
}

/// Appends one of them.
fn push_character(audit: &mut Vec<u8>, byte: u8) -> Result<(), Memory>
    requires { 32 ≤ byte }
    ensures { OnOk result (audit.new.items ≡ audit.old.items ++ escape_byte byte) }
{
    if is_special(byte) {
        audit.push(b'\\')?;
        audit.push(byte)?;
        return Ok(());
    }
    audit.push(byte)?;
    Ok(())
}

/// Whether a character has a backslash before it in a string.
fn is_special(byte: u8) -> bool
    ensures { result ≡ ((byte == 34) || (byte == 92)) }
{
    byte == b'"' || byte == b'\\'
}

/// Appends a number in decimal digits.
fn push_number(alloc: Global, audit: &mut Vec<u8>, number: u64) -> Result<(), Memory>
    ensures { OnOk result (audit.new.items ≡ audit.old.items ++ decimal number) }
{
    let digits = number.to_string(alloc)?;
    audit.extend_from_slice(digits.as_bytes())?;
    Ok(())
}
