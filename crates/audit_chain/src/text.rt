//! The audit of a run, written.

ghost use Rattle.std.specs.Prelude.{◌≡◌, ◌≤◌, ◌++◌, IfOk, OnOk, IsAscii, flat_map, length, false};
ghost use Rattle.serde_json.specs.Written.{has_float};
ghost use Rattle.serde_json.specs.View.{view};
ghost use Rattle.audit_chain.specs.Chain.{audit_bytes, header_row, line_rows, report_row, row_text};

use crate::chain::{NO_DIGEST, link};
use crate::print::push_line_row;
use crate::row::{header_row, report_row};
use command_text::Lines;
use house_base::{Memory, Took};
use house_model::limits::MOST_LINES;
use serde_json::Value;
use std::alloc::Global;

/// The audit of the second version for lines, with what became of each and the text that the run wrote.
pub fn audit_text(
    alloc: Global,
    lines: &Lines,
    marks: &[Took],
    text: &[u8],
) -> Result<Vec<u8>, Memory>
    requires marked { length marks.now ≡ length lines.now }
    requires few { length lines.now ≤ MOST_LINES }
    requires ascii { IsAscii text.now }
    ensures { IfOk result (λ audit. audit.items ≡ audit_bytes 2 lines.now marks.now text.now) }
{
    audit_of(alloc, 2, lines, marks, text)
}

/// The same of the first version, whose rows have each line as digits.
pub fn audit1_text(
    alloc: Global,
    lines: &Lines,
    marks: &[Took],
    text: &[u8],
) -> Result<Vec<u8>, Memory>
    requires marked { length marks.now ≡ length lines.now }
    requires few { length lines.now ≤ MOST_LINES }
    requires ascii { IsAscii text.now }
    ensures { IfOk result (λ audit. audit.items ≡ audit_bytes 1 lines.now marks.now text.now) }
{
    audit_of(alloc, 1, lines, marks, text)
}

/// The audit of a version.
fn audit_of(
    alloc: Global,
    version: u32,
    lines: &Lines,
    marks: &[Took],
    text: &[u8],
) -> Result<Vec<u8>, Memory>
    requires marked { length marks.now ≡ length lines.now }
    requires ascii { IsAscii text.now }
    ensures { IfOk result (λ audit. audit.items ≡ audit_bytes version lines.now marks.now text.now) }
{
    let mut audit = Vec::new(alloc);
    push_header(alloc, &mut audit, version)?;
    push_lines(alloc, &mut audit, version, lines, marks)?;
    push_report(alloc, &mut audit, text)?;
    Ok(audit)
}

/// Appends the row that names the version.
fn push_header(alloc: Global, audit: &mut Vec<u8>, version: u32) -> Result<(), Memory>
    ensures { OnOk result (audit.new.items ≡ audit.old.items ++ row_text (header_row version)) }
{
    let row = header_row(alloc, version)?;
    push_row(alloc, audit, &row)
}

/// Appends the row with the text that the run wrote.
fn push_report(alloc: Global, audit: &mut Vec<u8>, text: &[u8]) -> Result<(), Memory>
    requires { IsAscii text.now }
    ensures { OnOk result (audit.new.items ≡ audit.old.items ++ row_text (report_row text.now)) }
{
    let text = str::from_utf8(text).unwrap();
    let row = report_row(alloc, text)?;
    push_row(alloc, audit, &row)
}

/// Appends the rows of the lines.
fn push_lines(
    alloc: Global,
    audit: &mut Vec<u8>,
    version: u32,
    lines: &Lines,
    marks: &[Took],
) -> Result<(), Memory>
    requires { length marks.now ≡ length lines.now }
    ensures { OnOk result (audit.new.items ≡ audit.old.items
        ++ flat_map row_text (line_rows version lines.now marks.now (length lines.now))) }
{
    let mut digest = NO_DIGEST;
    for index in 0..lines.count() {
        let line = lines.line(index);
        digest = link(&digest, line);
        push_line_row(
            alloc,
            audit,
            version,
            marks[index as usize],
            &digest,
            index + 1,
            line,
        )?;
    }
    Ok(())
}

/// Appends a row, and its line feed.
fn push_row(alloc: Global, audit: &mut Vec<u8>, row: &Value) -> Result<(), Memory>
    requires { has_float (view row.now) ≡ false }
    ensures { OnOk result (audit.new.items ≡ audit.old.items ++ row_text (view row.now)) }
{
    let text = row.to_vec(alloc)?;
    audit.extend_from_slice(&text)?;
    audit.push(b'\n')?;
    Ok(())
}
