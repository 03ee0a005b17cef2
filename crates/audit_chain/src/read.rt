//! The reader of an audit.

ghost use Rattle.std.specs.Prelude.{◌≡◌, ◌≢◌, Ok, Err, IfOk, IfErr};
ghost use Rattle.audit_chain.specs.File.{AreLines, lines_held, version_held};

use crate::RowFault;
use crate::parts::first_row;
use crate::reading::{Reading, version_in};
use command_text::Lines;
use std::alloc::Global;

/// The lines that an audit of either version holds, or the first row that is not of the form. Nothing is said of
/// whether a row is as it should be: what became of a line, its digest and its number may be any, and so may the
/// report.
pub fn read_rows(alloc: Global, bytes: &[u8]) -> Result<Lines, RowFault>
    ensures ok { IfOk result (λ lines. lines_held bytes.now ≡ Ok lines) }
    ensures bad { IfErr result (λ fault. fault ≢ RowFault.Memory → lines_held bytes.now ≡ Err fault) }
    ensures lines { IfOk result (λ lines. AreLines lines) }
{
    let (header, behind) = match first_row(bytes) {
        Some(cut) => cut,
        None => return Err(RowFault::BadRow(1)),
    };
    let mut reading = match Reading::open(alloc, header)? {
        Some(reading) => reading,
        None => return Err(RowFault::BadRow(1)),
    };
    let mut rest = behind;
    while let Some((row, after)) = first_row(rest) {
        if !reading.take(alloc, row)? {
            return Err(RowFault::BadRow(reading.next()));
        }
        rest = after;
    }
    if reading.is_whole(rest) {
        Ok(reading.into_lines())
    } else {
        Err(RowFault::BadRow(reading.next()))
    }
}

/// The version of an audit, which its first row names. Of the rows behind it nothing is said.
pub fn row_version(alloc: Global, bytes: &[u8]) -> Result<u32, RowFault>
    ensures ok { IfOk result (λ version. version_held bytes.now ≡ Ok version) }
    ensures bad { IfErr result (λ fault. fault ≢ RowFault.Memory → version_held bytes.now ≡ Err fault) }
{
    match first_row(bytes) {
        Some((row, _)) => match version_in(alloc, row)? {
            Some(version) => Ok(version),
            None => Err(RowFault::BadRow(1)),
        },
        None => Err(RowFault::BadRow(1)),
    }
}
