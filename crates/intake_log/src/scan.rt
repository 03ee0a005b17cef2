//! The scan of a journal's bytes.

ghost use Rattle.std.specs.Prelude.{◌≡◌, ◌≢◌, ◌↔◌, ◌≤◌, ◌<◌, ◌+◌, IsTrue, slice_index, None, Some, IfOk, IfErr, IfSome, MatchOption, length};
ghost use Rattle.command_text.specs.Held.{HasNoFeed};
ghost use Rattle.intake_log.specs.Journal.{records_size};
ghost use Rattle.intake_log.specs.Limits.{AreWithin};
ghost use Rattle.intake_log.specs.Scan.{Explains, line_at_front, scan};
ghost use Rattle.intake_log.specs.Scan.Scanned.{Ended};

use crate::fault::StartFault;
use crate::limits::{BESIDE_LINE, LENGTH_BYTES, MOST_LINE_BYTES, is_full};
use command_text::Lines;
use std::alloc::Global;

/// The line behind an open gate, where the bytes begin with its length and the line.
fn line_at_front(bytes: &[u8]) -> Option<&[u8]>
    ensures line { MatchOption result (line_at_front bytes.now ≡ None)
        (λ line. line_at_front bytes.now ≡ Some line.now) }
    ensures no_line_feed { IfSome result (λ line. HasNoFeed line.now) }
    ensures within { IfSome result (λ line. length line.now + 4 ≤ length bytes.now) }
{
    if bytes.len() < LENGTH_BYTES {
        return None;
    }
    let (head, rest) = bytes.split_at(LENGTH_BYTES);
    let size = u32::from_be_bytes([head[0], head[1], head[2], head[3]]) as usize;
    if size > MOST_LINE_BYTES || size > rest.len() {
        return None;
    }
    let (line, _) = rest.split_at(size);
    if line.contains(&b'\n') {
        return None;
    }
    Some(line)
}

/// Whether the gate at a place is closed. What stands behind it does not matter.
fn is_closed(bytes: &[u8], gate: usize) -> bool
    requires { gate < length bytes.now }
    ensures { IsTrue result ↔ (slice_index bytes.now gate ≡ 0) }
{
    bytes[gate] == 0
}

/// The lines up to the closed gate, and its place.
pub(crate) fn scan_lines(alloc: Global, bytes: &[u8]) -> Result<(Lines, u64), StartFault>
    ensures ended { IfOk result (λ found. scan bytes.now ≡ Ended found.0) }
    ensures gate { IfOk result (λ found. found.1 ≡ records_size found.0) }
    ensures within { IfOk result (λ found. AreWithin found.0) }
    ensures explained { IfErr result (Explains (scan bytes.now)) }
    ensures disk_untouched { result ≢ Err StartFault.Failed }
{
    let mut lines = Lines::new(alloc);
    let mut gate = 0;
    while gate < bytes.len() {
        if is_closed(bytes, gate) {
            return Ok((lines, gate as u64));
        }
        let Some(line) = line_at_front(&bytes[gate + 1..]) else {
            return Err(StartFault::BadJournal(gate as u64));
        };
        if is_full(&lines, gate as u64, line) {
            return Err(StartFault::Full);
        }
        lines.push(line)?;
        gate += line.len() + BESIDE_LINE;
    }
    Err(StartFault::BadJournal(gate as u64))
}
