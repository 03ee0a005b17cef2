//! How long a line of the journal may be, and how many bytes its records have. How many lines there may be, and how
//! many bytes in them, is as of a command file.

ghost use Rattle.std.specs.Prelude.{◌≡◌, ◌↔◌, IsTrue, length};
ghost use Rattle.intake_log.specs.Journal.{records_size};
ghost use Rattle.intake_log.specs.Limits.{AreWithin, IsFull};

use command_text::Lines;
use house_model::limits::{MOST_BYTES, MOST_LINES};

/// How many bytes a line of the journal has at most.
pub const MOST_LINE_BYTES: usize = 4_096;

/// How many bytes the length of a line has.
pub(crate) const LENGTH_BYTES: usize = 4;

/// How many bytes a record has beside its line: the gate, and the length. An entry has as many: the length, and the
/// gate behind the line.
pub(crate) const BESIDE_LINE: usize = LENGTH_BYTES + 1;

/// How many bytes of a file are enough to tell what a start finds there: the records of lines within the limits, each
/// of which has four bytes more than the line and a line feed, and one record more.
pub const FRONT_BYTES: usize = MOST_BYTES + 4 * MOST_LINES + MOST_LINE_BYTES + BESIDE_LINE;

/// Whether the lines and one more pass the limits. The gate behind the records of the lines tells how many bytes they
/// have.
pub(crate) fn is_full(lines: &Lines, gate: u64, line: &[u8]) -> bool
    requires gate { gate ≡ records_size lines.now }
    requires within { AreWithin lines.now }
    ensures { IsTrue result ↔ IsFull lines.now line.now }
{
    let count = lines.count();
    if count >= MOST_LINES as u64 {
        return true;
    }
    let text = gate - 4 * count;
    text + line.len() as u64 >= MOST_BYTES as u64
}
