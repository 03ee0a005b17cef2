//! The check of a slip.

ghost use Rattle.std.specs.Prelude.{◌≡◌, ◌≢◌, ◌⊎◌, ◌+◌, ◌<◌, ◌^◌, ℕ, Ok, Err, None, Some, false, ◌++◌, length, IfOk};
ghost use Rattle.house_model.specs.Text.{is_empty};
ghost use Rattle.slip_check.specs.Counted.{IsCount, IsStart};
ghost use Rattle.slip_check.specs.Form.{Rows, chance_in, fault_from, fault_in, members_in, rows_of, slip_in};
ghost use Rattle.slip_check.specs.Limits.{IsRight};
ghost use Rattle.slip_check.specs.Slip.{worth};
ghost use Rattle.command_text.specs.Strict.{fed_lines};

use crate::count::Count;
use crate::head::{read_head, read_sizes};
use crate::stop::Stop;
use command_text::strict::first_fed_line;
use std::alloc::Global;

/// What a check of a slip says.
#[derive(Clone, Copy, Debug, PartialEq, Eq)]
pub enum Verdict {
    /// The printed chance is what the slip is worth.
    Yes,
    /// It is another; this is the right one, over the dollars of the slip's persons.
    No(u64),
}

/// Why a slip is not checked.
#[derive(Clone, Copy, Debug, PartialEq, Eq)]
pub enum SlipFault {
    /// The bytes are off the form of a slip, at the line of this number, counted from 1.
    BadSlip(u64),
    /// No memory was left.
    Memory,
}

/// Checks whether the chance that a slip prints is what its lines are worth.
pub fn check_slip(alloc: Global, bytes: &[u8]) -> Result<Verdict, SlipFault>
    ensures bad { (n : ℕ) → result ≡ Err (SlipFault.BadSlip n) → fault_in bytes.now ≡ Some n }
    ensures formed { IfOk result (λ verdict. fault_in bytes.now ≡ None) }
    ensures yes { result ≡ Ok Verdict.Yes → chance_in (rows_of bytes.now) ≡ worth (slip_in (rows_of bytes.now)) }
    ensures no { (w : ℕ) → result ≡ Ok (Verdict.No w) → (w ≡ worth (slip_in (rows_of bytes.now)))
        × (chance_in (rows_of bytes.now) ≢ w) }
    ensures right { IsRight bytes.now → (result ≡ Ok Verdict.Yes) ⊎ (result ≡ Err SlipFault.Memory) }
{
    match printed_and_right(alloc, bytes) {
        Ok((printed, right)) => Ok(verdict_on(printed, right)),
        Err(fault) => Err(fault),
    }
}

/// The chance that a slip prints, and what its lines are worth.
fn printed_and_right(alloc: Global, bytes: &[u8]) -> Result<(u64, u64), SlipFault>
    ensures bad { (n : ℕ) → result ≡ Err (SlipFault.BadSlip n) → fault_in bytes.now ≡ Some n }
    ensures formed { IfOk result (λ told. fault_in bytes.now ≡ None) }
    ensures printed { IfOk result (λ told. told.0 ≡ chance_in (rows_of bytes.now)) }
    ensures worth { IfOk result (λ told. told.1 ≡ worth (slip_in (rows_of bytes.now))) }
{
    let Some((line, rest)) = first_fed_line(bytes) else {
        return Err(SlipFault::BadSlip(1));
    };
    let Some(head) = read_head(line) else {
        return Err(SlipFault::BadSlip(1));
    };
    let Some((line, rest)) = first_fed_line(rest) else {
        return Err(SlipFault::BadSlip(2));
    };
    let Some(sizes) = read_sizes(line, head.share.den) else {
        return Err(SlipFault::BadSlip(2));
    };
    let count = match count_lines(alloc, rest) {
        Ok(count) => count,
        Err(fault) => return Err(fault),
    };
    let right = count.worth(&head.name, sizes.seats, sizes.persons);
    Ok((head.share.chance, right))
}

/// The verdict on a printed chance and the right one.
fn verdict_on(printed: u64, worth: u64) -> Verdict
    ensures yes { result ≡ Verdict.Yes → printed ≡ worth }
    ensures no { (w : ℕ) → result ≡ Verdict.No w → (w ≡ worth) × (printed ≢ w) }
{
    if printed == worth {
        Verdict::Yes
    } else {
        Verdict::No(worth)
    }
}

/// Counts the members and the ballots of the lines behind the first two.
fn count_lines(alloc: Global, text: &[u8]) -> Result<Count, SlipFault>
    requires { length text.now + 4 < 2 ^ 64 }
    ensures formed { (start : Rows) → IsStart start → IfOk result (λ count. fault_from start (fed_lines text.now) ≡ None) }
    ensures counted { (start : Rows) → IsStart start → IfOk result (λ count. IsCount (start ++ rows_of text.now) count) }
    ensures bad { (start : Rows) → IsStart start → (n : ℕ) → result ≡ Err (SlipFault.BadSlip n)
        → fault_from start (fed_lines text.now) ≡ Some n }
{
    let mut count = Count::new(alloc);
    let mut rest = text;
    let mut number = 2;
    while let Some((line, after)) = first_fed_line(rest) {
        match count.take(alloc, line) {
            Ok(()) => (),
            Err(Stop::Off) => return Err(SlipFault::BadSlip(number + 1)),
            Err(Stop::Memory) => return Err(SlipFault::Memory),
        }
        rest = after;
        number += 1;
    }
    if count.members() == 0 {
        return Err(SlipFault::BadSlip(number + 1));
    }
    Ok(count)
}
