//! The line that tells how many lines are held.

ghost use Rattle.std.specs.Prelude.{◌≡◌, ◌≤◌, drop, length, OnOk, OnErr};
ghost use Rattle.house_io.specs.Faults.{Rose};
ghost use Rattle.house_io.specs.Sink.{AppendsWhereTold};
ghost use Rattle.intake_desk.specs.Intake.{told_line};
ghost use Rattle.intake_desk.specs.Progress.{GivesFront};

use house_io::{Failed, Sink, give_all};
use itoa::write_digits;

/// What stands before the number.
const HEAD: &[u8] = b"kept ";

/// How many bytes the line has at most: the number has up to 20 digits.
const MOST_TOLD: usize = 26;

/// Tells how many lines are held.
pub(crate) fn tell<O: Sink>(output: &mut O, count: u64) -> Result<(), Failed>
    ensures whole { OnOk result (AppendsWhereTold (O.given output.old) (O.given output.new) (told_line count)) }
    ensures front { OnErr result (GivesFront (O.given output.old) (O.given output.new) (told_line count)) }
    ensures failed { OnErr result (Rose (O.faults output.old) (O.faults output.new)) }
    ensures never_falls { O.faults output.old ≤ O.faults output.new }
{
    let mut buf = [0; MOST_TOLD];
    let begin = fill_told(&mut buf, count);
    give_all(output, &buf[begin..])
}

/// Writes the line to the end of a buffer, and gives the place where it begins.
fn fill_told(buf: &mut [u8; MOST_TOLD], count: u64) -> usize
    ensures line { drop result buf.new ≡ told_line count }
    ensures within { result ≤ length buf.new }
{
    buf[MOST_TOLD - 1] = b'\n';
    let digits = write_digits(count, buf, MOST_TOLD - 1);
    let begin = digits - HEAD.len();
    buf[begin..digits].copy_from_slice(HEAD);
    begin
}
