//! The intake: each line of the input is put into the journal, and told once no crash can lose it.

ghost use Rattle.std.specs.Prelude.{◌≡◌, ◌≤◌, ◌↔◌, ℕ, List, false, is_some, IsErrOf, Some};
ghost use Rattle.command_text.specs.Held.{HasNoFeed};
ghost use Rattle.disk_io.specs.Disk.{LeavesOnly};
ghost use Rattle.house_io.specs.Faults.{Rose};
ghost use Rattle.intake_log.specs.Journal.{IsBeforeOrAfter};
ghost use Rattle.intake_desk.specs.Progress.{HasTaken, KeepsLine};

use crate::status::DeskStatus;
use crate::told::tell;
use crate::waiting::{Came, Waiting, take_line};
use house_io::{Failed, Sink, Source};
use intake_log::{Disk, Log, PutFault};

/// Puts a line, which has this number in the input, and then tells how many lines are held.
fn keep_line<O: Sink, D: Disk>(
    log: &mut Log<D>,
    output: &mut O,
    line: &[u8],
    number: u64,
) -> Result<(), DeskStatus>
    requires unbroken { log.old.broken ≡ false }
    requires no_line_feed { HasNoFeed line.now }
    ensures keeps { KeepsLine D.content D.images log.old log.new (O.given output.old) (O.given output.new) line.now number result }
    ensures any_moment { (bytes : List ℕ) → D.content log.old.disk ≡ Some bytes →
        LeavesOnly D.moment D.images_since log.old.disk log.new.disk (IsBeforeOrAfter log.old.lines line.now) }
    ensures told { is_some (D.content log.new.disk) ≡ is_some (D.content log.old.disk) }
    ensures write_fault { IsErrOf result DeskStatus.WriteFault → Rose (O.faults output.old) (O.faults output.new) }
    ensures disk_fault { IsErrOf result DeskStatus.DiskFault → Rose (D.faults log.old.disk) (D.faults log.new.disk) }
    ensures output_never_falls { O.faults output.old ≤ O.faults output.new }
    ensures disk_never_falls { D.faults log.old.disk ≤ D.faults log.new.disk }
{
    match log.put(line) {
        Ok(()) => {}
        Err(PutFault::Long) => return Err(DeskStatus::Long(number)),
        Err(PutFault::Full) => return Err(DeskStatus::Full),
        Err(PutFault::Memory) => return Err(DeskStatus::Memory),
        Err(PutFault::Broken | PutFault::Failed) => return Err(DeskStatus::DiskFault),
    }
    match tell(output, log.lines().count()) {
        Ok(()) => Ok(()),
        Err(Failed) => Err(DeskStatus::WriteFault),
    }
}

/// Takes the lines of an input in, up to one that is refused.
pub(crate) fn take_in<I: Source, O: Sink, D: Disk>(
    log: &mut Log<D>,
    input: &mut I,
    output: &mut O,
) -> DeskStatus
    requires unbroken { log.old.broken ≡ false }
    ensures takes { HasTaken D.content D.images D.moment D.images_since (I.left input.old) (I.left input.new)
        (O.given output.old) (O.given output.new) log.old log.new result }
    ensures read_fault { result ≡ DeskStatus.ReadFault → Rose (I.faults input.old) (I.faults input.new) }
    ensures write_fault { result ≡ DeskStatus.WriteFault → Rose (O.faults output.old) (O.faults output.new) }
    ensures disk_fault { result ≡ DeskStatus.DiskFault → Rose (D.faults log.old.disk) (D.faults log.new.disk) }
    ensures told { is_some (D.content log.new.disk) ≡ is_some (D.content log.old.disk) }
    ensures input_never_falls { I.faults input.old ≤ I.faults input.new }
    ensures output_never_falls { O.faults output.old ≤ O.faults output.new }
    ensures disk_never_falls { D.faults log.old.disk ≤ D.faults log.new.disk }
{
    let old = log.lines().count();
    let mut waiting = Waiting::new();
    loop {
        let number = log.lines().count() - old + 1;
        let (end, is_last) = match take_line(&mut waiting, input) {
            Ok(Came::Line(end, is_last)) => (end, is_last),
            Ok(Came::Long) => return DeskStatus::Long(number),
            Ok(Came::End) => return DeskStatus::Done,
            Err(Failed) => return DeskStatus::ReadFault,
        };
        if let Err(status) = keep_line(log, output, waiting.line(end), number) {
            return status;
        }
        if is_last {
            return DeskStatus::Done;
        }
        waiting.skip(end + 1);
    }
}
