//! The lines of a journal, printed.

ghost use Rattle.std.specs.Prelude.{◌≡◌, IfOk};
ghost use Rattle.house_io.specs.Faults.{Rose};
ghost use Rattle.intake_desk.specs.Due.{Shows};
ghost use Rattle.intake_desk.specs.Intake.{shown};

use crate::status::DeskStatus;
use command_text::Lines;
use house_base::Memory;
use house_io::{Failed, Sink, give_all};
use std::alloc::Global;

/// Prints the lines of a journal.
pub(crate) fn show<O: Sink>(alloc: Global, lines: &Lines, output: &mut O) -> DeskStatus
    ensures shows { Shows result (O.given output.old) (O.given output.new) (shown lines.now) }
    ensures write_fault { result ≡ DeskStatus.WriteFault → Rose (O.faults output.old) (O.faults output.new) }
{
    let text = match shown_text(alloc, lines) {
        Ok(text) => text,
        Err(Memory) => return DeskStatus::Memory,
    };
    match give_all(output, &text) {
        Ok(()) => DeskStatus::Done,
        Err(Failed) => DeskStatus::WriteFault,
    }
}

/// The lines, with a line feed behind each.
fn shown_text(alloc: Global, lines: &Lines) -> Result<Vec<u8>, Memory>
    ensures { IfOk result (λ text. text.items ≡ shown lines.now) }
{
    let mut text = Vec::new(alloc);
    for index in 0..lines.count() {
        text.extend_from_slice(lines.line(index))?;
        text.push(b'\n')?;
    }
    Ok(text)
}
