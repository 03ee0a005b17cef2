//! Input, taken and heard in pieces.

ghost use Rattle.std.specs.Prelude.{◌≡◌, ◌≤◌, Option, IsErrOf, length};
ghost use Rattle.house_base.specs.Text.{Text};
ghost use Rattle.house_io.specs.Faults.{Rose};
ghost use Rattle.house_model.specs.Text.{Lines};
ghost use Rattle.house_model.specs.declared.goal.Goal.{Goal};
ghost use Rattle.input_run.specs.Input.{most_at_once};
ghost use Rattle.input_run.specs.Kept.{keeps};
ghost use Rattle.input_run.specs.Piece.{EndsHearing, HasHeardAll, HearsMore, TakesInput};

use crate::fault::InputFault;
use crate::hearing::{Hearing, Progress};
use house_io::Source;

/// Why a run hears no more of its input.
#[derive(Clone, Copy, Debug, PartialEq, Eq)]
pub enum HearingEnd {
    /// The input is at its end.
    AtEnd,
    /// A line has ended the run.
    Ended,
    /// The input is over its limits, and no line within them ends the run.
    Over,
}

/// Takes an input in pieces and hears them, up to a line that ends the run, to the end of the limits or to its own end.
pub(crate) fn take_pieces<I: Source>(
    hearing: &mut Hearing,
    input: &mut I,
    buffer: &mut [u8],
) -> Result<HearingEnd, InputFault>
    requires room { length buffer.old ≡ most_at_once }
    requires heard { (g : Goal) × (opening : Lines) × (before : Option Text)
        × HasHeardAll g opening before (I.left input.old) hearing.old }
    ensures takes { (g : Goal) (opening : Lines) (before : Option Text) → HasHeardAll g opening before (I.left input.old) hearing.old →
        TakesInput g opening before (I.left input.new) result (EndsHearing g opening before (I.left input.new) hearing.new) }
    ensures failed { IsErrOf result InputFault.Failed → Rose (I.faults input.old) (I.faults input.new) }
    ensures keeps { keeps hearing.new.run ≡ keeps hearing.old.run }
    ensures never_falls { I.faults input.old ≤ I.faults input.new }
{
    'pieces: loop {
        match take_piece(hearing, input, buffer)? {
            Some(end) => return Ok(end),
            None => {}
        }
    }
}

/// Takes a piece more of an input and hears it. None where the run goes on with it.
fn take_piece<I: Source>(
    hearing: &mut Hearing,
    input: &mut I,
    buffer: &mut [u8],
) -> Result<Option<HearingEnd>, InputFault>
    requires { length buffer.old ≡ most_at_once }
    ensures takes { (g : Goal) (opening : Lines) (before : Option Text) → HasHeardAll g opening before (I.left input.old) hearing.old →
        TakesInput g opening before (I.left input.new) result (HearsMore g opening before (I.left input.new) hearing.old hearing.new) }
    ensures failed { IsErrOf result InputFault.Failed → Rose (I.faults input.old) (I.faults input.new) }
    ensures keeps { keeps hearing.new.run ≡ keeps hearing.old.run }
    ensures never_falls { I.faults input.old ≤ I.faults input.new }
{
    match input.take(buffer) {
        Ok(0) => Ok(Some(HearingEnd::AtEnd)),
        Ok(count) => match hearing.hear(&buffer[..count]) {
            Progress::Going => Ok(None),
            Progress::Ended => Ok(Some(HearingEnd::Ended)),
            Progress::Over => Ok(Some(HearingEnd::Over)),
            Progress::Memory => Err(InputFault::Memory),
        },
        Err(_) => Err(InputFault::Failed),
    }
}
