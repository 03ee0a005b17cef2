//! Input, read and heard as it comes.

ghost use Rattle.std.specs.Prelude.{◌≡◌, ◌≤◌, IfOk, OnOk, IsErrOf, vec_len};
ghost use Rattle.house_io.specs.Faults.{Rose};
ghost use Rattle.house_model.specs.Text.{Lines};
ghost use Rattle.input_run.specs.Hearing.{HasOpened, HearsWhereTold};
ghost use Rattle.input_run.specs.Kept.{KeepsOn};
ghost use Rattle.input_run.specs.Input.{DecidedWhereTold, NoFurtherWhereTold, UndecidedWhereTold};

use crate::fault::InputFault;
use crate::hearing::Hearing;
use crate::line_run::LineRun;
use crate::piece::{HearingEnd, take_pieces};
use house_io::Source;
use house_model::Goal;
use std::alloc::{AllocError, Global};

/// How many bytes are asked for at once.
const PIECE: usize = 65_536;

/// What was heard of an input.
#[derive(Drop)]
pub enum Heard {
    /// The run at the line that ends it, or at the end of the input.
    Lines(LineRun),
    /// The input is over its limits, and no line within them ends the run.
    TooLong,
}

/// Hears an input in pieces, in a run that has taken its opening lines: up to the line that ends the run, to the end of
/// the limits or to its own end.
pub fn hear_input<I: Source>(
    alloc: Global,
    goal: Goal,
    run: LineRun,
    input: &mut I,
) -> Result<Heard, InputFault>
    requires { (opening : Lines) × HasOpened goal opening run }
    ensures heard { (opening : Lines) → HasOpened goal opening run →
        IfOk result (λ heard. HearsWhereTold goal opening (I.left input.old) (I.left input.new) heard) }
    ensures keeps { IfOk result (KeepsOn run) }
    ensures decided { (opening : Lines) → HasOpened goal opening run →
        OnOk result (DecidedWhereTold goal opening (I.left input.old) (I.left input.new)) }
    ensures failed { IsErrOf result InputFault.Failed → Rose (I.faults input.old) (I.faults input.new) }
    ensures undecided { (opening : Lines) → HasOpened goal opening run → IsErrOf result InputFault.Failed →
        UndecidedWhereTold goal opening (I.left input.old) (I.left input.new) }
    ensures no_further { (opening : Lines) → HasOpened goal opening run →
        NoFurtherWhereTold goal opening (I.left input.old) (I.left input.new) }
{
    let mut hearing = Hearing::new(alloc, goal, run);
    let mut piece = zeros(alloc, PIECE)?;
    match take_pieces(&mut hearing, input, piece.as_mut_slice()) {
        Ok(HearingEnd::AtEnd) => Ok(Heard::Lines(hearing.finish()?)),
        Ok(HearingEnd::Ended) => Ok(Heard::Lines(hearing.run)),
        Ok(HearingEnd::Over) => Ok(Heard::TooLong),
        Err(fault) => Err(fault),
    }
}

/// So many bytes to read into.
fn zeros(alloc: Global, len: usize) -> Result<Vec<u8>, AllocError>
    ensures { IfOk result (λ bytes. vec_len bytes ≡ len) }
{
    vec![in alloc; 0; len]
}
