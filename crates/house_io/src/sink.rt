//! Where output goes.

ghost use Rattle.std.specs.Prelude.{ℕ, ◌<◌, ◌≤◌, List, Option, length, take, IfOk, OnOk, OnErr};
ghost use Rattle.house_io.specs.Faults.{Rose};
ghost use Rattle.house_io.specs.Sink.{AppendsWhereTold, SameWhereTold};

use crate::Failed;

/// Where output goes.
pub trait Sink {
    /// All the bytes that were given, where the sink tells them.
    ghost given: { Self → Option (List ℕ) };

    /// How many faults there were.
    ghost faults: { Self → ℕ };

    /// Gives some of the first bytes of the piece, and answers how many. Of a piece that is not empty it
    /// gives at least one.
    fn give(&mut self, piece: &[u8]) -> Result<usize, Failed>
        ensures count { IfOk result (λ count. count ≤ length piece.now) }
        ensures progress { 0 < length piece.now → IfOk result (λ count. 0 < count) }
        ensures appended { IfOk result (λ count. AppendsWhereTold (given self.old) (given self.new) (take count piece.now)) }

        // What a call that fails leaves, and its cause.
        ensures untouched { OnErr result (SameWhereTold (given self.old) (given self.new)) }
        ensures failed { OnErr result (Rose (faults self.old) (faults self.new)) }
        ensures never_falls { faults self.old ≤ faults self.new };
}

/// Gives all of a text.
pub fn give_all<O: Sink>(output: &mut O, text: &[u8]) -> Result<(), Failed>
    ensures whole { OnOk result (AppendsWhereTold (O.given output.old) (O.given output.new) text.now) }
    ensures front { OnErr result ((count : ℕ)
        × AppendsWhereTold (O.given output.old) (O.given output.new) (take count text.now)) }
    ensures failed { OnErr result (Rose (O.faults output.old) (O.faults output.new)) }
    ensures never_falls { O.faults output.old ≤ O.faults output.new }
{
    let mut at = 0;
    while at < text.len() {
        at += output.give(&text[at..])?;
    }
    Ok(())
}
