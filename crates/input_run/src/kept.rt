//! Lines that were taken, kept with what became of each.

use command_text::Lines;
use house_base::{Memory, Took};
use std::alloc::Global;

/// Lines that a run has taken, and what became of each.
#[derive(Drop)]
pub struct Kept {
    pub lines: Lines,
    pub marks: Vec<Took>,
}

impl Kept {
    ghost use Rattle.std.specs.Prelude.{◌≡◌, [], ◌∷◌, ◌++◌, OnOk};
    ghost use Rattle.command_text.specs.Held.{HasNoFeed};

    /// No lines.
    pub(crate) fn new(alloc: Global) -> Kept
        ensures lines { result.lines ≡ [] }
        ensures marks { result.marks.items ≡ [] }
    {
        Kept {
            lines: Lines::new(alloc),
            marks: Vec::new(alloc),
        }
    }

    /// Keeps a line more, and what became of it.
    pub(crate) fn keep(&mut self, line: &[u8], took: Took) -> Result<(), Memory>
        requires { HasNoFeed line.now }
        ensures lines { OnOk result (self.new.lines ≡ self.old.lines ++ line.now ∷ []) }
        ensures marks { OnOk result (self.new.marks.items ≡ self.old.marks.items ++ took ∷ []) }
    {
        self.marks.push(took)?;
        self.lines.push(line)
    }
}
