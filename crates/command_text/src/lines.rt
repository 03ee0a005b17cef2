//! The lines of a text, held one behind the other in one buffer.

use house_base::Memory;
use std::alloc::Global;
use std::marker::Model;

/// A list of lines. No line has a line feed.
#[derive(Drop)]
pub struct Lines {
    bytes: Vec<u8>,
    /// Where each line ends in the buffer.
    ends: Vec<usize>,
}

impl Model for Lines {
    ghost use Rattle.std.specs.Prelude.{ℕ, List};
    ghost use Rattle.command_text.specs.Held.{AreHeld, parts_from};

    ghost Value = { List (List ℕ) };

    ghost view = { λ l. parts_from 0 l.ends.items l.bytes.items };

    ghost invariant = { λ l. AreHeld l.bytes.items l.ends.items };
}

impl Lines {
    ghost use Rattle.std.specs.Prelude.{◌≡◌, ◌<◌, ◌-◌, ◌++◌, ◌∷◌, [], Some, OnOk, OnErr, length, slice_get, take};
    ghost use Rattle.command_text.specs.Held.{HasNoFeed};

    /// No lines.
    pub fn new(alloc: Global) -> Lines
        ensures { result ≡ [] }
    {
        Lines {
            bytes: Vec::new(alloc),
            ends: Vec::new(alloc),
        }
    }

    /// How many lines there are.
    pub fn count(&self) -> u64
        ensures { result ≡ length self.now }
    {
        self.ends.len() as u64
    }

    /// The line at an index, counted from 0.
    pub fn line(&self, index: u64) -> &[u8]
        requires { index < length self.now }
        ensures value { slice_get self.now index ≡ Some result.now }
        ensures no_line_feed { HasNoFeed result.now }
    {
        let index = index as usize;
        let start = start_of(&self.ends, index);
        let end = self.ends[index];
        &self.bytes.as_slice()[start..end]
    }

    /// Appends a line. After an error the lines are as before.
    pub fn push(&mut self, line: &[u8]) -> Result<(), Memory>
        requires no_line_feed { HasNoFeed line.now }
        ensures ok { OnOk result (self.new ≡ self.old ++ line.now ∷ []) }
        ensures err { OnErr result (self.new ≡ self.old) }
    {
        self.ends.reserve(1)?;
        self.bytes.extend_from_slice(line)?;
        self.ends.push_reserved(self.bytes.len());
        Ok(())
    }

    /// Takes the last line off.
    pub fn remove_last(&mut self)
        requires { 0 < length self.old }
        ensures { self.new ≡ take (length self.old - 1) self.old }
    {
        let last = self.ends.len() - 1;
        let start = start_of(&self.ends, last);
        self.bytes.truncate(start);
        self.ends.truncate(last);
    }
}

ghost use Rattle.std.specs.Prelude.{◌≡◌, ◌<◌, ◌∷◌, length, slice_index};

/// Where the line at an index starts: where the one before it ends.
fn start_of(ends: &[usize], index: usize) -> usize
    requires { index < length ends.now }
    ensures { result ≡ slice_index (0 ∷ ends.now) index }
{
    if index == 0 { 0 } else { ends[index - 1] }
}
