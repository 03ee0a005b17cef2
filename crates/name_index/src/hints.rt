//! Hints at the numbers of names, by a digest of the names. A hint may be that of another name of the same digest: it
//! saves a search where it is right, and where there is none.

ghost use Rattle.std.specs.Prelude.{◌≡◌, ◌≢◌, ◌<◌, ℕ, List, [], Some, OnOk, length};
ghost use Rattle.name_index.specs.Hints.{digest_of, hint_for};

use house_base::Name;
use std::alloc::{AllocError, Global};
use std::hash::{FoldHasher, Hasher};
use std::marker::Model;

/// How many hints there are.
pub(crate) const HINTS: usize = 8_192;

/// For each digest of a name what was put under it last, and 0 where nothing was. Each hint takes two bytes.
#[derive(Drop)]
pub(crate) struct Hints {
    numbers: Vec<u16>,
}

impl Model for Hints {
    ghost use Rattle.std.specs.Prelude.{◌≡◌, ◌⊎◌, ℕ, List, length};
    ghost use Rattle.name_index.specs.declared.hints.TheConstants.{HINTS};

    ghost Value = { List ℕ };

    ghost view = { λ hints. hints.numbers.items };

    ghost invariant = { λ hints. (length hints.numbers.items ≡ 0) ⊎ (length hints.numbers.items ≡ HINTS) };
}

impl Hints {
    /// No hints, and no room for any.
    pub fn new(alloc: Global) -> Hints
        ensures { result ≡ [] }
    {
        Hints {
            numbers: Vec::new(alloc),
        }
    }

    /// Makes room for all hints, the first time.
    pub fn make_room(&mut self) -> Result<(), AllocError>
        ensures room { OnOk result (length self.new ≡ HINTS) }
        ensures kept { 0 < length self.old → self.new ≡ self.old }
    {
        if self.numbers.is_empty() {
            self.numbers.resize(HINTS, 0)?;
        }
        Ok(())
    }

    /// What was put last under the digest of a name. None where there is no room for hints.
    pub fn at(&self, name: &Name) -> Option<u16>
        ensures { result ≡ hint_for self.now name.now }
    {
        self.numbers.get(digest(name)).copied()
    }

    /// Puts a number under the digest of a name, where there is room.
    pub fn put(&mut self, name: &Name, number: u16)
        ensures room { length self.new ≡ length self.old }
        ensures hint { length self.old ≡ HINTS → hint_for self.new name.now ≡ Some number }
        ensures others { (other : List ℕ) → digest_of other ≢ digest_of name.now →
            hint_for self.new other ≡ hint_for self.old other }
    {
        if let Some(hint) = self.numbers.get_mut(digest(name)) {
            *hint = number;
        }
    }
}

/// A number below the count of hints, in which all bytes of a name take part.
#[tactic(auto, unfolding(crate::specs::Hints::digest_of))]
fn digest(name: &Name) -> usize
    ensures value { result ≡ digest_of name.now }
    ensures below { result < HINTS }
{
    let mut hasher = FoldHasher::default();
    hasher.write(name.bytes());
    hasher.finish() as usize % HINTS
}
