//! Names with their numbers.

ghost use Rattle.std.specs.Prelude.{◌≡◌, ◌≢◌, ◌-◌, ◌<◌, ◌≤◌, Some, false, [], ◌∷◌, ◌++◌, is_some, IsTrue, OnOk, OnErr, length, position, slice_get, take};
ghost use Rattle.std.specs.Str.{bytes_eq};
ghost use Rattle.house_base.specs.Text.{among};

use crate::hints::Hints;
use house_base::Name;
use house_base::limits::MOST_APPLICANTS;
use std::alloc::{AllocError, Global};
use std::collections::BTreeMap;
use std::marker::Model;

/// Different names in the order in which they came, each of which is found by its number and by its bytes.
#[derive(Drop)]
pub struct NameIndex {
    names: Vec<Name>,
    numbers: BTreeMap<Name, u32>,
    hints: Hints,
}

impl Model for NameIndex {
    ghost use Rattle.std.specs.Prelude.{ℕ, List};
    ghost use Rattle.name_index.specs.Hints.{HaveHints};
    ghost use Rattle.name_index.specs.Index.{IsIndex};

    ghost Value = { List (List ℕ) };

    ghost view = { λ index. index.names.items };

    ghost invariant = { λ index. IsIndex index.names.items index.numbers × HaveHints index.names.items index.hints };
}

impl NameIndex {
    /// No names.
    pub fn new(alloc: Global) -> NameIndex
        ensures { result ≡ [] }
    {
        NameIndex {
            names: Vec::new(alloc),
            numbers: BTreeMap::new(alloc),
            hints: Hints::new(alloc),
        }
    }

    /// How many names there are.
    pub fn len(&self) -> u32
        ensures value { result ≡ length self.now }
        ensures most { result ≤ MOST_APPLICANTS }
    {
        self.names.len() as u32
    }

    /// The name with a number.
    pub fn at(&self, number: u32) -> Name
        requires { number < length self.now }
        ensures { slice_get self.now number ≡ Some result }
    {
        self.names[number as usize]
    }

    /// The number of a name. Hints are one more than a number; a name without one is not among the names.
    pub fn find(&self, name: &Name) -> Option<u32>
        ensures number { result ≡ position (bytes_eq name.now) self.now }
        ensures known { is_some result ≡ among self.now name.now }
    {
        let Some(hint) = self.hints.at(name) else {
            return None;
        };
        if hint == 0 {
            return None;
        }
        let number = u32::from(hint) - 1;
        if self.stands_at(number, name) {
            Some(number)
        } else {
            self.searched(name)
        }
    }

    /// The number of a name, by a search. It is kept out of `find`, which seldom needs it.
    #[inline(never)]
    fn searched(&self, name: &Name) -> Option<u32>
        ensures { result ≡ position (bytes_eq name.now) self.now }
    {
        self.numbers.get(name).copied()
    }

    /// Whether a number is that of a name.
    fn stands_at(&self, number: u32, name: &Name) -> bool
        ensures here { IsTrue result → position (bytes_eq name.now) self.now ≡ Some number }
        ensures elsewhere { result ≡ false → position (bytes_eq name.now) self.now ≢ Some number }
    {
        match self.names.get(number as usize) {
            Some(held) => *held == *name,
            None => false,
        }
    }

    /// Puts a new name behind the others.
    pub fn add(&mut self, name: Name) -> Result<(), AllocError>
        requires few { length self.old < MOST_APPLICANTS }
        requires unknown { among self.old name ≡ false }
        ensures added { OnOk result (self.new ≡ self.old ++ name ∷ []) }
        ensures refused { OnErr result (self.new ≡ self.old) }
    {
        let number = self.names.len() as u32;
        self.hints.make_room()?;
        self.names.reserve(1)?;
        self.numbers.insert(name, number)?;
        self.names.push_reserved(name);
        self.hints.put(&name, number as u16 + 1);
        Ok(())
    }

    /// Takes the last name off.
    pub fn remove_last(&mut self)
        requires { 0 < length self.old }
        ensures { self.new ≡ take (length self.old - 1) self.old }
    {
        if let Some(name) = self.names.pop() {
            self.numbers.remove(&name);
        }
    }
}
