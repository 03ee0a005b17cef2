//! The pairs of a hand-made assignment, by numbers.

ghost use Rattle.std.specs.Prelude.{◌≡◌, ◌+◌, ◌*◌, ◌<◌, ◌≤◌, Some, [], ◌∷◌, ◌++◌, OnOk, OnErr, length, slice_get};
ghost use Rattle.register_book.specs.PairList.{numbers_among};

use crate::rows::{ROW_BITS, ROW_WORDS, Rows};
use std::alloc::{AllocError, Global};
use std::marker::Model;

/// Different pairs of a person's number and an applicant's, in the order in which they came.
#[derive(Drop)]
pub struct PairList {
    pairs: Vec<(u32, u32)>,
    rows: Rows,
}

impl Model for PairList {
    ghost use Rattle.register_book.specs.PairList.{PairsHeld, IsPairList};

    ghost Value = { PairsHeld };

    ghost view = { λ list. record { pairs = list.pairs.items; rows = list.rows } };

    ghost invariant = { λ list. IsPairList list.pairs.items list.rows };
}

impl PairList {
    /// No pairs.
    pub fn new(alloc: Global) -> PairList
        ensures { result ≡ record { pairs = []; rows = [] } }
    {
        PairList {
            pairs: Vec::new(alloc),
            rows: Rows::new(alloc),
        }
    }

    /// How many pairs there are.
    pub fn count(&self) -> u64
        ensures { result ≡ length self.now.pairs }
    {
        self.pairs.len() as u64
    }

    /// The pair at an index.
    pub fn at(&self, index: u64) -> (u32, u32)
        requires { index < length self.now.pairs }
        ensures { slice_get self.now.pairs index ≡ Some result }
    {
        self.pairs[index as usize]
    }

    /// Whether a pair is held.
    pub fn has(&self, person: u32, applicant: u32) -> bool
        requires { applicant < ROW_BITS }
        ensures { result ≡ numbers_among self.now.pairs person applicant }
    {
        self.rows.has(person, applicant)
    }

    /// Puts a new pair behind the others.
    pub fn add(&mut self, person: u32, applicant: u32) -> Result<(), AllocError>
        requires row { (person + 1) * ROW_WORDS ≤ length self.old.rows }
        requires column { applicant < ROW_BITS }
        ensures added { OnOk result (self.new.pairs ≡ self.old.pairs ++ (person, applicant) ∷ []) }
        ensures rows { length self.new.rows ≡ length self.old.rows }
        ensures refused { OnErr result (self.new ≡ self.old) }
    {
        self.pairs.push((person, applicant))?;
        self.rows.set(person, applicant);
        Ok(())
    }

    /// Makes room for the pairs of this many persons.
    pub fn make_rows(&mut self, persons: u32) -> Result<(), AllocError>
        ensures pairs { self.new.pairs ≡ self.old.pairs }
        ensures rows { OnOk result (persons * ROW_WORDS ≤ length self.new.rows) }
        ensures longer { length self.old.rows ≤ length self.new.rows }
    {
        self.rows.make_rows(persons)?;
        Ok(())
    }
}
