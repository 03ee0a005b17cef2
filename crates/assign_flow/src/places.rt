//! Sets of places, of reviewers or of proposals.

ghost use Rattle.std.specs.Prelude.{◌≡◌, ℕ, ◌<◌, ◌≤◌, ◌==◌, ◌&&◌, ◌||◌, not, true, false, IfSome, IfNone};
ghost use Rattle.std.specs.Prelude.{nat_lt, length, slice_index};
ghost use Rattle.house_base.specs.Grid.{cell};
ghost use Rattle.house_base.specs.declared.limits.TheConstants.{MOST_APPLICANTS};
ghost use Rattle.house_base.specs.declared.rows.TheConstants.{ROW_BITS};
ghost use Rattle.assign_flow.specs.Places.{places_of};

use house_base::Grid;
use house_base::limits::MOST_APPLICANTS;
use house_base::rows::{ROW_BITS, ROW_WORDS, WORD_BITS, has_bit, next_bit};

/// A set of places, with a bit for each place that there may be.
#[derive(Clone, Copy)]
pub struct PlaceSet {
    words: [u64; ROW_WORDS],
}

impl PlaceSet {
    /// No place.
    pub fn empty() -> PlaceSet
        ensures { (i : ℕ) → places_of result i ≡ false }
    {
        PlaceSet {
            words: [0; ROW_WORDS],
        }
    }

    /// The columns that are true in a row of a square.
    pub fn of_row(square: &Grid, row: u32) -> PlaceSet
        requires row { row < square.now.side }
        requires few { square.now.side ≤ MOST_APPLICANTS }
        ensures inside { (i : ℕ) → i < square.now.side → places_of result i ≡ cell square.now row i }
        ensures outside { (i : ℕ) → square.now.side ≤ i → places_of result i ≡ false }
    {
        let mut words = [0; ROW_WORDS];
        for at in 0..ROW_WORDS {
            words[at] = square.word(row, at);
        }
        PlaceSet { words }
    }

    /// The places at which there are numbers above 0.
    pub fn of_some(numbers: &[u32]) -> PlaceSet
        requires { length numbers.now ≤ MOST_APPLICANTS }
        ensures inside { (i : ℕ) → i < length numbers.now
            → places_of result i ≡ nat_lt 0 (slice_index numbers.now i) }
        ensures outside { (i : ℕ) → length numbers.now ≤ i → places_of result i ≡ false }
    {
        let mut places = PlaceSet::empty();
        for place in 0..numbers.len() {
            if numbers[place] > 0 {
                places.insert(place as u32);
            }
        }
        places
    }

    pub fn has(&self, place: u32) -> bool
        requires { place < ROW_BITS }
        ensures { result ≡ places_of self.now place }
    {
        has_bit(&self.words, 0, place)
    }

    pub fn insert(&mut self, place: u32)
        requires { place < ROW_BITS }
        ensures { (i : ℕ) → places_of self.new i ≡ (i == place || places_of self.old i) }
    {
        self.words[place as usize / WORD_BITS] |= 1 << (place % WORD_BITS as u32);
    }

    pub fn remove(&mut self, place: u32)
        requires { place < ROW_BITS }
        ensures { (i : ℕ) → places_of self.new i ≡ (not (i == place) && places_of self.old i) }
    {
        self.words[place as usize / WORD_BITS] &= !(1 << (place % WORD_BITS as u32));
    }

    /// The places that are in both.
    pub fn and(&self, other: &PlaceSet) -> PlaceSet
        ensures { (i : ℕ) → places_of result i ≡ (places_of self.now i && places_of other.now i) }
    {
        let mut words = [0; ROW_WORDS];
        for at in 0..ROW_WORDS {
            words[at] = self.words[at] & other.words[at];
        }
        PlaceSet { words }
    }

    /// The places that are in either.
    pub fn or(&self, other: &PlaceSet) -> PlaceSet
        ensures { (i : ℕ) → places_of result i ≡ (places_of self.now i || places_of other.now i) }
    {
        let mut words = [0; ROW_WORDS];
        for at in 0..ROW_WORDS {
            words[at] = self.words[at] | other.words[at];
        }
        PlaceSet { words }
    }

    /// The places that are in this set and not in the other.
    pub fn without(&self, other: &PlaceSet) -> PlaceSet
        ensures { (i : ℕ) → places_of result i ≡ (places_of self.now i && not (places_of other.now i)) }
    {
        let mut words = [0; ROW_WORDS];
        for at in 0..ROW_WORDS {
            words[at] = self.words[at] & !other.words[at];
        }
        PlaceSet { words }
    }

    /// The first place from one on that is in the set.
    pub fn next(&self, from: u32) -> Option<u32>
        ensures from { IfSome result (λ place. from ≤ place) }
        ensures below { IfSome result (λ place. place < ROW_BITS) }
        ensures here { IfSome result (λ place. places_of self.now place ≡ true) }
        ensures before { IfSome result (λ place. (i : ℕ) → from ≤ i → i < place → places_of self.now i ≡ false) }
        ensures none { IfNone result ((i : ℕ) → from ≤ i → places_of self.now i ≡ false) }
    {
        next_bit(&self.words, 0, from)
    }
}
