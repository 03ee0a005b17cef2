//! The register of a call, with look-ups by name and by number.

ghost use Rattle.std.specs.Prelude.{◌≡◌, ◌≢◌, ℕ, ◌+◌, ◌<◌, ◌≤◌, ◌↔◌, Some, None, true, false, [], ◌∷◌, ◌++◌, not, ◌&&◌, ◌||◌, nat_le, is_some, IsTrue, IfSome, IfNone, OnOk, OnErr, length, position, slice_get};
ghost use Rattle.std.specs.Str.{bytes_eq};
ghost use Rattle.house_base.specs.Text.{Text, among};
ghost use Rattle.house_model.specs.Register.{IsRegister, names, persons, placed_names, own_count, cluster_of, person_of, person_number, pair_among};
ghost use Rattle.register_book.specs.Held.{text_at};

use crate::fault::BookFault;
use crate::pair_list::PairList;
use crate::places::Places;
use crate::roll::Roll;
use crate::rows::Rows;
use house_base::Name;
use house_base::limits::{MOST_APPLICANTS, MOST_CLUSTERS, MOST_OWN};
use std::alloc::Global;
use std::marker::Model;

/// The register of a call: its applicants with their persons, the clusters into which persons were put, the
/// pairs that may not be, and the pairs of a hand-made assignment.
///
/// Contracts see it as a register of names. The pairs that may not be are a set there: each stands in the list
/// once, and in which order is not said.
///
/// Applicants have the numbers of the register order, from 0. A person's number is its index among the persons
/// in the order in which each first appears.
#[derive(Drop)]
pub struct Book {
    roll: Roll,
    places: Places,
    conflicts: Rows,
    pairs: PairList,
}

impl Model for Book {
    ghost use Rattle.house_model.specs.Register.{Register};
    ghost use Rattle.register_book.specs.Held.{IsBook, register_of};

    ghost Value = { Register };

    ghost view = { λ b. register_of b.roll b.places b.conflicts b.pairs };

    ghost invariant = { λ b. IsBook b.roll b.places b.conflicts b.pairs };
}

impl Book {
    /// A register with nothing in it.
    pub fn new(alloc: Global) -> Book
        ensures { result ≡ record { applicants = []; placed = []; barred = []; pairs = [] } }
    {
        Book {
            roll: Roll::new(alloc),
            places: Places::new(alloc),
            conflicts: Rows::new(alloc),
            pairs: PairList::new(alloc),
        }
    }

    /// Puts an applicant and its person on record, and makes room for the person's place, conflicts and pairs.
    pub fn applicant(&mut self, name: Name, person: Name) -> Result<(), BookFault>
        ensures added { OnOk result
            (self.new ≡ record self.old { applicants = self.old.applicants ++ (name, person) ∷ [] }) }
        ensures refused { OnErr result (self.new ≡ self.old) }

        ensures known { (result ≡ Err BookFault.Known) ↔ IsTrue (among (names self.old) name) }
        ensures too_many { (result ≡ Err BookFault.TooMany) ↔ IsTrue (not (among (names self.old) name)
            && (nat_le MOST_APPLICANTS (length self.old.applicants) || nat_le MOST_OWN (own_count self.old person))) }
        ensures never_unknown { result ≢ Err BookFault.Unknown }
    {
        if self.roll.find(name).is_some() {
            return Err(BookFault::Known);
        }
        let count = self.roll.count();
        if count >= MOST_APPLICANTS || self.roll.own_count(person) >= MOST_OWN {
            return Err(BookFault::TooMany);
        }
        // Their bytes tell that both names are of the form of one.
        let _name_bytes = name.bytes();
        let _person_bytes = person.bytes();
        self.places.make_room(count + 1)?;
        self.conflicts.make_rows(count + 1)?;
        self.pairs.make_rows(count + 1)?;
        self.roll.add(name, person)?;
        Ok(())
    }

    /// Bars a person from reviewing an applicant. A repeat changes nothing. The room was made with the person's
    /// first applicant.
    pub fn conflict(&mut self, person: Name, proposal: Name) -> Result<(), BookFault>
        ensures only_conflicts { OnOk result (self.new ≡ record self.old { barred = self.new.barred }) }
        ensures barred { OnOk result ((a b : Text) → pair_among self.new.barred a b
            ≡ (pair_among self.old.barred a b || (bytes_eq person a && bytes_eq proposal b))) }
        ensures repeated { IsTrue (pair_among self.old.barred person proposal) → self.new ≡ self.old }
        ensures refused { OnErr result (self.new ≡ self.old) }

        ensures unknown { (result ≡ Err BookFault.Unknown)
            ↔ IsTrue (not (among (persons self.old) person && among (names self.old) proposal)) }
        ensures never_known { result ≢ Err BookFault.Known }
        ensures never_too_many { result ≢ Err BookFault.TooMany }
        ensures never_memory { result ≢ Err BookFault.Memory }
    {
        let Some(reviewer) = self.roll.find_person(person) else {
            return Err(BookFault::Unknown);
        };
        let Some(applicant) = self.roll.find(proposal) else {
            return Err(BookFault::Unknown);
        };
        if !self.conflicts.has(reviewer, applicant) {
            self.conflicts.set(reviewer, applicant);
        }
        Ok(())
    }

    /// Puts a person into a cluster. The room was made with the person's first applicant.
    pub fn place(&mut self, person: Name, cluster: u32) -> Result<(), BookFault>
        requires from_one { 1 ≤ cluster }
        requires at_most { cluster ≤ MOST_CLUSTERS }

        ensures added { OnOk result
            (self.new ≡ record self.old { placed = self.old.placed ++ (person, cluster) ∷ [] }) }
        ensures refused { OnErr result (self.new ≡ self.old) }

        ensures known { (result ≡ Err BookFault.Known) ↔ IsTrue (among (placed_names self.old) person) }
        ensures unknown { (result ≡ Err BookFault.Unknown) ↔ IsTrue (not (among (persons self.old) person)) }
        ensures never_too_many { result ≢ Err BookFault.TooMany }
        ensures never_memory { result ≢ Err BookFault.Memory }
    {
        let Some(number) = self.roll.find_person(person) else {
            return Err(BookFault::Unknown);
        };
        if self.places.cluster(number) != 0 {
            return Err(BookFault::Known);
        }
        self.places.place(number, person, cluster);
        Ok(())
    }

    /// Puts a pair of a person and an applicant on record.
    pub fn pair(&mut self, person: Name, proposal: Name) -> Result<(), BookFault>
        ensures added { OnOk result
            (self.new ≡ record self.old { pairs = self.old.pairs ++ (person, proposal) ∷ [] }) }
        ensures refused { OnErr result (self.new ≡ self.old) }

        ensures known { (result ≡ Err BookFault.Known) ↔ IsTrue (pair_among self.old.pairs person proposal) }
        ensures unknown { (result ≡ Err BookFault.Unknown)
            ↔ IsTrue (not (among (persons self.old) person && among (names self.old) proposal)) }
        ensures never_too_many { result ≢ Err BookFault.TooMany }
    {
        let Some(reviewer) = self.roll.find_person(person) else {
            return Err(BookFault::Unknown);
        };
        let Some(applicant) = self.roll.find(proposal) else {
            return Err(BookFault::Unknown);
        };
        if self.pairs.has(reviewer, applicant) {
            return Err(BookFault::Known);
        }
        self.pairs.add(reviewer, applicant)?;
        Ok(())
    }

    /// How many applicants there are.
    pub fn count(&self) -> u32
        ensures value { result ≡ length self.now.applicants }
        ensures most { result ≤ MOST_APPLICANTS }
        ensures register { IsRegister self.now }
        ensures known_conflicts { (a b : Text) → IsTrue (pair_among self.now.barred a b)
            → IsTrue (among (persons self.now) a) × IsTrue (among (names self.now) b) }
    {
        self.roll.count()
    }

    /// The name of the applicant with a number.
    pub fn name(&self, number: u32) -> Name
        requires { number < length self.now.applicants }
        ensures { slice_get (names self.now) number ≡ Some result }
    {
        self.roll.name(number)
    }

    /// The number of the applicant with a name.
    pub fn find(&self, name: Name) -> Option<u32>
        ensures value { result ≡ position (bytes_eq name) (names self.now) }
        ensures known { is_some result ≡ among (names self.now) name }
        ensures number { IfSome result (λ number. slice_get (names self.now) number ≡ Some name) }
        ensures below { IfSome result (λ number. number < length self.now.applicants) }
    {
        self.roll.find(name)
    }

    /// How many persons there are.
    pub fn persons(&self) -> u32
        ensures value { result ≡ length (persons self.now) }
        ensures most { result ≤ MOST_APPLICANTS }
    {
        self.roll.persons()
    }

    /// The name of the person with a number.
    pub fn person_name(&self, person: u32) -> Name
        requires { person < length (persons self.now) }
        ensures { slice_get (persons self.now) person ≡ Some result }
    {
        self.roll.person_name(person)
    }

    /// The number of the person of the applicant with a number.
    pub fn person_of(&self, number: u32) -> u32
        requires { number < length self.now.applicants }
        ensures value { result ≡ person_number self.now (person_of self.now number) }
        ensures person { slice_get (persons self.now) result ≡ Some (person_of self.now number) }
        ensures below { result < length (persons self.now) }
    {
        self.roll.person_of(number)
    }

    /// The number of the person with a name.
    pub fn find_person(&self, name: Name) -> Option<u32>
        ensures value { result ≡ position (bytes_eq name) (persons self.now) }
        ensures known { is_some result ≡ among (persons self.now) name }
        ensures number { IfSome result (λ person. slice_get (persons self.now) person ≡ Some name) }
        ensures below { IfSome result (λ person. person < length (persons self.now)) }
    {
        self.roll.find_person(name)
    }

    /// How many applicants the person with a number has.
    pub fn own_count(&self, person: u32) -> u32
        requires { person < length (persons self.now) }
        ensures value { result ≡ own_count self.now (text_at (persons self.now) person) }
        ensures register { IsRegister self.now }
    {
        self.roll.own_at(person)
    }

    /// The cluster into which the person with a number was put. None where it was put into none.
    pub fn cluster(&self, person: u32) -> Option<u32>
        requires { person < length (persons self.now) }
        ensures placed { is_some result ≡ among (placed_names self.now) (text_at (persons self.now) person) }
        ensures cluster { IfSome result
            (λ cluster. cluster ≡ cluster_of self.now (text_at (persons self.now) person)) }
    {
        match self.places.cluster(person) {
            0 => None,
            cluster => Some(cluster),
        }
    }

    /// Whether the person with a number is barred from reviewing the applicant with a number.
    pub fn barred(&self, person: u32, proposal: u32) -> bool
        requires person_below { person < length (persons self.now) }
        requires proposal_below { proposal < length self.now.applicants }
        ensures { result ≡ pair_among self.now.barred (text_at (persons self.now) person)
            (text_at (names self.now) proposal) }
    {
        self.conflicts.has(person, proposal)
    }

    /// The number, from one on, of the first applicant that the person with a number is barred from reviewing.
    pub fn next_conflict(&self, person: u32, from: u32) -> Option<u32>
        requires { person < length (persons self.now) }
        ensures from { IfSome result (λ number. from ≤ number) }
        ensures below { IfSome result (λ number. number < length self.now.applicants) }
        ensures barred { IfSome result (λ number. pair_among self.now.barred (text_at (persons self.now) person)
            (text_at (names self.now) number) ≡ true) }
        ensures before { IfSome result (λ number. (other : ℕ) → from ≤ other → other < number
            → pair_among self.now.barred (text_at (persons self.now) person) (text_at (names self.now) other) ≡ false) }
        ensures none { IfNone result ((other : ℕ) → from ≤ other → other < length self.now.applicants
            → pair_among self.now.barred (text_at (persons self.now) person) (text_at (names self.now) other) ≡ false) }
    {
        self.conflicts.next(person, from)
    }

    /// How many persons were put into a cluster.
    pub fn placed(&self) -> u64
        ensures { result ≡ length self.now.placed }
    {
        self.places.count()
    }

    /// How many pairs of a hand-made assignment there are.
    pub fn pairs(&self) -> u64
        ensures { result ≡ length self.now.pairs }
    {
        self.pairs.count()
    }

    /// The pair at an index, in the order in which they came: the number of a person and that of an applicant.
    pub fn pair_at(&self, index: u64) -> (u32, u32)
        requires { index < length self.now.pairs }
        ensures person_below { result.0 < length (persons self.now) }
        ensures proposal_below { result.1 < length self.now.applicants }
        ensures names { slice_get self.now.pairs index
            ≡ Some (text_at (persons self.now) result.0, text_at (names self.now) result.1) }
    {
        self.pairs.at(index)
    }
}
