//! The applicants with their persons.

ghost use Rattle.std.specs.Prelude.{◌≡◌, ◌+◌, ◌<◌, ◌≤◌, Some, None, false, [], ◌∷◌, ◌++◌, is_some, OnOk, OnErr, length, map, position, slice_get, slice_index_or};
ghost use Rattle.std.specs.Str.{bytes_eq};
ghost use Rattle.house_base.specs.Text.{among};
ghost use Rattle.name_index.specs.Index.{number_in};
ghost use Rattle.register_book.specs.Roll.{names_in, persons_in, own_in};

use house_base::Name;
use house_base::limits::{MOST_APPLICANTS, MOST_OWN};
use name_index::NameIndex;
use std::alloc::{AllocError, Global};
use std::marker::Model;

/// The applicants with their persons, in register order. Applicants and persons have numbers: those of the
/// persons go by the order in which each first appears.
#[derive(Drop)]
pub struct Roll {
    applicants: Vec<(Name, Name)>,
    names: NameIndex,
    persons: NameIndex,
    owners: Vec<u32>,
    own: Vec<u32>,
}

impl Model for Roll {
    ghost use Rattle.std.specs.Prelude.{ℕ, List};
    ghost use Rattle.register_book.specs.Roll.{IsRoll};

    ghost Value = { List (List ℕ × List ℕ) };

    ghost view = { λ roll. roll.applicants.items };

    ghost invariant = { λ roll.
        IsRoll roll.applicants.items roll.names roll.persons roll.owners.items roll.own.items };
}

impl Roll {
    /// No applicants.
    pub fn new(alloc: Global) -> Roll
        ensures { result ≡ [] }
    {
        Roll {
            applicants: Vec::new(alloc),
            names: NameIndex::new(alloc),
            persons: NameIndex::new(alloc),
            owners: Vec::new(alloc),
            own: Vec::new(alloc),
        }
    }

    /// How many applicants there are.
    pub fn count(&self) -> u32
        ensures value { result ≡ length self.now }
        ensures most { result ≤ MOST_APPLICANTS }
    {
        self.names.len()
    }

    /// The name of the applicant with a number.
    pub fn name(&self, number: u32) -> Name
        requires { number < length self.now }
        ensures { slice_get (names_in self.now) number ≡ Some result }
    {
        self.names.at(number)
    }

    /// The number of the applicant with a name.
    pub fn find(&self, name: Name) -> Option<u32>
        ensures number { result ≡ position (bytes_eq name) (names_in self.now) }
        ensures known { is_some result ≡ among (names_in self.now) name }
    {
        self.names.find(&name)
    }

    /// How many persons there are.
    pub fn persons(&self) -> u32
        ensures value { result ≡ length (persons_in self.now) }
        ensures most { result ≤ MOST_APPLICANTS }
    {
        self.persons.len()
    }

    /// The name of the person with a number.
    pub fn person_name(&self, person: u32) -> Name
        requires { person < length (persons_in self.now) }
        ensures { slice_get (persons_in self.now) person ≡ Some result }
    {
        self.persons.at(person)
    }

    /// The number of the person with a name.
    pub fn find_person(&self, name: Name) -> Option<u32>
        ensures number { result ≡ position (bytes_eq name) (persons_in self.now) }
        ensures known { is_some result ≡ among (persons_in self.now) name }
    {
        self.persons.find(&name)
    }

    /// The number of the person of the applicant with a number.
    pub fn person_of(&self, number: u32) -> u32
        requires { number < length self.now }
        ensures { slice_get (map (λ a. number_in (persons_in self.now) a.1) self.now) number ≡ Some result }
    {
        self.owners[number as usize]
    }

    /// How many applicants the person with a number has.
    pub fn own_at(&self, person: u32) -> u32
        requires { person < length (persons_in self.now) }
        ensures { result ≡ own_in self.now (slice_index_or (persons_in self.now) person []) }
    {
        self.own[person as usize]
    }

    /// How many applicants a person has.
    pub fn own_count(&self, person: Name) -> u32
        ensures { result ≡ own_in self.now person }
    {
        match self.persons.find(&person) {
            Some(number) => self.own[number as usize],
            None => 0,
        }
    }

    /// Puts an applicant and its person behind the others.
    pub fn add(&mut self, name: Name, person: Name) -> Result<(), AllocError>
        requires few { length self.old < MOST_APPLICANTS }
        requires few_own { own_in self.old person < MOST_OWN }
        requires unknown { among (names_in self.old) name ≡ false }
        ensures added { OnOk result (self.new ≡ self.old ++ (name, person) ∷ []) }
        ensures refused { OnErr result (self.new ≡ self.old) }
    {
        match self.persons.find(&person) {
            Some(number) => self.add_to_known(name, person, number),
            None => self.add_to_new(name, person),
        }
    }

    /// Puts an applicant of a person who has one behind the others.
    fn add_to_known(&mut self, name: Name, person: Name, number: u32) -> Result<(), AllocError>
        requires few { length self.old < MOST_APPLICANTS }
        requires few_own { own_in self.old person < MOST_OWN }
        requires unknown { among (names_in self.old) name ≡ false }
        requires known { position (bytes_eq person) (persons_in self.old) ≡ Some number }
        ensures added { OnOk result (self.new ≡ self.old ++ (name, person) ∷ []) }
        ensures refused { OnErr result (self.new ≡ self.old) }
    {
        self.applicants.reserve(1)?;
        self.owners.reserve(1)?;
        self.names.add(name)?;
        self.applicants.push_reserved((name, person));
        self.owners.push_reserved(number);
        self.own[number as usize] += 1;
        Ok(())
    }

    /// Puts the first applicant of a person behind the others.
    fn add_to_new(&mut self, name: Name, person: Name) -> Result<(), AllocError>
        requires few { length self.old < MOST_APPLICANTS }
        requires unknown { among (names_in self.old) name ≡ false }
        requires unknown_person { among (persons_in self.old) person ≡ false }
        ensures added { OnOk result (self.new ≡ self.old ++ (name, person) ∷ []) }
        ensures refused { OnErr result (self.new ≡ self.old) }
    {
        self.applicants.reserve(1)?;
        self.owners.reserve(1)?;
        self.own.reserve(1)?;
        let number = self.persons.len();
        add_both(&mut self.names, &mut self.persons, name, person)?;
        self.applicants.push_reserved((name, person));
        self.owners.push_reserved(number);
        self.own.push_reserved(1);
        Ok(())
    }
}

/// Puts a name and that of a person behind the others, or neither.
fn add_both(
    names: &mut NameIndex,
    persons: &mut NameIndex,
    name: Name,
    person: Name,
) -> Result<(), AllocError>
    requires few { length names.old < MOST_APPLICANTS }
    requires few_persons { length persons.old < MOST_APPLICANTS }
    requires unknown { among names.old name ≡ false }
    requires unknown_person { among persons.old person ≡ false }
    ensures added { OnOk result (names.new ≡ names.old ++ name ∷ []) }
    ensures added_person { OnOk result (persons.new ≡ persons.old ++ person ∷ []) }
    ensures refused { OnErr result (names.new ≡ names.old) }
    ensures refused_person { OnErr result (persons.new ≡ persons.old) }
{
    persons.add(person)?;
    if names.add(name).is_err() {
        persons.remove_last();
        return Err(AllocError);
    }
    Ok(())
}
