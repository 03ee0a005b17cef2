//! The plan of a call: its applicants in place order, their persons, and who may review whom.

ghost use Rattle.std.specs.Prelude.{◌≡◌, ℕ, ◌*◌, ◌<◌, ◌≤◌, length, map, Contains, IfSome, IfNone, slice_get};
ghost use Rattle.house_base.specs.Setting.{IsSetting, IsOwned, setting_of, size, names_of, number_at, owner_from, need, may, distance};

use crate::call::Call;
use crate::grid::Grid;
use crate::limits::{MOST_OWN, MOST_REVIEWS};
use crate::name::Name;
use crate::tables::{Table, table_of_owners, table_of_places};
use std::marker::Model;

/// One applicant, with its cluster, counted from 1, and its register number, counted from 0.
#[derive(Clone, Copy, Debug, PartialEq, Eq)]
pub struct Person {
    pub name: Name,
    pub cluster: u32,
    pub number: u32,
}

/// A person with the place of its first applicant and the number of its applicants, which stand at that
/// place and the next ones.
#[derive(Clone, Copy, Debug, PartialEq, Eq)]
pub struct Owner {
    pub name: Name,
    pub first: u32,
    pub own: u32,
}

/// The setting of a peer selection call: the call, the applicants in place order, their persons, and the
/// pairs that may not be. Places count from 0. A reviewer is a person, named by the place of its first
/// applicant.
#[derive(Drop)]
pub struct Plan {
    call: Call,
    people: Vec<Person>,
    owners: Vec<Owner>,
    barred: Grid,
    place_of_number: Table,
    owner_of_place: Table,
}

impl Model for Plan {
    ghost use Rattle.house_base.specs.Setting.{Setting, setting_of};
    ghost use Rattle.house_base.specs.Tables.{IsPlan};

    ghost Value = { Setting };

    ghost view = { λ p. setting_of p.call p.people.items p.owners.items p.barred };

    ghost invariant = { λ p. IsPlan (setting_of p.call p.people.items p.owners.items p.barred) p.place_of_number p.owner_of_place };
}

impl Plan {
    /// The plan of these people in place order, these persons in the order of their first places, and these
    /// pairs of a person's place and an applicant's place that may not be.
    pub fn build(call: Call, people: Vec<Person>, owners: Vec<Owner>, barred: Grid) -> Plan
        requires { IsSetting (setting_of call people.items owners.items barred) }
        ensures { result ≡ setting_of call people.items owners.items barred }
    {
        let place_of_number = table_of_places(&people);
        let owner_of_place = table_of_owners(&owners, people.len() as u32);
        Plan {
            call,
            people,
            owners,
            barred,
            place_of_number,
            owner_of_place,
        }
    }

    /// What the call gives out.
    pub fn call(&self) -> Call
        ensures seats { result.seats ≡ self.now.seats }
        ensures clusters { result.clusters ≡ self.now.clusters }
        ensures reviews { result.reviews ≡ self.now.reviews }
    {
        self.call
    }

    /// How many applicants there are.
    pub fn count(&self) -> u32
        ensures value { result ≡ size self.now }
        ensures setting { IsSetting self.now }
    {
        self.people.len() as u32
    }

    /// The applicant at a place.
    pub fn person(&self, place: u32) -> Person
        requires { place < size self.now }
        ensures { slice_get self.now.people place ≡ Some result }
    {
        self.people[place as usize]
    }

    /// The place of a register number.
    pub fn at_number(&self, number: u32) -> u32
        requires { number < size self.now }
        ensures below { result < size self.now }
        ensures number { number_at self.now result ≡ number }
    {
        u32::from(self.place_of_number[number as usize])
    }

    /// Whether the person whose first place is the reviewer's may review the proposal.
    pub fn may(&self, reviewer: u32, proposal: u32) -> bool
        requires reviewer_below { reviewer < size self.now }
        requires proposal_below { proposal < size self.now }
        ensures { result ≡ may self.now reviewer proposal }
    {
        let same_cluster = self.person(reviewer).cluster == self.person(proposal).cluster;
        self.owner_from(reviewer).is_some() && !same_cluster && !self.barred.get(reviewer, proposal)
    }

    /// The pairs that may not be, although the two stand in different clusters.
    pub fn barred(&self) -> &Grid
        ensures value { result.now ≡ self.now.barred }
        ensures side { result.now.side ≡ size self.now }
    {
        &self.barred
    }

    /// How far the proposal stands behind the reviewer, round the places: 0 for the next one.
    pub fn distance(&self, reviewer: u32, proposal: u32) -> u32
        requires reviewer_below { reviewer < size self.now }
        requires proposal_below { proposal < size self.now }
        ensures { result ≡ distance (size self.now) reviewer proposal }
    {
        let count = self.count();
        (proposal + count - (reviewer + 1)) % count
    }

    /// The place of the applicant of this name. None where no applicant has it.
    pub fn place_of(&self, name: Name) -> Option<u32>
        ensures found { IfSome result (λ place. slice_get (names_of self.now) place ≡ Some name) }
        ensures none { IfNone result (Contains (names_of self.now) name → ⊥) }
    {
        for place in 0..self.count() {
            if self.person(place).name == name {
                return Some(place);
            }
        }
        None
    }

    /// How many persons there are.
    pub fn owners(&self) -> u32
        ensures value { result ≡ length self.now.owners }
        ensures most { length self.now.owners ≤ size self.now }
    {
        self.owners.len() as u32
    }

    /// A person, in the order of their first places.
    pub fn owner(&self, index: u32) -> Owner
        requires { index < length self.now.owners }
        ensures { slice_get self.now.owners index ≡ Some result }
    {
        self.owners[index as usize]
    }

    /// The person to whom the applicant at a place belongs.
    pub fn owner_at(&self, place: u32) -> Owner
        requires { place < size self.now }
        ensures person { Contains self.now.owners result }
        ensures owned { IsOwned result place }
        ensures setting { IsSetting self.now }
    {
        self.owners[self.owner_of_place[place as usize] as usize]
    }

    /// The place of the person of this name. None where no person has it.
    pub fn owner_of(&self, name: Name) -> Option<u32>
        ensures found { IfSome result (λ place. (own : ℕ) ×
            Contains self.now.owners (record { name = name; first = place; own = own })) }
        ensures none { IfNone result (Contains (map (λ owner. owner.name) self.now.owners) name → ⊥) }
    {
        for owner in &self.owners {
            if owner.name == name {
                return Some(owner.first);
            }
        }
        None
    }

    /// How many reviews the person whose first place this is owes: so many for each of its applicants. 0 at
    /// a place that is no person's first.
    pub fn need(&self, place: u32) -> u32
        requires { place < size self.now }
        ensures value { result ≡ need self.now place }
        ensures most { result ≤ MOST_REVIEWS * MOST_OWN }
    {
        match self.owner_from(place) {
            Some(owner) => self.call.reviews * owner.own,
            None => 0,
        }
    }

    /// The person whose first place this is.
    fn owner_from(&self, place: u32) -> Option<Owner>
        requires { place < size self.now }
        ensures { result ≡ owner_from self.now place }
    {
        let owner = self.owner_at(place);
        if owner.first == place {
            Some(owner)
        } else {
            None
        }
    }
}
