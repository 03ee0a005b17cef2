//! Tables of a plan: the place of each register number, and the person of each place. They take no memory.

ghost use Rattle.std.specs.Prelude.{◌≡◌, ◌≢◌, ℕ, ◌+◌, ◌<◌, ◌≤◌, All, AllPairs, length, map, slice_index};
ghost use Rattle.house_base.specs.Setting.{StandInTurn};
ghost use Rattle.house_base.specs.Tables.{GivesOwners};

use crate::limits::{MOST_APPLICANTS, MOST_OWN};
use crate::plan::{Owner, Person};

/// How many entries a table has: one for each applicant that a call may have.
pub const TABLE_LEN: usize = MOST_APPLICANTS as usize;

/// A number below `MOST_APPLICANTS` for each number below it.
pub type Table = [u16; TABLE_LEN];

/// For each register number the place of its applicant.
pub fn table_of_places(people: &[Person]) -> Table
    requires few { length people.now ≤ MOST_APPLICANTS }
    requires below { All (λ number. number < length people.now) (map (λ person. person.number) people.now) }
    requires differ { AllPairs (λ a b. a ≢ b) (map (λ person. person.number) people.now) }
    ensures room { length result ≡ MOST_APPLICANTS }
    ensures place { (place : ℕ) → place < length people.now →
        slice_index result (slice_index (map (λ person. person.number) people.now) place) ≡ place }
{
    let mut table = [0; TABLE_LEN];
    for (place, person) in people.iter().enumerate() {
        table[person.number as usize] = place as u16;
    }
    table
}

/// For each place the index of the person to whom it belongs.
pub fn table_of_owners(owners: &[Owner], count: u32) -> Table
    requires few { count ≤ MOST_APPLICANTS }
    requires own { All (λ owner. (1 ≤ owner.own) × (owner.own ≤ MOST_OWN)) owners.now }
    requires in_turn { StandInTurn 0 owners.now count }
    ensures { GivesOwners owners.now result }
{
    let mut table = [0; TABLE_LEN];
    for (index, owner) in owners.iter().enumerate() {
        fill(
            &mut table,
            owner.first,
            owner.first + owner.own,
            index as u16,
        );
    }
    table
}

/// Writes an entry at each place from the first up to the end.
fn fill(table: &mut Table, first: u32, end: u32, entry: u16)
    requires { end ≤ MOST_APPLICANTS }
    ensures inside { (place : ℕ) → first ≤ place → place < end → slice_index table.new place ≡ entry }
    ensures before { (place : ℕ) → place < first → slice_index table.new place ≡ slice_index table.old place }
    ensures room { length table.new ≡ length table.old }
{
    for place in first..end {
        table[place as usize] = entry;
    }
}
