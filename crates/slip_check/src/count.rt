//! The members and the ballots of a slip, counted as their lines are read.

ghost use Rattle.std.specs.Prelude.{◌≢◌, AllPairs, ◌≡◌, ℕ, ◌+◌, ◌*◌, ◌<◌, ◌≤◌, ◌++◌, Some, Err, true, false, [], ◌∷◌, All, codes, length, map, position, slice_index, slice_index_or, OnOk, sum};
ghost use Rattle.std.specs.Option.{option_map_or};
ghost use Rattle.std.specs.Str.{bytes_eq};
ghost use Rattle.house_base.specs.declared.limits.TheConstants.{DOLLAR, MOST_APPLICANTS, MOST_OWN, MOST_POINTS, MOST_REVIEWS, MOST_SEATS};
ghost use Rattle.peer_selection.specs.Split.{cents_at};
ghost use Rattle.slip_check.specs.Counted.{IsCount, IsCounted, cents_for};
ghost use Rattle.slip_check.specs.Form.{Rows, ballots_in, goes_on, is_on_form, may_be_member, may_vote, members_in};
ghost use Rattle.slip_check.specs.Slip.{Slip, goes_before, rank_among, worth};
ghost use Rattle.command_text.specs.Strict.{Row, row_of, spelled_behind};

use crate::ballot::{MOST_CELLS, read_ballot};
use crate::stop::Stop;
use crate::word::{is_word, read_name};
use command_text::strict::{before_feed, first_word, last_word};
use dollar_split::split;
use exact_chance::chance;
use house_base::Name;
use house_base::limits::{DOLLAR, MOST_APPLICANTS};
use name_index::NameIndex;
use std::alloc::Global;
use std::marker::Model;

/// The members of a slip, the persons whose ballots were counted, and the members' scores on these, in cents.
#[derive(Drop)]
pub struct Count {
    members: NameIndex,
    voters: NameIndex,
    scores: Vec<u64>,
}

impl Model for Count {
    ghost use Rattle.slip_check.specs.Counted.{Counted};

    ghost Value = { Counted };

    ghost view = { λ c. record { members = c.members; voters = c.voters; scores = c.scores.items } };
}

impl Count {
    /// No members and no ballots.
    pub fn new(alloc: Global) -> Count
        ensures { result ≡ record { members = []; voters = []; scores = [] } }
    {
        Count {
            members: NameIndex::new(alloc),
            voters: NameIndex::new(alloc),
            scores: Vec::new(alloc),
        }
    }

    /// Takes a line behind the second one. After an error nothing is said of the count.
    pub fn take(&mut self, alloc: Global, line: &[u8]) -> Result<(), Stop>
        requires { IsCounted self.old }
        ensures on_form { (before : Rows) → 2 ≤ length before → IsCount before self.old
            → OnOk result (is_on_form before line.now ≡ true) }
        ensures counted { (before : Rows) → 2 ≤ length before → IsCount before self.old
            → OnOk result (IsCount (before ++ row_of line.now ∷ []) self.new) }
        ensures off { (before : Rows) → 2 ≤ length before → IsCount before self.old
            → result ≡ Err Stop.Off → is_on_form before line.now ≡ false }
    {
        let Some(text) = before_feed(line) else {
            return Err(Stop::Off);
        };
        let Some((word, rest)) = first_word(text) else {
            return Err(Stop::Off);
        };
        if is_word(word, b"member") {
            self.take_member(rest)
        } else if is_word(word, b"ballot") {
            self.take_ballot(alloc, rest)
        } else {
            Err(Stop::Off)
        }
    }

    /// Takes what stands behind the first word of a member's line.
    fn take_member(&mut self, rest: &[u8]) -> Result<(), Stop>
        requires { IsCounted self.old }
        ensures taken { (before : Rows) → IsCount before self.old → OnOk result ((ws : Row)
            × (spelled_behind rest.now ≡ Some ws) × (goes_on before (codes "member" ∷ ws) ≡ true)
            × IsCount (before ++ (codes "member" ∷ ws) ∷ []) self.new) }
        ensures off { (before : Rows) → IsCount before self.old → result ≡ Err Stop.Off
            → (ws : Row) → spelled_behind rest.now ≡ Some ws → goes_on before (codes "member" ∷ ws) ≡ false }
    {
        let Some(word) = last_word(rest) else {
            return Err(Stop::Off);
        };
        let Some(name) = read_name(word) else {
            return Err(Stop::Off);
        };
        if !self.may_be_member(&name) {
            return Err(Stop::Off);
        }
        self.members.add(name)?;
        self.scores.push(0)?;
        Ok(())
    }

    /// Whether a member of this name may still come.
    fn may_be_member(&self, name: &Name) -> bool
        ensures { (before : Rows) → IsCount before self.now → result ≡ may_be_member before name.now }
    {
        if self.voters.len() > 0 {
            return false;
        }
        if self.members.len() >= MOST_APPLICANTS {
            return false;
        }
        !self.members.find(name).is_some()
    }

    /// Whether a ballot of this person may come.
    fn may_vote(&self, person: &Name) -> bool
        ensures { (before : Rows) → IsCount before self.now → result ≡ may_vote before person.now }
    {
        if self.members.len() == 0 {
            return false;
        }
        if self.voters.len() >= MOST_APPLICANTS {
            return false;
        }
        !self.voters.find(person).is_some()
    }

    /// Takes what stands behind the first word of a ballot's line.
    fn take_ballot(&mut self, alloc: Global, rest: &[u8]) -> Result<(), Stop>
        requires { IsCounted self.old }
        ensures taken { (before : Rows) → IsCount before self.old → OnOk result ((ws : Row)
            × (spelled_behind rest.now ≡ Some ws) × (goes_on before (codes "ballot" ∷ ws) ≡ true)
            × IsCount (before ++ (codes "ballot" ∷ ws) ∷ []) self.new) }
        ensures off { (before : Rows) → IsCount before self.old → result ≡ Err Stop.Off
            → (ws : Row) → spelled_behind rest.now ≡ Some ws → goes_on before (codes "ballot" ∷ ws) ≡ false }
    {
        let ballot = match read_ballot(alloc, rest) {
            Ok(ballot) => ballot,
            Err(stop) => return Err(stop),
        };
        if !self.may_vote(&ballot.person) {
            return Err(Stop::Off);
        }
        self.voters.add(ballot.person)?;
        give(
            &self.members,
            &ballot.cells.proposals,
            &ballot.cells.points,
            &mut self.scores,
        );
        Ok(())
    }

    /// How many members came.
    pub fn members(&self) -> u32
        ensures { result ≡ length self.now.members }
    {
        self.members.len()
    }

    /// The worth of the slip of a name in a call of so many seats and persons, over the persons' dollars.
    pub fn worth(&self, name: &Name, seats: u32, persons: u32) -> u64
        requires counted { IsCounted self.now }
        requires most_seats { seats ≤ MOST_SEATS }
        requires some_persons { 1 ≤ persons }
        ensures { (rows : Rows) → IsCount rows self.now → (slip : Slip) → slip.name ≡ name.now → slip.seats ≡ seats
            → slip.persons ≡ persons → slip.members ≡ members_in rows → slip.ballots ≡ ballots_in rows → result ≡ worth slip }
    {
        match self.members.find(name) {
            Some(index) => {
                let quota = u64::from(seats) * total(&self.scores);
                let den = u64::from(persons) * u64::from(DOLLAR);
                chance(quota, den, rank(&self.scores, index))
            }
            None => 0,
        }
    }
}

/// Gives members the cents of a ballot.
fn give(members: &NameIndex, proposals: &[Name], points: &[u32], scores: &mut [u64])
    requires apart { AllPairs (λ a b. a ≢ b) proposals.now }
    requires point_each { length points.now ≡ length proposals.now }
    requires some { 1 ≤ length points.now }
    requires few { length points.now ≤ MOST_REVIEWS * MOST_OWN }
    requires points { All (λ x. x ≤ MOST_POINTS) points.now }
    requires differ { AllPairs (λ a b. a ≢ b) members.now }
    requires each { length scores.old ≡ length members.now }
    requires most { (k : ℕ) → slice_index scores.old k ≤ MOST_APPLICANTS * DOLLAR }
    ensures each { length scores.new ≡ length scores.old }
    ensures scores { (k : ℕ) → k < length members.now → slice_index scores.new k ≡ slice_index scores.old k
        + option_map_or (cents_at points.now) (position (bytes_eq (slice_index_or members.now k [])) proposals.now) 0 }
{
    let mut room = [0; MOST_CELLS];
    let cents = &mut room[..points.len()];
    split(points, cents);
    give_cents(members, proposals, cents, scores);
}

/// Gives members their cents of those that go to proposals.
fn give_cents(members: &NameIndex, proposals: &[Name], cents: &[u32], scores: &mut [u64])
    requires apart { AllPairs (λ a b. a ≢ b) proposals.now }
    requires cent_each { length cents.now ≡ length proposals.now }
    requires few { (i : ℕ) → slice_index cents.now i ≤ DOLLAR }
    requires differ { AllPairs (λ a b. a ≢ b) members.now }
    requires each { length scores.old ≡ length members.now }
    requires most { (k : ℕ) → slice_index scores.old k ≤ MOST_APPLICANTS * DOLLAR }
    ensures each { length scores.new ≡ length scores.old }
    ensures scores { (k : ℕ) → k < length members.now → slice_index scores.new k
        ≡ slice_index scores.old k + cents_for cents.now proposals.now (slice_index_or members.now k []) }
{
    for i in 0..proposals.len() {
        if let Some(member) = members.find(&proposals[i]) {
            scores[member as usize] += u64::from(cents[i]);
        }
    }
}

/// The sum of scores.
fn total(scores: &[u64]) -> u64
    requires few { length scores.now ≤ MOST_APPLICANTS }
    requires most { (k : ℕ) → slice_index scores.now k ≤ MOST_APPLICANTS * DOLLAR }
    ensures value { result ≡ sum scores.now }
    ensures most { result ≤ MOST_APPLICANTS * (MOST_APPLICANTS * DOLLAR) }
{
    let mut total = 0;
    for score in scores {
        total += *score;
    }
    total
}

/// The rank at an index among scores: 1 more than the greater ones, and the equal ones further up.
fn rank(scores: &[u64], index: u32) -> u32
    requires few { length scores.now ≤ MOST_APPLICANTS }
    requires index { index < length scores.now }
    ensures value { result ≡ rank_among scores.now index }
    ensures from_one { 1 ≤ result }
{
    let mut before = 0;
    for i in 0..scores.len() {
        if goes_before(scores, i, index as usize) {
            before += 1;
        }
    }
    before + 1
}

/// Whether the score at one index goes before that at another.
fn goes_before(scores: &[u64], rival: usize, index: usize) -> bool
    requires rival { rival < length scores.now }
    requires index { index < length scores.now }
    ensures { result ≡ goes_before scores.now index rival }
{
    let score = scores[rival];
    let own = scores[index];
    score > own || score == own && rival < index
}
