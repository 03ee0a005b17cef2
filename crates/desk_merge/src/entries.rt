//! The reviews of a desk, held as the text of their desk file.

use crate::entry::Entry;
use crate::review_text::ReviewText;
use crate::scan::{first_entry, first_key, key_and_points};
use house_base::{Memory, Name};
use std::alloc::Global;
use std::cmp::Ordering;
use std::marker::Model;

/// Reviews by reviewer and proposal, each with a revision: a finite map.
#[derive(Drop)]
pub struct Entries {
    /// The desk file.
    text: Vec<u8>,
    /// Where each line ends in it.
    ends: Vec<usize>,
}

impl Model for Entries {
    ghost use Rattle.desk_merge.specs.Joined.{Joined, joined_code};
    ghost use Rattle.desk_merge.specs.Held.{AreHeld, joined_in};

    ghost Value = { Joined };

    ghost coded = { joined_code };

    ghost view = { λ d. joined_in d.text.items };

    ghost invariant = { λ d. AreHeld d.text.items d.ends.items };
}

impl Entries {
    ghost use Rattle.std.specs.Prelude.{◌≡◌, ◌↔◌, ◌<◌, ◌++◌, ◌∷◌, [], Some, IsTrue, OnOk, OnErr, slice_get};
    ghost use Rattle.std.specs.FinMap as map;
    ghost use Rattle.desk_merge.specs.Desk.{AreItems, CanFollow, IsItem, desk_file, entry_line};
    ghost use Rattle.desk_merge.specs.Entry.{item_of};
    ghost use Rattle.desk_merge.specs.Held.{item_at, item_on};
    ghost use Rattle.desk_merge.specs.Joined.{key_cmp};
    ghost use Rattle.desk_merge.specs.Put.{review_lines};
    ghost use Rattle.command_text.specs.Held.{HasNoFeed};

    /// No reviews.
    pub fn new(alloc: Global) -> Entries
        ensures { result ≡ map.empty }
    {
        Entries {
            text: Vec::new(alloc),
            ends: Vec::new(alloc),
        }
    }

    /// How many reviews there are.
    pub fn count(&self) -> u64
        ensures { result ≡ map.len self.now }
    {
        self.ends.len() as u64
    }

    /// The review at an index, counted from 0, in the order of the reviewers' bytes, then of the proposals'.
    pub fn entry(&self, index: u64) -> Entry
        requires { index < map.len self.now }
        ensures value { slice_get (map.entries self.now) index ≡ Some (item_of result) }
        ensures formed { IsItem (item_of result) }
    {
        match first_entry(self.line(index)) {
            Some((entry, _)) => entry,
            None => unreachable!(),
        }
    }

    /// The revision and the points of a reviewer for a proposal. None where there is no such review.
    pub fn get(&self, reviewer: Name, proposal: Name) -> Option<(u64, u32)>
        ensures { result ≡ map.get self.now (reviewer, proposal) }
    {
        let mut low = 0;
        let mut high = self.count();
        while low < high {
            let middle = low + (high - low) / 2;
            match self.order(middle, reviewer.bytes(), proposal.bytes()) {
                Ordering::Less => high = middle,
                Ordering::Greater => low = middle + 1,
                Ordering::Equal => return Some(self.review(middle)),
            }
        }
        None
    }

    /// Appends the desk file: a line for each review, in the order of the keys. After an error the text is as before.
    pub fn write(&self, out: &mut Vec<u8>) -> Result<(), Memory>
        ensures ok { OnOk result (out.new.items ≡ out.old.items ++ desk_file self.now) }
        ensures err { OnErr result (out.new.items ≡ out.old.items) }
        ensures formed { AreItems (map.entries self.now) }
    {
        out.extend_from_slice(&self.text)?;
        Ok(())
    }

    /// How a key compares with that at an index.
    pub(crate) fn order(&self, index: u64, reviewer: &[u8], proposal: &[u8]) -> Ordering
        requires { index < map.len self.now }
        ensures { result ≡ key_cmp (reviewer.now, proposal.now) (item_at self.now index).0 }
    {
        let (own_reviewer, own_proposal) = self.key(index);
        match reviewer.cmp(own_reviewer) {
            Ordering::Equal => proposal.cmp(own_proposal),
            order => order,
        }
    }

    /// The reviewer and the proposal at an index.
    pub(crate) fn key(&self, index: u64) -> (&[u8], &[u8])
        requires { index < map.len self.now }
        ensures { (result.0.now, result.1.now) ≡ (item_at self.now index).0 }
    {
        match first_key(self.line(index)) {
            Some((reviewer, proposal, _)) => (reviewer, proposal),
            None => unreachable!(),
        }
    }

    /// The review line at an index, in the same order.
    pub fn review_text(&self, index: u64) -> ReviewText
        requires { index < map.len self.now }
        ensures value { slice_get (review_lines self.now) index ≡ Some result }
        ensures no_line_feed { HasNoFeed result }
    {
        let line = self.line(index);
        match key_and_points(line) {
            Some((reviewer, proposal, points)) => ReviewText::of(reviewer, proposal, points),
            None => unreachable!(),
        }
    }

    /// The revision and the points at an index.
    pub(crate) fn review(&self, index: u64) -> (u64, u32)
        requires { index < map.len self.now }
        ensures { result ≡ (item_at self.now index).1 }
    {
        let entry = self.entry(index);
        (entry.revision, entry.points)
    }

    /// The line at an index, with its line feed.
    pub(crate) fn line(&self, index: u64) -> &[u8]
        requires { index < map.len self.now }
        ensures value { result.now ≡ entry_line (item_at self.now index) }
        ensures formed { IsItem (item_at self.now index) }
    {
        let index = index as usize;
        let start = start_of(&self.ends, index);
        let end = self.ends[index];
        &self.text.as_slice()[start..end]
    }

    /// Whether a review comes behind all that there are.
    pub(crate) fn can_follow(&self, entry: &Entry) -> bool
        ensures { IsTrue result ↔ CanFollow (map.entries self.now) (item_of entry.now) }
    {
        let count = self.count();
        if count == 0 {
            return true;
        }
        is_behind(self.order(count - 1, entry.reviewer.bytes(), entry.proposal.bytes()))
    }

    /// Appends the line of a review that comes behind all that there are. After an error they are as before.
    pub(crate) fn push(&mut self, line: &[u8]) -> Result<(), Memory>
        requires line { line.now ≡ entry_line (item_on line.now) }
        requires formed { IsItem (item_on line.now) }
        requires behind { CanFollow (map.entries self.old) (item_on line.now) }
        ensures ok { OnOk result (map.entries self.new ≡ map.entries self.old ++ item_on line.now ∷ []) }
        ensures err { OnErr result (self.new ≡ self.old) }
    {
        self.ends.reserve(1)?;
        self.text.extend_from_slice(line)?;
        self.ends.push_reserved(self.text.len());
        Ok(())
    }
}

ghost use Rattle.std.specs.Prelude.{◌≡◌, ◌↔◌, ◌<◌, ◌∷◌, IsTrue, length, slice_index};

/// Whether a key comes behind another, by how it compares with it.
fn is_behind(order: Ordering) -> bool
    ensures { IsTrue result ↔ (order ≡ Ordering.Greater) }
{
    matches!(order, Ordering::Greater)
}

/// Where the line at an index starts: where the one before it ends.
fn start_of(ends: &[usize], index: usize) -> usize
    requires { index < length ends.now }
    ensures { result ≡ slice_index (0 ∷ ends.now) index }
{
    if index == 0 { 0 } else { ends[index - 1] }
}
