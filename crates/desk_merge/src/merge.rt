//! The join of the reviews of two desks.

ghost use Rattle.std.specs.Prelude.{◌≡◌, ◌<◌, ◌⊎◌, IfOk, OnOk, ◌++◌, ◌∷◌, [], if◌then◌else◌};
ghost use Rattle.std.specs.FinMap as map;
ghost use Rattle.desk_merge.specs.Desk.{CanFollow};
ghost use Rattle.desk_merge.specs.Held.{item_at};
ghost use Rattle.desk_merge.specs.Joined.{greater, join, key_cmp};
ghost use Rattle.desk_merge.specs.Merge.{IsNext};

use crate::entries::Entries;
use house_base::Memory;
use std::alloc::Global;
use std::cmp::Ordering;

/// Whose review comes next.
#[derive(Clone, Copy)]
enum Turn {
    One,
    Other,
    /// Both have one of the same key.
    Both,
}

impl Entries {
    /// The join: each key of either, and where both have it the review of the greater revision, and with equal revisions that
    /// of the greater points.
    pub fn merged(alloc: Global, one: &Entries, other: &Entries) -> Result<Entries, Memory>
        ensures { IfOk result (λ merged. merged ≡ join one.now other.now) }
    {
        let mut merged = Entries::new(alloc);
        let mut i = 0;
        let mut j = 0;
        let ones = one.count();
        let others = other.count();
        while i < ones || j < others {
            match next_turn(one, i, other, j) {
                Turn::One => {
                    merged.push_from(one, i)?;
                    i += 1;
                }
                Turn::Other => {
                    merged.push_from(other, j)?;
                    j += 1;
                }
                Turn::Both => {
                    merged.push_better(one, i, other, j)?;
                    i += 1;
                    j += 1;
                }
            }
        }
        Ok(merged)
    }

    /// Appends the review at an index of others, which comes behind all that there are.
    fn push_from(&mut self, others: &Entries, index: u64) -> Result<(), Memory>
        requires within { index < map.len others.now }
        requires behind { CanFollow (map.entries self.old) (item_at others.now index) }
        ensures { OnOk result (map.entries self.new ≡ map.entries self.old ++ item_at others.now index ∷ []) }
    {
        self.push(others.line(index))
    }

    /// Appends the greater of two reviews of one key, which comes behind all that there are.
    fn push_better(&mut self, one: &Entries, i: u64, other: &Entries, j: u64) -> Result<(), Memory>
        requires within_one { i < map.len one.now }
        requires within_other { j < map.len other.now }
        requires same_key { key_cmp (item_at one.now i).0 (item_at other.now j).0 ≡ Ordering.Equal }
        requires behind { CanFollow (map.entries self.old) (item_at one.now i) }
        ensures { OnOk result (map.entries self.new ≡ map.entries self.old
            ++ ((item_at one.now i).0, greater (item_at one.now i).1 (item_at other.now j).1) ∷ []) }
    {
        if is_above(other.review(j), one.review(i)) {
            self.push_from(other, j)
        } else {
            self.push_from(one, i)
        }
    }
}

/// Whose review comes next, where one of them has a next one.
fn next_turn(one: &Entries, i: u64, other: &Entries, j: u64) -> Turn
    requires { (i < map.len one.now) ⊎ (j < map.len other.now) }
    ensures { IsNext result one.now i other.now j }
{
    if i >= one.count() {
        return Turn::Other;
    }
    if j >= other.count() {
        return Turn::One;
    }
    let (reviewer, proposal) = one.key(i);
    match other.order(j, reviewer, proposal) {
        Ordering::Less => Turn::One,
        Ordering::Equal => Turn::Both,
        Ordering::Greater => Turn::Other,
    }
}

/// Whether a review is greater than another, by revision, then by points.
fn is_above(a: (u64, u32), b: (u64, u32)) -> bool
    ensures { greater b a ≡ (if result then a else b) }
{
    a.0 > b.0 || (a.0 == b.0 && a.1 > b.1)
}
