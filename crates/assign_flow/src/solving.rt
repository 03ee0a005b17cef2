//! Pairs that meet all needs and rooms, or the shortage that shows that there are none.

ghost use Rattle.std.specs.Prelude.{◌≡◌, ℕ, ◌<◌, false, IsTrue, IfOk, length, sum};
ghost use Rattle.house_base.specs.Grid.{cell};
ghost use Rattle.peer_selection.specs.Profile.{Pairs};
ghost use Rattle.peer_selection.specs.Shortage.{is_met, IsShortage};
ghost use Rattle.cut_gap.specs.Cut.{marked, demand_of};
ghost use Rattle.assign_flow.specs.Solved.{IfPairs, IfShort};

use crate::serving::{Served, serve_all};
use cut_gap::Cut;
use house_base::{Grid, Memory};
use std::alloc::Global;

/// Pairs that meet all needs and rooms, or the shortage where there are none.
#[derive(Drop)]
pub enum Solved {
    Pairs(Grid),
    Short(Cut),
}

/// Pairs in which each reviewer stands as often as it is needed and each proposal as often as it has room for, or the
/// shortage that the rules print.
pub fn solve(alloc: Global, need: &[u32], room: &[u32], may: &Grid) -> Result<Solved, Memory>
    requires needs { length need.now ≡ may.now.side }
    requires rooms { length room.now ≡ may.now.side }
    requires equal { sum need.now ≡ sum room.now }
    ensures pairs_side { IfOk result (λ solved. IfPairs solved (λ pairs. pairs.side ≡ may.now.side)) }
    ensures pairs_meet_all { IfOk result (λ solved. IfPairs solved
        (λ pairs. IsTrue (is_met (demand_of need.now room.now may.now) (cell pairs)))) }
    ensures short_where_none_do { IfOk result (λ solved. IfShort solved (λ cut. (pairs : Pairs)
        → is_met (demand_of need.now room.now may.now) pairs ≡ false)) }
    ensures cut_reviewers { IfOk result (λ solved. IfShort solved (λ cut. length cut.reviewers ≡ may.now.side)) }
    ensures cut_proposals { IfOk result (λ solved. IfShort solved (λ cut. length cut.proposals ≡ may.now.side)) }
    ensures cut_is_shortage { IfOk result (λ solved. IfShort solved (λ cut.
        IsShortage (demand_of need.now room.now may.now) (marked cut.reviewers) (marked cut.proposals))) }
{
    match serve_all(alloc, need, room, may)? {
        Served::All(ways) => Ok(Solved::Pairs(ways.into_held())),
        Served::Short(cut) => Ok(Solved::Short(cut)),
    }
}
