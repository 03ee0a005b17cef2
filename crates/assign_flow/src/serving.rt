//! Pairs that meet all needs and rooms with the ways that they make, or the shortage that shows that there are none.

ghost use Rattle.std.specs.Prelude.{◌≡◌, ℕ, ◌<◌, false, IsTrue, IfOk, length, sum};
ghost use Rattle.house_base.specs.Grid.{cell};
ghost use Rattle.peer_selection.specs.Profile.{Pairs};
ghost use Rattle.peer_selection.specs.Shortage.{is_met, IsShortage};
ghost use Rattle.cut_gap.specs.Cut.{marked, demand_of};
ghost use Rattle.assign_flow.specs.Served.{IfAll, IfNotAll};

use crate::draft::Draft;
use crate::search::Search;
use crate::ways::Ways;
use cut_gap::Cut;
use house_base::{Grid, Memory};
use std::alloc::Global;

/// The ways of pairs that meet all needs and rooms, or the shortage where there are none.
#[derive(Drop)]
pub enum Served {
    All(Ways),
    Short(Cut),
}

/// Holds pairs in which each reviewer stands as often as it is needed and each proposal as often as it has room for,
/// with all pairs that may be free; or gives the shortage that the rules print. (Ford and Fulkerson's augmenting paths;
/// the cut is the smallest source side among the least cuts.)
pub fn serve_all(alloc: Global, need: &[u32], room: &[u32], may: &Grid) -> Result<Served, Memory>
    requires needs { length need.now ≡ may.now.side }
    requires rooms { length room.now ≡ may.now.side }
    requires equal { sum need.now ≡ sum room.now }
    ensures free { IfOk result (λ served. IfAll served (λ ways. ways.free ≡ may.now)) }
    ensures pairs_meet_all { IfOk result (λ served. IfAll served
        (λ ways. IsTrue (is_met (demand_of need.now room.now may.now) (cell ways.held)))) }
    ensures short_where_none_do { IfOk result (λ served. IfNotAll served (λ cut. (pairs : Pairs)
        → is_met (demand_of need.now room.now may.now) pairs ≡ false)) }
    ensures cut_reviewers { IfOk result (λ served. IfNotAll served (λ cut. length cut.reviewers ≡ may.now.side)) }
    ensures cut_proposals { IfOk result (λ served. IfNotAll served (λ cut. length cut.proposals ≡ may.now.side)) }
    ensures cut_is_shortage { IfOk result (λ served. IfNotAll served (λ cut.
        IsShortage (demand_of need.now room.now may.now) (marked cut.reviewers) (marked cut.proposals))) }
{
    let side = may.side();
    let mut search = Search::new(alloc, side)?;
    let mut draft = Draft::new(alloc, need, room, may)?;
    draft.fill();
    for reviewer in 0..side {
        draft.serve(&mut search, reviewer);
    }
    while draft.augment(&mut search) {}
    if draft.is_complete() {
        return Ok(Served::All(draft.into_ways()));
    }
    let cut = search.cut(alloc)?;
    Ok(Served::Short(cut))
}
