//! Pairs that meet all needs and rooms while they are settled one by one.

ghost use Rattle.std.specs.Prelude.{◌≡◌, ℕ, ◌<◌, ◌↔◌, ◌==◌, ◌&&◌, true};
ghost use Rattle.std.specs.Prelude.{false, Some, None, IsTrue, IfOk, length, sum, if◌then◌else◌};
ghost use Rattle.house_base.specs.Grid.{cell};
ghost use Rattle.peer_selection.specs.Profile.{Pairs};
ghost use Rattle.peer_selection.specs.Shortage.{is_met, IsShortage};
ghost use Rattle.cut_gap.specs.Cut.{marked, demand_of};

use crate::closed::Closed;
use crate::reroute::hold;
use crate::search::Search;
use crate::serving::{Served, serve_all};
use crate::ways::Ways;
use cut_gap::Cut;
use house_base::{Grid, Memory};
use std::alloc::Global;
use std::marker::Model;

/// Pairs that meet all needs and rooms. Each pair that may be can be settled: it is then kept or left out for good.
#[derive(Drop)]
pub struct Flow {
    need: Vec<u32>,
    room: Vec<u32>,
    may: Grid,
    /// The ways among the pairs that may be and are not settled.
    ways: Ways,
    search: Search,
    /// What is known to have no way out: a pair from it to another reviewer cannot be held any more.
    closed: Closed,
}

impl Model for Flow {
    ghost use Rattle.std.specs.Prelude.{◌≡◌, ℕ, ◌<◌, true, IsTrue, length, vec_len};
    ghost use Rattle.house_base.specs.Grid.{cell};
    ghost use Rattle.peer_selection.specs.Shortage.{is_met};
    ghost use Rattle.cut_gap.specs.Cut.{demand_of};
    ghost use Rattle.assign_flow.specs.ClosedSet.{HasNoWayOut};
    ghost use Rattle.assign_flow.specs.Flow.{FlowParts};
    ghost use Rattle.assign_flow.specs.Ways.{graph_of};

    ghost Value = { FlowParts };

    ghost view = { λ f. record {
      needs = f.need.items;
      rooms = f.room.items;
      may = f.may;
      held = f.ways.held;
      free = f.ways.free;
    } };

    ghost invariant = { λ f. (f.ways.free.side ≡ f.may.side) × (vec_len f.search.reviewers ≡ f.may.side)
        × IsTrue (is_met (demand_of f.need.items f.room.items f.may) (cell f.ways.held))
        × ((r p : ℕ) → r < f.may.side → p < f.may.side → cell f.ways.free r p ≡ true → cell f.may r p ≡ true)
        × HasNoWayOut (graph_of f.ways) f.closed };
}

/// A flow, or the shortage where no pairs meet all needs and rooms.
#[derive(Drop)]
pub enum Started {
    Ready(Flow),
    Short(Cut),
}

impl Flow {
    ghost use Rattle.assign_flow.specs.Flow.{CanHold, Agrees, flow_demand, settled};
    ghost use Rattle.assign_flow.specs.Reroute.{ChangesFew};
    ghost use Rattle.assign_flow.specs.Started.{IfReady, IfNotReady};

    /// Pairs that meet all needs and rooms, with nothing settled; or the shortage, as `solve` gives it.
    pub fn start(alloc: Global, need: &[u32], room: &[u32], may: &Grid) -> Result<Started, Memory>
        requires needs { length need.now ≡ may.now.side }
        requires rooms { length room.now ≡ may.now.side }
        requires equal { sum need.now ≡ sum room.now }
        ensures needs { IfOk result (λ started. IfReady started (λ flow. flow.needs ≡ need.now)) }
        ensures rooms { IfOk result (λ started. IfReady started (λ flow. flow.rooms ≡ room.now)) }
        ensures side { IfOk result (λ started. IfReady started (λ flow. flow.may.side ≡ may.now.side)) }
        ensures allowed { IfOk result (λ started. IfReady started (λ flow. (r p : ℕ) → r < may.now.side
            → p < may.now.side → cell flow.may r p ≡ cell may.now r p)) }
        ensures nothing_is_settled { IfOk result (λ started. IfReady started (λ flow. (r p : ℕ)
            → r < may.now.side → p < may.now.side → settled flow r p ≡ None)) }
        ensures short_where_none_do { IfOk result (λ started. IfNotReady started (λ cut. (pairs : Pairs)
            → is_met (demand_of need.now room.now may.now) pairs ≡ false)) }
        ensures cut_reviewers { IfOk result (λ started. IfNotReady started
            (λ cut. length cut.reviewers ≡ may.now.side)) }
        ensures cut_proposals { IfOk result (λ started. IfNotReady started
            (λ cut. length cut.proposals ≡ may.now.side)) }
        ensures cut_is_shortage { IfOk result (λ started. IfNotReady started (λ cut.
            IsShortage (demand_of need.now room.now may.now) (marked cut.reviewers) (marked cut.proposals))) }
    {
        match serve_all(alloc, need, room, may)? {
            Served::All(ways) => {
                let flow = Flow {
                    need: need.to_vec(alloc)?,
                    room: room.to_vec(alloc)?,
                    may: may.copy(alloc)?,
                    ways,
                    search: Search::new(alloc, may.side())?,
                    closed: Closed::empty(),
                };
                Ok(Started::Ready(flow))
            }
            Served::Short(cut) => Ok(Started::Short(cut)),
        }
    }

    /// The pairs that are held.
    pub fn pairs(&self) -> &Grid
        ensures value { result.now ≡ self.now.held }
        ensures side { result.now.side ≡ self.now.may.side }
        ensures meet_all { IsTrue (is_met (flow_demand self.now) (cell result.now)) }
        ensures agree { Agrees self.now (cell result.now) }
    {
        self.ways.held()
    }

    /// Settles a pair that may be: it is kept where some pairs that meet all and agree with what is settled have it,
    /// and left out where none have.
    pub fn settle(&mut self, reviewer: u32, proposal: u32) -> bool
        requires reviewer_below { reviewer < self.old.may.side }
        requires proposal_below { proposal < self.old.may.side }
        requires allowed { cell self.old.may reviewer proposal ≡ true }
        requires unsettled { settled self.old reviewer proposal ≡ None }
        ensures needs { self.new.needs ≡ self.old.needs }
        ensures rooms { self.new.rooms ≡ self.old.rooms }
        ensures may { self.new.may ≡ self.old.may }
        ensures kept_where_some_hold_it { IsTrue result ↔ CanHold self.old reviewer proposal }
        ensures settles_this_pair { (r p : ℕ) → r < self.old.may.side → p < self.old.may.side
            → settled self.new r p ≡ (if r == reviewer && p == proposal then Some result else settled self.old r p) }
        ensures unchanged_where_left_out { result ≡ false → self.new.held ≡ self.old.held }
        ensures unchanged_where_held { cell self.old.held reviewer proposal ≡ true → self.new.held ≡ self.old.held }
        ensures changes_few { ChangesFew self.old.may.side (cell self.old.held) (cell self.new.held) }
    {
        let kept = hold(
            &mut self.ways,
            &mut self.search,
            &mut self.closed,
            reviewer,
            proposal,
        );
        self.ways.settle(reviewer, proposal);
        kept
    }
}
