//! The ways of a residual graph.

ghost use Rattle.std.specs.Prelude.{◌≡◌, ℕ, ◌<◌, ◌≤◌, ◌==◌, ◌&&◌, not, true, false, IfOk, if◌then◌else◌};
ghost use Rattle.house_base.specs.Grid.{cell};
ghost use Rattle.house_base.specs.declared.limits.TheConstants.{MOST_APPLICANTS};
ghost use Rattle.assign_flow.specs.Places.{places_of};

use crate::places::PlaceSet;
use crate::turned::turned_square;
use house_base::limits::MOST_APPLICANTS;
use house_base::{Grid, Memory};
use std::alloc::Global;
use std::marker::Model;

/// The pairs that are free to change and the pairs that are held, and the ways that they make.
#[derive(Drop)]
pub struct Ways {
    free: Grid,
    held: Grid,
    /// The free pairs that are not held: each is a way from a reviewer to a proposal.
    unheld: Grid,
    /// The same with a row for each proposal.
    openers: Grid,
    /// The free pairs that are held, with a row for each proposal: each is a way from a proposal to a reviewer.
    holders: Grid,
}

impl Model for Ways {
    ghost use Rattle.std.specs.Prelude.{◌≡◌, ℕ, ◌<◌, ◌≤◌, ◌&&◌, not};
    ghost use Rattle.house_base.specs.Grid.{cell};
    ghost use Rattle.house_base.specs.declared.limits.TheConstants.{MOST_APPLICANTS};
    ghost use Rattle.assign_flow.specs.Ways.{WayParts};

    ghost Value = { WayParts };

    ghost view = { λ w. record { free = w.free; held = w.held } };

    ghost invariant = { λ w. (w.free.side ≤ MOST_APPLICANTS) × (w.held.side ≡ w.free.side)
        × (w.unheld.side ≡ w.free.side) × (w.openers.side ≡ w.free.side) × (w.holders.side ≡ w.free.side)
        × ((r p : ℕ) → r < w.free.side → p < w.free.side
        → cell w.unheld r p ≡ (cell w.free r p && not (cell w.held r p)))
        × ((r p : ℕ) → r < w.free.side → p < w.free.side
        → cell w.openers p r ≡ (cell w.free r p && not (cell w.held r p)))
        × ((r p : ℕ) → r < w.free.side → p < w.free.side
        → cell w.holders p r ≡ (cell w.free r p && cell w.held r p)) };
}

impl Ways {
    /// The ways where no pair is held.
    pub fn new(alloc: Global, free: &Grid) -> Result<Ways, Memory>
        ensures free { IfOk result (λ ways. ways.free ≡ free.now) }
        ensures none_held { IfOk result (λ ways. (r p : ℕ) → cell ways.held r p ≡ false) }
    {
        Ok(Ways {
            free: free.copy(alloc)?,
            held: Grid::new(alloc, free.side())?,
            unheld: free.copy(alloc)?,
            openers: turned_square(alloc, free)?,
            holders: Grid::new(alloc, free.side())?,
        })
    }

    /// How many reviewers and proposals there are.
    pub fn side(&self) -> u32
        ensures value { result ≡ self.now.free.side }
        ensures most { result ≤ MOST_APPLICANTS }
    {
        self.free.side()
    }

    /// The pairs that are held.
    pub fn held(&self) -> &Grid
        ensures value { result.now ≡ self.now.held }
        ensures side { result.now.side ≡ self.now.free.side }
    {
        &self.held
    }

    /// The pairs that are held, alone.
    pub fn into_held(self) -> Grid
        ensures value { result ≡ self.held }
        ensures side { result.side ≡ self.free.side }
    {
        let Ways {
            free: _,
            held,
            unheld: _,
            openers: _,
            holders: _,
        } = self;
        held
    }

    pub fn is_held(&self, reviewer: u32, proposal: u32) -> bool
        requires reviewer_below { reviewer < self.now.free.side }
        requires proposal_below { proposal < self.now.free.side }
        ensures { result ≡ cell self.now.held reviewer proposal }
    {
        self.held.get(reviewer, proposal)
    }

    /// Holds a pair or lets it go, and leaves every other.
    pub fn set_held(&mut self, reviewer: u32, proposal: u32, value: bool)
        requires reviewer_below { reviewer < self.old.free.side }
        requires proposal_below { proposal < self.old.free.side }
        ensures free { self.new.free ≡ self.old.free }
        ensures held { (r p : ℕ) → r < self.old.free.side → p < self.old.free.side → cell self.new.held r p
            ≡ (if r == reviewer && p == proposal then value else cell self.old.held r p) }
    {
        let free = self.free.get(reviewer, proposal);
        self.held.set(reviewer, proposal, value);
        self.unheld.set(reviewer, proposal, free && !value);
        self.openers.set(proposal, reviewer, free && !value);
        self.holders.set(proposal, reviewer, free && value);
    }

    /// Settles a pair: it is not free any more.
    pub fn settle(&mut self, reviewer: u32, proposal: u32)
        requires reviewer_below { reviewer < self.old.free.side }
        requires proposal_below { proposal < self.old.free.side }
        ensures held { self.new.held ≡ self.old.held }
        ensures side { self.new.free.side ≡ self.old.free.side }
        ensures free { (r p : ℕ) → r < self.old.free.side → p < self.old.free.side → cell self.new.free r p
            ≡ (if r == reviewer && p == proposal then false else cell self.old.free r p) }
    {
        self.free.set(reviewer, proposal, false);
        self.unheld.set(reviewer, proposal, false);
        self.openers.set(proposal, reviewer, false);
        self.holders.set(proposal, reviewer, false);
    }

    /// The proposals to which a way leads from a reviewer.
    pub fn open_to(&self, reviewer: u32) -> PlaceSet
        requires { reviewer < self.now.free.side }
        ensures ways { (p : ℕ) → p < self.now.free.side → places_of result p
            ≡ (cell self.now.free reviewer p && not (cell self.now.held reviewer p)) }
        ensures outside { (p : ℕ) → self.now.free.side ≤ p → places_of result p ≡ false }
    {
        PlaceSet::of_row(&self.unheld, reviewer)
    }

    /// The reviewers from which a way leads to a proposal.
    pub fn openers_of(&self, proposal: u32) -> PlaceSet
        requires { proposal < self.now.free.side }
        ensures ways { (r : ℕ) → r < self.now.free.side → places_of result r
            ≡ (cell self.now.free r proposal && not (cell self.now.held r proposal)) }
        ensures outside { (r : ℕ) → self.now.free.side ≤ r → places_of result r ≡ false }
    {
        PlaceSet::of_row(&self.openers, proposal)
    }

    /// The reviewers to which a way leads from a proposal.
    pub fn holders_of(&self, proposal: u32) -> PlaceSet
        requires { proposal < self.now.free.side }
        ensures ways { (r : ℕ) → r < self.now.free.side → places_of result r
            ≡ (cell self.now.free r proposal && cell self.now.held r proposal) }
        ensures outside { (r : ℕ) → self.now.free.side ≤ r → places_of result r ≡ false }
    {
        PlaceSet::of_row(&self.holders, proposal)
    }

    /// The proposals that a reviewer holds by a free pair, and so can give up.
    pub fn offered_by(&self, reviewer: u32) -> PlaceSet
        requires { reviewer < self.now.free.side }
        ensures ways { (p : ℕ) → p < self.now.free.side → places_of result p
            ≡ (cell self.now.free reviewer p && cell self.now.held reviewer p) }
        ensures outside { (p : ℕ) → self.now.free.side ≤ p → places_of result p ≡ false }
    {
        let free = PlaceSet::of_row(&self.free, reviewer);
        free.and(&PlaceSet::of_row(&self.held, reviewer))
    }
}
