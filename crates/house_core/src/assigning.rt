//! The assignment with which the reviews begin.

ghost use Rattle.std.specs.Prelude.{◌≡◌, ◌≢◌, ◌≤◌, None, OnOk, OnErr, IfOk, IfErr, IfSome, IsTrue, true};
ghost use Rattle.house_base.specs.Grid.{cell};
ghost use Rattle.house_base.specs.Setting.{size};
ghost use Rattle.peer_selection.specs.FirstAssignment.{first_assignment, has_assignment};
ghost use Rattle.peer_selection.specs.Profile.{denominator, is_valid};
ghost use Rattle.house_model.specs.declared.command.Command.TheVariants as command;
ghost use Rattle.house_model.specs.Faults.{looks_at_pairs};
ghost use Rattle.house_model.specs.Naming.{HasNamesOf};
ghost use Rattle.house_model.specs.Register.{IsRegister, name_pair};
ghost use Rattle.house_model.specs.Said.{denominator_of};
ghost use Rattle.seat_quota.specs.Tally.{IsTally};
ghost use Rattle.house_core.specs.Standing.{BeginsReviews, IsOfInvalid, IsOfNone, IsSilentRound, IsState};
ghost use Rattle.house_core.specs.Standing.{Obeys, StopsAt, own_halt};
ghost use Rattle.house_core.specs.Stops.{stop_of_freeze};

use crate::round::{Round, Shortage, Stop};
use crate::state::State;
use cluster_draw::{FreezeFault, freeze};
use first_assign::{First, GivenFault, first, given, shortage};
use house_base::{Grid, Memory, Phase, Plan, Reason};
use house_model::Goal;
use register_book::Book;
use seat_quota::Tally;
use std::alloc::Global;

impl State {
    /// Fixes the assignment: the one that was made by hand, or the first one. It comes once, and has large locals, so
    /// that no other line is to pay for them.
    #[inline(never)]
    pub fn assign(&mut self, alloc: Global) -> Result<(), Stop>
        requires state { IsState self.old }
        requires called { self.old.call ≢ None }
        ensures obeys { Obeys self.old command.Assign result self.new }
        ensures state { IsState self.new }
    {
        match self.round(alloc) {
            Ok(round) => {
                self.round = Some(round);
                self.phase = Phase::Reviewing;
                Ok(())
            }
            Err(stop) => Err(stop),
        }
    }

    /// What the assignment begins.
    fn round(&self, alloc: Global) -> Result<Round, Stop>
        requires state { IsState self.now }
        requires called { self.now.call ≢ None }
        ensures ok { OnOk result (own_halt self.now command.Assign ≡ None) }
        ensures begins { IfOk result (IsSilentRound self.now) }
        ensures err { IfErr result (λ stop. StopsAt self.now command.Assign stop) }
        ensures tally { IfOk result (λ round. IfSome round.tally (λ tally. IsTally round.plan.value tally)) }
        ensures registered { OnOk result (IsRegister self.now.book) }
        ensures some { OnOk result (1 ≤ denominator_of self.now.book) }
        ensures settled { IfOk result (λ round. denominator round.plan.value ≡ denominator_of self.now.book) }
    {
        let Some(call) = self.call else {
            unreachable!();
        };
        let plan = match freeze(alloc, &self.book, call, self.seed) {
            Ok(plan) => plan,
            Err(fault) => return Err(stop_of_freeze(fault)),
        };
        let plan = match Box::new(alloc, plan) {
            Ok(plan) => plan,
            Err(_) => return Err(Stop::Memory),
        };
        if !looks_at_pairs(self.goal) {
            settled(alloc, plan)
        } else if self.book.pairs() == 0 {
            computed(alloc, plan)
        } else {
            checked(alloc, plan, &self.book)
        }
    }
}

/// Whether a goal looks at the pairs of the assignment.
fn looks_at_pairs(goal: Goal) -> bool
    ensures { result ≡ looks_at_pairs goal }
{
    !matches!(goal, Goal::Feasible)
}

/// Begins without points where some assignment is valid.
fn settled(alloc: Global, plan: Box<Plan>) -> Result<Round, Stop>
    ensures plan { IfOk result (λ round. round.plan.value ≡ plan.value) }
    ensures tally { IfOk result (λ round. round.tally ≡ None) }
    ensures some { OnOk result (has_assignment plan.value ≡ true) }
    ensures err { IfErr result (λ stop. IsOfNone plan.value stop) }
{
    match shortage(alloc, &*plan) {
        Ok(None) => Ok(Round { plan, tally: None }),
        Ok(Some(cut)) => Err(Stop::Short(Shortage { plan, cut })),
        Err(Memory) => Err(Stop::Memory),
    }
}

/// Begins the reviews of the first assignment.
fn computed(alloc: Global, plan: Box<Plan>) -> Result<Round, Stop>
    ensures begins { IfOk result (BeginsReviews plan.value (first_assignment plan.value)) }
    ensures some { OnOk result (has_assignment plan.value ≡ true) }
    ensures err { IfErr result (λ stop. IsOfNone plan.value stop) }
{
    match first(alloc, &*plan) {
        Ok(First::Pairs(pairs)) => begun(alloc, plan, pairs),
        Ok(First::Short(cut)) => Err(Stop::Short(Shortage { plan, cut })),
        Err(Memory) => Err(Stop::Memory),
    }
}

/// Begins the reviews of the assignment that was made by hand, where it is valid.
fn checked(alloc: Global, plan: Box<Plan>, book: &Book) -> Result<Round, Stop>
    requires names { HasNamesOf book.now.applicants plan.value }
    ensures begins { IfOk result (BeginsReviews plan.value (name_pair book.now.pairs plan.value)) }
    ensures err { IfErr result (λ stop. IsOfInvalid plan.value (name_pair book.now.pairs plan.value) stop) }
{
    match given(alloc, &*plan, book) {
        Ok(pairs) => begun(alloc, plan, pairs),
        Err(GivenFault::Invalid) => Err(Stop::Refused(Reason::Invalid)),
        Err(GivenFault::Memory) => Err(Stop::Memory),
    }
}

/// Begins the reviews of these pairs.
fn begun(alloc: Global, plan: Box<Plan>, pairs: Grid) -> Result<Round, Stop>
    requires side { pairs.side ≡ size plan.value }
    requires valid { IsTrue (is_valid plan.value (cell pairs)) }
    ensures begins { IfOk result (BeginsReviews plan.value (cell pairs)) }
    ensures err { OnErr result (result ≡ Err Stop.Memory) }
{
    match Tally::set_up(alloc, &*plan, pairs) {
        Ok(tally) => Ok(Round {
            plan,
            tally: Some(tally),
        }),
        Err(Memory) => Err(Stop::Memory),
    }
}

fn stop_of_freeze(fault: FreezeFault) -> Stop
    ensures { result ≡ stop_of_freeze fault }
{
    match fault {
        FreezeFault::Few => Stop::Refused(Reason::Few),
        FreezeFault::Unplaced => Stop::Refused(Reason::Unplaced),
        FreezeFault::Memory => Stop::Memory,
    }
}
