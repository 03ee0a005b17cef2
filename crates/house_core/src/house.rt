//! The run of a call.

ghost use Rattle.std.specs.Prelude.{◌≡◌, ◌≢◌, ◌-◌, ◌^◌, ◌<◌, ◌⊎◌, [], ◌∷◌, ◌++◌, ◌&&◌, length, true, false, ◌↔◌, IfSome, IsSome, MatchOption, OnErr, Some, None, ◌||◌};
ghost use Rattle.std.specs.Option.{option_map_or};
ghost use Rattle.cut_gap.specs.Cut.{marked};
ghost use Rattle.house_base.specs.Setting.{size};
ghost use Rattle.peer_selection.specs.Shortage.{IsShortage, assignment_demand};
ghost use Rattle.house_model.specs.declared.verb.Verb.TheVariants as verb;
ghost use Rattle.house_model.specs.Ending.{ended, in_force, is_drawn, stop_of};
ghost use Rattle.house_model.specs.Faults.{looks_at_pairs};
ghost use Rattle.house_model.specs.Reviews.{asides_of, took_of};
ghost use Rattle.house_model.specs.Runs.{end_of, halt, settles};
ghost use Rattle.house_model.specs.Said.{has, phase_after, setting};
ghost use Rattle.house_model.specs.Text.{Lines, is_blank};
ghost use Rattle.house_model.specs.Verbs.{is_review};
ghost use Rattle.review_desk.specs.Desk.{IsSetUp};
ghost use Rattle.house_core.specs.Ends.{EndsAs, IsEnding, IsEndingAt, last_ending, stopped_fault};
ghost use Rattle.house_core.specs.House.{IsDeskOf, IsGoing, IsStep, StandsFor, fell_short, has_setting, is_shortage, stopped_step};
ghost use Rattle.house_core.specs.Standing.{MayLack};

use crate::round::{Round, Shortage, Stop};
use crate::state::State;
use crate::step::{EndFault, Ending, Step};
use call_outcome::outcome_of;
use command_text::is_blank_at_once;
use cut_gap::Cut;
use house_base::{Asides, Memory, Phase, Plan, Reason, Took};
use house_model::Goal;
use report_text::Outcome;
use review_desk::Desk;
use seat_quota::Tally;
use std::alloc::Global;
use std::marker::Model;

/// The run of a call for a goal. It takes one line at a time, and keeps what the lines say and not the lines.
#[derive(Drop)]
pub struct House {
    alloc: Global,
    state: State,
    lines: u64,
    stop: Option<Stop>,
}

impl Model for House {
    ghost use Rattle.std.specs.Prelude.{IfSome};
    ghost use Rattle.house_core.specs.House.{IsShown, Standing};
    ghost use Rattle.house_core.specs.Standing.{IsState};

    ghost Value = { Standing };

    ghost view = { λ h. record { state = h.state; lines = h.lines; stop = h.stop } };

    ghost invariant = { λ h. IsState h.state × IfSome h.stop (IsShown h.state) };
}

impl House {
    /// A run in which no line was taken.
    pub fn new(alloc: Global, goal: Goal) -> House
        ensures { StandsFor goal [] result }
    {
        House {
            alloc,
            state: State::new(alloc, goal),
            lines: 0,
            stop: None,
        }
    }

    /// Takes the next line, without its line end.
    pub fn line(&mut self, line: &[u8]) -> Step
        ensures step { (g : Goal) (lines : Lines) → StandsFor g lines self.old → length lines < 2 ^ 64 - 1 →
            IsStep (stop_of (halt g) (lines ++ line.now ∷ [])) (took_of g lines line.now) result }
        ensures stands { (g : Goal) (lines : Lines) → StandsFor g lines self.old → length lines < 2 ^ 64 - 1 →
            result ≢ Step.Memory → StandsFor g (lines ++ line.now ∷ []) self.new }

        // A run that has stopped answers the same and changes nothing.
        ensures stopped { IfSome self.old.stop (λ stop. (result ≡ stopped_step self.old.lines stop)
            × (self.new ≡ self.old)) }

        // Where memory may be wanting.
        ensures memory { (g : Goal) (lines : Lines) → StandsFor g lines self.old → result ≡ Step.Memory →
            (self.old.stop ≡ Some Stop.Memory) ⊎ MayLack g lines line.now }

        // A line that ends the run leaves it stopped.
        ensures stops { ¬ IsGoing result → IsSome self.new.stop }
        ensures stays { ¬ IsGoing result → IfSome self.new.stop (λ stop. stopped_step self.new.lines stop ≡ result) }
        ensures keeps_state { ¬ IsGoing result → self.new.state ≡ self.old.state }
        ensures keeps_count { ¬ IsGoing result → self.new.lines ≡ self.old.lines }

        // From an accepted assignment on, no line takes memory, and none that is blank or a review line ends the run.
        ensures none_assigned { self.old.stop ≡ None → self.old.state.phase ≢ Phase.Opening → result ≢ Step.Memory }
        ensures none_by_review { self.old.stop ≡ None → (is_blank line.now || is_review line.now) ≡ true →
            IsGoing result }
    {
        if let Some(stop) = &self.stop {
            return step_of(self.lines, stop);
        }
        if is_blank_at_once(line) {
            self.lines = self.lines.saturating_add(1);
            return Step::Going(Took::Kept);
        }
        self.take(line)
    }

    /// Takes the next line, of a run that goes on. No blank line is to pay for the locals of what it may come to.
    #[inline(never)]
    fn take(&mut self, line: &[u8]) -> Step
        requires going { self.old.stop ≡ None }
        ensures step { (g : Goal) (lines : Lines) → StandsFor g lines self.old → length lines < 2 ^ 64 - 1 →
            IsStep (stop_of (halt g) (lines ++ line.now ∷ [])) (took_of g lines line.now) result }
        ensures stands { (g : Goal) (lines : Lines) → StandsFor g lines self.old → length lines < 2 ^ 64 - 1 →
            result ≢ Step.Memory → StandsFor g (lines ++ line.now ∷ []) self.new }
        ensures memory { (g : Goal) (lines : Lines) → StandsFor g lines self.old → result ≡ Step.Memory →
            MayLack g lines line.now }
        ensures stops { ¬ IsGoing result → IsSome self.new.stop }
        ensures stays { ¬ IsGoing result → IfSome self.new.stop (λ stop. stopped_step self.new.lines stop ≡ result) }
        ensures keeps_state { ¬ IsGoing result → self.new.state ≡ self.old.state }
        ensures keeps_count { ¬ IsGoing result → self.new.lines ≡ self.old.lines }
        ensures none_assigned { self.old.state.phase ≢ Phase.Opening → result ≢ Step.Memory }
        ensures none_by_review { (is_blank line.now || is_review line.now) ≡ true → IsGoing result }
    {
        match self.state.take(self.alloc, line) {
            Ok(took) => {
                self.lines = self.lines.saturating_add(1);
                Step::Going(took)
            }
            Err(stop) => {
                let step = step_of(self.lines, &stop);
                self.stop = Some(stop);
                step
            }
        }
    }

    /// The outcome of the lines so far, of a run for the report.
    pub fn end(&self) -> Result<Outcome, EndFault>
        requires { (self.now.state.goal ≡ Goal.Run) ⊎ (self.now.state.phase ≡ Phase.Opening) }
        ensures ends { (g : Goal) (lines : Lines) → StandsFor g lines self.now → length lines < 2 ^ 64 - 1 →
            EndsAs (ended (halt g) lines) lines result }
        ensures stopped { IfSome self.now.stop (λ stop. result ≡ Err (stopped_fault self.now.lines stop)) }

        // Only an outcome takes memory.
        ensures memory { result ≡ Err EndFault.Memory → (self.now.stop ≡ Some Stop.Memory)
            ⊎ (is_drawn self.now.state.phase ≡ true) }
    {
        if let Some(stop) = &self.stop {
            return Err(fault_of(self.lines, stop));
        }
        match self.last() {
            Ok(Ok(outcome)) => Ok(outcome),
            Ok(Err(reason)) => Err(EndFault::Refused(self.lines.saturating_add(1), reason)),
            Err(Memory) => Err(EndFault::Memory),
        }
    }

    /// How the run ends with the lines so far. An accepted assignment that reaches the goal has ended it, whatever came
    /// behind.
    pub fn ending(&self) -> Ending<'_>
        ensures ends { (g : Goal) (lines : Lines) → StandsFor g lines self.now → length lines < 2 ^ 64 - 1 →
            IsEnding (end_of g lines) g (in_force (halt g) lines) result }

        // A run that lacked memory has no other end.
        ensures memory { self.now.stop ≡ Some Stop.Memory → result ≡ Ending.Memory }
    {
        if lacked_memory(&self.stop) {
            return Ending::Memory;
        }
        if let Some(round) = self.reached() {
            return Ending::Settled(&*round.plan, round.desk());
        }
        if let Some(stop) = &self.stop {
            return ending_at(self.lines, stop);
        }
        match self.last() {
            Ok(Ok(outcome)) => Ending::Done(outcome),
            Ok(Err(reason)) => Ending::Refused(self.lines.saturating_add(1), reason),
            Err(Memory) => Ending::Memory,
        }
    }

    /// The outcome of a run that goes on, or why the end of its lines is refused.
    fn last(&self) -> Result<Result<Outcome, Reason>, Memory>
        requires asked { (self.now.state.goal ≡ Goal.Run) ⊎ (self.now.state.phase ≡ Phase.Opening) }
        requires going { self.now.stop ≡ None }
        ensures ends { (g : Goal) (lines : Lines) → StandsFor g lines self.now → length lines < 2 ^ 64 - 1 →
            IsEnding (ended (halt g) lines) g lines (last_ending self.now.lines result) }
        ensures memory { OnErr result (is_drawn self.now.state.phase ≡ true) }
    {
        if self.state.call.is_none() {
            return Ok(Err(Reason::NoCall));
        }
        let Some((round, tally)) = self.drawn() else {
            return Ok(Err(Reason::Unfinished));
        };
        match outcome_of(
            self.alloc,
            &*round.plan,
            tally.totals(),
            self.state.asides,
            self.state.draw,
        ) {
            Ok(outcome) => Ok(Ok(outcome)),
            Err(Memory) => Err(Memory),
        }
    }

    /// The round of a run for the report, with its tally, once the lottery was drawn.
    fn drawn(&self) -> Option<(&Round, &Tally)>
        requires { (self.now.state.goal ≡ Goal.Run) ⊎ (self.now.state.phase ≡ Phase.Opening) }
        ensures { MatchOption result (is_drawn self.now.state.phase ≡ false)
            (λ found. (is_drawn self.now.state.phase ≡ true) × (self.now.state.round ≡ Some found.0.now)
            × (found.0.now.tally ≡ Some found.1.now)) }
    {
        if !is_drawn(self.state.phase) {
            return None;
        }
        match &self.state.round {
            Some(round) => match &round.tally {
                Some(tally) => Some((round, tally)),
                None => None,
            },
            None => None,
        }
    }

    /// The assignment that has reached the goal.
    fn reached(&self) -> Option<&Round>
        ensures { MatchOption result
            ((self.now.state.goal ≡ Goal.Run) ⊎ (self.now.state.phase ≡ Phase.Opening))
            (λ round. (settles self.now.state.goal ≡ true) × (self.now.state.round ≡ Some round.now)) }
    {
        if !settles(self.state.goal) {
            return None;
        }
        match &self.state.round {
            Some(round) => Some(round),
            None => None,
        }
    }

    /// How far the call has come.
    pub fn phase(&self) -> Phase
        ensures value { result ≡ self.now.state.phase }
        ensures says { (g : Goal) (lines : Lines) → StandsFor g lines self.now →
            result ≡ phase_after (in_force (halt g) lines) }
    {
        self.state.phase
    }

    /// How many review lines were set aside, by kind.
    pub fn asides(&self) -> Asides
        ensures value { result ≡ self.now.state.asides }
        ensures says { (g : Goal) (lines : Lines) → StandsFor g lines self.now →
            result ≡ asides_of g (in_force (halt g) lines) }
    {
        self.state.asides
    }

    /// The points that were given, once an assignment was fixed by `assign` whose pairs are looked at.
    pub fn desk(&self) -> Option<&Desk>
        ensures says { (g : Goal) (lines : Lines) → StandsFor g lines self.now → MatchOption result
            ((looks_at_pairs g && has verb.Assign (in_force (halt g) lines)) ≡ false)
            (λ desk. ((looks_at_pairs g && has verb.Assign (in_force (halt g) lines)) ≡ true)
            × IsDeskOf (in_force (halt g) lines) desk.now) }
        ensures set_up { (g : Goal) (lines : Lines) → StandsFor g lines self.now → IfSome result
            (λ desk. IsSetUp (setting (in_force (halt g) lines)) desk.now) }
    {
        match &self.state.round {
            Some(round) => round.desk(),
            None => None,
        }
    }

    /// The setting, once an `assign` was accepted or fell short of an assignment.
    pub fn plan(&self) -> Option<&Plan>
        ensures { (g : Goal) (lines : Lines) → StandsFor g lines self.now → MatchOption result
            (has_setting (in_force (halt g) lines) self.now ≡ false)
            (λ plan. (has_setting (in_force (halt g) lines) self.now ≡ true)
            × (plan.now ≡ setting (in_force (halt g) lines))) }
    {
        if let Some(shortage) = shortage_in(&self.stop) {
            return Some(&*shortage.plan);
        }
        match &self.state.round {
            Some(round) => Some(&*round.plan),
            None => None,
        }
    }

    /// The cut that shows that there is no valid assignment, once a run has ended for the want of one.
    pub fn shortage(&self) -> Option<&Cut>
        ensures shown { MatchOption result (fell_short self.now ≡ false) (λ cut. fell_short self.now ≡ true) }
        ensures reviewers { (g : Goal) (lines : Lines) → StandsFor g lines self.now → IfSome result
            (λ cut. length cut.now.reviewers ≡ size (setting (in_force (halt g) lines))) }
        ensures proposals { (g : Goal) (lines : Lines) → StandsFor g lines self.now → IfSome result
            (λ cut. length cut.now.proposals ≡ size (setting (in_force (halt g) lines))) }
        ensures printed { (g : Goal) (lines : Lines) → StandsFor g lines self.now → IfSome result
            (λ cut. IsShortage (assignment_demand (setting (in_force (halt g) lines)))
            (marked cut.now.reviewers) (marked cut.now.proposals)) }
    {
        match shortage_in(&self.stop) {
            Some(shortage) => Some(&shortage.cut),
            None => None,
        }
    }
}

/// The shortage for which a run has stopped, where it has for one.
fn shortage_in(stop: &Option<Stop>) -> Option<&Shortage>
    ensures { MatchOption result (option_map_or is_shortage stop.now false ≡ false)
        (λ shortage. stop.now ≡ Some (Stop.Short shortage.now)) }
{
    match stop {
        Some(stop) => match stop {
            Stop::Short(shortage) => Some(shortage),
            Stop::Refused(_) | Stop::Memory => None,
        },
        None => None,
    }
}

/// The answer of a run that has stopped behind so many lines.
fn step_of(lines: u64, stop: &Stop) -> Step
    ensures { result ≡ stopped_step lines stop.now }
{
    match stop {
        Stop::Refused(reason) => Step::Refused(lines.saturating_add(1), *reason),
        Stop::Short(_) => Step::Short,
        Stop::Memory => Step::Memory,
    }
}

/// Why a run that has stopped behind so many lines has no outcome.
fn fault_of(lines: u64, stop: &Stop) -> EndFault
    ensures { result ≡ stopped_fault lines stop.now }
{
    match stop {
        Stop::Refused(reason) => EndFault::Refused(lines.saturating_add(1), *reason),
        Stop::Short(_) => EndFault::Short,
        Stop::Memory => EndFault::Memory,
    }
}

/// The ending of a run that has stopped behind so many lines.
fn ending_at(lines: u64, stop: &Stop) -> Ending<'_>
    ensures { IsEndingAt stop.now lines result }
{
    match stop {
        Stop::Refused(reason) => Ending::Refused(lines.saturating_add(1), *reason),
        Stop::Short(shortage) => Ending::Short(&*shortage.plan, &shortage.cut),
        Stop::Memory => Ending::Memory,
    }
}

/// Whether a run has stopped for want of memory.
fn lacked_memory(stop: &Option<Stop>) -> bool
    ensures { (result ≡ true) ↔ (stop.now ≡ Some Stop.Memory) }
{
    matches!(stop, Some(Stop::Memory))
}

/// Whether a goal is reached by an assignment that is accepted.
fn settles(goal: Goal) -> bool
    ensures { result ≡ settles goal }
{
    match goal {
        Goal::Run => false,
        Goal::Pairs | Goal::Feasible => true,
    }
}

/// Whether the lottery was drawn.
fn is_drawn(phase: Phase) -> bool
    ensures { result ≡ is_drawn phase }
{
    matches!(phase, Phase::Drawn)
}
