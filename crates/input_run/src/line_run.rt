//! A run that takes lines one by one, and keeps them where it is to.

ghost use Rattle.std.specs.Prelude.{◌≡◌, ◌^◌, ◌-◌, ◌<◌, ◌&&◌, length};
ghost use Rattle.command_text.specs.Held.{HasNoFeed};
ghost use Rattle.house_core.specs.House.{StandsFor};
ghost use Rattle.house_model.specs.Ending.{in_force};
ghost use Rattle.house_model.specs.Reviews.{is_before_assignment};
ghost use Rattle.house_model.specs.Runs.{halt, settles};
ghost use Rattle.house_model.specs.Said.{has};
ghost use Rattle.house_model.specs.Text.{Lines};
ghost use Rattle.house_model.specs.declared.verb.Verb.TheVariants as verb;
ghost use Rattle.input_run.specs.Hearing.{GoOn, TakesLine};
ghost use Rattle.input_run.specs.Kept.{HasTaken, keeps};

use crate::hearing::Progress;
use crate::kept::Kept;
use house_base::{Memory, Phase, Took};
use house_core::{House, Step};
use house_model::Goal;
use std::alloc::Global;

/// What a line of a run has come to.
#[derive(Clone, Copy, Debug, PartialEq, Eq)]
pub enum Taken {
    /// The run goes on, and this became of the line.
    Going(Took),
    /// The line has ended the run.
    Ended,
    /// No memory was left.
    Memory,
}

impl Taken {
    ghost use Rattle.std.specs.Prelude.{◌≡◌};
    ghost use Rattle.input_run.specs.Hearing.{progress_of};

    /// How far the run has come with the line.
    pub(crate) fn progress(self) -> Progress
        ensures { result ≡ progress_of self }
    {
        match self {
            Taken::Going(_) => Progress::Going,
            Taken::Ended => Progress::Ended,
            Taken::Memory => Progress::Memory,
        }
    }
}

/// A run, and the lines that it has taken, where they are to be kept.
#[derive(Drop)]
pub struct LineRun {
    pub house: House,
    pub kept: Option<Kept>,
}

impl LineRun {
    ghost use Rattle.std.specs.Prelude.{◌≡◌, true, false, [], OnOk};
    ghost use Rattle.command_text.specs.Held.{HasNoFeed};
    ghost use Rattle.input_run.specs.Kept.{HasTaken, KeepsMore, keeps};

    /// A run that has taken no line and keeps none.
    pub fn new(alloc: Global, goal: Goal) -> LineRun
        ensures taken { HasTaken goal [] result }
        ensures keeps { keeps result ≡ false }
    {
        LineRun {
            house: House::new(alloc, goal),
            kept: None,
        }
    }

    /// A run that has taken no line and keeps those that it takes.
    pub fn keeping(alloc: Global, goal: Goal) -> LineRun
        ensures taken { HasTaken goal [] result }
        ensures keeps { keeps result ≡ true }
    {
        LineRun {
            house: House::new(alloc, goal),
            kept: Some(Kept::new(alloc)),
        }
    }

    /// Keeps a line that was taken, with what became of it, where lines are kept.
    fn keep(&mut self, line: &[u8], took: Took) -> Result<(), Memory>
        requires { HasNoFeed line.now }
        ensures house { self.new.house ≡ self.old.house }
        ensures keeps { keeps self.new ≡ keeps self.old }
        ensures kept { OnOk result (KeepsMore self.old.kept self.new.kept line.now took) }
    {
        match &mut self.kept {
            Some(kept) => kept.keep(line, took),
            None => Ok(()),
        }
    }
}

/// Gives a run its next line.
pub(crate) fn take_line(goal: Goal, run: &mut LineRun, line: &[u8]) -> Taken
    requires { HasNoFeed line.now }
    ensures takes { (lines : Lines) → HasTaken goal lines run.old → GoOn goal lines → length lines < 2 ^ 64 - 1 →
        TakesLine goal lines line.now result run.new }
    ensures keeps { keeps run.new ≡ keeps run.old }
{
    match run.house.line(line) {
        Step::Going(took) => match run.keep(line, took) {
            Ok(()) => {
                if is_settled(goal, &run.house) {
                    Taken::Ended
                } else {
                    Taken::Going(took)
                }
            }
            Err(Memory) => Taken::Memory,
        },
        Step::Refused(_, _) => Taken::Ended,
        Step::Short => Taken::Ended,
        Step::Memory => Taken::Memory,
    }
}

/// Whether an accepted assignment has reached the goal.
fn is_settled(goal: Goal, house: &House) -> bool
    ensures { (lines : Lines) → StandsFor goal lines house.now →
        result ≡ (settles goal && has verb.Assign (in_force (halt goal) lines)) }
{
    settles(goal) && !is_opening(house.phase())
}

/// Whether a goal is reached by an assignment that is accepted.
fn settles(goal: Goal) -> bool
    ensures { result ≡ settles goal }
{
    match goal {
        Goal::Run => false,
        Goal::Pairs | Goal::Feasible => true,
    }
}

/// Whether no assignment was accepted yet.
fn is_opening(phase: Phase) -> bool
    ensures { result ≡ is_before_assignment phase }
{
    matches!(phase, Phase::Opening)
}
