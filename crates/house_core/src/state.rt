//! What the lines so far have made of a call.

ghost use Rattle.std.specs.Prelude.{◌≡◌, ◌≢◌, ◌++◌, ◌∷◌, [], Some, None, OnOk, OnErr, IfOk, IfErr, IsOk, ◌||◌, true};
ghost use Rattle.house_core.specs.declared.round.Shortage.{Shortage};
ghost use Rattle.house_model.specs.Ending.{Halt};
ghost use Rattle.house_model.specs.Runs.{halt};
ghost use Rattle.house_model.specs.Reviews.{no_asides, took_of};
ghost use Rattle.house_model.specs.Text.{Lines, is_blank};
ghost use Rattle.house_model.specs.Verbs.{allows, is_review};
ghost use Rattle.house_core.specs.Standing.{IsFormed, IsShortageOf, IsState, Says, Takes, Reviews, MayLack};
ghost use Rattle.house_core.specs.Standing.{comes_again_in, turned_away, is_call, setting_in};

use crate::round::{Round, Stop};
use command_text::{Line, read_line};
use house_base::{Asides, Call, Phase, Reason, ReviewLine, Seed, Took};
use house_model::{Command, Goal, Verb};
use register_book::Book;
use review_desk::kind_before;
use std::alloc::Global;

/// What the lines so far have made of a call.
#[derive(Drop)]
pub struct State {
    pub goal: Goal,
    pub phase: Phase,
    pub call: Option<Call>,
    pub book: Book,
    pub seed: Option<Seed>,
    pub seal: Option<[u8; 32]>,
    pub round: Option<Round>,
    pub asides: Asides,
    pub draw: u64,
}

impl State {
    pub fn new(alloc: Global, goal: Goal) -> State
        ensures says { Says [] result }
        ensures state { IsState result }
        ensures goal { result.goal ≡ goal }
    {
        State {
            goal,
            phase: Phase::Opening,
            call: None,
            book: Book::new(alloc),
            seed: None,
            seal: None,
            round: None,
            asides: no_asides(),
            draw: 0,
        }
    }

    /// Takes one line. After an error nothing has changed.
    pub fn take(&mut self, alloc: Global, line: &[u8]) -> Result<Took, Stop>
        requires { IsState self.old }
        ensures state { IsState self.new }
        ensures goal { self.new.goal ≡ self.old.goal }
        ensures ok { (lines : Lines) → Says lines self.old → OnOk result (halt self.old.goal lines line.now ≡ None) }
        ensures took { (lines : Lines) → Says lines self.old →
            IfOk result (λ took. took ≡ took_of self.old.goal lines line.now) }
        ensures says { (lines : Lines) → Says lines self.old → OnOk result (Says (lines ++ line.now ∷ []) self.new) }
        ensures refused { (lines : Lines) → Says lines self.old → (r : Reason) → result ≡ Err (Stop.Refused r) →
            halt self.old.goal lines line.now ≡ Some (Halt.Refused r) }
        ensures short { (lines : Lines) → Says lines self.old → (s : Shortage) → result ≡ Err (Stop.Short s) →
            halt self.old.goal lines line.now ≡ Some Halt.Short }
        ensures shortage { (s : Shortage) → result ≡ Err (Stop.Short s) → IsShortageOf (setting_in self.old) s }
        ensures memory { (lines : Lines) → Says lines self.old → result ≡ Err Stop.Memory →
            MayLack self.old.goal lines line.now }
        ensures err { OnErr result (self.new ≡ self.old) }
        ensures lacks_in_opening { result ≡ Err Stop.Memory → self.old.phase ≡ Phase.Opening }
        ensures none_by_review { (is_blank line.now || is_review line.now) ≡ true → IsOk result }
    {
        match read_line(line) {
            Line::Blank => Ok(Took::Kept),
            Line::Review(review) => Ok(self.review(&review)),
            Line::Bad(verb, reason) => match self.turned_away(verb) {
                Some(sooner) => Err(Stop::Refused(sooner)),
                None => Err(Stop::Refused(reason)),
            },
            Line::House(command) => match self.take_command(alloc, &command) {
                Ok(()) => Ok(Took::Kept),
                Err(stop) => Err(stop),
            },
        }
    }

    /// Takes a review line: it is kept, or set aside and counted under its kind.
    fn review(&mut self, line: &ReviewLine) -> Took
        requires { IsState self.old }
        ensures state { IsState self.new }
        ensures reviews { Reviews self.old line.now result self.new }
    {
        if let Some(kind) = kind_before(self.phase, line) {
            self.asides.count(kind);
            return Took::Aside(kind);
        }
        let Some(round) = &mut self.round else {
            unreachable!();
        };
        let took = round.review(&self.book, line);
        if let Took::Aside(kind) = took {
            self.asides.count(kind);
        }
        took
    }

    /// Takes a command. After an error nothing has changed.
    fn take_command(&mut self, alloc: Global, command: &Command) -> Result<(), Stop>
        requires state { IsState self.old }
        requires formed { IsFormed command.now }
        ensures state { IsState self.new }
        ensures takes { Takes self.old command.now result self.new }
        ensures lacks_in_opening { result ≡ Err Stop.Memory → self.old.phase ≡ Phase.Opening }
    {
        match self.turned_away(Verb::of(*command)) {
            Some(reason) => Err(Stop::Refused(reason)),
            None => self.obey(alloc, command),
        }
    }

    /// Why a command may not come now, whatever its words say.
    fn turned_away(&self, verb: Verb) -> Option<Reason>
        ensures { result ≡ turned_away self.now verb }
    {
        if !(self.call.is_some() || is_call(verb)) {
            Some(Reason::NoCall)
        } else if !allows(self.phase, verb) || self.comes_again(verb) {
            Some(Reason::Order)
        } else {
            None
        }
    }

    /// Whether a command came before that may come once, or another beside which it may not come.
    fn comes_again(&self, verb: Verb) -> bool
        ensures { result ≡ comes_again_in self.now verb }
    {
        match verb {
            Verb::Call => self.call.is_some(),
            Verb::Place => self.seed.is_some(),
            Verb::Partition => self.book.placed() != 0 || self.seed.is_some(),
            Verb::Seal => self.seal.is_some(),
            _ => false,
        }
    }
}

fn is_call(verb: Verb) -> bool
    ensures { result ≡ is_call verb }
{
    matches!(verb, Verb::Call)
}

/// Whether a phase allows a command.
fn allows(phase: Phase, verb: Verb) -> bool
    ensures { result ≡ allows phase verb }
{
    match phase {
        Phase::Opening => !matches!(verb, Verb::Close | Verb::Draw | Verb::Lottery),
        Phase::Reviewing => matches!(verb, Verb::Close | Verb::Other),
        Phase::Closed => matches!(verb, Verb::Draw | Verb::Lottery | Verb::Other),
        Phase::Drawn => matches!(verb, Verb::Other),
    }
}

/// Nothing was set aside.
fn no_asides() -> Asides
    ensures { result ≡ no_asides }
{
    Asides {
        form: 0,
        early: 0,
        late: 0,
        unknown: 0,
        unassigned: 0,
        range: 0,
    }
}
