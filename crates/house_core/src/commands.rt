//! The commands, as they are carried out on what the lines so far have made of a call.

ghost use Rattle.std.specs.Prelude.{◌≡◌, ◌≢◌, None, ◌≤◌};
ghost use Rattle.house_base.specs.declared.limits.TheConstants.{MOST_CLUSTERS};
ghost use Rattle.house_model.specs.Commands.{verb_of_command};
ghost use Rattle.house_model.specs.Said.{denominator_of};
ghost use Rattle.house_core.specs.Standing.{IsFormed, IsState, Obeys, clusters_in, turned_away};
ghost use Rattle.house_core.specs.Stops.{stop_of};

use crate::round::Stop;
use crate::state::State;
use house_base::limits::DOLLAR;
use house_base::{Call, Name, Phase, Reason, Seed};
use house_model::Command;
use register_book::BookFault;
use seat_lottery::{draw_of, is_sealed_by};
use std::alloc::Global;

impl State {
    /// Carries out a command that may come now.
    pub fn obey(&mut self, alloc: Global, command: &Command) -> Result<(), Stop>
        requires state { IsState self.old }
        requires may_come { turned_away self.old (verb_of_command command.now) ≡ None }
        requires formed { IsFormed command.now }
        ensures obeys { Obeys self.old command.now result self.new }
        ensures state { IsState self.new }
    {
        match command {
            Command::Call(call) => self.open(*call),
            Command::Applicant(name, person) => self.enter(*name, *person),
            Command::Conflict(person, proposal) => self.bar(*person, *proposal),
            Command::Place(person, cluster) => self.place(*person, *cluster),
            Command::Partition(seed) => self.partition(*seed),
            Command::Pair(person, proposal) => self.pair(*person, *proposal),
            Command::Seal(digest) => self.seal(*digest),
            Command::Assign => self.assign(alloc),
            Command::Close => self.close(),
            Command::Draw(number) => self.fix_draw(*number),
            Command::Lottery(seed) => self.draw_by_seed(*seed),
        }
    }

    fn open(&mut self, call: Call) -> Result<(), Stop>
        requires state { IsState self.old }
        requires first { self.old.call ≡ None }
        ensures obeys { Obeys self.old (Command.Call call) result self.new }
        ensures state { IsState self.new }
    {
        self.call = Some(call);
        Ok(())
    }

    fn enter(&mut self, name: Name, person: Name) -> Result<(), Stop>
        requires state { IsState self.old }
        requires opening { self.old.phase ≡ Phase.Opening }
        ensures obeys { Obeys self.old (Command.Applicant name person) result self.new }
        ensures state { IsState self.new }
    {
        match self.book.applicant(name, person) {
            Ok(()) => Ok(()),
            Err(fault) => Err(stop_of(fault)),
        }
    }

    fn bar(&mut self, person: Name, proposal: Name) -> Result<(), Stop>
        requires state { IsState self.old }
        requires opening { self.old.phase ≡ Phase.Opening }
        ensures obeys { Obeys self.old (Command.Conflict person proposal) result self.new }
        ensures state { IsState self.new }
    {
        match self.book.conflict(person, proposal) {
            Ok(()) => Ok(()),
            Err(fault) => Err(stop_of(fault)),
        }
    }

    fn place(&mut self, person: Name, cluster: u32) -> Result<(), Stop>
        requires state { IsState self.old }
        requires opening { self.old.phase ≡ Phase.Opening }
        requires from_one { 1 ≤ cluster }
        requires at_most { cluster ≤ MOST_CLUSTERS }
        ensures obeys { Obeys self.old (Command.Place person cluster) result self.new }
        ensures state { IsState self.new }
    {
        if cluster > self.clusters() {
            return Err(Stop::Refused(Reason::Range));
        }
        match self.book.place(person, cluster) {
            Ok(()) => Ok(()),
            Err(fault) => Err(stop_of(fault)),
        }
    }

    /// How many clusters the call has: 0 before it.
    fn clusters(&self) -> u32
        ensures { result ≡ clusters_in self.now }
    {
        match self.call {
            Some(call) => call.clusters,
            None => 0,
        }
    }

    fn partition(&mut self, seed: Seed) -> Result<(), Stop>
        requires state { IsState self.old }
        requires opening { self.old.phase ≡ Phase.Opening }
        ensures obeys { Obeys self.old (Command.Partition seed) result self.new }
        ensures state { IsState self.new }
    {
        self.seed = Some(seed);
        Ok(())
    }

    fn pair(&mut self, person: Name, proposal: Name) -> Result<(), Stop>
        requires state { IsState self.old }
        requires opening { self.old.phase ≡ Phase.Opening }
        ensures obeys { Obeys self.old (Command.Pair person proposal) result self.new }
        ensures state { IsState self.new }
    {
        match self.book.pair(person, proposal) {
            Ok(()) => Ok(()),
            Err(fault) => Err(stop_of(fault)),
        }
    }

    fn seal(&mut self, digest: [u8; 32]) -> Result<(), Stop>
        requires state { IsState self.old }
        ensures obeys { Obeys self.old (Command.Seal digest) result self.new }
        ensures state { IsState self.new }
    {
        self.seal = Some(digest);
        Ok(())
    }

    fn close(&mut self) -> Result<(), Stop>
        requires state { IsState self.old }
        requires assigned { self.old.phase ≢ Phase.Opening }
        ensures obeys { Obeys self.old Command.Close result self.new }
        ensures state { IsState self.new }
    {
        self.phase = Phase::Closed;
        Ok(())
    }

    fn fix_draw(&mut self, number: u64) -> Result<(), Stop>
        requires state { IsState self.old }
        requires assigned { self.old.phase ≢ Phase.Opening }
        ensures obeys { Obeys self.old (Command.Draw number) result self.new }
        ensures state { IsState self.new }
    {
        if number >= self.denominator() {
            return Err(Stop::Refused(Reason::Range));
        }
        if self.seal.is_some() {
            return Err(Stop::Refused(Reason::Seal));
        }
        self.draw = number;
        self.phase = Phase::Drawn;
        Ok(())
    }

    fn draw_by_seed(&mut self, seed: Seed) -> Result<(), Stop>
        requires state { IsState self.old }
        requires assigned { self.old.phase ≢ Phase.Opening }
        ensures obeys { Obeys self.old (Command.Lottery seed) result self.new }
        ensures state { IsState self.new }
    {
        if let Some(seal) = &self.seal {
            if !is_sealed_by(&seed, seal) {
                return Err(Stop::Refused(Reason::Seal));
            }
        }
        self.draw = draw_of(&seed, self.denominator());
        self.phase = Phase::Drawn;
        Ok(())
    }

    /// The common denominator of all quotas, in cents: a dollar for each person.
    #[tactic(auto, unfolding(house_model::specs::Said::denominator_of))]
    fn denominator(&self) -> u64
        ensures { result ≡ denominator_of self.now.book }
    {
        u64::from(self.book.persons()) * u64::from(DOLLAR)
    }
}

/// What a refusal of the register means for the line.
fn stop_of(fault: BookFault) -> Stop
    ensures { result ≡ stop_of fault }
{
    match fault {
        BookFault::Known => Stop::Refused(Reason::Known),
        BookFault::Unknown => Stop::Refused(Reason::Unknown),
        BookFault::TooMany => Stop::Refused(Reason::TooMany),
        BookFault::Memory => Stop::Memory,
    }
}
