//! The board of an outcome: who holds a seat when some have withdrawn.

use crate::fault::{BoardFault, Moved};
use crate::rows::{all_seats, come_forward, is_behind, is_first_without, number_of, quota, seats};
use crate::start::{copied, nobody_gone, ranks};
use exact_chance::chance;
use house_base::{Memory, Name};
use report_text::Outcome;
use std::alloc::Global;
use std::marker::Model;

/// An outcome, and who of its applicants has withdrawn. A seat passes to the next rank of its cluster and nowhere else.
#[derive(Drop)]
pub struct Board {
    outcome: Outcome,
    /// By register number, whether the applicant has withdrawn.
    gone: Vec<bool>,
    /// By register number, the rank less the members of the cluster ahead of it that have withdrawn.
    ranks: Vec<u32>,
}

impl Model for Board {
    ghost use Rattle.reserve_list.specs.Board.{BoardParts};
    ghost use Rattle.reserve_list.specs.Held.{IsHeld};

    ghost Value = { BoardParts };

    ghost view = { λ b. record { outcome = b.outcome; gone = b.gone.items } };

    ghost invariant = { λ b. IsHeld (record { outcome = b.outcome; gone = b.gone.items }) b.ranks.items };
}

impl Board {
    ghost use Rattle.std.specs.Prelude.{◌≡◌, ◌↔◌, ◌<◌, ◌≤◌, ℕ, true, false, Some, None, Err, IfOk, OnErr};
    ghost use Rattle.peer_selection.specs.Counting.{count_below};
    ghost use Rattle.reserve_list.specs.Board.{IsBoard, IsRanked, IsWithdrawal, and_gone, chance_on, count_of, empty_on};
    ghost use Rattle.reserve_list.specs.Board.{fresh_board, gains, holds_on, is_gone, moved_of, name_on, number_of};

    /// The board of an outcome, before anybody withdraws.
    pub fn of(alloc: Global, outcome: &Outcome) -> Result<Board, Memory>
        requires { IsRanked outcome.now }
        ensures { IfOk result (λ board. board ≡ fresh_board outcome.now) }
    {
        let gone = nobody_gone(alloc, outcome)?;
        let ranks = ranks(alloc, outcome)?;
        let outcome = copied(alloc, outcome)?;
        Ok(Board {
            outcome,
            gone,
            ranks,
        })
    }

    /// The applicant of a name withdraws. Who held a seat gives it to the member of its cluster that waits with the least
    /// rank. After an error nothing has changed.
    pub fn withdraw(&mut self, name: Name) -> Result<Moved, BoardFault>
        ensures ok { IfOk result (λ moved. IsWithdrawal self.old name self.new moved) }
        ensures unknown { (result ≡ Err BoardFault.Unknown) ↔ (number_of self.old.outcome name ≡ None) }
        ensures gone { (result ≡ Err BoardFault.Gone) ↔ ((number : ℕ) × (number_of self.old.outcome name ≡ Some number)
            × (is_gone self.old number ≡ true)) }
        ensures err { OnErr result (self.new ≡ self.old) }
    {
        match number_of(&self.outcome, name) {
            Some(number) => {
                if self.gone[number as usize] {
                    return Err(BoardFault::Gone);
                }
                let moved = self.moved(number);
                self.set_gone(number);
                Ok(moved)
            }
            None => Err(BoardFault::Unknown),
        }
    }

    /// How many applicants there are. Register numbers count from 0.
    pub fn count(&self) -> u32
        ensures value { result ≡ count_of self.now.outcome }
        ensures board { IsBoard self.now }
    {
        self.gone.len() as u32
    }

    /// The name of a register number.
    pub fn name(&self, number: u32) -> Name
        requires { number < count_of self.now.outcome }
        ensures { result ≡ name_on self.now.outcome number }
    {
        self.outcome.applicants()[number as usize].name
    }

    /// Whether a register number has withdrawn.
    pub fn is_gone(&self, number: u32) -> bool
        requires { number < count_of self.now.outcome }
        ensures { result ≡ is_gone self.now number }
    {
        self.gone[number as usize]
    }

    /// Whether a register number holds a seat of the draw.
    pub fn holds(&self, number: u32) -> bool
        requires { number < count_of self.now.outcome }
        ensures { result ≡ holds_on self.now number }
    {
        let rank = self.ranks[number as usize];
        !self.gone[number as usize] && u64::from(rank) <= seats(&self.outcome, number)
    }

    /// The chance of a register number, over the denominator: at how many of all draws it would hold a seat.
    pub fn chance(&self, number: u32) -> u64
        requires { number < count_of self.now.outcome }
        ensures { result ≡ chance_on self.now number }
    {
        if self.gone[number as usize] {
            return 0;
        }
        let quota = quota(&self.outcome, number);
        chance(quota, self.outcome.den(), self.ranks[number as usize])
    }

    /// The common denominator of the chances.
    pub fn den(&self) -> u64
        ensures { result ≡ self.now.outcome.den }
    {
        self.outcome.den()
    }

    /// The seats that nobody holds.
    pub fn empty(&self) -> u64
        ensures { result ≡ empty_on self.now }
    {
        all_seats(&self.outcome).saturating_sub(self.holders())
    }

    /// How many hold a seat.
    fn holders(&self) -> u64
        ensures { result ≡ count_below (holds_on self.now) (count_of self.now.outcome) }
    {
        let mut holders = 0;
        for number in 0..self.count() {
            if self.holds(number) {
                holders += 1;
            }
        }
        holders
    }

    /// Who moves up when a register number withdraws that has not yet.
    fn moved(&self, number: u32) -> Moved
        requires number { number < count_of self.now.outcome }
        requires stays { is_gone self.now number ≡ false }
        ensures { result ≡ moved_of self.now number }
    {
        let applicants = self.count();
        if !self.holds(number) {
            return Moved::Nobody;
        }
        for other in 0..applicants {
            if self.gains(number, other) {
                return Moved::Up(self.name(other));
            }
        }
        Moved::Nobody
    }

    /// Whether one gets a seat when another withdraws that holds one: it stands behind it, holds none, and is the next.
    fn gains(&self, number: u32, other: u32) -> bool
        requires number { number < count_of self.now.outcome }
        requires other { other < count_of self.now.outcome }
        requires stays { is_gone self.now number ≡ false }
        ensures { result ≡ gains self.now number other }
    {
        if self.gone[other as usize] {
            return false;
        }
        if !is_behind(&self.outcome, number, other) {
            return false;
        }
        is_first_without(self.ranks[other as usize], seats(&self.outcome, other))
    }

    /// A register number withdraws that has not yet: those behind it in its cluster come forward by one.
    fn set_gone(&mut self, number: u32)
        requires number { number < count_of self.old.outcome }
        requires stays { is_gone self.old number ≡ false }
        ensures { self.new ≡ and_gone self.old number }
    {
        come_forward(&self.outcome, number, &mut self.ranks);
        self.gone[number as usize] = true;
    }
}
