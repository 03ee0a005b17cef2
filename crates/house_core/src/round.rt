//! What an assignment begins, and why a line may end a run.

ghost use Rattle.std.specs.Prelude.{◌≡◌, IfSome, IsSomeAnd, MatchOption, None, if◌then◌else◌};
ghost use Rattle.house_base.specs.Answer.{took_as};
ghost use Rattle.house_base.specs.declared.review.ReviewLine.{ReviewLine};
ghost use Rattle.seat_quota.specs.Tally.{IsTally};
ghost use Rattle.house_core.specs.Standing.{IsRoundAfter, are_known, kind_at};

use cut_gap::Cut;
use house_base::{Kind, Plan, Reason, ReviewLine, Took};
use register_book::Book;
use review_desk::Desk;
use seat_quota::Tally;

/// An accepted assignment: the setting, and the points that are given, where the goal looks at the pairs. The plan is in
/// a box, since it is large, and a run is moved as a whole.
#[derive(Drop)]
pub struct Round {
    pub plan: Box<Plan>,
    pub tally: Option<Tally>,
}

/// A setting for which no valid assignment exists, with the cut that shows it. The plan is in a box, since each line's
/// answer has room for a shortage, and a plan is large.
#[derive(Drop)]
pub struct Shortage {
    pub plan: Box<Plan>,
    pub cut: Cut,
}

/// Why a line was not taken.
#[derive(Drop)]
pub enum Stop {
    Refused(Reason),
    Short(Shortage),
    Memory,
}

impl Round {
    /// The desk of the pairs, where they are looked at.
    pub fn desk(&self) -> Option<&Desk>
        ensures { MatchOption result (self.now.tally ≡ None)
            (λ desk. IsSomeAnd self.now.tally (λ tally. desk.now ≡ tally.desk)) }
    {
        match &self.tally {
            Some(tally) => Some(tally.desk()),
            None => None,
        }
    }

    /// Takes a whole review line while reviews are taken.
    pub fn review(&mut self, book: &Book, line: &ReviewLine) -> Took
        requires { IfSome self.old.tally (λ tally. IsTally self.old.plan.value tally) }
        ensures after { IsRoundAfter self.old self.new line.now }
        ensures took { result ≡ took_as (kind_at book.now self.old line.now) }
        ensures tally { IfSome self.new.tally (λ tally. IsTally self.new.plan.value tally) }
    {
        match &mut self.tally {
            Some(tally) => tally.review(&*self.plan, line),
            None => Took::Aside(unassigned(book, line)),
        }
    }
}

/// Why a review line is set aside where nothing is assigned.
fn unassigned(book: &Book, line: &ReviewLine) -> Kind
    ensures { Some result ≡ (if are_known book.now line.now.reviewer line.now.proposal
        then Some Kind.Unassigned else Some Kind.Unknown) }
{
    let (Some(reviewer), Some(proposal)) = (line.reviewer, line.proposal) else {
        return Kind::Unknown;
    };
    if book.find_person(reviewer).is_some() && book.find(proposal).is_some() {
        Kind::Unassigned
    } else {
        Kind::Unknown
    }
}
