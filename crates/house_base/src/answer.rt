//! The answers that a line of a command file gets.

ghost use Rattle.std.specs.Prelude.{◌≡◌};
ghost use Rattle.house_base.specs.Answer.{counted, raised, reason_word};

/// Why a line ends a run, or its end does.
#[derive(Clone, Copy, Debug, PartialEq, Eq)]
pub enum Reason {
    /// No call was made yet.
    NoCall,
    /// The command may not come in this phase, not again, or not beside another.
    Order,
    /// The line has no command, or not its number of words, or a seal that is no digest.
    Form,
    /// A name or a seed is not of its form.
    Name,
    /// A number is not in its one decimal form, or not within its bounds.
    Range,
    /// The applicant, the person's place or the pair is on record already.
    Known,
    /// A name is no person's, or no applicant's.
    Unknown,
    /// There may be no more applicants, or no more of this person.
    TooMany,
    /// The draw does not keep to the seal.
    Seal,
    /// Nobody applied.
    Few,
    /// Some person is in no cluster.
    Unplaced,
    /// The pairs are no valid assignment.
    Invalid,
    /// The input ends before a draw.
    Unfinished,
}

impl Reason {
    /// The word that is printed for the reason.
    pub fn word(self) -> &'static str
        ensures { result.now ≡ reason_word self }
    {
        match self {
            Reason::NoCall => "no-call",
            Reason::Order => "order",
            Reason::Form => "form",
            Reason::Name => "name",
            Reason::Range => "range",
            Reason::Known => "known",
            Reason::Unknown => "unknown",
            Reason::TooMany => "too-many",
            Reason::Seal => "seal",
            Reason::Few => "few",
            Reason::Unplaced => "unplaced",
            Reason::Invalid => "invalid",
            Reason::Unfinished => "unfinished",
        }
    }
}

/// Why a review line is set aside.
#[derive(Clone, Copy, Debug, PartialEq, Eq)]
pub enum Kind {
    /// It has not exactly 4 words.
    Form,
    /// No assignment stands yet.
    Early,
    /// The reviews are closed.
    Late,
    /// The reviewer is no person, or the proposal no applicant.
    Unknown,
    /// The reviewer is not assigned to the proposal.
    Unassigned,
    /// The points are no number from 0 to 100.
    Range,
}

/// What became of a line that did not end the run.
#[derive(Clone, Copy, Debug, PartialEq, Eq)]
pub enum Took {
    Kept,
    Aside(Kind),
}

/// How many review lines were set aside, by kind.
#[derive(Clone, Copy, Debug, PartialEq, Eq)]
pub struct Asides {
    pub form: u64,
    pub early: u64,
    pub late: u64,
    pub unknown: u64,
    pub unassigned: u64,
    pub range: u64,
}

impl Asides {
    /// Counts one more line of this kind. A count at its type's end stays there.
    pub fn count(&mut self, kind: Kind)
        ensures { self.new ≡ counted self.old kind }
    {
        match kind {
            Kind::Form => raise(&mut self.form),
            Kind::Early => raise(&mut self.early),
            Kind::Late => raise(&mut self.late),
            Kind::Unknown => raise(&mut self.unknown),
            Kind::Unassigned => raise(&mut self.unassigned),
            Kind::Range => raise(&mut self.range),
        }
    }
}

/// Counts one more, up to the type's end.
fn raise(count: &mut u64)
    ensures { count.new ≡ raised count.old }
{
    *count = count.saturating_add(1);
}
