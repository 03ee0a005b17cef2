//! What a run comes to for one person, and two of these beside each other.

ghost use Rattle.std.specs.Prelude.{◌≡◌, ◌<◌, ◌∷◌, ◌++◌, ℕ, List, []};
ghost use Rattle.house_base.specs.declared.limits.TheConstants.{MOST_OWN};
ghost use Rattle.twin_check.specs.Half.{chances_of};

use house_base::Reason;
use house_base::limits::MOST_OWN;

/// For how many applicants of one person there is room.
const ROOM: usize = MOST_OWN as usize;

/// The chances of a person's applicants, over a common denominator.
#[derive(Clone, Copy, Debug, PartialEq, Eq)]
pub struct Chances {
    /// How many applicants the person has.
    pub count: u32,
    /// So many chances, in register order, and 0 behind them.
    pub list: [u64; ROOM],
}

/// What a run for the report comes to for one person.
#[derive(Clone, Copy, Debug, PartialEq, Eq)]
pub enum Half {
    /// The chances of the person's applicants, and the denominator over which they stand.
    Chances(Chances, u64),
    /// The run is done, and no person has the name.
    Unlisted,
    /// The line of this number, from 1, was refused, or the end of the lines is.
    Refused(u64, Reason),
    /// No valid assignment exists.
    Short,
}

/// What two files come to for one person.
#[derive(Clone, Copy, Debug, PartialEq, Eq)]
pub struct Twin {
    pub first: Half,
    pub second: Half,
    /// Whether the lines of both are the same, once the person's review lines are taken out.
    pub agree: bool,
}

impl Chances {
    /// No chances.
    #[tactic(auto, unfolding(crate::specs::Half::chances_of))]
    pub(crate) fn none() -> Chances
        ensures { result ≡ chances_of [] }
    {
        Chances {
            count: 0,
            list: [0; ROOM],
        }
    }

    /// Puts one more chance behind those that there are.
    pub(crate) fn push(&mut self, chance: u64)
        requires { self.old.count < MOST_OWN }
        ensures { (those : List ℕ) → self.old ≡ chances_of those → self.new ≡ chances_of (those ++ chance ∷ []) }
    {
        self.list[self.count as usize] = chance;
        self.count += 1;
    }
}
