//! The kinds of review lines that need no look-up.

ghost use Rattle.std.specs.Prelude.{◌≡◌};
ghost use Rattle.review_desk.specs.Line.{kind_before};

use house_base::{Kind, Phase, ReviewLine};

/// Why a review line is set aside by its number of words or by the phase. None while reviews are taken, where a
/// whole line is for the desk to take or to set aside.
pub fn kind_before(phase: Phase, line: &ReviewLine) -> Option<Kind>
    ensures { result ≡ kind_before phase line.now }
{
    if !line.whole {
        return Some(Kind::Form);
    }
    match phase {
        Phase::Opening => Some(Kind::Early),
        Phase::Reviewing => None,
        Phase::Closed | Phase::Drawn => Some(Kind::Late),
    }
}
