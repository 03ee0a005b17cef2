//! What an outcome has of one person.

ghost use Rattle.std.specs.Prelude.{◌≡◌, ◌≤◌, length};
ghost use Rattle.house_base.specs.declared.limits.TheConstants.{MOST_OWN};
ghost use Rattle.twin_check.specs.Half.{chances_of};
ghost use Rattle.twin_check.specs.Rows.{chances_in, half_in};

use crate::half::{Chances, Half};
use house_base::Name;
use house_model::ApplicantRow;
use report_text::Outcome;

/// What an outcome has of the person of a name.
pub(crate) fn half_in(outcome: &Outcome, name: Name) -> Half
    requires { length (chances_in name outcome.now.applicant_rows) ≤ MOST_OWN }
    ensures { result ≡ half_in name outcome.now }
{
    let chances = chances_in(outcome.applicants(), name);
    if chances.count == 0 {
        Half::Unlisted
    } else {
        Half::Chances(chances, outcome.den())
    }
}

/// The chances in the rows of a person's applicants.
fn chances_in(rows: &[ApplicantRow], name: Name) -> Chances
    requires { length (chances_in name rows.now) ≤ MOST_OWN }
    ensures { result ≡ chances_of (chances_in name rows.now) }
{
    let mut chances = Chances::none();
    for row in rows {
        if row.person == name {
            chances.push(row.chance);
        }
    }
    chances
}
