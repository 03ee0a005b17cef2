//! The comparison of two files for one person.

ghost use Rattle.std.specs.Prelude.{◌≡◌, ◌↔◌, false, true, IfOk, IsTrue};
ghost use Rattle.house_model.specs.Heard.{is_over};
ghost use Rattle.house_model.specs.Text.{lines};
ghost use Rattle.twin_check.specs.Agree.{Agree, AreAlike};
ghost use Rattle.twin_check.specs.Half.{half_of};

use crate::agree::agree;
use crate::half::Twin;
use crate::run::half_of;
use house_base::{Memory, Name};
use std::alloc::Global;

/// What each of two files comes to for the person of a name, and whether the two agree in all but what this person writes
/// as a reviewer. Where they do, they come to the same.
#[tactic(auto, using(crate::proofs::RunLemmas::within_lines))]
pub fn twin(alloc: Global, a: &[u8], b: &[u8], name: Name) -> Result<Twin, Memory>
    requires first_within { is_over a.now ≡ false }
    requires second_within { is_over b.now ≡ false }
    ensures first { IfOk result (λ twin. twin.first ≡ half_of name (lines a.now)) }
    ensures second { IfOk result (λ twin. twin.second ≡ half_of name (lines b.now)) }
    ensures agree { IfOk result (λ twin. IsTrue twin.agree ↔ Agree name (lines a.now) (lines b.now)) }
    ensures own_reviews_change_nothing { IfOk result (λ twin. IsTrue twin.agree → AreAlike twin.first twin.second) }
{
    let first = half_of(alloc, a, name)?;
    let second = half_of(alloc, b, name)?;
    Ok(Twin {
        first,
        second,
        agree: agree(a, b, name),
    })
}
