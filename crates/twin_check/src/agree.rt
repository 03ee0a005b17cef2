//! Whether two files agree in all but what one person writes as a reviewer.

ghost use Rattle.std.specs.Prelude.{◌≡◌, ◌↔◌, ◌<◌, ◌∷◌, [], IsTrue, IfNone, IfSome, length};
ghost use Rattle.house_model.specs.Isolation.{is_by, without};
ghost use Rattle.house_model.specs.Text.{lines};
ghost use Rattle.twin_check.specs.Agree.{Agree};

use command_text::{first_line, next_word};
use house_base::Name;

/// Whether the lines of two texts are the same, once the review lines of a person are taken out of both.
pub(crate) fn agree(a: &[u8], b: &[u8], name: Name) -> bool
    ensures { IsTrue result ↔ Agree name (lines a.now) (lines b.now) }
{
    let mut rest_of_a = a;
    let mut rest_of_b = b;
    while let Some((one, behind_a)) = first_other(rest_of_a, name) {
        let Some((other, behind_b)) = first_other(rest_of_b, name) else {
            return false;
        };
        if one != other {
            return false;
        }
        rest_of_a = behind_a;
        rest_of_b = behind_b;
    }
    first_other(rest_of_b, name).is_none()
}

/// The first line of a text that is no review line of a person, and the text behind it. None where there is no such line.
fn first_other(text: &[u8], name: Name) -> Option<(&[u8], &[u8])>
    ensures found { IfSome result (λ cut.
        without name (lines text.now) ≡ cut.0.now ∷ without name (lines cut.1.now)) }
    ensures shorter { IfSome result (λ cut. length cut.1.now < length text.now) }
    ensures none { IfNone result (without name (lines text.now) ≡ []) }
{
    let mut rest = text;
    while let Some((line, behind)) = first_line(rest) {
        if !is_by(line, name) {
            return Some((line, behind));
        }
        rest = behind;
    }
    None
}

/// Whether a line is a review line of a person.
fn is_by(line: &[u8], name: Name) -> bool
    ensures { result ≡ is_by name line.now }
{
    let own = name.bytes();
    let Some((first, rest)) = next_word(line) else {
        return false;
    };
    if first != b"review".as_slice() {
        return false;
    }
    match next_word(rest) {
        Some((second, _)) => second == own,
        None => false,
    }
}
