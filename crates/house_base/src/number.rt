//! Numbers in their one decimal form.

ghost use Rattle.std.specs.Prelude.{◌≡◌};
ghost use Rattle.std.specs.Char.{is_ascii_digit};
ghost use Rattle.std.specs.List.{list_all};
ghost use Rattle.house_base.specs.Number.{is_canonical, number_up_to};

use std::str;

/// The number that a text spells in canonical decimal: `0`, or digits whose first is not `0`. None where it
/// does not spell one, or one above `most`.
pub fn read_number(text: &[u8], most: u64) -> Option<u64>
    ensures { result ≡ number_up_to most text.now }
{
    if !is_canonical(text) {
        return None;
    }
    let digits = str::from_utf8(text).ok()?;
    let number = digits.parse::<u64>().ok()?;
    (number <= most).then_some(number)
}

/// Whether a text is `0`, or digits whose first is not `0`.
fn is_canonical(text: &[u8]) -> bool
    ensures { result ≡ is_canonical text.now }
{
    !text.is_empty() && are_digits(text) && (text.len() == 1 || text[0] != b'0')
}

fn are_digits(text: &[u8]) -> bool
    ensures { result ≡ list_all is_ascii_digit text.now }
{
    text.iter().all(|byte| byte.is_ascii_digit())
}
