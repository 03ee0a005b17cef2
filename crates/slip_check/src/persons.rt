//! The persons that a slip names.

ghost use Rattle.std.specs.Prelude.{◌≡◌, ◌≢◌, None, IfSome};
ghost use Rattle.slip_check.specs.Form.{fault_in, rows_of, slip_in};

use crate::head::{read_head, read_sizes};
use command_text::strict::first_fed_line;

/// How many persons a call has, as a slip says. None only where the bytes are off the form of a slip.
pub fn slip_persons(bytes: &[u8]) -> Option<u32>
    ensures said { IfSome result (λ persons. persons ≡ (slip_in (rows_of bytes.now)).persons) }
    ensures formed { fault_in bytes.now ≡ None → result ≢ None }
{
    let (line, rest) = first_fed_line(bytes)?;
    let head = read_head(line)?;
    let (line, _) = first_fed_line(rest)?;
    let sizes = read_sizes(line, head.share.den)?;
    Some(sizes.persons)
}
