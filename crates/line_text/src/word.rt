//! The words of a line.

ghost use Rattle.std.specs.Prelude.{◌≡◌, ◌++◌, decimal, OnOk, OnErr};
ghost use Rattle.line_text.specs.Written.{Extends, written};

use house_base::Memory;
use std::alloc::Global;

/// A word of a line.
#[derive(Clone, Copy)]
pub enum Word<'a> {
    Text(&'a [u8]),
    Number(u64),
    /// A number over a denominator.
    Share(u64, u64),
}

/// Appends a word. After an error some of it may have been appended.
pub fn push_word(alloc: Global, word: &Word<'_>, out: &mut Vec<u8>) -> Result<(), Memory>
    ensures ok { OnOk result (out.new.items ≡ out.old.items ++ written word.now) }
    ensures err { OnErr result (Extends out.old.items out.new.items) }
{
    match word {
        Word::Text(text) => out.extend_from_slice(text)?,
        Word::Number(number) => push_number(alloc, *number, out)?,
        Word::Share(number, den) => {
            push_number(alloc, *number, out)?;
            out.push(b'/')?;
            push_number(alloc, *den, out)?;
        }
    }
    Ok(())
}

/// Appends a number in decimal digits.
fn push_number(alloc: Global, number: u64, out: &mut Vec<u8>) -> Result<(), Memory>
    ensures ok { OnOk result (out.new.items ≡ out.old.items ++ decimal number) }
    ensures err { OnErr result (out.new.items ≡ out.old.items) }
{
    let digits = number.to_string(alloc)?;
    out.extend_from_slice(digits.as_bytes())?;
    Ok(())
}
