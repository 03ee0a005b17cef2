//! A line of words.

ghost use Rattle.std.specs.Prelude.{◌≡◌, ◌++◌, map, OnOk, OnErr};
ghost use Rattle.house_model.specs.Report.{line_of};
ghost use Rattle.line_text.specs.Written.{Extends, written};

use crate::word::{Word, push_word};
use house_base::Memory;
use std::alloc::Global;

/// Appends the line of these words, with one space between them and a line feed at its end. After an error the text is
/// as before.
pub fn push_line(alloc: Global, words: &[Word<'_>], out: &mut Vec<u8>) -> Result<(), Memory>
    ensures ok { OnOk result (out.new.items ≡ out.old.items ++ line_of (map written words.now)) }
    ensures err { OnErr result (out.new.items ≡ out.old.items) }
{
    let before = out.len();
    match push_words(alloc, words, out) {
        Ok(()) => Ok(()),
        Err(Memory) => {
            out.truncate(before);
            Err(Memory)
        }
    }
}

/// Appends the line of these words. After an error some of it may have been appended.
fn push_words(alloc: Global, words: &[Word<'_>], out: &mut Vec<u8>) -> Result<(), Memory>
    ensures ok { OnOk result (out.new.items ≡ out.old.items ++ line_of (map written words.now)) }
    ensures err { OnErr result (Extends out.old.items out.new.items) }
{
    for (index, word) in words.iter().enumerate() {
        if index > 0 {
            out.push(b' ')?;
        }
        push_word(alloc, word, out)?;
    }
    out.push(b'\n')?;
    Ok(())
}
