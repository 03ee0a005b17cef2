//! The text of a refusal.

ghost use Rattle.std.specs.Prelude.{◌≡◌, ◌++◌, OnOk, OnErr};
ghost use Rattle.house_model.specs.Report.{line_of, refused_words};

use house_base::{Memory, Reason};
use line_text::Word::{Number, Text};
use line_text::push_line;
use std::alloc::Global;

/// Appends the text of a refusal at a line, counted from 1. After an error the text is as before.
pub fn write_refused(
    alloc: Global,
    line: u64,
    reason: Reason,
    out: &mut Vec<u8>,
) -> Result<(), Memory>
    ensures ok { OnOk result (out.new.items ≡ out.old.items ++ line_of (refused_words line reason)) }
    ensures err { OnErr result (out.new.items ≡ out.old.items) }
{
    let word = reason.word().as_bytes();
    push_line(alloc, &[Text(b"refused"), Number(line), Text(word)], out)
}
