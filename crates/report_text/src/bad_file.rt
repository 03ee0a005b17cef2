//! The texts that say why a file is refused.

ghost use Rattle.std.specs.Prelude.{◌≡◌, ◌++◌, OnOk, OnErr};
ghost use Rattle.house_model.specs.Report.{line_of};
ghost use Rattle.report_text.specs.BadFiles.{bad_key_words, bad_record_words, bad_toml_words};

use house_base::Memory;
use line_text::Word::{Number, Text};
use line_text::push_line;
use std::alloc::Global;

/// Appends the text that says that a call file is no TOML document. After an error the text is as before.
pub fn write_bad_toml(alloc: Global, out: &mut Vec<u8>) -> Result<(), Memory>
    ensures ok { OnOk result (out.new.items ≡ out.old.items ++ line_of bad_toml_words) }
    ensures err { OnErr result (out.new.items ≡ out.old.items) }
{
    push_line(alloc, &[Text(b"bad"), Text(b"toml")], out)
}

/// Appends the text that says that what stands under a key of a call file, or is missing there, is not as it has to be.
/// After an error the text is as before.
pub fn write_bad_key(alloc: Global, key: &str, out: &mut Vec<u8>) -> Result<(), Memory>
    ensures ok { OnOk result (out.new.items ≡ out.old.items ++ line_of (bad_key_words key.now)) }
    ensures err { OnErr result (out.new.items ≡ out.old.items) }
{
    push_line(
        alloc,
        &[Text(b"bad"), Text(b"key"), Text(key.as_bytes())],
        out,
    )
}

/// Appends the text that says that the record of a register with this number, counted from 1, is not of its form. After
/// an error the text is as before.
pub fn write_bad_record(alloc: Global, number: u64, out: &mut Vec<u8>) -> Result<(), Memory>
    ensures ok { OnOk result (out.new.items ≡ out.old.items ++ line_of (bad_record_words number)) }
    ensures err { OnErr result (out.new.items ≡ out.old.items) }
{
    push_line(alloc, &[Text(b"bad"), Text(b"record"), Number(number)], out)
}
