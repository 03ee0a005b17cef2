//! An answer, and what is to be stored behind it.

ghost use Rattle.std.specs.Prelude.{◌≡◌, None};

use crate::answer::Answer;

/// The answer of a call, and the bytes of the file that is to be stored behind it, where one is.
#[derive(Drop)]
pub struct Filed {
    pub answer: Answer,
    pub file: Option<Vec<u8>>,
}

/// An answer with nothing to be stored.
pub fn unfiled(answer: Answer) -> Filed
    ensures answer { result.answer ≡ answer }
    ensures file { result.file ≡ None }
{
    Filed { answer, file: None }
}
