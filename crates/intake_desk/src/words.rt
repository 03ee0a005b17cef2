//! The words of a call of the program.

ghost use Rattle.std.specs.Prelude.{◌≡◌};
ghost use Rattle.intake_desk.specs.Words.{asked_for, is_word, texts};

/// What a call is asked for.
#[derive(Clone, Copy, Debug, PartialEq, Eq)]
pub enum Asked {
    /// To put the lines of the input into the journal.
    Intake,
    /// To print the lines of the journal.
    Show,
}

/// What the words ask for. None where they are none of the program's.
#[tactic(auto, unfolding(crate::specs::Words::asked_for))]
pub(crate) fn asked_for(words: &Vec<String>) -> Option<Asked>
    ensures { result ≡ asked_for (texts words.now.items) }
{
    if is_word(words, "intake") {
        Some(Asked::Intake)
    } else if is_word(words, "show") {
        Some(Asked::Show)
    } else {
        None
    }
}

/// Whether the words are this one alone.
fn is_word(words: &Vec<String>, word: &str) -> bool
    ensures { result ≡ is_word word.now (texts words.now.items) }
{
    words.len() == 1 && words[0].as_str() == word
}
