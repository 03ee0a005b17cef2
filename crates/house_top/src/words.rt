//! The words of a call of the program.

ghost use Rattle.std.specs.Prelude.{◌≡◌, ◌∷◌, []};
ghost use Rattle.house_top.specs.Words.{are_words, form_of, is_stored, is_storing, name_one_file, name_two_files};
ghost use Rattle.house_top.specs.Words.{names_in, slip_name, texts};

use crate::document::Document;
use crate::form::Form;
use house_base::Name;
use house_model::Goal;

/// What the words ask for. None where they are of no form.
#[tactic(auto, unfolding(crate::specs::Words::form_of))]
pub fn form_of(words: &Vec<String>) -> Option<Form>
    ensures { result ≡ form_of (texts words.now.items) }
{
    if is_word(words, "run") {
        Some(Form::Input(Goal::Run))
    } else if is_word(words, "feasible") {
        Some(Form::Input(Goal::Feasible))
    } else if is_word(words, "pairs") {
        Some(Form::Input(Goal::Pairs))
    } else if name_two_files(words, "run") {
        Some(Form::Opened)
    } else if name_one_file(words, "audit") {
        Some(Form::Audit)
    } else if name_one_file(words, "check") {
        Some(Form::Judged(Document::Slip))
    } else if name_one_file(words, "replay") {
        Some(Form::Judged(Document::Audit))
    } else if name_two_files(words, "migrate") {
        Some(Form::Judged(Document::OldAudit))
    } else if name_two_files(words, "join") {
        Some(Form::Join)
    } else if name_one_file(words, "reserve") {
        Some(Form::Reserve)
    } else {
        match slip_name(words) {
            Some(name) => Some(Form::Slip(name)),
            None => None,
        }
    }
}

/// Whether a call with these words stores a file. `read_only` takes no such words.
pub fn is_storing(words: &Vec<String>) -> bool
    ensures { result ≡ is_storing (form_of (texts words.now.items)) }
{
    match form_of(words) {
        Some(Form::Audit) => true,
        Some(Form::Judged(document)) => is_stored(document),
        Some(_) | None => false,
    }
}

/// Whether a file is stored behind what is said of a document.
fn is_stored(document: Document) -> bool
    ensures { result ≡ is_stored document }
{
    match document {
        Document::Slip | Document::Audit => false,
        Document::OldAudit => true,
    }
}

/// The words behind the first.
pub(crate) fn names_in(words: &Vec<String>) -> &[String]
    ensures { texts result.now ≡ names_in (texts words.now.items) }
{
    match words.split_first() {
        Some((_, names)) => names,
        None => &[],
    }
}

/// Whether the words are this one alone.
fn is_word(words: &Vec<String>, word: &str) -> bool
    ensures { result ≡ are_words (texts words.now.items) (word.now ∷ []) }
{
    words.len() == 1 && words[0].as_str() == word
}

/// Whether the words are this one and behind it the name of a file, which is not empty.
fn name_one_file(words: &Vec<String>, word: &str) -> bool
    ensures { result ≡ name_one_file word.now (texts words.now.items) }
{
    words.len() == 2 && words[0].as_str() == word && !words[1].is_empty()
}

/// Whether the words are this one and behind it the names of two files, none of them empty.
fn name_two_files(words: &Vec<String>, word: &str) -> bool
    ensures { result ≡ name_two_files word.now (texts words.now.items) }
{
    words.len() == 3 && words[0].as_str() == word && !words[1].is_empty() && !words[2].is_empty()
}

/// The name behind the word `slip`, where the words are these two.
fn slip_name(words: &Vec<String>) -> Option<Name>
    ensures { result ≡ slip_name (texts words.now.items) }
{
    if words.len() == 2 && words[0].as_str() == "slip" {
        Name::read(words[1].as_bytes())
    } else {
        None
    }
}
