//! Lines that end with a line feed and nothing else, and have one space between two words.

ghost use Rattle.std.specs.Prelude.{◌≡◌, ◌≢◌, ◌+◌, ◌<◌, ◌≤◌, Some, None, [], ◌∷◌, length, position, IfSome, IfNone};
ghost use Rattle.std.specs.List.{position_or_len};
ghost use Rattle.std.specs.Option.{option_map};
ghost use Rattle.house_model.specs.Text.{is_gap};
ghost use Rattle.command_text.specs.Strict.{Row, fed_lines, strict_row, spelled, spelled_behind};

use memchr::memchr;

/// The first line of a text, with the line feed that ends it, and the text behind it. None where the text is empty.
pub fn first_fed_line(text: &[u8]) -> Option<(&[u8], &[u8])>
    ensures found { IfSome result (λ cut. fed_lines text.now ≡ cut.0.now ∷ fed_lines cut.1.now) }
    ensures shorter { IfSome result (λ cut. length cut.1.now < length text.now) }
    ensures whole { IfSome result (λ cut. length cut.0.now + length cut.1.now ≡ length text.now) }
    ensures none { IfNone result (fed_lines text.now ≡ []) }
{
    if text.is_empty() {
        return None;
    }
    match memchr(b'\n', text) {
        Some(at) => Some(text.split_at(at + 1)),
        None => Some((text, &[])),
    }
}

/// What stands in a line before its line feed. None where none ends it.
pub fn before_feed(line: &[u8]) -> Option<&[u8]>
    ensures found { IfSome result (λ text. strict_row line.now ≡ spelled text.now) }
    ensures shorter { IfSome result (λ text. length text.now < length line.now) }
    ensures none { IfNone result (strict_row line.now ≡ None) }
{
    line.strip_suffix(b"\n")
}

/// The first word of a line, and what stands behind it. None where a line begins with none.
pub fn first_word(text: &[u8]) -> Option<(&[u8], &[u8])>
    ensures found { IfSome result (λ cut.
        spelled text.now ≡ option_map (λ row. cut.0.now ∷ row) (spelled_behind cut.1.now)) }
    ensures shorter { IfSome result (λ cut. length cut.1.now < length text.now) }
    ensures none { IfNone result (spelled text.now ≡ None) }
{
    let end = word_end(text);
    if end == 0 {
        None
    } else {
        Some(text.split_at(end))
    }
}

/// The next word behind others, and what stands behind it. None where none follows a space there.
pub fn next_word(rest: &[u8]) -> Option<(&[u8], &[u8])>
    ensures found { IfSome result (λ cut.
        spelled_behind rest.now ≡ option_map (λ row. cut.0.now ∷ row) (spelled_behind cut.1.now)) }
    ensures shorter { IfSome result (λ cut. length cut.1.now < length rest.now) }
    ensures none { IfNone result (0 < length rest.now → spelled_behind rest.now ≡ None) }
{
    match rest.split_first() {
        Some((b' ', text)) => first_word(text),
        _ => None,
    }
}

/// Where the first word of a text ends: at its first space or tab, or where there is none at its end.
fn word_end(text: &[u8]) -> usize
    ensures end { result ≡ position_or_len is_gap text.now }
    ensures most { result ≤ length text.now }
{
    match first_gap(text) {
        Some(at) => at,
        None => text.len(),
    }
}

/// Where the first space or tab stands.
fn first_gap(text: &[u8]) -> Option<usize>
    ensures { result ≡ position is_gap text.now }
{
    text.iter().position(|byte| is_gap(*byte))
}

/// Whether a byte stands between words: a space or a tab.
fn is_gap(byte: u8) -> bool
    ensures { result ≡ is_gap byte }
{
    byte == b' ' || byte == b'\t'
}

/// The one word that is left behind others. None where not just one is.
pub fn last_word(rest: &[u8]) -> Option<&[u8]>
    ensures found { IfSome result (λ word. spelled_behind rest.now ≡ Some (word.now ∷ [])) }
    ensures none { IfNone result ((row : Row) → spelled_behind rest.now ≡ Some row → length row ≢ 1) }
{
    match next_word(rest) {
        Some((word, more)) => if more.is_empty() { Some(word) } else { None },
        None => None,
    }
}

/// The words of a line of four. None where it has not just four.
pub fn four_words(text: &[u8]) -> Option<(&[u8], &[u8], &[u8], &[u8])>
    ensures found { IfSome result (λ w. spelled text.now ≡ Some (w.0.now ∷ w.1.now ∷ w.2.now ∷ w.3.now ∷ [])) }
    ensures some { IfSome result (λ w. 0 < length text.now) }
    ensures none { IfNone result ((row : Row) → spelled text.now ≡ Some row → length row ≢ 4) }
{
    let (first, rest) = first_word(text)?;
    let (second, third, fourth) = three_behind(rest)?;
    Some((first, second, third, fourth))
}

/// The three words that are left behind another. None where not just three are.
fn three_behind(rest: &[u8]) -> Option<(&[u8], &[u8], &[u8])>
    ensures found { IfSome result (λ w. spelled_behind rest.now ≡ Some (w.0.now ∷ w.1.now ∷ w.2.now ∷ [])) }
    ensures none { IfNone result ((row : Row) → spelled_behind rest.now ≡ Some row → length row ≢ 3) }
{
    let (first, rest) = next_word(rest)?;
    let (second, rest) = next_word(rest)?;
    let third = last_word(rest)?;
    Some((first, second, third))
}
