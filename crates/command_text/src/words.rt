//! The words of a line, taken from its front one by one.

ghost use Rattle.std.specs.Prelude.{◌≡◌, ◌≢◌, [], ◌∷◌, length, IfNone, IfSome, IsTrue, ◌↔◌, ◌<◌, position, All, IsSome, false};
ghost use Rattle.std.specs.List.{before_first, after_first, position_or_len};
ghost use Rattle.house_model.specs.Text.{words, is_gap};

/// The first word of a line, and what follows it. None where no word is left.
pub fn next_word(line: &[u8]) -> Option<(&[u8], &[u8])>
    ensures found { IfSome result (λ found. words line.now ≡ found.0.now ∷ words found.1.now) }
    ensures none { IfNone result (words line.now ≡ []) }
{
    let mut rest = line;
    while let Some((word, after)) = cut_at_gap(rest) {
        if !word.is_empty() {
            return Some((word, after));
        }
        rest = after;
    }
    if rest.is_empty() {
        None
    } else {
        Some((rest, &[]))
    }
}

/// Whether no word is left.
pub fn is_at_end(rest: &[u8]) -> bool
    ensures { IsTrue result ↔ (words rest.now ≡ []) }
{
    next_word(rest).is_none()
}

/// The word, where one alone is left.
pub fn one_word(rest: &[u8]) -> Option<&[u8]>
    ensures found { IfSome result (λ word. words rest.now ≡ word.now ∷ []) }
    ensures none { IfNone result (length (words rest.now) ≢ 1) }
{
    let (word, rest) = next_word(rest)?;
    if is_at_end(rest) { Some(word) } else { None }
}

/// The words, where just two are left.
pub fn two_words(rest: &[u8]) -> Option<(&[u8], &[u8])>
    ensures found { IfSome result (λ found. words rest.now ≡ found.0.now ∷ found.1.now ∷ []) }
    ensures none { IfNone result (length (words rest.now) ≢ 2) }
{
    let (first, rest) = next_word(rest)?;
    let second = one_word(rest)?;
    Some((first, second))
}

/// The words, where just three are left.
pub fn three_words(rest: &[u8]) -> Option<(&[u8], &[u8], &[u8])>
    ensures found { IfSome result (λ found. words rest.now ≡ found.0.now ∷ found.1.now ∷ found.2.now ∷ []) }
    ensures none { IfNone result (length (words rest.now) ≢ 3) }
{
    let (first, rest) = next_word(rest)?;
    let (second, third) = two_words(rest)?;
    Some((first, second, third))
}

/// What stands before and after the first space or tab. None where there is none.
fn cut_at_gap(text: &[u8]) -> Option<(&[u8], &[u8])>
    ensures found { IfSome result (λ parts.
        (parts.0.now ≡ before_first is_gap text.now) × (parts.1.now ≡ after_first is_gap text.now)) }
    ensures gap { IsSome result → position_or_len is_gap text.now < length text.now }
    ensures none { IfNone result (All (λ byte. is_gap byte ≡ false) text.now) }
{
    let at = first_gap(text)?;
    let (word, after) = text.split_at(at);
    Some((word, &after[1..]))
}

/// Where the first space or tab stands.
fn first_gap(text: &[u8]) -> Option<usize>
    ensures value { result ≡ position is_gap text.now }
    ensures none { IfNone result (All (λ byte. is_gap byte ≡ false) text.now) }
{
    text.iter().position(|byte| is_gap(*byte))
}

/// Whether a byte stands between words: a space or a tab.
fn is_gap(byte: u8) -> bool
    ensures { result ≡ is_gap byte }
{
    byte == b' ' || byte == b'\t'
}
