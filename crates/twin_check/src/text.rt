//! The text of a comparison.

ghost use Rattle.std.specs.Prelude.{◌≡◌, ◌∷◌, ◌++◌, codes, OnErr, OnOk, IfOk, if◌then◌else◌, map};
ghost use Rattle.house_model.specs.Report.{line_of, over};
ghost use Rattle.twin_check.specs.Text.{half_words, twin_text};

use crate::half::{Half, Twin};
use house_base::Memory;
use line_text::Word::{Number, Share, Text};
use line_text::push_line;
use std::alloc::Global;

/// Appends the text of a comparison: a line for each file, and one on whether they agree. After an error the text is as
/// before.
pub fn write_twin(alloc: Global, twin: &Twin, out: &mut Vec<u8>) -> Result<(), Memory>
    ensures ok { OnOk result (out.new.items ≡ out.old.items ++ twin_text twin.now) }
    ensures err { OnErr result (out.new.items ≡ out.old.items) }
{
    let text = twin_text(alloc, twin)?;
    out.extend_from_slice(&text)?;
    Ok(())
}

/// The text of a comparison.
#[tactic(auto, unfolding(crate::specs::Text::twin_text))]
fn twin_text(alloc: Global, twin: &Twin) -> Result<Vec<u8>, Memory>
    ensures { IfOk result (λ text. text.items ≡ twin_text twin.now) }
{
    let mut text = Vec::new(alloc);
    push_half(alloc, b"first", &twin.first, &mut text)?;
    push_half(alloc, b"second", &twin.second, &mut text)?;
    push_line(
        alloc,
        &[Text(b"agree"), Text(agreed(twin.agree))],
        &mut text,
    )?;
    Ok(text)
}

/// The word on whether two files agree.
fn agreed(agree: bool) -> &'static [u8]
    ensures { result.now ≡ (if agree then codes "yes" else codes "no") }
{
    if agree { b"yes" } else { b"no" }
}

/// Appends the line on what a file comes to.
fn push_half(alloc: Global, side: &[u8], half: &Half, out: &mut Vec<u8>) -> Result<(), Memory>
    ensures { OnOk result (out.new.items ≡ out.old.items ++ line_of (side.now ∷ half_words half.now)) }
{
    match half {
        Half::Chances(chances, den) => {
            let list = chances.list.as_slice();
            let shown = (chances.count as usize).min(list.len());
            push_chances(alloc, side, &list[..shown], *den, out)
        }
        Half::Unlisted => push_line(alloc, &[Text(side), Text(b"unlisted")], out),
        Half::Refused(line, reason) => {
            let word = reason.word().as_bytes();
            push_line(
                alloc,
                &[Text(side), Text(b"refused"), Number(*line), Text(word)],
                out,
            )
        }
        Half::Short => push_line(alloc, &[Text(side), Text(b"short")], out),
    }
}

/// Appends the line on the chances in a file, over a denominator.
fn push_chances(
    alloc: Global,
    side: &[u8],
    chances: &[u64],
    den: u64,
    out: &mut Vec<u8>,
) -> Result<(), Memory>
    ensures { OnOk result (out.new.items ≡
        out.old.items ++ line_of (side.now ∷ codes "chance" ∷ map (λ x. over x den) chances.now)) }
{
    let mut words = Vec::new(alloc);
    words.push(Text(side))?;
    words.push(Text(b"chance"))?;
    for chance in chances {
        words.push(Share(*chance, den))?;
    }
    push_line(alloc, &words, out)
}
