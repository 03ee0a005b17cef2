//! The text of a board.

ghost use Rattle.std.specs.Prelude.{◌≡◌, ◌++◌, ◌<◌, ◌∷◌, [], OnOk, OnErr, IfOk, codes, decimal};
ghost use Rattle.house_model.specs.Report.{line_of, over};
ghost use Rattle.reserve_list.specs.Board.{count_of, empty_on};
ghost use Rattle.reserve_list.specs.Leaving.{board_text, final_lines, final_words, standing_word};

use crate::board::Board;
use house_base::Memory;
use line_text::Word::{Number, Share, Text};
use line_text::push_line;
use std::alloc::Global;

/// Appends a board: a line `final NAME chance X/D yes`, `no` or `gone` for each applicant in register order, then
/// `empty E`. After an error the text is as before.
pub fn write_board(alloc: Global, board: &Board, out: &mut Vec<u8>) -> Result<(), Memory>
    ensures ok { OnOk result (out.new.items ≡ out.old.items ++ board_text board.now) }
    ensures err { OnErr result (out.new.items ≡ out.old.items) }
{
    let text = text_of(alloc, board)?;
    out.extend_from_slice(&text)?;
    Ok(())
}

/// The text of a board.
#[tactic(auto, unfolding(crate::specs::Leaving::board_text))]
fn text_of(alloc: Global, board: &Board) -> Result<Vec<u8>, Memory>
    ensures { IfOk result (λ text. text.items ≡ board_text board.now) }
{
    let mut text = Vec::new(alloc);
    push_all(alloc, board, &mut text)?;
    push_line(alloc, &[Text(b"empty"), Number(board.empty())], &mut text)?;
    Ok(text)
}

/// Appends the lines of all applicants.
fn push_all(alloc: Global, board: &Board, out: &mut Vec<u8>) -> Result<(), Memory>
    ensures { OnOk result (out.new.items ≡ out.old.items ++ final_lines board.now) }
{
    for number in 0..board.count() {
        push_final(alloc, board, number, out)?;
    }
    Ok(())
}

/// Appends the line of an applicant.
#[tactic(auto, unfolding(crate::specs::Leaving::final_words))]
fn push_final(alloc: Global, board: &Board, number: u32, out: &mut Vec<u8>) -> Result<(), Memory>
    requires { number < count_of board.now.outcome }
    ensures { OnOk result (out.new.items ≡ out.old.items ++ line_of (final_words board.now number)) }
{
    let name = board.name(number);
    let chance = board.chance(number);
    push_words(
        alloc,
        name.bytes(),
        chance,
        board.den(),
        standing(board, number),
        out,
    )
}

/// Appends the line of a name, a chance over a denominator, and the word on how it stands.
fn push_words<'a>(
    alloc: Global,
    name: &'a [u8],
    chance: u64,
    den: u64,
    standing: &'a [u8],
    out: &mut Vec<u8>,
) -> Result<(), Memory>
    ensures { OnOk result (out.new.items ≡ out.old.items
        ++ line_of (codes "final" ∷ name.now ∷ codes "chance" ∷ over chance den ∷ standing.now ∷ [])) }
{
    let words = [
        Text(b"final"),
        Text(name),
        Text(b"chance"),
        Share(chance, den),
        Text(standing),
    ];
    push_line(alloc, &words, out)
}

/// The word on how an applicant stands.
fn standing(board: &Board, number: u32) -> &'static [u8]
    requires { number < count_of board.now.outcome }
    ensures { result.now ≡ standing_word board.now number }
{
    if board.is_gone(number) {
        b"gone"
    } else if board.holds(number) {
        b"yes"
    } else {
        b"no"
    }
}
