//! A line of a file of withdrawals.

ghost use Rattle.std.specs.Prelude.{◌≡◌, ◌≢◌, ◌++◌, ◌==◌, ◌∷◌, [], OnOk, OnErr, IfSome, IfNone, Some, None, Err, codes, length, slice_index};
ghost use Rattle.line_text.specs.Written.{Extends};
ghost use Rattle.house_base.specs.declared.answer.Reason.{Reason};
ghost use Rattle.house_model.specs.Report.{line_of};
ghost use Rattle.house_model.specs.Text.{words};
ghost use Rattle.reserve_list.specs.Leaving.{line_fault, move_words, name_fault};
ghost use Rattle.reserve_list.specs.Line.{MayBeBehind, MayHaveLeft, SaysAs, board_behind, board_without, moves_on, up_text};

use crate::board::Board;
use crate::fault::{BoardFault, LineFault, Moved};
use command_text::next_word;
use house_base::{Memory, Name, Reason};
use line_text::Word::Text;
use line_text::push_line;
use std::alloc::Global;

/// What a line says, whatever the board.
#[derive(Clone, Copy, Debug, PartialEq, Eq)]
pub enum Said {
    /// It has no word, or is a comment.
    Nothing,
    /// The applicant of this name withdraws.
    Withdraw(Name),
    /// It is refused.
    Bad(Reason),
}

/// Takes a line on a board: does what it says, and appends a line on it. After an error some of that may be done.
pub(crate) fn take_line(
    alloc: Global,
    board: &mut Board,
    line: &[u8],
    out: &mut Vec<u8>,
) -> Result<(), LineFault>
    ensures fault { OnOk result (line_fault board.old line.now ≡ None) }
    ensures board { OnOk result (board.new ≡ board_behind board.old line.now) }
    ensures text { OnOk result (out.new.items ≡ out.old.items ++ moves_on board.old line.now) }
    ensures bad { (reason : Reason) → result ≡ Err (LineFault.Bad reason) → line_fault board.old line.now ≡ Some reason }
    ensures extends { OnErr result (Extends out.old.items out.new.items) }
    ensures left { OnErr result (MayBeBehind board.old line.now board.new) }
{
    match read(line) {
        Said::Nothing => Ok(()),
        Said::Withdraw(name) => take_name(alloc, board, name, out),
        Said::Bad(reason) => Err(LineFault::Bad(reason)),
    }
}

/// Reads a line.
fn read(line: &[u8]) -> Said
    ensures { SaysAs line.now result }
{
    let Some((first, rest)) = next_word(line) else {
        return Said::Nothing;
    };
    if is_comment(first) {
        return Said::Nothing;
    }
    let Some(word) = only_word(rest) else {
        return Said::Bad(Reason::Form);
    };
    if first != b"withdraw".as_slice() {
        return Said::Bad(Reason::Form);
    }
    match Name::read(word) {
        Some(name) => Said::Withdraw(name),
        None => Said::Bad(Reason::Name),
    }
}

/// The word, where one alone is left.
fn only_word(rest: &[u8]) -> Option<&[u8]>
    ensures found { IfSome result (λ word. words rest.now ≡ word.now ∷ []) }
    ensures none { IfNone result (length (words rest.now) ≢ 1) }
{
    let (word, behind) = next_word(rest)?;
    match next_word(behind) {
        Some(_) => None,
        None => Some(word),
    }
}

/// Whether a word begins as a comment does.
fn is_comment(word: &[u8]) -> bool
    ensures { result ≡ (slice_index word.now 0 == 35) }
{
    matches!(word, [b'#', ..])
}

/// The applicant of a name withdraws, and a line on it is appended.
fn take_name(
    alloc: Global,
    board: &mut Board,
    name: Name,
    out: &mut Vec<u8>,
) -> Result<(), LineFault>
    ensures fault { OnOk result (name_fault board.old name ≡ None) }
    ensures board { OnOk result (board.new ≡ board_without board.old name) }
    ensures text { OnOk result (out.new.items ≡ out.old.items ++ line_of (move_words board.old name)) }
    ensures bad { (reason : Reason) → result ≡ Err (LineFault.Bad reason) → name_fault board.old name ≡ Some reason }
    ensures err { OnErr result (out.new.items ≡ out.old.items) }
    ensures left { OnErr result (MayHaveLeft board.old name board.new) }
{
    match board.withdraw(name) {
        Ok(moved) => match push_move(alloc, name, moved, out) {
            Ok(()) => Ok(()),
            Err(Memory) => Err(LineFault::Memory),
        },
        Err(BoardFault::Unknown) => Err(LineFault::Bad(Reason::Unknown)),
        Err(BoardFault::Gone) => Err(LineFault::Bad(Reason::Known)),
    }
}

/// Appends the line on a withdrawal. After an error the text is as before.
fn push_move(alloc: Global, name: Name, moved: Moved, out: &mut Vec<u8>) -> Result<(), Memory>
    ensures ok { OnOk result (out.new.items ≡ out.old.items
        ++ line_of (codes "withdraw" ∷ name ∷ codes "up" ∷ up_text moved ∷ [])) }
    ensures err { OnErr result (out.new.items ≡ out.old.items) }
{
    match moved {
        Moved::Up(other) => push_up(alloc, name.bytes(), other.bytes(), out),
        Moved::Nobody => push_up(alloc, name.bytes(), b"-", out),
    }
}

/// Appends the same line, by the words.
fn push_up<'a>(alloc: Global, name: &'a [u8], up: &'a [u8], out: &mut Vec<u8>) -> Result<(), Memory>
    ensures ok { OnOk result (out.new.items ≡ out.old.items
        ++ line_of (codes "withdraw" ∷ name.now ∷ codes "up" ∷ up.now ∷ [])) }
    ensures err { OnErr result (out.new.items ≡ out.old.items) }
{
    let words = [Text(b"withdraw"), Text(name), Text(b"up"), Text(up)];
    push_line(alloc, &words, out)
}
