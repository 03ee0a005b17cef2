//! A file of withdrawals.

ghost use Rattle.std.specs.Prelude.{◌≡◌, ◌++◌, ℕ, OnOk, OnErr, Some, None, Ok, Err, IfOk};
ghost use Rattle.line_text.specs.Written.{Extends};
ghost use Rattle.house_base.specs.Text.{Text};
ghost use Rattle.house_base.specs.declared.answer.Reason.{Reason};
ghost use Rattle.reserve_list.specs.Board.{IsRanked};
ghost use Rattle.reserve_list.specs.Leaving.{IsLeftOf, file_fault, left_board, moves_text, reserve_text};

use crate::board::Board;
use crate::fault::{LeaveFault, LineFault};
use crate::line::take_line;
use crate::text::write_board;
use command_text::first_line;
use report_text::{Outcome, write_report};
use std::alloc::Global;

/// The applicants withdraw whom a file names, a line `withdraw NAME` for each, and a line on each is appended: `withdraw NAME
/// up OTHER`, or `-` where nobody moves up. Blank lines and comments are skipped. After an error the text is as before,
/// and of those that the file names some have withdrawn, in its order.
pub fn leave(
    alloc: Global,
    board: &mut Board,
    bytes: &[u8],
    out: &mut Vec<u8>,
) -> Result<(), LeaveFault>
    ensures fault { OnOk result (file_fault board.old bytes.now ≡ None) }
    ensures board { OnOk result (board.new ≡ left_board board.old bytes.now) }
    ensures text { OnOk result (out.new.items ≡ out.old.items ++ moves_text board.old bytes.now) }
    ensures bad { (line : ℕ) (reason : Reason) → result ≡ Err (LeaveFault.BadLine line reason)
        → file_fault board.old bytes.now ≡ Some (line, reason) }
    ensures err { OnErr result (out.new.items ≡ out.old.items) }
    ensures left { OnErr result (IsLeftOf board.old bytes.now board.new) }
{
    let before = out.len();
    match take_lines(alloc, board, bytes, out) {
        Ok(()) => Ok(()),
        Err(fault) => {
            out.truncate(before);
            Err(fault)
        }
    }
}

/// Takes the lines of a file on a board. After an error some of what they say may be done.
fn take_lines(
    alloc: Global,
    board: &mut Board,
    bytes: &[u8],
    out: &mut Vec<u8>,
) -> Result<(), LeaveFault>
    ensures fault { OnOk result (file_fault board.old bytes.now ≡ None) }
    ensures board { OnOk result (board.new ≡ left_board board.old bytes.now) }
    ensures text { OnOk result (out.new.items ≡ out.old.items ++ moves_text board.old bytes.now) }
    ensures bad { (line : ℕ) (reason : Reason) → result ≡ Err (LeaveFault.BadLine line reason)
        → file_fault board.old bytes.now ≡ Some (line, reason) }
    ensures err { OnErr result (Extends out.old.items out.new.items) }
    ensures left { OnErr result (IsLeftOf board.old bytes.now board.new) }
{
    let _applicants = board.count();
    let mut rest = bytes;
    let mut number = 0;
    while let Some((line, behind)) = first_line(rest) {
        number += 1;
        match take_line(alloc, board, line, out) {
            Ok(()) => rest = behind,
            Err(LineFault::Bad(reason)) => return Err(LeaveFault::BadLine(number, reason)),
            Err(LineFault::Memory) => return Err(LeaveFault::Memory),
        }
    }
    Ok(())
}

/// Appends what becomes of an outcome when those withdraw whom a file names: the report, a line on each withdrawal, and the
/// board behind them. Where a line of the file is refused, the first such is told. After an error the text is as before.
pub fn write_reserve(
    alloc: Global,
    outcome: &Outcome,
    bytes: &[u8],
    out: &mut Vec<u8>,
) -> Result<(), LeaveFault>
    requires { IsRanked outcome.now }
    ensures ok { OnOk result ((text : Text) × (reserve_text outcome.now bytes.now ≡ Ok text)
        × (out.new.items ≡ out.old.items ++ text)) }
    ensures bad { (line : ℕ) (reason : Reason) → result ≡ Err (LeaveFault.BadLine line reason)
        → reserve_text outcome.now bytes.now ≡ Err (line, reason) }
    ensures err { OnErr result (out.new.items ≡ out.old.items) }
{
    match text_of(alloc, outcome, bytes) {
        Ok(text) => match out.extend_from_slice(&text) {
            Ok(()) => Ok(()),
            Err(_) => Err(LeaveFault::Memory),
        },
        Err(fault) => Err(fault),
    }
}

/// The same text.
fn text_of(alloc: Global, outcome: &Outcome, bytes: &[u8]) -> Result<Vec<u8>, LeaveFault>
    requires { IsRanked outcome.now }
    ensures ok { IfOk result (λ text. reserve_text outcome.now bytes.now ≡ Ok text.items) }
    ensures bad { (line : ℕ) (reason : Reason) → result ≡ Err (LeaveFault.BadLine line reason)
        → reserve_text outcome.now bytes.now ≡ Err (line, reason) }
{
    let mut board = match Board::of(alloc, outcome) {
        Ok(board) => board,
        Err(_) => return Err(LeaveFault::Memory),
    };
    let mut text = Vec::new(alloc);
    match write_report(alloc, outcome, &mut text) {
        Ok(()) => {}
        Err(_) => return Err(LeaveFault::Memory),
    }
    match leave(alloc, &mut board, bytes, &mut text) {
        Ok(()) => {}
        Err(fault) => return Err(fault),
    }
    match write_board(alloc, &board, &mut text) {
        Ok(()) => Ok(text),
        Err(_) => Err(LeaveFault::Memory),
    }
}
