//! What becomes of a run that has come to its report and of a file of withdrawals.

ghost use Rattle.std.specs.Prelude.{◌-◌, ◌^◌, ◌<◌, length, IfOk};
ghost use Rattle.house_core.specs.House.{StandsFor};
ghost use Rattle.house_model.specs.declared.goal.Goal.TheVariants as goal;
ghost use Rattle.house_model.specs.Headline.{AreOfCall};
ghost use Rattle.house_model.specs.Text.{Lines};
ghost use Rattle.reserve_list.specs.Board.{IsRanked};
ghost use Rattle.reserve_list.specs.Leaving.{reserve_text};
ghost use Rattle.reserve_list.specs.Told.{reserve_told};
ghost use Rattle.reserve_text.specs.Reserve.{IsReserve};

use house_base::{Memory, Reason};
use house_core::{Ending, House};
use report_text::Outcome;
use reserve_list::{LeaveFault, write_reserve};
use std::alloc::Global;

/// What becomes of a report and of a file of withdrawals.
#[derive(Drop)]
pub enum Reserve {
    /// The text of the report, of who moves up, and of the board behind them.
    Text(Vec<u8>),
    /// The line of the file with this number, counted from 1, is the first that is refused.
    Bad(u64, Reason),
}

/// What becomes of a run that has come to its report when those withdraw whom a file names.
pub fn reserve_text(alloc: Global, house: &House, bytes: &[u8]) -> Result<Reserve, Memory>
    requires { (lines : Lines) × StandsFor goal.Run lines house.now × (length lines < 2 ^ 64 - 1) × AreOfCall lines }
    ensures { (lines : Lines) → StandsFor goal.Run lines house.now → length lines < 2 ^ 64 - 1 → AreOfCall lines →
        IfOk result (IsReserve (reserve_told bytes.now lines)) }
{
    match house.ending() {
        Ending::Done(outcome) => told(alloc, &outcome, bytes),
        Ending::Memory => Err(Memory),
        // What has come to its report ends in no other way.
        Ending::Settled(_, _) | Ending::Refused(_, _) | Ending::Short(_, _) => unreachable!(),
    }
}

/// The same of the outcome of a run.
fn told(alloc: Global, outcome: &Outcome, bytes: &[u8]) -> Result<Reserve, Memory>
    requires { IsRanked outcome.now }
    ensures { IfOk result (IsReserve (reserve_text outcome.now bytes.now)) }
{
    let mut text = Vec::new(alloc);
    match write_reserve(alloc, outcome, bytes, &mut text) {
        Ok(()) => Ok(Reserve::Text(text)),
        Err(LeaveFault::BadLine(line, reason)) => Ok(Reserve::Bad(line, reason)),
        Err(LeaveFault::Memory) => Err(Memory),
    }
}
