//! The text with which a run ends.

ghost use Rattle.std.specs.Prelude.{◌≡◌, ◌-◌, ◌^◌, ◌<◌, ◌∷◌, [], length, codes, IfOk};
ghost use Rattle.cut_gap.specs.Cut.{marked};
ghost use Rattle.house_base.specs.Setting.{size};
ghost use Rattle.peer_selection.specs.Profile.{Pairs};
ghost use Rattle.peer_selection.specs.Shortage.{IsShort, assignment_demand};
ghost use Rattle.house_model.specs.Report.{line_of, outcome_text, refused_words};
ghost use Rattle.house_model.specs.Text.{Lines};
ghost use Rattle.house_model.specs.Texts.{pairs_text, short_text};
ghost use Rattle.house_core.specs.House.{StandsFor};
ghost use Rattle.house_core.specs.Standing.{HoldsPairs};
ghost use Rattle.end_text.specs.End.{IsEndOf};

use crate::end::{EndText, RunEnd};
use cut_gap::Cut;
use house_base::{Memory, Plan, Reason};
use house_core::{Ending, House};
use house_model::Goal;
use report_text::{Outcome, write_pairs, write_refused, write_report, write_short};
use review_desk::Desk;
use std::alloc::Global;

/// How the run of a house ends with the lines that it has taken, and the text that says so.
pub fn end_text(alloc: Global, goal: Goal, house: &House) -> Result<EndText, Memory>
    requires { (lines : Lines) × StandsFor goal lines house.now × (length lines < 2 ^ 64 - 1) }
    ensures { (lines : Lines) → StandsFor goal lines house.now → length lines < 2 ^ 64 - 1 →
        IfOk result (λ told. IsEndOf goal lines told.end told.text.items) }
{
    match house.ending() {
        Ending::Settled(plan, Some(desk)) => assigned(alloc, plan, desk),
        Ending::Settled(_, None) => feasible(alloc),
        Ending::Done(outcome) => reported(alloc, &outcome),
        Ending::Refused(line, reason) => refused(alloc, line, reason),
        Ending::Short(plan, cut) => short(alloc, plan, cut),
        Ending::Memory => Err(Memory),
    }
}

/// The end with the pairs of an assignment, where they were asked for.
fn assigned(alloc: Global, plan: &Plan, desk: &Desk) -> Result<EndText, Memory>
    requires { desk.now.pairs.side ≡ size plan.now }
    ensures end { IfOk result (λ told. told.end ≡ RunEnd.Settled) }
    ensures text { (pairs : Pairs) → HoldsPairs plan.now pairs desk.now.pairs →
        IfOk result (λ told. told.text.items ≡ pairs_text plan.now pairs) }
{
    let mut text = Vec::with_capacity(alloc, plan.count() as usize)?;
    write_pairs(alloc, plan, desk.grid(), &mut text)?;
    Ok(EndText {
        end: RunEnd::Settled,
        text,
    })
}

/// The end where there is an assignment, and no more was asked.
#[tactic(auto, unfolding(house_model::specs::Report::line_of))]
fn feasible(alloc: Global) -> Result<EndText, Memory>
    ensures end { IfOk result (λ told. told.end ≡ RunEnd.Settled) }
    ensures text { IfOk result (λ told. told.text.items ≡ line_of (codes "feasible" ∷ [])) }
{
    Ok(EndText {
        end: RunEnd::Settled,
        text: b"feasible\n".to_vec(alloc)?,
    })
}

/// The end with the report of an outcome.
fn reported(alloc: Global, outcome: &Outcome) -> Result<EndText, Memory>
    ensures end { IfOk result (λ told. told.end ≡ RunEnd.Done) }
    ensures text { IfOk result (λ told. told.text.items ≡ outcome_text outcome.now) }
{
    let mut text = Vec::new(alloc);
    write_report(alloc, outcome, &mut text)?;
    Ok(EndText {
        end: RunEnd::Done,
        text,
    })
}

/// The end where a line is refused, or the end of the lines is.
fn refused(alloc: Global, line: u64, reason: Reason) -> Result<EndText, Memory>
    ensures end { IfOk result (λ told. told.end ≡ RunEnd.Refused line reason) }
    ensures text { IfOk result (λ told. told.text.items ≡ line_of (refused_words line reason)) }
{
    let mut text = Vec::new(alloc);
    write_refused(alloc, line, reason, &mut text)?;
    Ok(EndText {
        end: RunEnd::Refused(line, reason),
        text,
    })
}

/// The end for the want of a valid assignment, which a cut shows.
fn short(alloc: Global, plan: &Plan, cut: &Cut) -> Result<EndText, Memory>
    requires reviewers { length cut.now.reviewers ≡ size plan.now }
    requires proposals { length cut.now.proposals ≡ size plan.now }
    requires short { IsShort (assignment_demand plan.now) (marked cut.now.reviewers) (marked cut.now.proposals) }
    ensures end { IfOk result (λ told. told.end ≡ RunEnd.Short) }
    ensures text { IfOk result (λ told. told.text.items ≡
        short_text plan.now (marked cut.now.reviewers) (marked cut.now.proposals)) }
{
    let mut text = Vec::new(alloc);
    write_short(alloc, plan, cut, &mut text)?;
    Ok(EndText {
        end: RunEnd::Short,
        text,
    })
}
