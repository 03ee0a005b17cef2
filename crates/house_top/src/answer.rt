//! The answer to what a run has heard.

ghost use Rattle.std.specs.Prelude.{◌≡◌, ◌∷◌, [], codes, IfOk, Some};
ghost use Rattle.end_text.specs.End.{ended_as};
ghost use Rattle.house_model.specs.Report.{line_of};
ghost use Rattle.house_model.specs.Text.{Lines};
ghost use Rattle.house_top.specs.Answer.{IsEndAnswer, IsHeardAnswer};
ghost use Rattle.house_top.specs.Due.{status_of_end};
ghost use Rattle.house_top.specs.Refused.{bad_words};
ghost use Rattle.input_run.specs.Hearing.{HasLines, HasSomeLines};

use crate::bad::Bad;
use crate::status::Status;
use end_text::{EndText, RunEnd, end_text};
use house_base::Memory;
use house_model::Goal;
use input_run::{Heard, LineRun};
use line_text::Word::{Number, Text};
use line_text::push_line;
use report_text::{write_bad_key, write_bad_record, write_bad_toml};
use std::alloc::Global;

/// How a call ends, with the text that it writes.
#[derive(Drop)]
pub struct Answer {
    pub status: Status,
    pub text: Vec<u8>,
}

/// The answer to what was heard of an input.
pub fn answer_heard(alloc: Global, goal: Goal, heard: &Heard) -> Result<Answer, Memory>
    requires { HasSomeLines goal heard.now }
    ensures { IfOk result (λ answer. IsHeardAnswer goal heard.now answer.status answer.text.items) }
{
    match heard {
        Heard::Lines(run) => answer_of(alloc, goal, run),
        Heard::TooLong => too_long(alloc),
    }
}

/// The answer of a run that is at its end.
pub fn answer_of(alloc: Global, goal: Goal, run: &LineRun) -> Result<Answer, Memory>
    requires { (lines : Lines) × HasLines goal lines run.now }
    ensures { (lines : Lines) → HasLines goal lines run.now →
        IfOk result (λ answer. IsEndAnswer goal lines answer.status answer.text.items) }
{
    let EndText { end, text } = end_text(alloc, goal, &run.house)?;
    Ok(Answer {
        status: status_of(end),
        text,
    })
}

/// The status of a call whose run has ended so.
fn status_of(end: RunEnd) -> Status
    ensures { result ≡ status_of_end (Some (ended_as end)) }
{
    match end {
        RunEnd::Done | RunEnd::Settled => Status::Done,
        RunEnd::Refused(line, reason) => Status::Refused(line, reason),
        RunEnd::Short => Status::Short,
    }
}

/// The answer to an input that is over its limits, or to a file that is longer than its own.
#[tactic(auto, unfolding(house_model::specs::Report::line_of))]
pub fn too_long(alloc: Global) -> Result<Answer, Memory>
    ensures status { IfOk result (λ answer. answer.status ≡ Status.TooLong) }
    ensures text { IfOk result (λ answer. answer.text.items ≡ line_of (codes "too-long" ∷ [])) }
{
    Ok(Answer {
        status: Status::TooLong,
        text: b"too-long\n".to_vec(alloc)?,
    })
}

/// The answer to a file that is refused.
pub fn bad_file(alloc: Global, why: Bad) -> Result<Answer, Memory>
    ensures status { IfOk result (λ answer. answer.status ≡ Status.BadFile why) }
    ensures text { IfOk result (λ answer. answer.text.items ≡ line_of (bad_words why)) }
{
    let mut text = Vec::new(alloc);
    match why {
        Bad::Toml => write_bad_toml(alloc, &mut text)?,
        Bad::Key(key) => write_bad_key(alloc, key.word(), &mut text)?,
        Bad::Entry(number) => write_bad_record(alloc, number, &mut text)?,
        Bad::Slip(line) => push_line(
            alloc,
            &[Text(b"bad"), Text(b"slip"), Number(line)],
            &mut text,
        )?,
        Bad::Row(row) => push_line(alloc, &[Text(b"bad"), Text(b"row"), Number(row)], &mut text)?,
        Bad::Desk(file, line) => push_line(
            alloc,
            &[Text(b"bad"), Text(b"desk"), Number(file), Number(line)],
            &mut text,
        )?,
        Bad::Leave(line, reason) => push_line(
            alloc,
            &[
                Text(b"bad"),
                Text(b"withdraw"),
                Number(line),
                Text(reason.word().as_bytes()),
            ],
            &mut text,
        )?,
    }
    Ok(Answer {
        status: Status::BadFile(why),
        text,
    })
}
