//! What is said of a slip.

ghost use Rattle.std.specs.Prelude.{◌≡◌, ◌*◌, ◌∷◌, [], None, IfOk, codes};
ghost use Rattle.house_base.specs.declared.limits.TheConstants.{DOLLAR};
ghost use Rattle.house_model.specs.Report.{line_of, over};
ghost use Rattle.house_top.specs.declared.document.Document.TheVariants as document;
ghost use Rattle.house_top.specs.Judged.{IsVerdict, of_document};
ghost use Rattle.slip_check.specs.Form.{fault_in, rows_of, slip_in};

use crate::answer::{Answer, bad_file};
use crate::bad::Bad;
use crate::status::Status;
use house_base::Memory;
use house_base::limits::DOLLAR;
use line_text::Word::{Share, Text};
use line_text::push_line;
use slip_check::{SlipFault, Verdict, check_slip, slip_persons};
use std::alloc::Global;

/// Says of a slip whether the chance that it prints is the right one, and else which is.
pub fn judge_slip(alloc: Global, bytes: &[u8]) -> Result<Answer, Memory>
    ensures said { IfOk result (λ answer. (answer.status, answer.text.items) ≡ of_document document.Slip bytes.now) }
    ensures ends { IfOk result (λ answer. IsVerdict document.Slip answer.status) }
{
    match check_slip(alloc, bytes) {
        Ok(Verdict::Yes) => right_slip(alloc),
        Ok(Verdict::No(worth)) => wrong_slip(alloc, bytes, worth),
        Err(SlipFault::BadSlip(line)) => bad_file(alloc, Bad::Slip(line)),
        Err(SlipFault::Memory) => Err(Memory),
    }
}

/// The answer to a slip that prints the right chance.
fn right_slip(alloc: Global) -> Result<Answer, Memory>
    ensures status { IfOk result (λ answer. answer.status ≡ Status.Done) }
    ensures text { IfOk result (λ answer. answer.text.items ≡ line_of (codes "slip" ∷ codes "yes" ∷ [])) }
{
    let mut text = Vec::new(alloc);
    push_line(alloc, &[Text(b"slip"), Text(b"yes")], &mut text)?;
    Ok(Answer {
        status: Status::Done,
        text,
    })
}

/// The answer to a slip that prints another chance than this one.
fn wrong_slip(alloc: Global, bytes: &[u8], worth: u64) -> Result<Answer, Memory>
    requires { fault_in bytes.now ≡ None }
    ensures status { IfOk result (λ answer. answer.status ≡ Status.Wrong worth) }
    ensures text { IfOk result (λ answer. answer.text.items ≡
        line_of (codes "wrong" ∷ over worth ((slip_in (rows_of bytes.now)).persons * DOLLAR) ∷ [])) }
{
    let Some(persons) = slip_persons(bytes) else {
        // A slip of the form names the persons of its call.
        unreachable!()
    };
    let den = u64::from(persons) * u64::from(DOLLAR);
    let mut text = Vec::new(alloc);
    push_line(alloc, &[Text(b"wrong"), Share(worth, den)], &mut text)?;
    Ok(Answer {
        status: Status::Wrong(worth),
        text,
    })
}
