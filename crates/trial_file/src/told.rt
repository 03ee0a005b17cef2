//! What is told of a trial that is done.

ghost use Rattle.std.specs.Prelude.{◌≡◌, ◌++◌, ◌<◌, ◌^◌, IfOk, OnErr, OnOk};
ghost use Rattle.trial_file.specs.Told.{all_chances, all_filled, trial_text};

use house_base::Memory;
use line_text::Word::{Number, Share, Text};
use line_text::push_line;
use report_text::Outcome;
use std::alloc::Global;

/// Appends the text of a trial of a seed with so many lines, by the outcome of its run. After an error the text is as
/// before.
pub fn write_trial(
    alloc: Global,
    seed: u64,
    lines: u64,
    outcome: &Outcome,
    out: &mut Vec<u8>,
) -> Result<(), Memory>
    requires filled { all_filled outcome.now < 2 ^ 64 }
    requires chances { all_chances outcome.now < 2 ^ 64 }
    ensures ok { OnOk result (out.new.items ≡ out.old.items ++ trial_text seed lines outcome.now) }
    ensures err { OnErr result (out.new.items ≡ out.old.items) }
{
    let text = trial_text(alloc, seed, lines, outcome)?;
    out.extend_from_slice(&text)?;
    Ok(())
}

/// The text of a trial.
#[tactic(auto, unfolding(crate::specs::Told::trial_text))]
fn trial_text(alloc: Global, seed: u64, lines: u64, outcome: &Outcome) -> Result<Vec<u8>, Memory>
    requires filled { all_filled outcome.now < 2 ^ 64 }
    requires chances { all_chances outcome.now < 2 ^ 64 }
    ensures { IfOk result (λ text. text.items ≡ trial_text seed lines outcome.now) }
{
    let applicants = Number(outcome.applicants().len() as u64);
    let seats = Number(u64::from(outcome.call().seats));
    let filled = Number(all_filled(outcome));
    let empty = Number(outcome.empty());
    let chances = Share(all_chances(outcome), outcome.den());
    let mut text = Vec::new(alloc);
    push_line(alloc, &[Text(b"trial"), Number(seed)], &mut text)?;
    push_line(alloc, &[Text(b"lines"), Number(lines)], &mut text)?;
    push_line(alloc, &[Text(b"applicants"), applicants], &mut text)?;
    let words = [
        Text(b"seats"),
        seats,
        Text(b"filled"),
        filled,
        Text(b"empty"),
        empty,
    ];
    push_line(alloc, &words, &mut text)?;
    push_line(alloc, &[Text(b"chances"), chances], &mut text)?;
    Ok(text)
}

/// The filled seats of all clusters.
fn all_filled(outcome: &Outcome) -> u64
    requires { all_filled outcome.now < 2 ^ 64 }
    ensures { result ≡ all_filled outcome.now }
{
    outcome.clusters().iter().map(|row| row.filled).sum()
}

/// The chances of all applicants, over the common denominator.
fn all_chances(outcome: &Outcome) -> u64
    requires { all_chances outcome.now < 2 ^ 64 }
    ensures { result ≡ all_chances outcome.now }
{
    outcome.applicants().iter().map(|row| row.chance).sum()
}
