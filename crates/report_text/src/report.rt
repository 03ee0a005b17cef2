//! The report of an outcome.

ghost use Rattle.std.specs.Prelude.{◌≡◌, ◌++◌, OnOk, OnErr, IfOk};
ghost use Rattle.house_model.specs.Report.{line_of, stand_alone, call_words, applicants_words, aside_words, draw_words};
ghost use Rattle.house_model.specs.Report.{cluster_words, cluster_lines, applicant_words, applicant_lines, empty_words};
ghost use Rattle.house_model.specs.Report.{report_head, report_body, outcome_text};

use crate::outcome::Outcome;
use house_base::Memory;
use house_model::{ApplicantRow, ClusterRow};
use line_text::Word::{Number, Share, Text};
use line_text::push_line;
use std::alloc::Global;

/// Appends the report of an outcome. After an error the text is as before.
pub fn write_report(alloc: Global, outcome: &Outcome, out: &mut Vec<u8>) -> Result<(), Memory>
    ensures ok { OnOk result (out.new.items ≡ out.old.items ++ outcome_text outcome.now) }
    ensures err { OnErr result (out.new.items ≡ out.old.items) }
{
    let text = report(alloc, outcome)?;
    out.extend_from_slice(&text)?;
    Ok(())
}

/// The report of an outcome.
#[tactic(auto, unfolding(house_model::specs::Report::outcome_text))]
fn report(alloc: Global, outcome: &Outcome) -> Result<Vec<u8>, Memory>
    ensures { IfOk result (λ text. text.items ≡ outcome_text outcome.now) }
{
    let mut text = Vec::new(alloc);
    push_head(alloc, outcome, &mut text)?;
    push_body(alloc, outcome, &mut text)?;
    Ok(text)
}

/// The lines on the call, the applicants, what was set aside, and the draw.
#[tactic(auto, unfolding(house_model::specs::Report::report_head))]
fn push_head(alloc: Global, outcome: &Outcome, out: &mut Vec<u8>) -> Result<(), Memory>
    ensures { OnOk result (out.new.items ≡ out.old.items ++ report_head outcome.now) }
{
    push_call(alloc, outcome, out)?;
    push_applicants(alloc, outcome, out)?;
    push_asides(alloc, outcome, out)?;
    push_draw(alloc, outcome, out)?;
    Ok(())
}

#[tactic(auto, unfolding(house_model::specs::Report::call_words))]
fn push_call(alloc: Global, outcome: &Outcome, out: &mut Vec<u8>) -> Result<(), Memory>
    ensures { OnOk result (out.new.items ≡ out.old.items ++ line_of (call_words outcome.now)) }
{
    let call = outcome.call();
    let words = [
        Text(b"call"),
        Number(u64::from(call.seats)),
        Number(u64::from(call.clusters)),
        Number(u64::from(call.reviews)),
    ];
    push_line(alloc, &words, out)
}

#[tactic(auto, unfolding(house_model::specs::Report::applicants_words))]
fn push_applicants(alloc: Global, outcome: &Outcome, out: &mut Vec<u8>) -> Result<(), Memory>
    ensures { OnOk result (out.new.items ≡ out.old.items ++ line_of (applicants_words outcome.now)) }
{
    let rows = outcome.applicants();
    let mut words = Vec::new(alloc);
    words.extend_from_slice(&[Text(b"applicants"), Number(rows.len() as u64)])?;
    if !stand_alone(rows) {
        words.extend_from_slice(&[Text(b"persons"), Number(u64::from(outcome.persons()))])?;
    }
    push_line(alloc, &words, out)
}

/// Whether each applicant is its own person.
#[tactic(auto, unfolding(house_model::specs::Report::stand_alone))]
fn stand_alone(rows: &[ApplicantRow]) -> bool
    ensures { result ≡ stand_alone rows.now }
{
    rows.iter().all(|row| row.name == row.person)
}

#[tactic(auto, unfolding(house_model::specs::Report::aside_words))]
fn push_asides(alloc: Global, outcome: &Outcome, out: &mut Vec<u8>) -> Result<(), Memory>
    ensures { OnOk result (out.new.items ≡ out.old.items ++ line_of (aside_words outcome.now.asides)) }
{
    let asides = outcome.asides();
    let words = [
        Text(b"aside"),
        Number(asides.form),
        Number(asides.early),
        Number(asides.late),
        Number(asides.unknown),
        Number(asides.unassigned),
        Number(asides.range),
    ];
    push_line(alloc, &words, out)
}

#[tactic(auto, unfolding(house_model::specs::Report::draw_words))]
fn push_draw(alloc: Global, outcome: &Outcome, out: &mut Vec<u8>) -> Result<(), Memory>
    ensures { OnOk result (out.new.items ≡ out.old.items ++ line_of (draw_words outcome.now)) }
{
    let words = [Text(b"draw"), Share(outcome.draw(), outcome.den())];
    push_line(alloc, &words, out)
}

/// The lines on the clusters, on the applicants, and on the seats that stay empty.
#[tactic(auto, unfolding(house_model::specs::Report::report_body))]
fn push_body(alloc: Global, outcome: &Outcome, out: &mut Vec<u8>) -> Result<(), Memory>
    ensures { OnOk result (out.new.items ≡ out.old.items ++ report_body outcome.now) }
{
    push_clusters(alloc, outcome.den(), outcome.clusters(), out)?;
    push_applicant_rows(alloc, outcome.den(), outcome.applicants(), out)?;
    push_empty(alloc, outcome, out)?;
    Ok(())
}

fn push_clusters(
    alloc: Global,
    den: u64,
    rows: &[ClusterRow],
    out: &mut Vec<u8>,
) -> Result<(), Memory>
    ensures { OnOk result (out.new.items ≡ out.old.items ++ cluster_lines den rows.now) }
{
    for (index, row) in rows.iter().enumerate() {
        push_cluster(alloc, den, index as u64 + 1, row, out)?;
    }
    Ok(())
}

#[tactic(auto, unfolding(house_model::specs::Report::cluster_words))]
fn push_cluster(
    alloc: Global,
    den: u64,
    number: u64,
    row: &ClusterRow,
    out: &mut Vec<u8>,
) -> Result<(), Memory>
    ensures { OnOk result (out.new.items ≡ out.old.items ++ line_of (cluster_words den number row.now)) }
{
    let words = [
        Text(b"cluster"),
        Number(number),
        Text(b"cents"),
        Number(row.cents),
        Text(b"quota"),
        Share(row.quota, den),
        Text(b"seats"),
        Number(row.seats),
        Text(b"filled"),
        Number(row.filled),
    ];
    push_line(alloc, &words, out)
}

fn push_applicant_rows(
    alloc: Global,
    den: u64,
    rows: &[ApplicantRow],
    out: &mut Vec<u8>,
) -> Result<(), Memory>
    ensures { OnOk result (out.new.items ≡ out.old.items ++ applicant_lines den rows.now) }
{
    for row in rows {
        push_applicant(alloc, den, row, out)?;
    }
    Ok(())
}

#[tactic(auto, unfolding(house_model::specs::Report::applicant_words))]
fn push_applicant(
    alloc: Global,
    den: u64,
    row: &ApplicantRow,
    out: &mut Vec<u8>,
) -> Result<(), Memory>
    ensures { OnOk result (out.new.items ≡ out.old.items ++ line_of (applicant_words den row.now)) }
{
    let mut words = Vec::new(alloc);
    words.extend_from_slice(&[Text(b"applicant"), Text(row.name.bytes())])?;
    if row.name != row.person {
        words.extend_from_slice(&[Text(b"person"), Text(row.person.bytes())])?;
    }
    words.extend_from_slice(&[
        Text(b"cluster"),
        Number(u64::from(row.cluster)),
        Text(b"rank"),
        Number(u64::from(row.rank)),
        Text(b"cents"),
        Number(row.cents),
        Text(b"chance"),
        Share(row.chance, den),
        Text(if row.chosen { b"yes" } else { b"no" }),
    ])?;
    push_line(alloc, &words, out)
}

#[tactic(auto, unfolding(house_model::specs::Report::empty_words))]
fn push_empty(alloc: Global, outcome: &Outcome, out: &mut Vec<u8>) -> Result<(), Memory>
    ensures { OnOk result (out.new.items ≡ out.old.items ++ line_of (empty_words outcome.now)) }
{
    push_line(alloc, &[Text(b"empty"), Number(outcome.empty())], out)
}
