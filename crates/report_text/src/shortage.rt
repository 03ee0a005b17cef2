//! The text of a shortage.

ghost use Rattle.std.specs.Prelude.{◌≡◌, ◌<◌, ◌≤◌, ◌*◌, ◌+◌, ◌-◌, ◌++◌, ◌∷◌, ◌&&◌, length, OnOk, OnErr, IfOk, if◌then◌else◌};
ghost use Rattle.house_base.specs.Setting.{size, may, need};
ghost use Rattle.house_base.specs.declared.limits.TheConstants.{MOST_APPLICANTS, MOST_OWN, MOST_REVIEWS};
ghost use Rattle.peer_selection.specs.Counting.{count_below};
ghost use Rattle.peer_selection.specs.Shortage.{IsShort, allowed, assignment_demand, needed_in, room_outside};
ghost use Rattle.house_model.specs.Report.{line_of};
ghost use Rattle.house_model.specs.Texts.{proposals_in, reviewers_in, short_text, short_words};
ghost use Rattle.cut_gap.specs.Cut.{marked};

use cut_gap::Cut;
use house_base::{Memory, Name, Plan};
use line_text::Word::{Number, Text};
use line_text::push_line;
use std::alloc::{AllocError, Global};

/// Appends the text of a shortage: how many pairs its cut allows and how many it needs, its persons and its
/// applicants, in place order. After an error the text is as before.
pub fn write_short(alloc: Global, plan: &Plan, cut: &Cut, out: &mut Vec<u8>) -> Result<(), Memory>
    requires reviewers { length cut.now.reviewers ≡ size plan.now }
    requires proposals { length cut.now.proposals ≡ size plan.now }
    requires short { IsShort (assignment_demand plan.now) (marked cut.now.reviewers) (marked cut.now.proposals) }
    ensures ok { OnOk result (out.new.items ≡
        out.old.items ++ short_text plan.now (marked cut.now.reviewers) (marked cut.now.proposals)) }
    ensures err { OnErr result (out.new.items ≡ out.old.items) }
{
    let text = shortage(alloc, plan, cut)?;
    out.extend_from_slice(&text)?;
    Ok(())
}

/// The text of a shortage.
#[tactic(auto, unfolding(house_model::specs::Texts::short_text))]
fn shortage(alloc: Global, plan: &Plan, cut: &Cut) -> Result<Vec<u8>, Memory>
    requires reviewers { length cut.now.reviewers ≡ size plan.now }
    requires proposals { length cut.now.proposals ≡ size plan.now }
    requires short { IsShort (assignment_demand plan.now) (marked cut.now.reviewers) (marked cut.now.proposals) }
    ensures { IfOk result (λ text. text.items ≡
        short_text plan.now (marked cut.now.reviewers) (marked cut.now.proposals)) }
{
    let mut text = Vec::new(alloc);
    push_counts(alloc, plan, cut, &mut text)?;
    push_names(
        alloc,
        b"reviewers",
        &reviewers(alloc, plan, cut)?,
        &mut text,
    )?;
    push_names(
        alloc,
        b"proposals",
        &proposals(alloc, plan, cut)?,
        &mut text,
    )?;
    Ok(text)
}

/// Appends the line of how many pairs a cut allows, and how many its persons need within its applicants.
#[tactic(auto, unfolding(house_model::specs::Texts::short_words))]
fn push_counts(alloc: Global, plan: &Plan, cut: &Cut, out: &mut Vec<u8>) -> Result<(), Memory>
    requires reviewers { length cut.now.reviewers ≡ size plan.now }
    requires proposals { length cut.now.proposals ≡ size plan.now }
    requires short { IsShort (assignment_demand plan.now) (marked cut.now.reviewers) (marked cut.now.proposals) }
    ensures { OnOk result (out.new.items ≡
        out.old.items ++ line_of (short_words plan.now (marked cut.now.reviewers) (marked cut.now.proposals))) }
{
    let needed = needed_in(plan, cut) - room_outside(plan, cut);
    let words = [
        Text(b"short"),
        Text(b"allowed"),
        Number(allowed(plan, cut)),
        Text(b"needed"),
        Number(needed),
    ];
    push_line(alloc, &words, out)
}

/// Appends the line of a word and names.
fn push_names(alloc: Global, head: &[u8], names: &[Name], out: &mut Vec<u8>) -> Result<(), Memory>
    ensures { OnOk result (out.new.items ≡ out.old.items ++ line_of (head.now ∷ names.now)) }
{
    let mut words = Vec::new(alloc);
    words.push(Text(head))?;
    for name in names {
        words.push(Text(name.bytes()))?;
    }
    push_line(alloc, &words, out)
}

/// The names of the persons whose first places are in a cut, in place order.
fn reviewers(alloc: Global, plan: &Plan, cut: &Cut) -> Result<Vec<Name>, AllocError>
    requires { length cut.now.reviewers ≡ size plan.now }
    ensures { IfOk result (λ names. names.items ≡ reviewers_in plan.now (marked cut.now.reviewers)) }
{
    let mut names = Vec::with_capacity(alloc, plan.count() as usize)?;
    for index in 0..plan.owners() {
        let owner = plan.owner(index);
        if cut.has_reviewer(owner.first) {
            names.push(owner.name)?;
        }
    }
    Ok(names)
}

/// The names of the applicants in a cut, in place order.
fn proposals(alloc: Global, plan: &Plan, cut: &Cut) -> Result<Vec<Name>, AllocError>
    requires { length cut.now.proposals ≡ size plan.now }
    ensures { IfOk result (λ names. names.items ≡ proposals_in plan.now (marked cut.now.proposals)) }
{
    let mut names = Vec::with_capacity(alloc, plan.count() as usize)?;
    for place in 0..plan.count() {
        if cut.has_proposal(place) {
            names.push(plan.person(place).name)?;
        }
    }
    Ok(names)
}

/// How many pairs the persons of a cut need.
#[tactic(auto, unfolding(peer_selection::specs::Shortage::needed_in))]
fn needed_in(plan: &Plan, cut: &Cut) -> u64
    requires { length cut.now.reviewers ≡ size plan.now }
    ensures { result ≡ needed_in (assignment_demand plan.now) (marked cut.now.reviewers) }
{
    let mut total = 0;
    for reviewer in 0..plan.count() {
        if cut.has_reviewer(reviewer) {
            total += u64::from(plan.need(reviewer));
        }
    }
    total
}

/// For how many pairs the applicants outside a cut have room.
#[tactic(auto, unfolding(peer_selection::specs::Shortage::room_outside))]
fn room_outside(plan: &Plan, cut: &Cut) -> u64
    requires { length cut.now.proposals ≡ size plan.now }
    ensures { result ≡ room_outside (assignment_demand plan.now) (marked cut.now.proposals) }
{
    let reviews = u64::from(plan.call().reviews);
    let mut total = 0;
    for proposal in 0..plan.count() {
        if !cut.has_proposal(proposal) {
            total += reviews;
        }
    }
    total
}

/// How many pairs of a person and an applicant of a cut may be.
#[tactic(auto, unfolding(peer_selection::specs::Shortage::allowed))]
fn allowed(plan: &Plan, cut: &Cut) -> u64
    requires reviewers { length cut.now.reviewers ≡ size plan.now }
    requires proposals { length cut.now.proposals ≡ size plan.now }
    ensures { result ≡ allowed (assignment_demand plan.now) (marked cut.now.reviewers) (marked cut.now.proposals) }
{
    let mut total = 0;
    for reviewer in 0..plan.count() {
        if cut.has_reviewer(reviewer) {
            total += u64::from(allowed_to(plan, cut, reviewer));
        }
    }
    total
}

/// How many applicants of a cut the person at a place may review.
fn allowed_to(plan: &Plan, cut: &Cut, reviewer: u32) -> u32
    requires proposals { length cut.now.proposals ≡ size plan.now }
    requires below { reviewer < size plan.now }
    ensures value { result ≡ count_below (λ p. marked cut.now.proposals p && may plan.now reviewer p)
        (size plan.now) }
    ensures most { result ≤ size plan.now }
{
    let mut count = 0;
    for proposal in 0..plan.count() {
        if is_allowed(plan, cut, reviewer, proposal) {
            count += 1;
        }
    }
    count
}

/// Whether an applicant is in a cut, and the person at a place may review it.
fn is_allowed(plan: &Plan, cut: &Cut, reviewer: u32, proposal: u32) -> bool
    requires proposals { length cut.now.proposals ≡ size plan.now }
    requires reviewer_below { reviewer < size plan.now }
    requires proposal_below { proposal < size plan.now }
    ensures { result ≡ (marked cut.now.proposals proposal && may plan.now reviewer proposal) }
{
    cut.has_proposal(proposal) && plan.may(reviewer, proposal)
}
