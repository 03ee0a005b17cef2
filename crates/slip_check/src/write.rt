//! The slip of an applicant, as it is written.

ghost use Rattle.std.specs.Prelude.{◌≡◌, ◌↔◌, ℕ, ◌++◌, ◌<◌, Some, Err, Contains, OnOk, OnErr, IfOk, slice_get};
ghost use Rattle.house_base.specs.Setting.{names_of, size};
ghost use Rattle.house_model.specs.Report.{line_of};
ghost use Rattle.peer_selection.specs.Lottery.{chance};
ghost use Rattle.peer_selection.specs.Profile.{denominator};
ghost use Rattle.review_desk.specs.Desk.{IsSetUp, desk_profile};
ghost use Rattle.slip_check.specs.Slip.{head_row, member_row, printed_slip, sizes_row};
ghost use Rattle.slip_check.specs.Written.{member_lines};

use crate::write_ballot::push_ballots;
use exact_chance::chance;
use house_base::limits::DOLLAR;
use house_base::{Memory, Name, Plan};
use line_text::Word::{Number, Share, Text};
use line_text::push_line;
use rank_table::rank;
use review_desk::Desk;
use seat_quota::Totals;
use std::alloc::Global;

/// Why no slip is written.
#[derive(Clone, Copy, Debug, PartialEq, Eq)]
pub enum SlipWrite {
    /// No applicant has the name.
    Unlisted,
    /// No memory was left.
    Memory,
}

/// Appends the slip of the applicant of a name, from the reviews that stand at a desk. After an error the text is as
/// before.
pub fn write_slip(
    alloc: Global,
    plan: &Plan,
    desk: &Desk,
    seats: u32,
    name: Name,
    out: &mut Vec<u8>,
) -> Result<(), SlipWrite>
    requires set_up { IsSetUp plan.now desk.now }
    requires seats { seats ≡ plan.now.seats }
    ensures listed { OnOk result ((place : ℕ) × (slice_get (names_of plan.now) place ≡ Some name)
        × (out.new.items ≡ out.old.items ++ printed_slip (desk_profile plan.now desk.now) place)) }
    ensures unlisted { (result ≡ Err SlipWrite.Unlisted) ↔ (Contains (names_of plan.now) name → ⊥) }
    ensures err { OnErr result (out.new.items ≡ out.old.items) }
{
    let Some(place) = plan.place_of(name) else {
        return Err(SlipWrite::Unlisted);
    };
    let text = match slip_text(alloc, plan, desk, seats, place) {
        Ok(text) => text,
        Err(Memory) => return Err(SlipWrite::Memory),
    };
    match out.extend_from_slice(&text) {
        Ok(()) => Ok(()),
        Err(_) => Err(SlipWrite::Memory),
    }
}

/// The slip of the applicant at a place.
fn slip_text(
    alloc: Global,
    plan: &Plan,
    desk: &Desk,
    seats: u32,
    place: u32,
) -> Result<Vec<u8>, Memory>
    requires set_up { IsSetUp plan.now desk.now }
    requires seats { seats ≡ plan.now.seats }
    requires place { place < size plan.now }
    ensures { IfOk result (λ text. text.items ≡ printed_slip (desk_profile plan.now desk.now) place) }
{
    let chance = chance_at(alloc, plan, desk, seats, place)?;
    let person = plan.person(place);
    let mut text = Vec::new(alloc);
    push_head(alloc, person.name, chance, dollars(plan), &mut text)?;
    push_sizes(alloc, seats, plan.owners(), &mut text)?;
    push_members(alloc, plan, person.cluster, &mut text)?;
    push_ballots(alloc, plan, desk, person.cluster, &mut text)?;
    Ok(text)
}

/// A dollar for each person, in cents.
#[tactic(auto, unfolding(peer_selection::specs::Profile::denominator))]
fn dollars(plan: &Plan) -> u64
    ensures { result ≡ denominator plan.now }
{
    u64::from(plan.owners()) * u64::from(DOLLAR)
}

/// The chance of the applicant at a place, over the persons' dollars.
fn chance_at(alloc: Global, plan: &Plan, desk: &Desk, seats: u32, place: u32) -> Result<u64, Memory>
    requires set_up { IsSetUp plan.now desk.now }
    requires seats { seats ≡ plan.now.seats }
    requires place { place < size plan.now }
    ensures { IfOk result (λ number. number ≡ chance (desk_profile plan.now desk.now) place) }
{
    let totals = Totals::of(alloc, plan, desk)?;
    let quota = u64::from(seats) * totals.cluster_cents(plan.person(place).cluster);
    Ok(chance(quota, totals.denominator(), rank(plan, &totals, place)))
}

/// Appends the line with the name and the chance over a denominator.
fn push_head(
    alloc: Global,
    name: Name,
    chance: u64,
    den: u64,
    out: &mut Vec<u8>,
) -> Result<(), Memory>
    ensures { OnOk result (out.new.items ≡ out.old.items ++ line_of (head_row chance den name)) }
{
    let words = [
        Text(b"slip"),
        Text(name.bytes()),
        Text(b"chance"),
        Share(chance, den),
    ];
    push_line(alloc, &words, out)
}

/// Appends the line with the numbers of seats and of persons.
fn push_sizes(alloc: Global, seats: u32, persons: u32, out: &mut Vec<u8>) -> Result<(), Memory>
    ensures { OnOk result (out.new.items ≡ out.old.items ++ line_of (sizes_row seats persons)) }
{
    let words = [
        Text(b"seats"),
        Number(u64::from(seats)),
        Text(b"persons"),
        Number(u64::from(persons)),
    ];
    push_line(alloc, &words, out)
}

/// Appends the lines of a cluster's members, in place order.
fn push_members(alloc: Global, plan: &Plan, cluster: u32, out: &mut Vec<u8>) -> Result<(), Memory>
    ensures { OnOk result (out.new.items ≡ out.old.items ++ member_lines plan.now cluster) }
{
    for place in 0..plan.count() {
        let member = plan.person(place);
        if member.cluster == cluster {
            push_member(alloc, member.name, out)?;
        }
    }
    Ok(())
}

/// Appends the line of a member.
fn push_member(alloc: Global, name: Name, out: &mut Vec<u8>) -> Result<(), Memory>
    ensures { OnOk result (out.new.items ≡ out.old.items ++ line_of (member_row name)) }
{
    push_line(alloc, &[Text(b"member"), Text(name.bytes())], out)
}
