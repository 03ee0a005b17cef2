//! The ballots of a slip, as they are written.

ghost use Rattle.std.specs.Prelude.{◌≡◌, ◌+◌, ◌%◌, ◌^◌, ◌++◌, ◌∷◌, ◌<◌, Contains, OnOk};
ghost use Rattle.std.specs.List.{list_any};
ghost use Rattle.house_base.specs.Grid.{cell};
ghost use Rattle.house_base.specs.Setting.{size};
ghost use Rattle.review_desk.specs.Desk.{IsSetUp, desk_profile};
ghost use Rattle.slip_check.specs.Slip.{cell_text, places_in};
ghost use Rattle.slip_check.specs.Written.{ballot_line, ballot_lines, spaced_cells};

use house_base::{Memory, Name, Owner, Plan};
use review_desk::Desk;
use std::alloc::Global;

/// Appends the ballots of all persons who review one of a cluster, in place order.
pub fn push_ballots(
    alloc: Global,
    plan: &Plan,
    desk: &Desk,
    cluster: u32,
    out: &mut Vec<u8>,
) -> Result<(), Memory>
    requires { IsSetUp plan.now desk.now }
    ensures { OnOk result (out.new.items ≡ out.old.items ++ ballot_lines (desk_profile plan.now desk.now) cluster) }
{
    for index in 0..plan.owners() {
        let owner = plan.owner(index);
        if reviews_one_of(plan, desk, cluster, owner.first) {
            push_ballot(alloc, plan, desk, &owner, out)?;
        }
    }
    Ok(())
}

/// Whether the person whose first place this is reviews one of a cluster.
fn reviews_one_of(plan: &Plan, desk: &Desk, cluster: u32, reviewer: u32) -> bool
    requires side { desk.now.pairs.side ≡ size plan.now }
    requires reviewer { reviewer < size plan.now }
    ensures { result ≡ list_any (cell desk.now.pairs reviewer) (places_in plan.now cluster) }
{
    for place in 0..plan.count() {
        if plan.person(place).cluster == cluster && desk.grid().get(reviewer, place) {
            return true;
        }
    }
    false
}

/// Appends the ballot of a person.
fn push_ballot(
    alloc: Global,
    plan: &Plan,
    desk: &Desk,
    owner: &Owner,
    out: &mut Vec<u8>,
) -> Result<(), Memory>
    requires set_up { IsSetUp plan.now desk.now }
    requires person { Contains plan.now.owners owner.now }
    ensures { OnOk result (out.new.items ≡ out.old.items ++ ballot_line (desk_profile plan.now desk.now) owner.now) }
{
    out.extend_from_slice(b"ballot ")?;
    out.extend_from_slice(owner.name.bytes())?;
    push_cells(alloc, plan, desk, owner.first, out)?;
    out.push(b'\n')?;
    Ok(())
}

/// Appends the cells of a person's row by rising distance, each with a space before it.
fn push_cells(
    alloc: Global,
    plan: &Plan,
    desk: &Desk,
    reviewer: u32,
    out: &mut Vec<u8>,
) -> Result<(), Memory>
    requires side { desk.now.pairs.side ≡ size plan.now }
    requires reviewer { reviewer < size plan.now }
    ensures { OnOk result (out.new.items ≡ out.old.items ++ spaced_cells (desk_profile plan.now desk.now) reviewer) }
{
    let count = plan.count();
    for distance in 0..count {
        let place = place_at(reviewer, distance, count);
        if desk.grid().get(reviewer, place) {
            push_cell(
                alloc,
                plan.person(place).name,
                desk.points(reviewer, place),
                out,
            )?;
        }
    }
    Ok(())
}

/// The place at a distance behind another, round so many places. A division takes longer than all else that is done there.
fn place_at(place: u32, distance: u32, count: u32) -> u32
    requires place { place < count }
    requires distance { distance < count }
    requires count { count < 2 ^ 31 }
    ensures { result ≡ (place + 1 + distance) % count }
{
    let behind = place + 1 + distance;
    if behind < count {
        behind
    } else {
        behind - count
    }
}

/// Appends a cell, with a space before it.
fn push_cell(alloc: Global, proposal: Name, points: u32, out: &mut Vec<u8>) -> Result<(), Memory>
    ensures { OnOk result (out.new.items ≡ out.old.items ++ 32 ∷ cell_text (record { proposal = proposal; points = points })) }
{
    let digits = points.to_string(alloc)?;
    out.push(b' ')?;
    out.extend_from_slice(proposal.bytes())?;
    out.push(b':')?;
    out.extend_from_slice(digits.as_bytes())?;
    Ok(())
}
