//! What is asked of the assignments of a plan: needs, rooms, and the pairs that may be.

ghost use Rattle.std.specs.Prelude.{◌≡◌, ◌≢◌, ℕ, ◌+◌, ◌*◌, ◌<◌, ◌≤◌, ◌==◌, ◌&&◌, not, is_some, IfOk};
ghost use Rattle.std.specs.Prelude.{length, vec_len, slice_index, sum};
ghost use Rattle.std.specs.Int.{bit_at};
ghost use Rattle.house_base.specs.Grid.{cell};
ghost use Rattle.house_base.specs.Setting.{IsSetting, size, need, may, owner_from};
ghost use Rattle.house_base.specs.declared.rows.TheConstants.{ROW_WORDS, WORD_BITS};
ghost use Rattle.first_assign.specs.Members.{HasMembers, is_apart};

use crate::members::{EVERYONE, members};
use house_base::rows::{ROW_WORDS, word};
use house_base::{Grid, Memory, Plan};
use std::alloc::Global;

/// How many reviews each person owes, by places. Together they owe as many as all applicants get.
pub fn needs(alloc: Global, plan: &Plan) -> Result<Vec<u32>, Memory>
    ensures side { IfOk result (λ needs. vec_len needs ≡ size plan.now) }
    ensures needs { IfOk result (λ needs. (r : ℕ) → r < size plan.now → slice_index needs.items r ≡ need plan.now r) }
    ensures total { IfOk result (λ needs. sum needs.items ≡ size plan.now * plan.now.reviews) }
{
    let mut needs = vec![in alloc; 0; plan.count() as usize]?;
    for place in 0..plan.count() {
        needs[place as usize] = plan.need(place);
    }
    Ok(needs)
}

/// How many reviews each applicant gets, by places.
pub fn rooms(alloc: Global, plan: &Plan) -> Result<Vec<u32>, Memory>
    ensures side { IfOk result (λ rooms. vec_len rooms ≡ size plan.now) }
    ensures rooms { IfOk result (λ rooms. (p : ℕ) → p < size plan.now → slice_index rooms.items p ≡ plan.now.reviews) }
    ensures total { IfOk result (λ rooms. sum rooms.items ≡ size plan.now * plan.now.reviews) }
{
    Ok(vec![in alloc; plan.call().reviews; plan.count() as usize]?)
}

/// Who may review whom, by places.
pub fn allowed(alloc: Global, plan: &Plan) -> Result<Grid, Memory>
    ensures side { IfOk result (λ pairs. pairs.side ≡ size plan.now) }
    ensures pairs { IfOk result (λ pairs. (r p : ℕ) → r < size plan.now → p < size plan.now
        → cell pairs r p ≡ may plan.now r p) }
{
    let members = members(alloc, plan)?;
    let mut pairs = Grid::new(alloc, plan.count())?;
    for reviewer in 0..plan.count() {
        if is_first(plan, reviewer) {
            allow_row(plan, &members, &mut pairs, reviewer);
        }
    }
    Ok(pairs)
}

/// Whether a place is a person's first.
fn is_first(plan: &Plan, place: u32) -> bool
    requires { place < size plan.now }
    ensures { result ≡ is_some (owner_from plan.now place) }
{
    plan.owner_at(place).first == place
}

/// Whom a reviewer may review.
fn allow_row(plan: &Plan, members: &[u64], pairs: &mut Grid, reviewer: u32)
    requires setting { IsSetting plan.now }
    requires side { pairs.old.side ≡ size plan.now }
    requires below { reviewer < size plan.now }
    requires len { length members.now ≡ (plan.now.clusters + 1) * ROW_WORDS }
    requires members { HasMembers plan.now (size plan.now) members.now }
    ensures side { pairs.new.side ≡ size plan.now }
    ensures row { (p : ℕ) → p < size plan.now → cell pairs.new reviewer p ≡ is_apart plan.now reviewer p }
    ensures others { (r p : ℕ) → r < size plan.now → r ≢ reviewer → p < size plan.now
        → cell pairs.new r p ≡ cell pairs.old r p }
{
    for at in 0..ROW_WORDS {
        pairs.set_word(reviewer, at, allowed_word(plan, members, reviewer, at));
    }
}

/// Whom a reviewer may review, among 64 places.
fn allowed_word(plan: &Plan, members: &[u64], reviewer: u32, at: usize) -> u64
    requires setting { IsSetting plan.now }
    requires reviewer_below { reviewer < size plan.now }
    requires at_below { at < ROW_WORDS }
    requires len { length members.now ≡ (plan.now.clusters + 1) * ROW_WORDS }
    requires members { HasMembers plan.now (size plan.now) members.now }
    ensures bits { (i : ℕ) → i < WORD_BITS → at * WORD_BITS + i < size plan.now
        → (bit_at result i == 1) ≡ is_apart plan.now reviewer (at * WORD_BITS + i) }
    ensures clear { (i : ℕ) → i < WORD_BITS → size plan.now ≤ at * WORD_BITS + i → bit_at result i ≡ 0 }
{
    let everyone = word(members, EVERYONE, at);
    let cluster = word(members, plan.person(reviewer).cluster, at);
    without(everyone, cluster, plan.barred().word(reviewer, at))
}

/// The bits of a word that two others do not have.
fn without(word: u64, first: u64, second: u64) -> u64
    ensures { (i : ℕ) → i < WORD_BITS → (bit_at result i == 1)
        ≡ ((bit_at word i == 1) && not (bit_at first i == 1) && not (bit_at second i == 1)) }
{
    word & !first & !second
}
