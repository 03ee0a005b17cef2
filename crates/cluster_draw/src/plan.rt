//! The plan that a register gives.

ghost use Rattle.std.specs.Prelude.{◌≡◌, ◌≤◌, ◌↔◌, not, ◌&&◌, ◌||◌, ◌==◌, nat_lt, All, IsTrue, IfOk, OnOk, is_some, length};
ghost use Rattle.peer_selection.specs.Profile.{denominator};
ghost use Rattle.house_model.specs.Naming.{HasNamesOf};
ghost use Rattle.house_model.specs.Register.{IsRegister, all_placed};
ghost use Rattle.house_model.specs.Said.{denominator_of};
ghost use Rattle.house_model.specs.Seeds.{seeded_setting};

use crate::conflicts::barred_pairs;
use crate::fault::FreezeFault;
use crate::people::people_and_owners;
use crate::placings::placings;
use house_base::{Call, Plan, Seed};
use register_book::Book;
use std::alloc::Global;

/// The plan of a call whose applicants are those of the register. Without a seed the persons stand in the order in
/// which each first appears, in the clusters into which they were put. With a seed they stand in the order of their
/// keys, the SHA-256 digest (FIPS 180-4) of `partition:SEED:PERSON` and then the name, and are put into the clusters
/// in turn; where they were put before is not looked at. The applicants of a person stand in register order.
pub fn freeze(
    alloc: Global,
    book: &Book,
    call: Call,
    seed: Option<Seed>,
) -> Result<Plan, FreezeFault>
    requires placed { All (λ place. (1 ≤ place.1) × (place.1 ≤ call.clusters)) book.now.placed }

    ensures plan { IfOk result
        (λ plan. plan ≡ seeded_setting seed call.seats call.clusters call.reviews book.now) }
    ensures names { IfOk result (λ plan. HasNamesOf book.now.applicants plan) }
    ensures common_denominator { IfOk result (λ plan. denominator plan ≡ denominator_of book.now) }
    ensures register { OnOk result (IsRegister book.now) }
    ensures few { (result ≡ Err FreezeFault.Few) ↔ IsTrue (length book.now.applicants == 0) }
    ensures unplaced { (result ≡ Err FreezeFault.Unplaced)
        ↔ IsTrue (nat_lt 0 (length book.now.applicants) && not (is_some seed || all_placed book.now)) }
{
    if book.count() == 0 {
        return Err(FreezeFault::Few);
    }
    if !has_clusters(book, seed.is_some()) {
        return Err(FreezeFault::Unplaced);
    }
    let placings = placings(alloc, book, call.clusters, seed)?;
    let (people, owners) = people_and_owners(alloc, book, &placings)?;
    let barred = barred_pairs(alloc, book, &people, &owners, &placings)?;
    Ok(Plan::build(call, people, owners, barred))
}

/// Whether each person has a cluster, as all have where these are drawn.
fn has_clusters(book: &Book, drawn: bool) -> bool
    ensures { result ≡ (drawn || all_placed book.now) }
{
    drawn || is_placed(book)
}

/// Whether each person was put into a cluster.
fn is_placed(book: &Book) -> bool
    ensures { result ≡ all_placed book.now }
{
    for person in 0..book.persons() {
        if book.cluster(person).is_none() {
            return false;
        }
    }
    true
}
