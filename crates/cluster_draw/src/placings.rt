//! The persons of a register with their clusters: as they were placed, or as a seed draws them.

ghost use Rattle.std.specs.Prelude.{◌≡◌, ◌≤◌, IfOk, length, map};
ghost use Rattle.std.specs.List.Sorted.{IsPermutation};
ghost use Rattle.house_base.specs.declared.limits.TheConstants.{MOST_APPLICANTS};
ghost use Rattle.house_model.specs.Register.{persons};
ghost use Rattle.house_model.specs.Seeds.{person_key, person_digest, seeded_persons, seeded_register, drawn_persons, drawn_register};
ghost use Rattle.cluster_draw.specs.Placings.{ArePlacings};

use house_base::{Name, Seed};
use register_book::Book;
use sha2::{Digest, Sha256};
use std::alloc::{AllocError, Global};

/// The number of a person, and its cluster.
#[derive(Clone, Copy)]
pub struct Placing {
    pub person: u32,
    pub cluster: u32,
}

/// The persons with their clusters, in the order of their places: with a seed as it draws them, else as they were
/// placed.
pub fn placings(
    alloc: Global,
    book: &Book,
    clusters: u32,
    seed: Option<Seed>,
) -> Result<Vec<Placing>, AllocError>
    requires { 1 ≤ clusters }
    ensures placings { IfOk result (λ v. ArePlacings (seeded_register seed clusters book.now)
        (seeded_persons seed book.now) v.items) }
    ensures order { IfOk result (λ v. IsPermutation (persons book.now) (seeded_persons seed book.now)) }
    ensures many { IfOk result (λ v. length v.items ≤ MOST_APPLICANTS) }
{
    match seed {
        Some(seed) => drawn(alloc, book, clusters, &seed),
        None => placed(alloc, book),
    }
}

/// The persons in the order in which they first appear, each in the cluster into which it was put, or in 0.
fn placed(alloc: Global, book: &Book) -> Result<Vec<Placing>, AllocError>
    ensures placings { IfOk result (λ v. ArePlacings book.now (persons book.now) v.items) }
    ensures many { IfOk result (λ v. length v.items ≤ MOST_APPLICANTS) }
{
    let mut placings = Vec::new(alloc);
    for person in 0..book.persons() {
        let cluster = book.cluster(person).unwrap_or(0);
        placings.push(Placing { person, cluster })?;
    }
    Ok(placings)
}

/// The persons in the order of their keys, put into the clusters in turn.
fn drawn(alloc: Global, book: &Book, clusters: u32, seed: &Seed) -> Result<Vec<Placing>, AllocError>
    requires { 1 ≤ clusters }
    ensures placings { IfOk result (λ v. ArePlacings (drawn_register seed.now clusters book.now)
        (drawn_persons seed.now book.now) v.items) }
    ensures order { IfOk result (λ v. IsPermutation (persons book.now) (drawn_persons seed.now book.now)) }
    ensures many { IfOk result (λ v. length v.items ≤ MOST_APPLICANTS) }
{
    let mut keys = keys(alloc, book, seed)?;
    keys.sort_unstable();
    let mut placings = Vec::new(alloc);
    for rank in 0..book.persons() {
        let person = book.find_person(keys[rank as usize].1).unwrap_or(0);
        let cluster = 1 + rank % clusters;
        placings.push(Placing { person, cluster })?;
    }
    Ok(placings)
}

/// The keys of the persons under a seed.
fn keys(alloc: Global, book: &Book, seed: &Seed) -> Result<Vec<([u8; 32], Name)>, AllocError>
    ensures { IfOk result (λ v. v.items ≡ map (person_key seed.now) (persons book.now)) }
{
    let mut keys = Vec::new(alloc);
    for person in 0..book.persons() {
        let name = book.person_name(person);
        keys.push((digest_of(seed, name), name))?;
    }
    Ok(keys)
}

/// The digest of a person under a seed.
fn digest_of(seed: &Seed, person: Name) -> [u8; 32]
    ensures { result ≡ person_digest seed.now person }
{
    let mut hasher = Sha256::new();
    hasher.update(b"partition:");
    hasher.update(seed.bytes());
    hasher.update(b":");
    hasher.update(person.bytes());
    hasher.finalize()
}
