//! The plan of a register of one applicant, what is refused, and plans whose clusters are drawn.

ghost use Rattle.std.specs.Prelude.{◌≡◌, ◌≤◌, [], All, IfOk};

use crate::{FreezeFault, freeze};
use house_base::{Call, Name, Plan, Seed};
use register_book::Book;
use std::alloc::Global;
use std::process::Abort;
use std::test::Fail;

const CALL: Call = Call {
    seats: 1,
    clusters: 2,
    reviews: 1,
};

/// Why a register makes no plan without a seed.
fn fault_of(alloc: Global, book: &Book) -> Option<FreezeFault>
    requires { All (λ place. (1 ≤ place.1) × (place.1 ≤ 2)) book.now.placed }
{
    freeze(alloc, book, CALL, None).err()
}

#[test]
fn makes_a_plan(rt: HostRuntime) -> Result<(), Fail> {
    let ann = Name::read(b"ann").ok_or("no name")?;
    let ben = Name::read(b"ben").ok_or("no name")?;
    let mut book = Book::new(rt.alloc());
    assert!(rt; fault_of(rt.alloc(), &book) == Some(FreezeFault::Few));
    book.applicant(ben, ann)?;
    assert!(rt; fault_of(rt.alloc(), &book) == Some(FreezeFault::Unplaced));
    book.place(ann, 2)?;
    assert!(rt; fault_of(rt.alloc(), &book) == None);
    Ok(())
}

/// Persons by rank under a seed, from the digests that `sha256sum` gives.
const DRAWN: [(&str, [&str; 3]); 2] = [("x", ["c", "a", "b"]), ("autumn", ["a", "c", "b"])];

/// A register of three persons whom nobody put into a cluster.
fn three(alloc: Global) -> Result<Book, Fail>
    ensures { IfOk result (λ book. book.placed ≡ []) }
{
    let mut book = Book::new(alloc);
    for word in ["b", "c", "a"] {
        let name = Name::read(word.as_bytes()).ok_or("no name")?;
        book.applicant(name, name)?;
    }
    Ok(book)
}

/// The persons stand in this order, in the clusters in turn.
fn compare<R: Abort>(rt: &R, plan: &Plan, wanted: [&str; 3]) -> Result<(), Fail> {
    assert_eq!(rt; plan.count(), 3);
    for place in 0..plan.count() {
        assert!(rt; place < 3);
        let name = Name::read(wanted[place as usize].as_bytes()).ok_or("no name")?;
        let person = plan.person(place);
        assert!(rt; person.name == name);
        assert_eq!(rt; person.cluster, 1 + place % 2);
    }
    Ok(())
}

#[test]
fn clusters_are_drawn(rt: HostRuntime) -> Result<(), Fail> {
    for (word, wanted) in DRAWN {
        let seed = Seed::read(word.as_bytes()).ok_or("no seed")?;
        let book = three(rt.alloc())?;
        let plan = freeze(rt.alloc(), &book, CALL, Some(seed))?;
        compare(&rt, &plan, wanted)?;
    }
    Ok(())
}
