//! Calls of a book with ample memory, and what they answer.

use crate::{Book, BookFault};
use house_base::Name;
use std::test::Fail;

fn name(word: &[u8]) -> Result<Name, Fail> {
    Ok(Name::read(word).ok_or("no name")?)
}

#[test]
fn an_applicant_and_its_pair_are_put_on_record(rt: HostRuntime) -> Result<(), Fail> {
    let ann = name(b"ann")?;
    let ben = name(b"ben")?;
    let mut book = Book::new(rt.alloc());
    assert_eq!(rt; book.applicant(ben, ann), Ok(()));
    assert_eq!(rt; book.pair(ann, ben), Ok(()));
    assert_eq!(rt; book.pair(ann, ben), Err(BookFault::Known));
    assert_eq!(rt; book.find_person(ann), Some(0));
    assert_eq!(rt; book.find_person(ben), None);
    Ok(())
}

#[test]
fn conflicts_are_found_by_number(rt: HostRuntime) -> Result<(), Fail> {
    let ann = name(b"ann")?;
    let ben = name(b"ben")?;
    let mut book = Book::new(rt.alloc());
    book.applicant(ann, ann)?;
    book.applicant(ben, ann)?;
    book.conflict(ann, ben)?;
    let person = book.find_person(ann).ok_or("no person")?;
    assert_eq!(rt; book.next_conflict(person, 0), Some(1));
    assert_eq!(rt; book.next_conflict(person, 2), None);
    Ok(())
}
