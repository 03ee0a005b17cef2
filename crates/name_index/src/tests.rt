//! Calls of an index with ample memory, and what they answer.

use crate::NameIndex;
use house_base::Name;
use house_base::limits::MOST_APPLICANTS;
use std::test::Fail;

fn name(word: &[u8]) -> Result<Name, Fail> {
    Ok(Name::read(word).ok_or("no name")?)
}

/// Puts a name behind the others where it is new and there is room.
fn add(index: &mut NameIndex, name: Name) -> Result<(), Fail> {
    if index.find(&name).is_none() && index.len() < MOST_APPLICANTS {
        index.add(name)?;
    }
    Ok(())
}

#[test]
fn names_are_found_until_they_are_taken_off(rt: HostRuntime) -> Result<(), Fail> {
    let ann = name(b"ann")?;
    let ben = name(b"ben")?;
    let mut index = NameIndex::new(rt.alloc());
    add(&mut index, ann)?;
    add(&mut index, ben)?;
    assert_eq!(rt; index.find(&ben), Some(1));
    if index.len() > 0 {
        index.remove_last();
    }
    assert_eq!(rt; index.find(&ben), None);
    assert_eq!(rt; index.find(&ann), Some(0));
    assert_eq!(rt; index.len(), 1);
    Ok(())
}

/// A name of a letter and three digits.
fn numbered(number: u32) -> Result<Name, Fail> {
    let digit = |place: u32| b'0' + (number / place % 10) as u8;
    name(&[b'n', digit(100), digit(10), digit(1)])
}

#[test]
fn the_most_names_are_found_whatever_their_digests(rt: HostRuntime) -> Result<(), Fail> {
    let mut index = NameIndex::new(rt.alloc());
    for number in 0..MOST_APPLICANTS {
        add(&mut index, numbered(number)?)?;
    }
    for number in 0..MOST_APPLICANTS {
        assert_eq!(rt; index.find(&numbered(number)?), Some(number));
    }
    Ok(())
}
