//! Desk files beside what they are read as.

use crate::{DeskFault, Entries, put};
use command_text::cut;
use house_base::Name;
use std::alloc::Global;
use std::test::Fail;

/// What reading a text and writing it back gives.
fn read_and_written(alloc: Global, text: &[u8]) -> Result<Vec<u8>, DeskFault> {
    let entries = Entries::read(alloc, text)?;
    let mut out = Vec::new(alloc);
    entries.write(&mut out)?;
    Ok(out)
}

#[test]
fn desk_files_are_read(rt: HostRuntime) -> Result<(), Fail> {
    for (text, line) in [
        ("", 0),
        ("entry b c 2 100\n", 0),
        ("entry b c 0 0\nentry b d 18446744073709551615 3\n", 0),
        ("entry b c 2 100", 1),
        ("entry b d 1 3\nentry b c 1 7\n", 2),
        ("entry b c 1 3\nentry b c 1 7\n", 2),
        ("entry b c 18446744073709551616 3\n", 1),
        ("entry b c 1 101\n", 1),
        ("entry b c 1 3\n\n", 2),
        ("entry b c 1 3\r\n", 1),
        ("entry b c  1 3\n", 1),
        ("entry b\tc 1 3\n", 1),
        ("entry b c 01 3\n", 1),
        ("entry B c 1 3\n", 1),
        ("entry\n", 1),
        ("entry b c 1 3 \n", 1),
        (" entry b c 1 3\n", 1),
        ("entry b c 1 3\nentry b-a c 1 3\nentry ba c 1 3\n", 0),
        ("entry ba c 1 3\nentry b-a c 1 3\n", 2),
    ] {
        match read_and_written(rt.alloc(), text.as_bytes()) {
            Ok(out) => {
                assert_eq!(rt; line, 0, "{text:?}");
                assert!(rt; out.as_slice() == text.as_bytes());
            }
            Err(DeskFault::BadLine(at)) => assert_eq!(rt; line, at, "{text:?}"),
            Err(DeskFault::Memory) => assert!(rt; false),
        }
    }
    Ok(())
}

#[test]
fn reviews_are_looked_up(rt: HostRuntime) -> Result<(), Fail> {
    let text = b"entry a c 3 1\nentry b c 2 100\nentry b d 1 3\nentry c a 0 0\nentry d a 7 7\n";
    let entries = Entries::read(rt.alloc(), text).ok().ok_or("no memory")?;
    assert_eq!(rt; entries.count(), 5);
    for (reviewer, proposal, wanted) in [
        ("a", "c", Some((3, 1))),
        ("b", "c", Some((2, 100))),
        ("b", "d", Some((1, 3))),
        ("c", "a", Some((0, 0))),
        ("d", "a", Some((7, 7))),
        ("a", "a", None),
        ("b", "cc", None),
        ("e", "a", None),
    ] {
        let reviewer = Name::read(reviewer.as_bytes()).ok_or("no name")?;
        let proposal = Name::read(proposal.as_bytes()).ok_or("no name")?;
        assert_eq!(rt; entries.get(reviewer, proposal), wanted);
    }
    Ok(())
}

/// What the join of two texts writes.
fn joined(alloc: Global, one: &[u8], other: &[u8]) -> Result<Vec<u8>, DeskFault> {
    let one = Entries::read(alloc, one)?;
    let other = Entries::read(alloc, other)?;
    let merged = Entries::merged(alloc, &one, &other)?;
    let mut out = Vec::new(alloc);
    merged.write(&mut out)?;
    Ok(out)
}

#[test]
fn desk_files_are_joined(rt: HostRuntime) -> Result<(), Fail> {
    for (one, other, wanted) in [
        ("", "", ""),
        ("entry b c 2 100\n", "", "entry b c 2 100\n"),
        (
            "entry b c 2 100\n",
            "entry b c 1 7\nentry b d 1 3\n",
            "entry b c 2 100\nentry b d 1 3\n",
        ),
        ("entry b c 2 1\n", "entry b c 2 7\n", "entry b c 2 7\n"),
        (
            "entry a c 2 1\nentry d a 1 1\n",
            "entry b c 2 7\nentry d a 2 0\nentry e a 5 5\n",
            "entry a c 2 1\nentry b c 2 7\nentry d a 2 0\nentry e a 5 5\n",
        ),
    ] {
        let out = joined(rt.alloc(), one.as_bytes(), other.as_bytes())
            .ok()
            .ok_or("no memory")?;
        assert!(rt; out.as_slice() == wanted.as_bytes());
        let out = joined(rt.alloc(), other.as_bytes(), one.as_bytes())
            .ok()
            .ok_or("no memory")?;
        assert!(rt; out.as_slice() == wanted.as_bytes());
    }
    Ok(())
}

#[test]
fn reviews_are_put_in_front_of_the_first_close(rt: HostRuntime) -> Result<(), Fail> {
    let entries = Entries::read(rt.alloc(), b"entry b c 2 100\nentry b d 1 3\n")
        .ok()
        .ok_or("no memory")?;
    for (before, after) in [
        ("", ""),
        ("assign\ndraw 1\n", "assign\ndraw 1\n"),
        (
            "assign\n close now\nclose\n",
            "assign\nreview b c 100\nreview b d 3\n close now\nclose\n",
        ),
        (
            "closed\nclose\n# close\n",
            "closed\nreview b c 100\nreview b d 3\nclose\n# close\n",
        ),
    ] {
        let lines = cut(rt.alloc(), before.as_bytes())?;
        let wanted = cut(rt.alloc(), after.as_bytes())?;
        let all = put(rt.alloc(), &lines, &entries)?;
        assert_eq!(rt; all.count(), wanted.count());
        for index in 0..all.count().min(wanted.count()) {
            assert!(rt; all.line(index) == wanted.line(index));
        }
    }
    Ok(())
}
