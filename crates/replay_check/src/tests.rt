//! Worked audits, replayed and brought to the second version, with ample memory.

use crate::{Ending, Migrated, Replayed, migrate, replay};
use audit_chain::{RowFault, audit_text, audit1_text};
use command_text::cut;
use house_base::{Kind, Took};
use std::alloc::Global;
use std::test::Fail;

/// The lines of a whole call, of which one review names nobody, and what became of each.
const CALL: &[u8] = b"call 2 2 1\napplicant a\napplicant b\napplicant c\napplicant d\nplace a 1\n\
    place b 1\nplace c 2\nplace d 2\npair a c\npair b d\npair c a\npair d b\nassign\nreview a c 0\n\
    review a x 1\nclose\ndraw 0\n";

const REPORT: &[u8] = b"call 2 2 1\napplicants 4\naside 0 0 0 1 0 0\ndraw 0/4000000\n\
    cluster 1 cents 2000000 quota 4000000/4000000 seats 1 filled 1\n\
    cluster 2 cents 2000000 quota 4000000/4000000 seats 1 filled 1\n\
    applicant a cluster 1 rank 1 cents 1000000 chance 4000000/4000000 yes\n\
    applicant b cluster 1 rank 2 cents 1000000 chance 0/4000000 no\n\
    applicant c cluster 2 rank 1 cents 1000000 chance 4000000/4000000 yes\n\
    applicant d cluster 2 rank 2 cents 1000000 chance 0/4000000 no\n\
    empty 0\n";

/// The lines of a call in which the first review comes too early and the line behind it is refused.
const REFUSED: &[u8] = b"call 2 2 1\nreview a c 0\nhello\nreview a c 0\nclose\n";

/// The lines of a call that has no valid assignment.
const SHORT: &[u8] = b"call 1 2 1\napplicant a\napplicant b\napplicant c\napplicant d\nplace a 1\n\
    place b 2\nplace c 2\nplace d 2\nassign\ndraw 0\n";

/// A worked audit: its lines, the place of the one that was set aside and why, its text, and how it ends.
#[derive(Clone, Copy)]
struct Worked {
    lines: &'static [u8],
    place: usize,
    mark: Took,
    text: &'static [u8],
    ending: Ending,
}

const WORKED: [Worked; 3] = [
    Worked {
        lines: CALL,
        place: 15,
        mark: Took::Aside(Kind::Unknown),
        text: REPORT,
        ending: Ending::Done,
    },
    Worked {
        lines: REFUSED,
        place: 1,
        mark: Took::Aside(Kind::Early),
        text: b"refused 3 form\n",
        ending: Ending::Refused,
    },
    Worked {
        lines: SHORT,
        place: 0,
        mark: Took::Kept,
        text: b"short allowed 0 needed 2\nreviewers b c d\nproposals b c d\n",
        ending: Ending::Short,
    },
];

/// The marks of a worked audit.
fn marks(alloc: Global, worked: &Worked, count: usize) -> Result<Vec<Took>, Fail> {
    let mut marks = Vec::with_capacity(alloc, count)?;
    for place in 0..count {
        marks.push(if place == worked.place {
            worked.mark
        } else {
            Took::Kept
        })?;
    }
    Ok(marks)
}

#[test]
fn audits_are_the_same(rt: HostRuntime) -> Result<(), Fail> {
    for worked in WORKED {
        let lines = cut(rt.alloc(), worked.lines)?;
        let marks = marks(rt.alloc(), &worked, lines.count() as usize)?;
        assert!(rt;
            marks.len() as u64 == lines.count() && marks.len() < 100 && worked.text.is_ascii()
        );
        let first = audit1_text(rt.alloc(), &lines, &marks, worked.text)?;
        let second = audit_text(rt.alloc(), &lines, &marks, worked.text)?;
        let same = Some((lines.count(), worked.ending));
        assert_eq!(rt; same_as(rt.alloc(), &first)?, same);
        assert_eq!(rt; same_as(rt.alloc(), &second)?, same);
        assert!(rt; moves_to(rt.alloc(), &first, &second, lines.count())?);
        assert!(rt; moves_to(rt.alloc(), &second, &second, lines.count())?);
    }
    Ok(())
}

/// How many lines an audit has and how they end, where it is the same.
fn same_as(alloc: Global, audit: &[u8]) -> Result<Option<(u64, Ending)>, RowFault> {
    match replay(alloc, audit)? {
        Replayed::Same(count, ending) => Ok(Some((count, ending))),
        Replayed::Differs(_, _, _) => Ok(None),
    }
}

/// Whether an audit is brought to this one, of so many lines.
fn moves_to(alloc: Global, audit: &[u8], second: &[u8], lines: u64) -> Result<bool, RowFault> {
    match migrate(alloc, audit)? {
        Migrated::Moved(fresh, count) => Ok(fresh.bytes() == second && count == lines),
        Migrated::Differs(_, _, _) => Ok(false),
    }
}

/// Audits of the one line `hello`, the row in which each first differs, or 0 where it does not, and that row as it
/// should be.
const CHANGED: [(&str, u64, &str); 6] = [
    (
        "{\"format\":\"peer-house-audit\",\"version\":2}\n\
         {\"aside\":\"none\",\"digest\":\"@\",\"line\":1,\"text\":\"hello\"}\n\
         {\"report\":\"refused 1 no-call\\n\"}\n",
        0,
        "",
    ),
    (
        "{\"format\":\"peer-house-audit\",\"version\":2}\n\
         {\"aside\":\"form\",\"digest\":\"@\",\"line\":1,\"text\":\"hello\"}\n\
         {\"report\":\"refused 1 no-call\\n\"}\n",
        2,
        "{\"aside\":\"none\",\"digest\":\"@\",\"line\":1,\"text\":\"hello\"}",
    ),
    (
        "{\"format\":\"peer-house-audit\",\"version\":1}\n\
         {\"aside\":\"none\",\"digest\":\"@\",\"hex\":\"68656C6C6F\",\"line\":1}\n\
         {\"report\":\"refused 1 no-call\\n\"}\n",
        2,
        "{\"aside\":\"none\",\"digest\":\"@\",\"hex\":\"68656c6c6f\",\"line\":1}",
    ),
    (
        "{\"format\":\"peer-house-audit\",\"version\":2}\n\
         {\"aside\":\"none\",\"digest\":\"@\",\"line\":1,\"text\":\"hello\"}\n\
         {\"report\":\"refused 2 no-call\\n\"}\n",
        3,
        "{\"report\":\"refused 1 no-call\\n\"}",
    ),
    (
        "{\"format\":\"peer-house-audit\", \"version\":2}\n\
         {\"aside\":\"none\",\"digest\":\"@\",\"line\":1,\"text\":\"hello\"}\n\
         {\"report\":\"refused 2 no-call\\n\"}\n",
        1,
        "{\"format\":\"peer-house-audit\",\"version\":2}",
    ),
    (
        "{\"format\":\"peer-house-audit\",\"version\":2}\n\
         {\"aside\":\"none\",\"digest\":\"@\",\"line\":2,\"text\":\"hello\"}\n\
         {\"report\":\"refused 1 no-call\\n\"}\n",
        2,
        "{\"aside\":\"none\",\"digest\":\"@\",\"line\":1,\"text\":\"hello\"}",
    ),
];

/// The digest behind 32 bytes 0 and the line `hello`.
const DIGEST: &str = "a41de667c15557cbd8acdd71ef0fef5dc73561374baed8330f8adb0e1424cd62";

#[test]
fn changes_are_told(rt: HostRuntime) -> Result<(), Fail> {
    for (file, row, right_row) in CHANGED {
        let bytes = with_digests(rt.alloc(), file)?;
        let right_bytes = with_digests(rt.alloc(), right_row)?;
        let told = match replay(rt.alloc(), bytes.as_bytes())? {
            Replayed::Same(_, _) => 0,
            Replayed::Differs(number, kept, right) => {
                assert_eq!(rt; right.bytes(), right_bytes.as_bytes());
                assert!(rt; kept.bytes() != right.bytes());
                number
            }
        };
        assert_eq!(rt; told, row);
    }
    match replay(rt.alloc(), b"\n") {
        Ok(_) => assert!(rt; false),
        Err(fault) => assert_eq!(rt; fault, RowFault::BadRow(1)),
    }
    Ok(())
}

/// A file, with the digest for `@`.
fn with_digests(alloc: Global, file: &str) -> Result<String, Fail> {
    let mut text = String::new(alloc);
    for c in file.chars() {
        if c == '@' {
            text.push_str(DIGEST)?;
        } else {
            text.push(c)?;
        }
    }
    Ok(text)
}
