//! Desk files that are joined.

use crate::case::{Case, RUN, texts};
use house_io::{MapShelf, PlainSink, PlainSource};
use house_top::{Bad, Status, house};
use std::alloc::Global;
use std::test::Fail;

/// Two desk files that share a key, and their join.
const X: &[u8] = b"entry b c 2 100\n";

const Y: &[u8] = b"entry b c 1 7\nentry b d 1 3\n";

const JOINED: &str = "entry b c 2 100\nentry b d 1 3\n";

/// A desk file whose second line comes before its first.
const TURNED: &[u8] = b"entry b d 1 3\nentry b c 1 7\n";

/// A join of the files `x` and `y`.
const JOIN: Case<'static> = Case {
    words: &["join", "x", "y"],
    files: &[("x", X), ("y", Y)],
    ..RUN
};

const JOINS: &[Case<'static>] = &[
    Case {
        name: "two files, and an input that cannot be read",
        failing_takes: &[1],
        text: JOINED,
        kept: &[("x", X), ("y", Y)],
        ..JOIN
    },
    Case {
        name: "the other way",
        words: &["join", "y", "x"],
        text: JOINED,
        ..JOIN
    },
    Case {
        name: "a file and its join",
        files: &[("x", b"entry b c 2 100\nentry b d 1 3\n"), ("y", Y)],
        text: JOINED,
        ..JOIN
    },
    Case {
        name: "a file twice",
        words: &["join", "y", "y"],
        text: "entry b c 1 7\nentry b d 1 3\n",
        ..JOIN
    },
    Case {
        name: "equal revisions, the greatest there are",
        files: &[
            ("x", b"entry a b 18446744073709551615 9\n"),
            ("y", b"entry a b 18446744073709551615 10\n"),
        ],
        text: "entry a b 18446744073709551615 10\n",
        ..JOIN
    },
    Case {
        name: "names by their bytes, the reviewer's first",
        files: &[
            ("x", b"entry b-a c 1 3\nentry c a 1 1\n"),
            ("y", b"entry b z 1 2\nentry ba a 1 4\n"),
        ],
        text: "entry b z 1 2\nentry b-a c 1 3\nentry ba a 1 4\nentry c a 1 1\n",
        ..JOIN
    },
    Case {
        name: "an empty file",
        files: &[("x", b""), ("y", Y)],
        text: "entry b c 1 7\nentry b d 1 3\n",
        ..JOIN
    },
    Case {
        name: "two empty files",
        files: &[("x", b""), ("y", b"")],
        ..JOIN
    },
    Case {
        name: "a bad second file",
        files: &[("x", X), ("y", TURNED)],
        status: Status::BadFile(Bad::Desk(2, 2)),
        text: "bad desk 2 2\n",
        ..JOIN
    },
    Case {
        name: "two bad files",
        words: &["join", "y", "x"],
        files: &[("x", b"entry b c 2\n"), ("y", TURNED)],
        status: Status::BadFile(Bad::Desk(1, 2)),
        text: "bad desk 1 2\n",
        ..JOIN
    },
    Case {
        name: "a revision that is too great",
        files: &[("x", X), ("y", b"entry b c 18446744073709551616 1\n")],
        status: Status::BadFile(Bad::Desk(2, 1)),
        text: "bad desk 2 1\n",
        ..JOIN
    },
    Case {
        name: "a last line without its end",
        files: &[("x", X), ("y", b"entry b c 1 7\nentry b d 1 3")],
        status: Status::BadFile(Bad::Desk(2, 2)),
        text: "bad desk 2 2\n",
        ..JOIN
    },
    Case {
        name: "a key twice",
        files: &[("x", b"entry b c 1 7\nentry b c 2 7\n"), ("y", Y)],
        status: Status::BadFile(Bad::Desk(1, 2)),
        text: "bad desk 1 2\n",
        ..JOIN
    },
    Case {
        name: "a return before the line feed",
        files: &[("x", b"entry b c 1 7\r\n"), ("y", Y)],
        status: Status::BadFile(Bad::Desk(1, 1)),
        text: "bad desk 1 1\n",
        ..JOIN
    },
    Case {
        name: "a name in capitals",
        files: &[("x", b"entry B c 1 7\n"), ("y", Y)],
        status: Status::BadFile(Bad::Desk(1, 1)),
        text: "bad desk 1 1\n",
        ..JOIN
    },
    Case {
        name: "the first word alone",
        files: &[("x", b"entry\n"), ("y", Y)],
        status: Status::BadFile(Bad::Desk(1, 1)),
        text: "bad desk 1 1\n",
        ..JOIN
    },
    Case {
        name: "a bad first file and an absent second",
        files: &[("x", TURNED)],
        status: Status::ReadFault,
        ..JOIN
    },
    Case {
        name: "an absent first file",
        files: &[("y", Y)],
        status: Status::ReadFault,
        ..JOIN
    },
    Case {
        name: "the second load fails",
        failing_files: &[2],
        status: Status::ReadFault,
        ..JOIN
    },
    Case {
        name: "the second give fails",
        piece: 10,
        failing_gives: &[2],
        status: Status::WriteFault,
        text: "entry b c ",
        ..JOIN
    },
    Case {
        name: "no file",
        words: &["join"],
        status: Status::Usage,
        ..JOIN
    },
    Case {
        name: "one file",
        words: &["join", "x"],
        status: Status::Usage,
        ..JOIN
    },
    Case {
        name: "an empty name",
        words: &["join", "x", ""],
        status: Status::Usage,
        ..JOIN
    },
    Case {
        name: "three files",
        words: &["join", "x", "y", "y"],
        status: Status::Usage,
        ..JOIN
    },
];

#[test]
fn join_desks(rt: HostRuntime) -> Result<(), Fail> {
    for case in JOINS {
        case.check(&rt)?;
    }
    Ok(())
}

/// How a join of two files of so many bytes each ends, which are off the form.
fn join_of_len(alloc: Global, one: usize, other: usize) -> Result<(Status, PlainSink), Fail> {
    let words = texts(alloc, &["join", "x", "y"])?;
    let mut input = PlainSource::new(Vec::new(alloc));
    let mut output = PlainSink::with_room(alloc, 64)?;
    let mut shelf = MapShelf::new(Vec::new(alloc));
    shelf.put(alloc, "x", vec![in alloc; b'x'; one]?)?;
    shelf.put(alloc, "y", vec![in alloc; b'y'; other]?)?;
    let status = house(alloc, &words, &mut input, &mut output, &mut shelf);
    Ok((status, output))
}

/// A file may have 16,777,216 bytes, and each is loaded before one is read.
#[test]
fn join_long_files(rt: HostRuntime) -> Result<(), Fail> {
    let bad = Status::BadFile(Bad::Desk(1, 1));
    for (one, other, status, text) in [
        (16_777_216, 1, bad, "bad desk 1 1\n"),
        (16_777_217, 1, Status::TooLong, "too-long\n"),
        (1, 16_777_217, Status::TooLong, "too-long\n"),
    ] {
        let (ended, output) = join_of_len(rt.alloc(), one, other)?;
        assert_eq!(rt; ended, status, "{one} and {other} bytes");
        assert_eq!(rt;
            str::from_utf8(output.given())?,
            text,
            "{one} and {other} bytes"
        );
    }
    Ok(())
}
