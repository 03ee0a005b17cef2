//! Calls that a call file and a register open.

use crate::case::{Case, RUN};
use crate::inputs::{CALL_OF_24, FOUR_REPORT, INPUT_OF_24, REGISTER_OF_24, REPORT_OF_24};
use call_file::{Key, OpenFault, open_lines};
use house_base::Reason;
use house_io::{PlainShelf, PlainSink, PlainSource};
use house_top::{Bad, Status, is_storing, read_only};
use std::alloc::Global;
use std::test::Fail;

const CALL: &[u8] = b"seats = 2\nclusters = 2\nreviews = 1\n";

const REGISTER: &[u8] = b"name,cluster,conflicts\na,1,\nb,1,\nc,2,\nd,2,\n";

/// The lines of the four-applicants call behind its opening.
const INPUT: &[u8] = b"pair a c
pair b d
pair c a
pair d b
assign
close
draw 0
";

/// A call that `c` and `r` open.
const OPENED: Case<'static> = Case {
    words: &["run", "c", "r"],
    input: INPUT,
    files: &[("c", CALL), ("r", REGISTER)],
    ..RUN
};

const CASES: &[Case<'static>] = &[
    Case {
        name: "a report behind two files",
        text: FOUR_REPORT,
        kept: &[("c", CALL), ("r", REGISTER)],
        ..OPENED
    },
    Case {
        name: "a call of 24",
        input: INPUT_OF_24,
        files: &[("c", CALL_OF_24), ("r", REGISTER_OF_24)],
        text: REPORT_OF_24,
        ..OPENED
    },
    Case {
        name: "a call file that is no document",
        files: &[("c", b"seats ="), ("r", b"")],
        status: Status::BadFile(Bad::Toml),
        text: "bad toml\n",
        ..OPENED
    },
    Case {
        name: "too many seats, and a register without a record",
        files: &[
            ("c", b"seats = 1001\nclusters = 2\nreviews = 1\n"),
            ("r", b""),
        ],
        status: Status::BadFile(Bad::Key(Key::Seats)),
        text: "bad key seats\n",
        ..OPENED
    },
    Case {
        name: "a register without a record",
        files: &[("c", CALL), ("r", b"")],
        status: Status::BadFile(Bad::Entry(1)),
        text: "bad record 1\n",
        ..OPENED
    },
    Case {
        name: "a record of two fields",
        files: &[("c", CALL), ("r", b"name,cluster,conflicts\na,1,\nb,1\n")],
        status: Status::BadFile(Bad::Entry(3)),
        text: "bad record 3\n",
        ..OPENED
    },
    Case {
        name: "a name that comes twice, and an input that cannot be read",
        files: &[("c", CALL), ("r", b"name,cluster,conflicts\na,1,\na,1,\n")],
        failing_takes: &[1],
        status: Status::Refused(3, Reason::Known),
        text: "refused 3 known\n",
        ..OPENED
    },
    Case {
        name: "a line of the input that is refused, counted behind the opening",
        input: b"hello\n",
        status: Status::Refused(10, Reason::Form),
        text: "refused 10 form\n",
        ..OPENED
    },
    Case {
        name: "a call file that is absent",
        files: &[("r", REGISTER)],
        status: Status::ReadFault,
        ..OPENED
    },
    Case {
        name: "a call file off the form, and a register that cannot be loaded",
        files: &[("c", b"seats ="), ("r", REGISTER)],
        failing_files: &[2],
        status: Status::ReadFault,
        ..OPENED
    },
    Case {
        name: "an input that cannot be read behind two files",
        failing_takes: &[1],
        status: Status::ReadFault,
        ..OPENED
    },
    Case {
        name: "an empty name",
        words: &["run", "", "r"],
        status: Status::Usage,
        ..OPENED
    },
    Case {
        name: "a name too few",
        words: &["run", "c"],
        status: Status::Usage,
        ..OPENED
    },
];

#[test]
fn open_a_call(rt: HostRuntime) -> Result<(), Fail> {
    for case in CASES {
        case.check_in_pieces(&rt, &[1, 7, 4096])?;
    }
    Ok(())
}

#[test]
fn open_a_call_over_files_that_tell_all(rt: HostRuntime) -> Result<(), Fail> {
    let alloc = rt.alloc();
    let mut input = PlainSource::new(INPUT.to_vec(alloc)?);
    let mut output = PlainSink::with_room(alloc, FOUR_REPORT.len())?;
    let mut files = PlainShelf::new(alloc);
    files.put(alloc, "c", CALL.to_vec(alloc)?)?;
    files.put(alloc, "r", REGISTER.to_vec(alloc)?)?;
    let words = vec![in alloc;
        "run".to_string(alloc)?,
        "c".to_string(alloc)?,
        "r".to_string(alloc)?,
    ]?;
    assert!(rt; !is_storing(&words));
    let status = read_only(alloc, &words, &mut input, &mut output, &mut files);
    assert_eq!(rt; status, Status::Done);
    assert_eq!(rt; output.given(), FOUR_REPORT.as_bytes());
    Ok(())
}

/// How many lines a call file and a register open a call with, or why one of them is refused.
fn count_opened(alloc: Global, call: &[u8], register: &[u8]) -> Result<u64, OpenFault> {
    Ok(open_lines(alloc, call, register)?.count())
}

/// With ample memory the opening lines are made, and each refusal is told.
#[test]
fn make_opening_lines(rt: HostRuntime) -> Result<(), Fail> {
    let of_24: &[u8] = CALL_OF_24;
    let register: &[u8] = REGISTER_OF_24;
    let cases: [(&[u8], &[u8], Result<u64, OpenFault>); 12] = [
        (of_24, register, Ok(51)),
        (CALL, REGISTER, Ok(9)),
        (CALL, b"name,cluster,conflicts\n", Ok(1)),
        (b"seats =", b"", Err(OpenFault::BadToml)),
        (b"version = 3", b"", Err(OpenFault::BadKey(Key::Version))),
        (b"", b"", Err(OpenFault::BadKey(Key::Seats))),
        (b"seats = 1", b"", Err(OpenFault::BadKey(Key::Clusters))),
        (
            b"seats = 1\nclusters = 2",
            b"",
            Err(OpenFault::BadKey(Key::Reviews)),
        ),
        (
            b"seats = 1\nclusters = 2\nreviews = 1\npartition = \"a b\"",
            b"",
            Err(OpenFault::BadKey(Key::Partition)),
        ),
        (
            b"seats = 1\nclusters = 2\nreviews = 1\nseal = \"AB\"",
            b"",
            Err(OpenFault::BadKey(Key::Seal)),
        ),
        (
            b"seats = 1\nclusters = 2\nreviews = 1\ncolour = 1",
            b"",
            Err(OpenFault::BadKey(Key::Other)),
        ),
        (
            CALL,
            b"name,cluster,conflicts\nB,1,\n",
            Err(OpenFault::BadRegister(2)),
        ),
    ];
    for (call, register, due) in cases {
        let opened = count_opened(rt.alloc(), call, register);
        assert_eq!(rt; opened, due, "{call:?} and {register:?}");
    }
    Ok(())
}
