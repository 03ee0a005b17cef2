//! Audits that are stored behind their report.

use crate::case::{Case, RUN, texts};
use crate::inputs::{FOUR_APPLICANTS, FOUR_REPORT};
use house_base::Reason;
use house_io::{Files, MapShelf, PlainSink, PlainSource};
use house_top::{Status, house};
use replay_check::{Ending, Replayed, replay};
use std::test::Fail;

/// What a file holds before the call.
const KEPT: &[u8] = b"what was there before";

/// The four-applicants call, whose audit goes into `x`, which holds something already.
const AUDIT: Case<'static> = Case {
    words: &["audit", "x"],
    input: FOUR_APPLICANTS,
    files: &[("x", KEPT), ("y", KEPT)],
    text: FOUR_REPORT,
    ..RUN
};

const CASES: &[Case<'static>] = &[
    Case {
        name: "a call that is refused",
        input: b"hello\n",
        status: Status::Refused(1, Reason::NoCall),
        text: "refused 1 no-call\n",
        kept: &[("x", KEPT), ("y", KEPT)],
        ..AUDIT
    },
    Case {
        name: "an audit that cannot be stored",
        failing_files: &[1],
        status: Status::WriteFault,
        kept: &[("y", KEPT)],
        ..AUDIT
    },
    Case {
        name: "a report that cannot be given",
        failing_gives: &[1],
        status: Status::WriteFault,
        text: "",
        kept: &[("x", KEPT), ("y", KEPT)],
        ..AUDIT
    },
    Case {
        name: "an input that cannot be read",
        failing_takes: &[1],
        status: Status::ReadFault,
        text: "",
        kept: &[("x", KEPT), ("y", KEPT)],
        ..AUDIT
    },
    Case {
        name: "an empty name",
        words: &["audit", ""],
        status: Status::Usage,
        text: "",
        kept: &[("x", KEPT), ("y", KEPT)],
        ..AUDIT
    },
];

#[test]
fn store_audits(rt: HostRuntime) -> Result<(), Fail> {
    for case in CASES {
        case.check(&rt)?;
    }
    Ok(())
}

/// How many lines the four-applicants call has.
const FOUR_LINES: u64 = 17;

#[test]
fn replay_a_stored_audit(rt: HostRuntime) -> Result<(), Fail> {
    let alloc = rt.alloc();
    let words = texts(alloc, &["audit", "x"])?;
    let mut input = PlainSource::new(FOUR_APPLICANTS.to_vec(alloc)?);
    let mut output = PlainSink::with_room(alloc, FOUR_REPORT.len())?;
    let mut shelf = MapShelf::new(Vec::new(alloc));
    let status = house(alloc, &words, &mut input, &mut output, &mut shelf);
    assert_eq!(rt; status, Status::Done);
    let audit = shelf.load(alloc, "x", 65_536)?;
    let same = matches!(
        replay(alloc, &audit)?,
        Replayed::Same(FOUR_LINES, Ending::Done)
    );
    assert!(rt; same);
    Ok(())
}
