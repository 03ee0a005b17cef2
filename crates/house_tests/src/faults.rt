//! Calls of which reads or writes fail.

use crate::case::{Case, RUN};
use crate::inputs::{FOUR_APPLICANTS, FOUR_REPORT};
use house_base::Reason;
use house_top::Status;
use std::test::Fail;

const FAILING: &[Case<'static>] = &[
    Case {
        name: "the second take fails",
        input: FOUR_APPLICANTS,
        piece: 8,
        failing_takes: &[2],
        status: Status::ReadFault,
        ..RUN
    },
    Case {
        name: "a take behind a line that ends the run is not made",
        input: b"hello\n",
        piece: 6,
        failing_takes: &[2],
        status: Status::Refused(1, Reason::NoCall),
        text: "refused 1 no-call\n",
        ..RUN
    },
    Case {
        name: "the third give fails",
        input: FOUR_APPLICANTS,
        piece: 10,
        failing_gives: &[3],
        status: Status::WriteFault,
        text: "call 2 2 1\napplicant",
        ..RUN
    },
    Case {
        name: "with other words nothing is taken, and nothing given",
        words: &["walk"],
        input: FOUR_APPLICANTS,
        failing_takes: &[1],
        failing_gives: &[1],
        status: Status::Usage,
        ..RUN
    },
    Case {
        name: "the calls of a shelf that is not asked for",
        input: FOUR_APPLICANTS,
        failing_files: &[1],
        text: FOUR_REPORT,
        ..RUN
    },
];

#[test]
fn tell_faults(rt: HostRuntime) -> Result<(), Fail> {
    for case in FAILING {
        case.check(&rt)?;
    }
    Ok(())
}

#[test]
fn give_nothing_whichever_take_fails(rt: HostRuntime) -> Result<(), Fail> {
    for (piece, last) in [(1, 169), (8, 22), (4096, 2)] {
        let case = Case {
            name: "a take fails",
            input: FOUR_APPLICANTS,
            piece,
            status: Status::ReadFault,
            ..RUN
        };
        for take in 1..=last {
            case.check_failing(&rt, &[take], &[])?;
        }
    }
    Ok(())
}

#[test]
fn give_a_front_whichever_give_fails(rt: HostRuntime) -> Result<(), Fail> {
    for (piece, gives) in [(1_usize, 457), (10, 46), (4096, 1)] {
        for passed in 0..gives {
            let front = FOUR_REPORT.get(..piece.saturating_mul(passed));
            let case = Case {
                name: "a give fails",
                input: FOUR_APPLICANTS,
                piece,
                status: Status::WriteFault,
                text: front.ok_or("the report is shorter")?,
                ..RUN
            };
            case.check_failing(&rt, &[], &[passed as u64 + 1])?;
        }
    }
    Ok(())
}
