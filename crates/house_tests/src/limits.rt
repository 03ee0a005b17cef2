//! Inputs at their limits.

use crate::case::{Case, RUN};
use house_base::Reason;
use house_top::Status;
use std::test::Fail;

#[test]
fn stop_reading_where_the_run_ends(rt: HostRuntime) -> Result<(), Fail> {
    let mut flood = b"hello\n".to_vec(rt.alloc())?;
    flood.resize(16_777_222, b'#')?;
    let ended = Case {
        name: "a line that ends the run, in front of a flood",
        input: &flood,
        status: Status::Refused(1, Reason::NoCall),
        text: "refused 1 no-call\n",
        ..RUN
    };
    ended.check(&rt)
}

#[test]
fn take_as_many_bytes_as_are_allowed(rt: HostRuntime) -> Result<(), Fail> {
    let comment = vec![in rt.alloc(); b'#'; 16_777_217]?;
    let over = Case {
        name: "a comment that is a byte too long",
        input: &comment,
        status: Status::TooLong,
        text: "too-long\n",
        ..RUN
    };
    over.check(&rt)?;
    let within = Case {
        name: "a comment of all bytes that are allowed",
        input: comment.split_last().ok_or("empty")?.1,
        status: Status::Refused(2, Reason::NoCall),
        text: "refused 2 no-call\n",
        ..RUN
    };
    within.check(&rt)
}

#[test]
fn take_as_many_lines_as_are_allowed(rt: HostRuntime) -> Result<(), Fail> {
    let lines = vec![in rt.alloc(); b'\n'; 1_048_577]?;
    let over = Case {
        name: "a line too many",
        input: &lines,
        status: Status::TooLong,
        text: "too-long\n",
        ..RUN
    };
    over.check(&rt)?;
    let within = Case {
        name: "all lines that are allowed",
        input: lines.split_last().ok_or("empty")?.1,
        status: Status::Refused(1_048_577, Reason::NoCall),
        text: "refused 1048577 no-call\n",
        ..RUN
    };
    within.check(&rt)
}
