//! Calls of which no read, no write and no file fails: they end the same however their bytes come in pieces.

use crate::case::{Case, RUN};
use crate::inputs::{FOUR_APPLICANTS, FOUR_REPORT};
use house_base::Reason;
use house_top::Status;
use std::test::Fail;

/// Three clusters of two, an assignment that is computed, and behind it a line that is no command.
const SIX_APPLICANTS: &[u8] = b"call 2 3 2
applicant a
applicant b
applicant c
applicant d
applicant e
applicant f
place a 1
place b 2
place c 3
place d 1
place e 2
place f 3
assign
hello
";

/// The first assignment of `SIX_APPLICANTS`.
const PAIRS: &str = "pair a b
pair a c
pair b c
pair b d
pair c d
pair c e
pair d e
pair d f
pair e f
pair e a
pair f a
pair f b
";

/// One applicant against three of one cluster, who need a reviewer each, while the one reviews once.
const ONE_AGAINST_THREE: &[u8] = b"call 1 2 1
applicant a
applicant b
applicant c
applicant d
place a 1
place b 2
place c 2
place d 2
assign
";

/// The shortage of `ONE_AGAINST_THREE`.
const SHORTAGE: &str = "short allowed 0 needed 2
reviewers b c d
proposals b c d
";

const ANSWERED: &[Case<'static>] = &[
    Case {
        name: "a report",
        input: FOUR_APPLICANTS,
        text: FOUR_REPORT,
        ..RUN
    },
    Case {
        name: "a report beside files",
        input: FOUR_APPLICANTS,
        files: &[("audit", b"rows"), ("register", b"")],
        text: FOUR_REPORT,
        kept: &[("audit", b"rows"), ("register", b"")],
        absent: &["report"],
        ..RUN
    },
    Case {
        name: "the pairs of an assignment",
        words: &["pairs"],
        input: SIX_APPLICANTS,
        text: PAIRS,
        ..RUN
    },
    Case {
        name: "that there is an assignment",
        words: &["feasible"],
        input: SIX_APPLICANTS,
        text: "feasible\n",
        ..RUN
    },
    Case {
        name: "a shortage of a run",
        input: ONE_AGAINST_THREE,
        status: Status::Short,
        text: SHORTAGE,
        ..RUN
    },
    Case {
        name: "a shortage in the place of pairs",
        words: &["pairs"],
        input: ONE_AGAINST_THREE,
        status: Status::Short,
        text: SHORTAGE,
        ..RUN
    },
    Case {
        name: "that there is a shortage",
        words: &["feasible"],
        input: ONE_AGAINST_THREE,
        status: Status::Short,
        text: SHORTAGE,
        ..RUN
    },
];

const REFUSED: &[Case<'static>] = &[
    Case {
        name: "no line",
        status: Status::Refused(1, Reason::NoCall),
        text: "refused 1 no-call\n",
        ..RUN
    },
    Case {
        name: "an unknown command",
        input: b"call 1 2 1\nhello\n",
        status: Status::Refused(2, Reason::Form),
        text: "refused 2 form\n",
        ..RUN
    },
    Case {
        name: "a draw too early, with no line feed behind it",
        input: b"call 1 2 1\r\n\r\ndraw 0",
        status: Status::Refused(3, Reason::Order),
        text: "refused 3 order\n",
        ..RUN
    },
    Case {
        name: "a name with a capital letter",
        input: b"call 1 2 1\napplicant Bob\n",
        status: Status::Refused(2, Reason::Name),
        text: "refused 2 name\n",
        ..RUN
    },
    Case {
        name: "no word",
        words: &[],
        input: FOUR_APPLICANTS,
        status: Status::Usage,
        ..RUN
    },
    Case {
        name: "an unknown word",
        words: &["walk"],
        input: FOUR_APPLICANTS,
        status: Status::Usage,
        ..RUN
    },
    Case {
        name: "a word with a capital letter",
        words: &["Run"],
        input: FOUR_APPLICANTS,
        status: Status::Usage,
        ..RUN
    },
    Case {
        name: "a word with a blank",
        words: &["run "],
        input: FOUR_APPLICANTS,
        status: Status::Usage,
        ..RUN
    },
    Case {
        name: "a word too many",
        words: &["run", "run"],
        input: FOUR_APPLICANTS,
        status: Status::Usage,
        ..RUN
    },
];

#[test]
fn answer_the_same_in_all_pieces(rt: HostRuntime) -> Result<(), Fail> {
    for case in ANSWERED {
        case.check_in_pieces(&rt, &[1, 7, 4096])?;
    }
    for case in REFUSED {
        case.check_in_pieces(&rt, &[1, 7, 4096])?;
    }
    Ok(())
}

#[test]
fn refuse_the_end_of_an_unfinished_call(rt: HostRuntime) -> Result<(), Fail> {
    let undrawn = FOUR_APPLICANTS.strip_suffix(b"draw 0\n");
    let case = Case {
        name: "no draw",
        input: undrawn.ok_or("the draw is the last line")?,
        status: Status::Refused(17, Reason::Unfinished),
        text: "refused 17 unfinished\n",
        ..RUN
    };
    case.check_in_pieces(&rt, &[1, 7, 4096])
}
