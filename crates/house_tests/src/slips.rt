//! Slips that are told and slips that are checked.

use crate::case::{Case, RUN, texts};
use crate::inputs::FOUR_APPLICANTS;
use house_base::Reason;
use house_io::{MapShelf, PlainSink, PlainSource};
use house_top::{Bad, Status, house};
use std::alloc::Global;
use std::test::Fail;

/// The slip of `b` in the call of `FOUR_APPLICANTS`.
const SLIP_OF_FOUR: &str = "slip b chance 0/4000000
seats 2 persons 4
member a
member b
ballot c a:0
ballot d b:0
";

/// Two applicants of one person, and two of others, who are not its reviewers alone: the second of the person's has the
/// better reviews.
const TWO_OF_ONE: &[u8] = b"call 1 2 1
applicant a1 a
applicant a2 a
applicant b
applicant c
place a 1
place b 2
place c 2
pair a b
pair a c
pair b a1
pair c a2
assign
review a b 7
review a b 9
review b a1 0
close
draw 0
";

/// A telling of the slip of `b`.
const TELL: Case<'static> = Case {
    words: &["slip", "b"],
    input: FOUR_APPLICANTS,
    ..RUN
};

/// Calls of which nothing fails: they end the same however their bytes come in pieces.
const TOLD: &[Case<'static>] = &[
    Case {
        name: "the slip of an applicant",
        text: SLIP_OF_FOUR,
        ..TELL
    },
    Case {
        name: "the slip of one of two applicants of a person, without its own reviews",
        words: &["slip", "a2"],
        input: TWO_OF_ONE,
        text: "slip a2 chance 0/3000000
seats 1 persons 3
member a1
member a2
ballot b a1:0
ballot c a2:0
",
        ..TELL
    },
    Case {
        name: "the slip of whom that person reviewed, with the last of its reviews and its whole row",
        words: &["slip", "c"],
        input: TWO_OF_ONE,
        text: "slip c chance 0/3000000
seats 1 persons 3
member b
member c
ballot a b:9 c:0
",
        ..TELL
    },
    Case {
        name: "the name of a person that is no applicant's",
        words: &["slip", "a"],
        input: TWO_OF_ONE,
        text: "unlisted\n",
        ..TELL
    },
    Case {
        name: "a refusal in the place of a slip",
        input: b"call 2 2 1\nhello\n",
        status: Status::Refused(2, Reason::Form),
        text: "refused 2 form\n",
        ..TELL
    },
    Case {
        name: "a shortage in the place of a slip",
        input: b"call 1 2 1\napplicant b\nplace b 1\nassign\n",
        status: Status::Short,
        text: "short allowed 0 needed 1\nreviewers b\nproposals b\n",
        ..TELL
    },
    Case {
        name: "an input that ends too early, of a stranger",
        words: &["slip", "stranger"],
        input: b"",
        status: Status::Refused(1, Reason::NoCall),
        text: "refused 1 no-call\n",
        ..TELL
    },
    Case {
        name: "what is no name",
        words: &["slip", "B"],
        status: Status::Usage,
        ..TELL
    },
    Case {
        name: "no name",
        words: &["slip"],
        status: Status::Usage,
        ..TELL
    },
    Case {
        name: "two names",
        words: &["slip", "b", "b"],
        status: Status::Usage,
        ..TELL
    },
];

/// Calls of which something fails.
const UNTOLD: &[Case<'static>] = &[
    Case {
        name: "the second take fails, in the opening",
        piece: 8,
        failing_takes: &[2],
        status: Status::ReadFault,
        ..TELL
    },
    Case {
        name: "the second take would fail behind a line that ends the run",
        input: b"hello\n",
        piece: 6,
        failing_takes: &[2],
        status: Status::Refused(1, Reason::NoCall),
        text: "refused 1 no-call\n",
        ..TELL
    },
    Case {
        name: "the first give fails",
        failing_gives: &[1],
        status: Status::WriteFault,
        ..TELL
    },
    Case {
        name: "the third give fails",
        piece: 10,
        failing_gives: &[3],
        status: Status::WriteFault,
        text: "slip b chance 0/4000",
        ..TELL
    },
    Case {
        name: "the calls of a shelf that is not asked for",
        failing_files: &[1],
        text: SLIP_OF_FOUR,
        ..TELL
    },
];

#[test]
fn tell_slips(rt: HostRuntime) -> Result<(), Fail> {
    for case in TOLD {
        case.check_in_pieces(&rt, &[1, 7, 4096])?;
    }
    for case in UNTOLD {
        case.check(&rt)?;
    }
    Ok(())
}

/// The slip of `a` in a call of six, where only one person gave points.
const SLIP: &[u8] = b"slip a chance 3000000/6000000
seats 2 persons 6
member a
member d
ballot b c:100 d:0
ballot c d:0 e:0
ballot e f:0 a:0
ballot f a:0 b:0
";

/// Where the digits of its printed chance stand.
const CHANCE: std::ops::Range<usize> = 14..21;

/// A check of the file `s`, which holds the slip.
const CHECK: Case<'static> = Case {
    words: &["check", "s"],
    files: &[("s", SLIP)],
    ..RUN
};

const CASES: &[Case<'static>] = &[
    Case {
        name: "a right slip, and an input that cannot be read",
        failing_takes: &[1],
        text: "slip yes\n",
        kept: &[("s", SLIP)],
        ..CHECK
    },
    Case {
        name: "a chance that is too great",
        files: &[(
            "s",
            b"slip d chance 1/6000000\nseats 2 persons 6\nmember a\nmember d\nballot b a:1\n",
        )],
        status: Status::Wrong(0),
        text: "wrong 0/6000000\n",
        ..CHECK
    },
    Case {
        name: "another denominator than the persons' dollars",
        files: &[(
            "s",
            b"slip a chance 0/6000000\nseats 2 persons 5\nmember a\n",
        )],
        status: Status::BadFile(Bad::Slip(2)),
        text: "bad slip 2\n",
        ..CHECK
    },
    Case {
        name: "an empty file",
        files: &[("s", b"")],
        status: Status::BadFile(Bad::Slip(1)),
        text: "bad slip 1\n",
        ..CHECK
    },
    Case {
        name: "no members",
        files: &[("s", b"slip a chance 0/6000000\nseats 2 persons 6\n")],
        status: Status::BadFile(Bad::Slip(3)),
        text: "bad slip 3\n",
        ..CHECK
    },
    Case {
        name: "an absent slip",
        files: &[],
        status: Status::ReadFault,
        ..CHECK
    },
    Case {
        name: "a slip that cannot be loaded",
        failing_files: &[1],
        status: Status::ReadFault,
        ..CHECK
    },
    Case {
        name: "an output that takes nothing",
        failing_gives: &[1],
        status: Status::WriteFault,
        ..CHECK
    },
    Case {
        name: "no file",
        words: &["check"],
        status: Status::Usage,
        ..CHECK
    },
    Case {
        name: "an empty name",
        words: &["check", ""],
        status: Status::Usage,
        ..CHECK
    },
    Case {
        name: "two files",
        words: &["check", "s", "s"],
        status: Status::Usage,
        ..CHECK
    },
];

#[test]
fn check_slips(rt: HostRuntime) -> Result<(), Fail> {
    for case in CASES {
        case.check(&rt)?;
    }
    Ok(())
}

/// How a check of these bytes ends.
fn status_of(alloc: Global, slip: &[u8]) -> Result<Status, Fail> {
    let words = texts(alloc, &["check", "s"])?;
    let mut input = PlainSource::new(Vec::new(alloc));
    let mut output = PlainSink::with_room(alloc, 64)?;
    let mut files = MapShelf::new(Vec::new(alloc));
    files.put(alloc, "s", slip.to_vec(alloc)?)?;
    Ok(house(alloc, &words, &mut input, &mut output, &mut files))
}

/// Each byte of the slip is replaced in turn: it is judged then too, and never right with another chance.
#[test]
fn judge_changed_slips(rt: HostRuntime) -> Result<(), Fail> {
    for at in 0..SLIP.len() {
        for byte in b"09z \n" {
            if *byte == SLIP[at] {
                continue;
            }
            let mut slip = SLIP.to_vec(rt.alloc())?;
            slip[at] = *byte;
            let status = status_of(rt.alloc(), &slip)?;
            let judged = matches!(
                status,
                Status::Done | Status::Wrong(_) | Status::BadFile(Bad::Slip(_))
            );
            assert!(rt; judged, "{byte} in the place of byte {at}: {status:?}");
            let other_chance = CHANCE.contains(&at);
            assert!(rt;
                !other_chance || status != Status::Done,
                "{byte} in the place of byte {at}"
            );
        }
    }
    Ok(())
}
