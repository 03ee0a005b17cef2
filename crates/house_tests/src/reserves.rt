//! Withdrawals behind a report.

use crate::case::{Case, RUN, texts};
use house_base::Reason;
use house_io::{MapShelf, PlainSink, PlainSource};
use house_top::{Bad, Status, house};
use std::alloc::Global;
use std::test::Fail;

/// A call of five applicants in three clusters.
const FIVE: &[u8] = b"call 4 3 2
applicant a
applicant b
applicant c
applicant d
applicant e
place a 1
place b 2
place c 2
place d 3
place e 3
assign
review b d 1
review c d 1
review d a 1
review e a 1
close
draw 0
";

/// Behind the report of that call: the two that hold a seat of the clusters 2 and 1 withdraw.
const TWO_LEAVE: &str = "call 4 3 2
applicants 5
aside 0 0 0 0 0 0
draw 0/5000000
cluster 1 cents 2000000 quota 8000000/5000000 seats 2 filled 1
cluster 2 cents 1000000 quota 4000000/5000000 seats 1 filled 1
cluster 3 cents 2000000 quota 8000000/5000000 seats 1 filled 1
applicant a cluster 1 rank 1 cents 2000000 chance 5000000/5000000 yes
applicant b cluster 2 rank 1 cents 500000 chance 4000000/5000000 yes
applicant c cluster 2 rank 2 cents 500000 chance 0/5000000 no
applicant d cluster 3 rank 1 cents 2000000 chance 5000000/5000000 yes
applicant e cluster 3 rank 2 cents 0 chance 3000000/5000000 no
empty 1
withdraw b up c
withdraw a up -
final a chance 0/5000000 gone
final b chance 0/5000000 gone
final c chance 4000000/5000000 yes
final d chance 5000000/5000000 yes
final e chance 3000000/5000000 no
empty 2
";

/// The same, in the other order.
const TWO_LEAVE_TURNED: &str = "call 4 3 2
applicants 5
aside 0 0 0 0 0 0
draw 0/5000000
cluster 1 cents 2000000 quota 8000000/5000000 seats 2 filled 1
cluster 2 cents 1000000 quota 4000000/5000000 seats 1 filled 1
cluster 3 cents 2000000 quota 8000000/5000000 seats 1 filled 1
applicant a cluster 1 rank 1 cents 2000000 chance 5000000/5000000 yes
applicant b cluster 2 rank 1 cents 500000 chance 4000000/5000000 yes
applicant c cluster 2 rank 2 cents 500000 chance 0/5000000 no
applicant d cluster 3 rank 1 cents 2000000 chance 5000000/5000000 yes
applicant e cluster 3 rank 2 cents 0 chance 3000000/5000000 no
empty 1
withdraw a up -
withdraw b up c
final a chance 0/5000000 gone
final b chance 0/5000000 gone
final c chance 4000000/5000000 yes
final d chance 5000000/5000000 yes
final e chance 3000000/5000000 no
empty 2
";

/// Behind that report: nobody withdraws.
const NOBODY_LEAVES: &str = "call 4 3 2
applicants 5
aside 0 0 0 0 0 0
draw 0/5000000
cluster 1 cents 2000000 quota 8000000/5000000 seats 2 filled 1
cluster 2 cents 1000000 quota 4000000/5000000 seats 1 filled 1
cluster 3 cents 2000000 quota 8000000/5000000 seats 1 filled 1
applicant a cluster 1 rank 1 cents 2000000 chance 5000000/5000000 yes
applicant b cluster 2 rank 1 cents 500000 chance 4000000/5000000 yes
applicant c cluster 2 rank 2 cents 500000 chance 0/5000000 no
applicant d cluster 3 rank 1 cents 2000000 chance 5000000/5000000 yes
applicant e cluster 3 rank 2 cents 0 chance 3000000/5000000 no
empty 1
final a chance 5000000/5000000 yes
final b chance 4000000/5000000 yes
final c chance 0/5000000 no
final d chance 5000000/5000000 yes
final e chance 3000000/5000000 no
empty 1
";

/// Behind that report: all withdraw.
const ALL_LEAVE: &str = "call 4 3 2
applicants 5
aside 0 0 0 0 0 0
draw 0/5000000
cluster 1 cents 2000000 quota 8000000/5000000 seats 2 filled 1
cluster 2 cents 1000000 quota 4000000/5000000 seats 1 filled 1
cluster 3 cents 2000000 quota 8000000/5000000 seats 1 filled 1
applicant a cluster 1 rank 1 cents 2000000 chance 5000000/5000000 yes
applicant b cluster 2 rank 1 cents 500000 chance 4000000/5000000 yes
applicant c cluster 2 rank 2 cents 500000 chance 0/5000000 no
applicant d cluster 3 rank 1 cents 2000000 chance 5000000/5000000 yes
applicant e cluster 3 rank 2 cents 0 chance 3000000/5000000 no
empty 1
withdraw d up e
withdraw c up -
withdraw b up -
withdraw e up -
withdraw a up -
final a chance 0/5000000 gone
final b chance 0/5000000 gone
final c chance 0/5000000 gone
final d chance 0/5000000 gone
final e chance 0/5000000 gone
empty 4
";

/// Withdrawals in a file `w`.
const RESERVE: Case<'static> = Case {
    words: &["reserve", "w"],
    input: FIVE,
    files: &[("w", b"withdraw b\nwithdraw a\n")],
    ..RUN
};

/// Calls of which nothing fails: they end the same however their bytes come in pieces.
const LEAVING: &[Case<'static>] = &[
    Case {
        name: "two withdraw, and the file stays",
        text: TWO_LEAVE,
        kept: &[("w", b"withdraw b\nwithdraw a\n")],
        ..RESERVE
    },
    Case {
        name: "in the other order, behind a comment and a blank line, with tabs, and no end of the last line",
        files: &[("w", b"# leaving\n\r\nwithdraw a\r\n\twithdraw  b")],
        text: TWO_LEAVE_TURNED,
        ..RESERVE
    },
    Case {
        name: "nobody withdraws",
        files: &[("w", b"")],
        text: NOBODY_LEAVES,
        ..RESERVE
    },
    Case {
        name: "all withdraw",
        files: &[(
            "w",
            b"withdraw d\nwithdraw c\nwithdraw b\nwithdraw e\nwithdraw a\n",
        )],
        text: ALL_LEAVE,
        ..RESERVE
    },
    Case {
        name: "another word, whose line is counted with the blank one before it",
        files: &[("w", b"\nleave b\n")],
        status: Status::BadFile(Bad::Leave(2, Reason::Form)),
        text: "bad withdraw 2 form\n",
        ..RESERVE
    },
    Case {
        name: "a word in capitals",
        files: &[("w", b"Withdraw b\n")],
        status: Status::BadFile(Bad::Leave(1, Reason::Form)),
        text: "bad withdraw 1 form\n",
        ..RESERVE
    },
    Case {
        name: "no name",
        files: &[("w", b"withdraw\n")],
        status: Status::BadFile(Bad::Leave(1, Reason::Form)),
        text: "bad withdraw 1 form\n",
        ..RESERVE
    },
    Case {
        name: "two names",
        files: &[("w", b"withdraw a b\n")],
        status: Status::BadFile(Bad::Leave(1, Reason::Form)),
        text: "bad withdraw 1 form\n",
        ..RESERVE
    },
    Case {
        name: "a name in capitals behind one that withdraws",
        files: &[("w", b"withdraw b\nwithdraw Bob\n")],
        status: Status::BadFile(Bad::Leave(2, Reason::Name)),
        text: "bad withdraw 2 name\n",
        ..RESERVE
    },
    Case {
        name: "a name of 25 bytes",
        files: &[("w", b"withdraw abcdefghijklmnopqrstuvwxy\n")],
        status: Status::BadFile(Bad::Leave(1, Reason::Name)),
        text: "bad withdraw 1 name\n",
        ..RESERVE
    },
    Case {
        name: "a stranger, before a line off the form",
        files: &[("w", b"withdraw zed\nleave\n")],
        status: Status::BadFile(Bad::Leave(1, Reason::Unknown)),
        text: "bad withdraw 1 unknown\n",
        ..RESERVE
    },
    Case {
        name: "a name twice",
        files: &[("w", b"withdraw b\nwithdraw b\n")],
        status: Status::BadFile(Bad::Leave(2, Reason::Known)),
        text: "bad withdraw 2 known\n",
        ..RESERVE
    },
    Case {
        name: "a refusal, whatever stands in the file",
        input: b"hello\n",
        files: &[("w", b"leave\n")],
        status: Status::Refused(1, Reason::NoCall),
        text: "refused 1 no-call\n",
        ..RESERVE
    },
    Case {
        name: "a shortage, whatever stands in the file",
        input: b"call 1 2 1\napplicant b\nplace b 1\nassign\n",
        files: &[("w", b"leave\n")],
        status: Status::Short,
        text: "short allowed 0 needed 1\nreviewers b\nproposals b\n",
        ..RESERVE
    },
    Case {
        name: "no file",
        words: &["reserve"],
        status: Status::Usage,
        ..RESERVE
    },
    Case {
        name: "an empty name of a file",
        words: &["reserve", ""],
        status: Status::Usage,
        ..RESERVE
    },
    Case {
        name: "two files",
        words: &["reserve", "w", "w"],
        status: Status::Usage,
        ..RESERVE
    },
];

/// Calls of which something fails.
const FAILING: &[Case<'static>] = &[
    Case {
        name: "an absent file, and an input that cannot be read",
        files: &[],
        failing_takes: &[1],
        status: Status::ReadFault,
        ..RESERVE
    },
    Case {
        name: "the load fails, of an input that is refused at line 1",
        input: b"hello\n",
        failing_files: &[1],
        status: Status::ReadFault,
        ..RESERVE
    },
    Case {
        name: "the second take fails",
        piece: 8,
        failing_takes: &[2],
        status: Status::ReadFault,
        ..RESERVE
    },
    Case {
        name: "a give fails in the report",
        piece: 10,
        failing_gives: &[2],
        status: Status::WriteFault,
        text: "call 4 3 2",
        ..RESERVE
    },
];

#[test]
fn tell_who_moves_up(rt: HostRuntime) -> Result<(), Fail> {
    for case in LEAVING {
        for piece in [1, 7, 65_536] {
            Case { piece, ..*case }.check(&rt)?;
        }
    }
    Ok(())
}

#[test]
fn tell_failing_calls(rt: HostRuntime) -> Result<(), Fail> {
    for case in FAILING {
        case.check(&rt)?;
    }
    Ok(())
}

/// A front of a text.
fn front(text: &'static str, len: usize) -> Result<&'static str, Fail> {
    Ok(str::from_utf8(text.as_bytes().get(..len).ok_or("a shorter text")?)?)
}

/// A give that fails in the moves, in the board, and at the last byte: the text before it was given.
#[test]
fn give_a_front_of_a_board(rt: HostRuntime) -> Result<(), Fail> {
    let all = TWO_LEAVE.len();
    for len in [all - 196, all - 100, all - 1] {
        let case = Case {
            name: "a give fails behind the report",
            piece: len,
            failing_gives: &[2],
            status: Status::WriteFault,
            text: front(TWO_LEAVE, len)?,
            ..RESERVE
        };
        case.check(&rt)?;
    }
    Ok(())
}

/// How withdrawals end with a file of so many bytes of a comment, of a call that is refused at its first line.
fn reserve_of_len(alloc: Global, len: usize) -> Result<(Status, PlainSink), Fail> {
    let words = texts(alloc, &["reserve", "w"])?;
    let mut input = PlainSource::new(b"hello\n".to_vec(alloc)?);
    let mut output = PlainSink::with_room(alloc, 64)?;
    let mut shelf = MapShelf::new(Vec::new(alloc));
    shelf.put(alloc, "w", vec![in alloc; b'#'; len]?)?;
    let status = house(alloc, &words, &mut input, &mut output, &mut shelf);
    Ok((status, output))
}

/// A file of withdrawals may have 16,777,216 bytes; a longer one is told before the input is looked at.
#[test]
fn take_long_files_of_withdrawals(rt: HostRuntime) -> Result<(), Fail> {
    for (len, status, text) in [
        (
            16_777_216,
            Status::Refused(1, Reason::NoCall),
            "refused 1 no-call\n",
        ),
        (16_777_217, Status::TooLong, "too-long\n"),
    ] {
        let (ended, output) = reserve_of_len(rt.alloc(), len)?;
        assert_eq!(rt; ended, status, "{len} bytes");
        assert_eq!(rt; str::from_utf8(output.given())?, text, "{len} bytes");
    }
    Ok(())
}
