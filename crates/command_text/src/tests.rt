//! Worked lines and texts, and each call that may find no memory with ample memory.

use crate::{
    Command, Cutter, Fed, Line, Lines, Verb, cut, is_blank_at_once, print_command, read_line,
    within,
};
use house_base::{Call, Name, Reason, ReviewLine, Seed};
use std::test::Fail;

const ZEROS: &str = "0000000000000000000000000000000000000000000000000000000000000000";

fn name(word: &[u8]) -> Result<Name, Fail> {
    Ok(Name::read(word).ok_or("not a name")?)
}

fn seed(word: &[u8]) -> Result<Seed, Fail> {
    Ok(Seed::read(word).ok_or("not a seed")?)
}

#[test]
fn lines_have_the_first_reason_that_fits(rt: HostRuntime) -> Result<(), Fail> {
    for (line, verb, reason) in [
        ("hello", Verb::Other, Reason::Form),
        ("Call 1 2 1", Verb::Other, Reason::Form),
        ("call 1 2", Verb::Call, Reason::Form),
        ("call 0 2 1", Verb::Call, Reason::Range),
        ("call 1001 2 1", Verb::Call, Reason::Range),
        ("call 1 1 1", Verb::Call, Reason::Range),
        ("call 1 31 1", Verb::Call, Reason::Range),
        ("call 1 2 21", Verb::Call, Reason::Range),
        ("call 01 2 1", Verb::Call, Reason::Range),
        ("applicant", Verb::Applicant, Reason::Form),
        ("applicant Bob B C", Verb::Applicant, Reason::Form),
        ("applicant a B", Verb::Applicant, Reason::Name),
        ("conflict a", Verb::Conflict, Reason::Form),
        ("conflict a B", Verb::Conflict, Reason::Name),
        ("place Bob 0", Verb::Place, Reason::Name),
        ("place a 0", Verb::Place, Reason::Range),
        ("place a 31", Verb::Place, Reason::Range),
        ("partition a_b", Verb::Partition, Reason::Name),
        ("pair a b c", Verb::Pair, Reason::Form),
        ("pair 1 b", Verb::Pair, Reason::Name),
        ("seal 00", Verb::Seal, Reason::Form),
        ("assign now", Verb::Assign, Reason::Form),
        ("close .", Verb::Close, Reason::Form),
        ("draw 18446744073709551616", Verb::Draw, Reason::Range),
        ("lottery a b", Verb::Lottery, Reason::Form),
    ] {
        let read = read_line(line.as_bytes());
        assert_eq!(rt; read, Line::Bad(verb, reason), "at {line:?}");
    }
    for blank in ["", " \t", "#", "\t # call 1 2 1"] {
        assert_eq!(rt; read_line(blank.as_bytes()), Line::Blank, "at {blank:?}");
    }
    Ok(())
}

#[test]
fn review_lines_are_read_word_by_word(rt: HostRuntime) -> Result<(), Fail> {
    let whole = ReviewLine {
        whole: true,
        reviewer: Some(name(b"a")?),
        proposal: Some(name(b"c")?),
        points: Some(100),
    };
    for (line, review) in [
        ("review a c 100", whole),
        ("\treview  a\tc 100 ", whole),
        (
            "review a c 101",
            ReviewLine {
                points: None,
                ..whole
            },
        ),
        (
            "review a c 007",
            ReviewLine {
                points: None,
                ..whole
            },
        ),
        (
            "review a C 100",
            ReviewLine {
                proposal: None,
                ..whole
            },
        ),
        (
            "review a c 100 1",
            ReviewLine {
                whole: false,
                ..whole
            },
        ),
        (
            "review a",
            ReviewLine {
                whole: false,
                reviewer: Some(name(b"a")?),
                proposal: None,
                points: None,
            },
        ),
    ] {
        let read = read_line(line.as_bytes());
        assert_eq!(rt; read, Line::Review(review), "at {line:?}");
    }
    Ok(())
}

#[test]
fn commands_are_printed_and_read_back(rt: HostRuntime) -> Result<(), Fail> {
    let alloc = rt.alloc();
    let call = Call {
        seats: 1000,
        clusters: 30,
        reviews: 20,
    };
    let (ann, bob) = (name(b"ann-2")?, name(b"bob")?);
    let seal = format!(in alloc; "seal {ZEROS}\n")?;
    for (command, text) in [
        (Command::Call(call), "call 1000 30 20\n"),
        (Command::Applicant(ann, ann), "applicant ann-2\n"),
        (Command::Applicant(ann, bob), "applicant ann-2 bob\n"),
        (Command::Conflict(bob, ann), "conflict bob ann-2\n"),
        (Command::Place(bob, 30), "place bob 30\n"),
        (Command::Partition(seed(b"A-1")?), "partition A-1\n"),
        (Command::Pair(bob, ann), "pair bob ann-2\n"),
        (Command::Seal([0; 32]), seal.as_str()),
        (Command::Assign, "assign\n"),
        (Command::Close, "close\n"),
        (Command::Draw(u64::MAX), "draw 18446744073709551615\n"),
        (Command::Lottery(seed(b"x")?), "lottery x\n"),
    ] {
        let mut out = b"# ".to_vec(alloc)?;
        print_command(alloc, &command, &mut out)?;
        let printed = out.strip_prefix(b"# ").ok_or("the text before is lost")?;
        assert_eq!(rt; printed, text.as_bytes(), "at {command:?}");
        let line = printed.strip_suffix(b"\n").ok_or("no line feed")?;
        assert_eq!(rt; read_line(line), Line::House(command), "at {command:?}");
    }
    Ok(())
}

#[test]
fn texts_are_cut_into_lines(rt: HostRuntime) -> Result<(), Fail> {
    let mut lines = cut(rt.alloc(), b"a\r\n\n\rb\r\r\nc")?;
    lines.push(b"d")?;
    assert_eq!(rt; lines.count(), 5);
    assert_eq!(rt; lines.line(0), b"a".as_slice());
    assert_eq!(rt; lines.line(1), b"".as_slice());
    assert_eq!(rt; lines.line(2), b"\rb\r".as_slice());
    assert_eq!(rt; lines.line(3), b"c".as_slice());
    assert_eq!(rt; lines.line(4), b"d".as_slice());
    assert_eq!(rt; Lines::new(rt.alloc()).count(), 0);
    assert!(rt; within(b"a\n"));
    Ok(())
}

#[test]
fn pieces_are_cut_into_lines(rt: HostRuntime) -> Result<(), Fail> {
    let mut cutter = Cutter::new(rt.alloc());
    for (piece, used, line, rest) in [
        (b"ab".as_slice(), 2, None, Some(b"ab".as_slice())),
        (b"c\r\nd", 3, Some(b"abc".as_slice()), None),
        (b"d", 1, None, Some(b"d")),
        (b"\r", 1, None, Some(b"d")),
        (b"", 0, None, Some(b"d")),
        (b"\n", 1, Some(b"d"), None),
    ] {
        let whole = line.is_some();
        assert_eq!(rt; cutter.feed(piece)?, Fed { used, whole }, "at {piece:?}");
        assert_eq!(rt; cutter.line(), line, "at {piece:?}");
        assert_eq!(rt; cutter.rest(), rest, "at {piece:?}");
    }
    Ok(())
}

#[test]
fn whole_lines_are_read_where_they_stand(rt: HostRuntime) -> Result<(), Fail> {
    let mut cutter = Cutter::new(rt.alloc());
    assert_eq!(rt;
        cutter.whole_line(b"ab\r\ncd\n"),
        Some((b"ab".as_slice(), 4))
    );
    assert_eq!(rt; cutter.whole_line(b"\n"), Some((b"".as_slice(), 1)));
    assert_eq!(rt; cutter.whole_line(b"more than a few bytes"), None);
    let _fed = cutter.feed(b"ab")?;
    assert_eq!(rt; cutter.whole_line(b"cd\n"), None);
    for (line, blank) in [
        (b"".as_slice(), true),
        (b"#a", true),
        (b" #", false),
        (b"a", false),
    ] {
        assert_eq!(rt; is_blank_at_once(line), blank, "at {line:?}");
    }
    Ok(())
}
