//! Audits that are replayed, and brought to the second version.

use crate::case::{Case, RUN, texts};
use crate::inputs::{FOUR_APPLICANTS, FOUR_REPORT};
use house_io::{Files, MapShelf, PlainShelf, PlainSink, PlainSource};
use house_top::{Bad, Status, house, is_storing, read_only};
use std::process::Abort;
use std::test::Fail;

/// The audit of one line that is refused.
const SECOND: &[u8] = br#"{"format":"peer-house-audit","version":2}
{"aside":"none","digest":"a41de667c15557cbd8acdd71ef0fef5dc73561374baed8330f8adb0e1424cd62","line":1,"text":"hello"}
{"report":"refused 1 no-call\n"}
"#;

/// The same in the first version.
const FIRST: &[u8] = br#"{"format":"peer-house-audit","version":1}
{"aside":"none","digest":"a41de667c15557cbd8acdd71ef0fef5dc73561374baed8330f8adb0e1424cd62","hex":"68656c6c6f","line":1}
{"report":"refused 1 no-call\n"}
"#;

/// A replay of the file `x`, which holds the audit.
const REPLAY: Case<'static> = Case {
    words: &["replay", "x"],
    files: &[("x", SECOND)],
    ..RUN
};

/// The audit of the first version is brought to the second, under another name.
const MIGRATE: Case<'static> = Case {
    words: &["migrate", "x", "y"],
    files: &[("x", FIRST), ("z", FIRST)],
    text: "migrated lines 1\n",
    kept: &[("x", FIRST), ("y", SECOND), ("z", FIRST)],
    ..RUN
};

const REPLAYS: &[Case<'static>] = &[
    Case {
        name: "an audit, and an input that cannot be read",
        failing_takes: &[1],
        text: "same lines 1 refused\n",
        kept: &[("x", SECOND)],
        ..REPLAY
    },
    Case {
        name: "an audit of the first version",
        files: &[("x", FIRST)],
        text: "same lines 1 refused\n",
        kept: &[("x", FIRST)],
        ..REPLAY
    },
    Case {
        name: "an empty file",
        files: &[("x", b"")],
        status: Status::BadFile(Bad::Row(1)),
        text: "bad row 1\n",
        ..REPLAY
    },
    Case {
        name: "a third version",
        files: &[(
            "x",
            br#"{"format":"peer-house-audit","version":3}
{"aside":"none","digest":"a41de667c15557cbd8acdd71ef0fef5dc73561374baed8330f8adb0e1424cd62","line":1,"text":"hello"}
{"report":"refused 1 no-call\n"}
"#,
        )],
        status: Status::BadFile(Bad::Row(1)),
        text: "bad row 1\n",
        ..REPLAY
    },
    Case {
        name: "a version with a point",
        files: &[(
            "x",
            br#"{"format":"peer-house-audit","version":2.0}
{"aside":"none","digest":"a41de667c15557cbd8acdd71ef0fef5dc73561374baed8330f8adb0e1424cd62","line":1,"text":"hello"}
{"report":"refused 1 no-call\n"}
"#,
        )],
        status: Status::BadFile(Bad::Row(1)),
        text: "bad row 1\n",
        ..REPLAY
    },
    Case {
        name: "a row that is cut",
        files: &[(
            "x",
            br#"{"format":"peer-house-audit","version":2}
{"aside":"none","digest":"a41de667c15557"#,
        )],
        status: Status::BadFile(Bad::Row(2)),
        text: "bad row 2\n",
        ..REPLAY
    },
    Case {
        name: "no line feed behind the last row",
        files: &[(
            "x",
            br#"{"format":"peer-house-audit","version":2}
{"aside":"none","digest":"a41de667c15557cbd8acdd71ef0fef5dc73561374baed8330f8adb0e1424cd62","line":1,"text":"hello"}
{"report":"refused 1 no-call\n"}"#,
        )],
        status: Status::BadFile(Bad::Row(3)),
        text: "bad row 3\n",
        ..REPLAY
    },
    Case {
        name: "no report",
        files: &[(
            "x",
            br#"{"format":"peer-house-audit","version":2}
{"aside":"none","digest":"a41de667c15557cbd8acdd71ef0fef5dc73561374baed8330f8adb0e1424cd62","line":1,"text":"hello"}
"#,
        )],
        status: Status::BadFile(Bad::Row(3)),
        text: "bad row 3\n",
        ..REPLAY
    },
    Case {
        name: "two reports",
        files: &[(
            "x",
            br#"{"format":"peer-house-audit","version":2}
{"aside":"none","digest":"a41de667c15557cbd8acdd71ef0fef5dc73561374baed8330f8adb0e1424cd62","line":1,"text":"hello"}
{"report":"refused 1 no-call\n"}
{"report":"refused 1 no-call\n"}
"#,
        )],
        status: Status::BadFile(Bad::Row(4)),
        text: "bad row 4\n",
        ..REPLAY
    },
    Case {
        name: "a key more",
        files: &[(
            "x",
            br#"{"format":"peer-house-audit","version":2}
{"aside":"none","digest":"a41de667c15557cbd8acdd71ef0fef5dc73561374baed8330f8adb0e1424cd62","line":1,"text":"hello","what":1}
{"report":"refused 1 no-call\n"}
"#,
        )],
        status: Status::BadFile(Bad::Row(2)),
        text: "bad row 2\n",
        ..REPLAY
    },
    Case {
        name: "a key less",
        files: &[(
            "x",
            br#"{"format":"peer-house-audit","version":2}
{"digest":"a41de667c15557cbd8acdd71ef0fef5dc73561374baed8330f8adb0e1424cd62","line":1,"text":"hello"}
{"report":"refused 1 no-call\n"}
"#,
        )],
        status: Status::BadFile(Bad::Row(2)),
        text: "bad row 2\n",
        ..REPLAY
    },
    Case {
        name: "a line feed in a line",
        files: &[(
            "x",
            br#"{"format":"peer-house-audit","version":2}
{"aside":"none","digest":"a41de667c15557cbd8acdd71ef0fef5dc73561374baed8330f8adb0e1424cd62","line":1,"text":"hel\nlo"}
{"report":"refused 1 no-call\n"}
"#,
        )],
        status: Status::BadFile(Bad::Row(2)),
        text: "bad row 2\n",
        ..REPLAY
    },
    Case {
        name: "an odd number of digits",
        files: &[(
            "x",
            br#"{"format":"peer-house-audit","version":1}
{"aside":"none","digest":"a41de667c15557cbd8acdd71ef0fef5dc73561374baed8330f8adb0e1424cd62","hex":"68656c6c6","line":1}
{"report":"refused 1 no-call\n"}
"#,
        )],
        status: Status::BadFile(Bad::Row(2)),
        text: "bad row 2\n",
        ..REPLAY
    },
    Case {
        name: "a digest of 63 digits",
        files: &[(
            "x",
            br#"{"format":"peer-house-audit","version":2}
{"aside":"none","digest":"41de667c15557cbd8acdd71ef0fef5dc73561374baed8330f8adb0e1424cd62","line":1,"text":"hello"}
{"report":"refused 1 no-call\n"}
"#,
        )],
        status: Status::BadFile(Bad::Row(2)),
        text: "bad row 2\n",
        ..REPLAY
    },
    Case {
        name: "a space behind a comma",
        files: &[(
            "x",
            br#"{"format":"peer-house-audit","version":2}
{"aside":"none", "digest":"a41de667c15557cbd8acdd71ef0fef5dc73561374baed8330f8adb0e1424cd62","line":1,"text":"hello"}
{"report":"refused 1 no-call\n"}
"#,
        )],
        status: Status::Differs(2),
        text: r#"differs 2
kept {"aside":"none", "digest":"a41de667c15557cbd8acdd71ef0fef5dc73561374baed8330f8adb0e1424cd62","line":1,"text":"hello"}
right {"aside":"none","digest":"a41de667c15557cbd8acdd71ef0fef5dc73561374baed8330f8adb0e1424cd62","line":1,"text":"hello"}
"#,
        ..REPLAY
    },
    Case {
        name: "digits in capitals",
        files: &[(
            "x",
            br#"{"format":"peer-house-audit","version":2}
{"aside":"none","digest":"A41DE667C15557CBD8ACDD71EF0FEF5DC73561374BAED8330F8ADB0E1424CD62","line":1,"text":"hello"}
{"report":"refused 1 no-call\n"}
"#,
        )],
        status: Status::Differs(2),
        text: r#"differs 2
kept {"aside":"none","digest":"A41DE667C15557CBD8ACDD71EF0FEF5DC73561374BAED8330F8ADB0E1424CD62","line":1,"text":"hello"}
right {"aside":"none","digest":"a41de667c15557cbd8acdd71ef0fef5dc73561374baed8330f8adb0e1424cd62","line":1,"text":"hello"}
"#,
        ..REPLAY
    },
    Case {
        name: "a key twice",
        files: &[(
            "x",
            br#"{"format":"peer-house-audit","version":2}
{"aside":"none","aside":"none","digest":"a41de667c15557cbd8acdd71ef0fef5dc73561374baed8330f8adb0e1424cd62","line":1,"text":"hello"}
{"report":"refused 1 no-call\n"}
"#,
        )],
        status: Status::Differs(2),
        text: r#"differs 2
kept {"aside":"none","aside":"none","digest":"a41de667c15557cbd8acdd71ef0fef5dc73561374baed8330f8adb0e1424cd62","line":1,"text":"hello"}
right {"aside":"none","digest":"a41de667c15557cbd8acdd71ef0fef5dc73561374baed8330f8adb0e1424cd62","line":1,"text":"hello"}
"#,
        ..REPLAY
    },
    Case {
        name: "an escape that is not needed",
        files: &[(
            "x",
            br#"{"format":"peer-house-audit","version":2}
{"aside":"none","digest":"a41de667c15557cbd8acdd71ef0fef5dc73561374baed8330f8adb0e1424cd62","line":1,"text":"\u0068ello"}
{"report":"refused 1 no-call\n"}
"#,
        )],
        status: Status::Differs(2),
        text: r#"differs 2
kept {"aside":"none","digest":"a41de667c15557cbd8acdd71ef0fef5dc73561374baed8330f8adb0e1424cd62","line":1,"text":"\u0068ello"}
right {"aside":"none","digest":"a41de667c15557cbd8acdd71ef0fef5dc73561374baed8330f8adb0e1424cd62","line":1,"text":"hello"}
"#,
        ..REPLAY
    },
    Case {
        name: "another line number",
        files: &[(
            "x",
            br#"{"format":"peer-house-audit","version":2}
{"aside":"none","digest":"a41de667c15557cbd8acdd71ef0fef5dc73561374baed8330f8adb0e1424cd62","line":2,"text":"hello"}
{"report":"refused 1 no-call\n"}
"#,
        )],
        status: Status::Differs(2),
        text: r#"differs 2
kept {"aside":"none","digest":"a41de667c15557cbd8acdd71ef0fef5dc73561374baed8330f8adb0e1424cd62","line":2,"text":"hello"}
right {"aside":"none","digest":"a41de667c15557cbd8acdd71ef0fef5dc73561374baed8330f8adb0e1424cd62","line":1,"text":"hello"}
"#,
        ..REPLAY
    },
    Case {
        name: "another mark",
        files: &[(
            "x",
            br#"{"format":"peer-house-audit","version":2}
{"aside":"late","digest":"a41de667c15557cbd8acdd71ef0fef5dc73561374baed8330f8adb0e1424cd62","line":1,"text":"hello"}
{"report":"refused 1 no-call\n"}
"#,
        )],
        status: Status::Differs(2),
        text: r#"differs 2
kept {"aside":"late","digest":"a41de667c15557cbd8acdd71ef0fef5dc73561374baed8330f8adb0e1424cd62","line":1,"text":"hello"}
right {"aside":"none","digest":"a41de667c15557cbd8acdd71ef0fef5dc73561374baed8330f8adb0e1424cd62","line":1,"text":"hello"}
"#,
        ..REPLAY
    },
    Case {
        name: "another report",
        files: &[(
            "x",
            br#"{"format":"peer-house-audit","version":2}
{"aside":"none","digest":"a41de667c15557cbd8acdd71ef0fef5dc73561374baed8330f8adb0e1424cd62","line":1,"text":"hello"}
{"report":"refused 2 no-call\n"}
"#,
        )],
        status: Status::Differs(3),
        text: r#"differs 3
kept {"report":"refused 2 no-call\n"}
right {"report":"refused 1 no-call\n"}
"#,
        ..REPLAY
    },
    Case {
        name: "an absent audit",
        files: &[],
        status: Status::ReadFault,
        ..REPLAY
    },
    Case {
        name: "an audit that cannot be loaded",
        failing_files: &[1],
        status: Status::ReadFault,
        ..REPLAY
    },
    Case {
        name: "an output that takes nothing",
        failing_gives: &[1],
        status: Status::WriteFault,
        ..REPLAY
    },
    Case {
        name: "no file",
        words: &["replay"],
        status: Status::Usage,
        ..REPLAY
    },
    Case {
        name: "an empty name",
        words: &["replay", ""],
        status: Status::Usage,
        ..REPLAY
    },
    Case {
        name: "two files",
        words: &["replay", "x", "x"],
        status: Status::Usage,
        ..REPLAY
    },
];

/// Migrations that are done.
const MOVED: &[Case<'static>] = &[
    Case {
        name: "the first version",
        ..MIGRATE
    },
    Case {
        name: "the second version, and an input that cannot be read",
        files: &[("x", SECOND)],
        failing_takes: &[1],
        kept: &[("x", SECOND), ("y", SECOND)],
        ..MIGRATE
    },
    Case {
        name: "onto itself",
        words: &["migrate", "x", "x"],
        kept: &[("x", SECOND), ("z", FIRST)],
        ..MIGRATE
    },
    Case {
        name: "over another file",
        words: &["migrate", "x", "z"],
        kept: &[("x", FIRST), ("z", SECOND)],
        ..MIGRATE
    },
];

/// Migrations of what is no audit.
const REFUSED: &[Case<'static>] = &[
    Case {
        name: "an audit that is cut",
        files: &[("x", b"{}")],
        status: Status::BadFile(Bad::Row(1)),
        text: "bad row 1\n",
        kept: &[("x", b"{}")],
        absent: &["y"],
        ..MIGRATE
    },
    Case {
        name: "an audit that is changed",
        files: &[("x", CHANGED)],
        status: Status::Differs(2),
        text: CHANGED_TEXT,
        kept: &[("x", CHANGED)],
        absent: &["y"],
        ..MIGRATE
    },
    Case {
        name: "an absent audit",
        files: &[],
        status: Status::ReadFault,
        text: "",
        kept: &[],
        absent: &["y"],
        ..MIGRATE
    },
];

/// Migrations that fail, and words that are none.
const FAILED: &[Case<'static>] = &[
    Case {
        name: "an audit that cannot be loaded",
        failing_files: &[1],
        status: Status::ReadFault,
        text: "",
        kept: &[("x", FIRST), ("z", FIRST)],
        absent: &["y"],
        ..MIGRATE
    },
    Case {
        name: "an audit that cannot be stored",
        failing_files: &[2],
        status: Status::WriteFault,
        kept: &[("x", FIRST), ("z", FIRST)],
        ..MIGRATE
    },
    Case {
        name: "a text that cannot be given",
        failing_gives: &[1],
        status: Status::WriteFault,
        text: "",
        kept: &[("x", FIRST), ("z", FIRST)],
        absent: &["y"],
        ..MIGRATE
    },
    Case {
        name: "no second file",
        words: &["migrate", "x"],
        status: Status::Usage,
        text: "",
        kept: &[("x", FIRST), ("z", FIRST)],
        ..MIGRATE
    },
    Case {
        name: "an empty second name",
        words: &["migrate", "x", ""],
        status: Status::Usage,
        text: "",
        kept: &[("x", FIRST), ("z", FIRST)],
        ..MIGRATE
    },
    Case {
        name: "three files",
        words: &["migrate", "x", "y", "z"],
        status: Status::Usage,
        text: "",
        kept: &[("x", FIRST), ("z", FIRST)],
        absent: &["y"],
        ..MIGRATE
    },
];

/// The audit of the first version with another line in it.
const CHANGED: &[u8] = br#"{"format":"peer-house-audit","version":1}
{"aside":"none","digest":"a41de667c15557cbd8acdd71ef0fef5dc73561374baed8330f8adb0e1424cd62","hex":"68656c6c6e","line":1}
{"report":"refused 1 no-call\n"}
"#;

/// What is said of it: the digest is not that of this line.
const CHANGED_TEXT: &str = r#"differs 2
kept {"aside":"none","digest":"a41de667c15557cbd8acdd71ef0fef5dc73561374baed8330f8adb0e1424cd62","hex":"68656c6c6e","line":1}
right {"aside":"none","digest":"0199dd43f01e1320d3357700c662f28ed32c5ebc7a9ddce984d67e1b37259a36","hex":"68656c6c6e","line":1}
"#;

#[test]
fn replay_audits(rt: HostRuntime) -> Result<(), Fail> {
    for case in REPLAYS {
        case.check(&rt)?;
    }
    Ok(())
}

#[test]
fn migrate_audits(rt: HostRuntime) -> Result<(), Fail> {
    for cases in [MOVED, REFUSED, FAILED] {
        for case in cases {
            case.check(&rt)?;
        }
    }
    Ok(())
}

/// How the replay of these bytes ends, over files that take none.
fn status_of<R: Abort + AllocGlobal>(rt: &R, audit: &[u8]) -> Result<Status, Fail> {
    let alloc = rt.alloc();
    let words = vec![in alloc; "replay".to_string(alloc)?, "x".to_string(alloc)?]?;
    let mut input = PlainSource::new(Vec::new(alloc));
    let mut output = PlainSink::with_room(alloc, 0)?;
    let mut files = PlainShelf::new(alloc);
    files.put(alloc, "x", audit.to_vec(alloc)?)?;
    assert!(rt; !is_storing(&words));
    Ok(read_only(alloc, &words, &mut input, &mut output, &mut files))
}

/// Asserts that a changed audit is off the form, or differs.
fn assert_found<R: Abort + AllocGlobal>(rt: &R, audit: &[u8], at: usize) -> Result<(), Fail> {
    let status = status_of(rt, audit)?;
    let found = matches!(status, Status::Differs(_) | Status::BadFile(Bad::Row(_)));
    assert!(rt; found, "a change at byte {at}: {status:?}");
    Ok(())
}

/// Each byte of an audit is replaced in turn, by a digit and by a quote.
fn replace_bytes<R: Abort + AllocGlobal>(rt: &R, audit: &[u8]) -> Result<(), Fail> {
    for at in 0..audit.len() {
        for byte in b"7\"" {
            if *byte == audit[at] {
                continue;
            }
            let mut changed = audit.to_vec(rt.alloc())?;
            changed[at] = *byte;
            assert_found(rt, &changed, at)?;
        }
    }
    Ok(())
}

/// Each byte of an audit is taken out in turn.
fn take_bytes_out<R: Abort + AllocGlobal>(rt: &R, audit: &[u8]) -> Result<(), Fail> {
    for at in 0..audit.len() {
        let mut changed = audit.to_vec(rt.alloc())?;
        changed.remove(at);
        assert_found(rt, &changed, at)?;
    }
    Ok(())
}

#[test]
fn find_a_replaced_byte(rt: HostRuntime) -> Result<(), Fail> {
    replace_bytes(&rt, SECOND)
}

#[test]
fn find_a_replaced_byte_in_the_first_version(rt: HostRuntime) -> Result<(), Fail> {
    replace_bytes(&rt, FIRST)
}

#[test]
fn find_a_missing_byte(rt: HostRuntime) -> Result<(), Fail> {
    take_bytes_out(&rt, SECOND)
}

#[test]
fn find_a_missing_byte_in_the_first_version(rt: HostRuntime) -> Result<(), Fail> {
    take_bytes_out(&rt, FIRST)
}

/// The four-applicants call is audited, and its audit replayed and brought to the version that it has.
#[test]
fn replay_what_was_stored(rt: HostRuntime) -> Result<(), Fail> {
    let alloc = rt.alloc();
    let mut shelf = MapShelf::new(Vec::new(alloc));
    let mut input = PlainSource::new(FOUR_APPLICANTS.to_vec(alloc)?);
    for (words, text) in [
        (["audit", "x", ""], FOUR_REPORT),
        (["replay", "x", ""], "same lines 17 done\n"),
        (["migrate", "x", "y"], "migrated lines 17\n"),
        (["replay", "y", ""], "same lines 17 done\n"),
    ] {
        let count = if words[2].is_empty() { 2 } else { 3 };
        let words = texts(alloc, &words[..count])?;
        let mut output = PlainSink::with_room(alloc, FOUR_REPORT.len())?;
        let status = house(alloc, &words, &mut input, &mut output, &mut shelf);
        assert_eq!(rt; status, Status::Done);
        assert_eq!(rt; str::from_utf8(output.given())?, text);
    }
    let audit = shelf.load(alloc, "x", 65_536)?;
    let migrated = shelf.load(alloc, "y", 65_536)?;
    assert_eq!(rt; audit.as_slice(), migrated.as_slice());
    Ok(())
}
