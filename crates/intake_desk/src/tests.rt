//! Calls of the program over things in memory, case by case.

use super::*;
use disk_io::Disk;
use house_io::{TextSink, TextSource};
use std::alloc::Global;
use std::test::Fail;

/// How many bytes a call of the input or of the output passes at most: a line `assign`, or one `kept N`.
const PIECE: usize = 7;

/// What a call is given beside its words: an input, a file, and the numbers of the calls that fail.
#[derive(Clone, Copy)]
struct Given<'a> {
    input: &'a [u8],
    file: &'a [u8],
    takes: &'a [u64],
    gives: &'a [u64],
    calls: &'a [u64],
}

// Nothing fails.
fn no_fault<'a>(input: &'a [u8], file: &'a [u8]) -> Given<'a> {
    Given {
        input,
        file,
        takes: &[],
        gives: &[],
        calls: &[],
    }
}

// What a call has come to: its status, what it gave, and the disk.
#[derive(Drop)]
struct Came {
    status: DeskStatus,
    given: Vec<u8>,
    disk: MemoryDisk,
}

fn run(alloc: Global, word: &str, given: &Given<'_>) -> Result<Came, Fail> {
    let disk = MemoryDisk::new(given.file.to_vec(alloc)?, given.calls.to_vec(alloc)?);
    run_on(alloc, word, given, disk)
}

fn run_on(alloc: Global, word: &str, given: &Given<'_>, disk: MemoryDisk) -> Result<Came, Fail> {
    let mut input = TextSource::new(
        given.input.to_vec(alloc)?,
        PIECE,
        given.takes.to_vec(alloc)?,
    );
    let mut output = TextSink::new(alloc, 100, PIECE, given.gives.to_vec(alloc)?)?;
    let words = vec![in alloc; String::from_str(alloc, word)?]?;
    let Desked { status, disk } = desk(alloc, &words, &mut input, &mut output, disk);
    Ok(Came {
        status,
        given: output.given().to_vec(alloc)?,
        disk,
    })
}

const TWO: &[u8] = b"\x01\0\0\0\x06assign\x01\0\0\0\x05close\0";

#[test]
fn lines_are_kept_and_shown(rt: HostRuntime) -> Result<(), Fail> {
    let alloc = rt.alloc();
    let cases: [(&str, &[u8], &[u8], DeskStatus, &[u8], &[u8]); 12] = [
        (
            "intake",
            b"assign\nclose\n",
            b"",
            DeskStatus::Done,
            b"kept 1\nkept 2\n",
            TWO,
        ),
        (
            "intake",
            b"assign\r\nclose",
            b"\x07",
            DeskStatus::Done,
            b"kept 1\nkept 2\n",
            TWO,
        ),
        ("intake", b"", b"", DeskStatus::Done, b"", b"\0"),
        (
            "intake",
            b"\n",
            b"",
            DeskStatus::Done,
            b"kept 1\n",
            b"\x01\0\0\0\0\0",
        ),
        (
            "intake",
            b"close\n",
            b"\x01\0\0\0\x06assign\0abc",
            DeskStatus::Done,
            b"kept 2\n",
            TWO,
        ),
        (
            "show",
            b"close\n",
            TWO,
            DeskStatus::Done,
            b"assign\nclose\n",
            TWO,
        ),
        ("show", b"", b"", DeskStatus::Done, b"", b"\0"),
        (
            "show",
            b"",
            b"\x01\0",
            DeskStatus::BadJournal(0),
            b"",
            b"\x01\0",
        ),
        (
            "intake",
            b"a",
            b"\x01\0",
            DeskStatus::BadJournal(0),
            b"",
            b"\x01\0",
        ),
        (
            "intakes",
            b"a",
            b"\x01\0",
            DeskStatus::Usage,
            b"",
            b"\x01\0",
        ),
        ("", b"a", b"", DeskStatus::Usage, b"", b""),
        ("Show", b"a", b"", DeskStatus::Usage, b"", b""),
    ];
    for (word, input, file, status, text, after) in cases {
        let came = run(alloc, word, &no_fault(input, file))?;
        assert_eq!(rt; came.status, status, "{word} of {input:?} on {file:?}");
        assert_eq!(rt;
            came.given.as_slice(),
            text,
            "{word} of {input:?} on {file:?}"
        );
        let mut disk = came.disk;
        let mut buf = [0; 64];
        let count = disk.read(0, &mut buf)?;
        assert_eq!(rt; &buf[..count], after, "{word} of {input:?} on {file:?}");
    }
    Ok(())
}

// The lines and what is told of them, in front of which a call has to stop.
const TWO_LINES: &[u8] = b"assign\nclose\n";

const TWO_TOLD: &[u8] = b"kept 1\nkept 2\n";

// How many whole lines a text has.
fn count_feeds(text: &[u8]) -> usize {
    text.iter().filter(|byte| **byte == b'\n').count()
}

// What `show` prints of a disk that may fail once more.
fn shown_again(alloc: Global, disk: MemoryDisk) -> Result<Vec<u8>, Fail> {
    let Came {
        status,
        given,
        disk,
    } = run_on(alloc, "show", &no_fault(b"", b""), disk)?;
    if status == DeskStatus::Done {
        return Ok(given);
    }
    let Came { given, .. } = run_on(alloc, "show", &no_fault(b"", b""), disk)?;
    Ok(given)
}

#[test]
fn each_failing_call_of_the_disk_is_told(rt: HostRuntime) -> Result<(), Fail> {
    let alloc = rt.alloc();
    // A start on an empty disk has six calls, and each put four. One call fails, or two in a row.
    for call in 1..=14 {
        for count in 1..=2 {
            let calls = [call, call + 1];
            let failing = Given {
                calls: &calls[..count],
                ..no_fault(TWO_LINES, b"")
            };
            let Came {
                status,
                given,
                disk,
            } = run(alloc, "intake", &failing)?;
            assert_eq!(rt; status, DeskStatus::DiskFault, "at {call}");
            assert!(rt; TWO_TOLD.starts_with(given.as_slice()), "at {call}");
            let shown = shown_again(alloc, disk)?;
            assert!(rt; TWO_LINES.starts_with(shown.as_slice()), "behind {call}");
            assert!(rt; count_feeds(&shown) >= count_feeds(&given), "behind {call}");
        }
    }
    Ok(())
}

#[test]
fn each_failing_take_and_give_is_told(rt: HostRuntime) -> Result<(), Fail> {
    let alloc = rt.alloc();
    let cases: [(&[u64], &[u64], DeskStatus, &[u8], &[u8]); 7] = [
        (&[1], &[], DeskStatus::ReadFault, b"", b""),
        (&[2], &[], DeskStatus::ReadFault, b"kept 1\n", b"assign\n"),
        (&[3], &[], DeskStatus::ReadFault, TWO_TOLD, TWO_LINES),
        (&[4], &[], DeskStatus::Done, TWO_TOLD, TWO_LINES),
        (&[], &[1], DeskStatus::WriteFault, b"", b"assign\n"),
        (&[], &[2], DeskStatus::WriteFault, b"kept 1\n", TWO_LINES),
        (&[], &[3], DeskStatus::Done, TWO_TOLD, TWO_LINES),
    ];
    for (takes, gives, status, text, kept) in cases {
        let failing = Given {
            takes,
            gives,
            ..no_fault(TWO_LINES, b"")
        };
        let came = run(alloc, "intake", &failing)?;
        assert_eq!(rt; came.status, status, "takes {takes:?}, gives {gives:?}");
        assert_eq!(rt;
            came.given.as_slice(),
            text,
            "takes {takes:?}, gives {gives:?}"
        );
        let again = run_on(alloc, "show", &no_fault(b"", b""), came.disk)?;
        assert_eq!(rt;
            again.given.as_slice(),
            kept,
            "takes {takes:?}, gives {gives:?}"
        );
    }
    let failing = Given {
        gives: &[2],
        ..no_fault(b"", TWO)
    };
    let came = run(alloc, "show", &failing)?;
    assert_eq!(rt; came.status, DeskStatus::WriteFault);
    assert_eq!(rt; came.given.as_slice(), b"assign\n".as_slice());
    Ok(())
}

#[test]
fn long_lines_are_told(rt: HostRuntime) -> Result<(), Fail> {
    let alloc = rt.alloc();
    // How many bytes of a line, and what stands behind it; what is told, and how much of the input is left.
    let cases: [(usize, &[u8], DeskStatus); 7] = [
        (4_096, b"", DeskStatus::Done),
        (4_096, b"\n", DeskStatus::Done),
        (4_096, b"\r\nclose", DeskStatus::Done),
        (4_096, b"\r", DeskStatus::Done),
        (4_097, b"\n", DeskStatus::Long(1)),
        (4_097, b"", DeskStatus::Long(1)),
        (5_000, b"", DeskStatus::Long(1)),
    ];
    for (size, behind, status) in cases {
        let mut text = vec![in alloc; b'a'; size]?;
        text.extend_from_slice(behind)?;
        let came = run(alloc, "intake", &no_fault(&text, b""))?;
        assert_eq!(rt; came.status, status, "{size} bytes and {behind:?}");
    }
    Ok(())
}
