//! Journals that are started, case by case.

use super::*;
use std::alloc::Global;
use std::test::Fail;

// Starts on a file in memory, and gives the lines behind one another with a line feed each, and the disk.
fn start_on(
    alloc: Global,
    disk: MemoryDisk,
) -> Result<(Result<Vec<u8>, StartFault>, MemoryDisk), Fail> {
    match Log::start(alloc, disk) {
        Ok(log) => {
            let mut text = Vec::new(alloc);
            for index in 0..log.lines().count() {
                text.extend_from_slice(log.lines().line(index))?;
                text.push(b'\n')?;
            }
            Ok((Ok(text), log.into_disk()))
        }
        Err(stopped) => Ok((Err(stopped.cause), stopped.disk)),
    }
}

#[test]
fn a_start_finds_what_the_file_stands_for(rt: HostRuntime) -> Result<(), Fail> {
    let alloc = rt.alloc();
    let cases: [(&[u8], Result<&[u8], StartFault>); 14] = [
        (b"", Ok(b"")),
        (b"\x07", Ok(b"")),
        (b"\0", Ok(b"")),
        (b"\0\x01\0\0\0\x01a\0", Ok(b"")),
        (
            b"\x01\0\0\0\x06assign\x01\0\0\0\x05close\0",
            Ok(b"assign\nclose\n"),
        ),
        (b"\x02\0\0\0\x01a\xff\0\0\0\0\0\x01b", Ok(b"a\n\n")),
        (b"\x01\0", Err(StartFault::BadJournal(0))),
        (b"\x01\0\0\0\x02a\0", Err(StartFault::BadJournal(7))),
        (b"\x01\0\0\0\x01a", Err(StartFault::BadJournal(6))),
        (b"\x01\0\0\0\x01a\x01\0\0\0", Err(StartFault::BadJournal(6))),
        (
            b"\x01\0\0\0\x01a\x01\0\0\0\x01",
            Err(StartFault::BadJournal(6)),
        ),
        (b"\x01\0\0\0\x01\n\0", Err(StartFault::BadJournal(0))),
        (b"\x01\0\0\x10\x01a\0", Err(StartFault::BadJournal(0))),
        (b"\x01\x01\0\0\0a\0", Err(StartFault::BadJournal(0))),
    ];
    for (bytes, found) in cases {
        let disk = MemoryDisk::new(bytes.to_vec(alloc)?, Vec::new(alloc));
        let (answer, mut disk) = start_on(alloc, disk)?;
        assert_eq!(rt;
            answer.as_ref().map(|text| text.as_slice()),
            found.as_ref().copied(),
            "at {bytes:?}"
        );
        let mut now = [0; 32];
        let count = disk.read(0, &mut now)?;
        let due = if bytes.len() <= 1 {
            b"\0".as_slice()
        } else {
            bytes
        };
        assert_eq!(rt; &now[..count], due, "at {bytes:?}");
    }
    Ok(())
}

#[test]
fn each_failing_call_of_a_start_is_told(rt: HostRuntime) -> Result<(), Fail> {
    let alloc = rt.alloc();
    for call in 1..=6 {
        let disk = MemoryDisk::new(Vec::new(alloc), [call].to_vec(alloc)?);
        let (answer, disk) = start_on(alloc, disk)?;
        assert_eq!(rt; answer.err(), Some(StartFault::Failed), "at {call}");
        let (again, _) = start_on(alloc, disk)?;
        assert!(rt; again.is_ok(), "behind {call}");
    }
    Ok(())
}

// The last byte of the length of a short line.
fn length(line: &[u8]) -> Result<u8, Fail> {
    Ok(u8::try_from(line.len()).ok().ok_or("a longer line")?)
}

// The bytes of the journal of some lines.
fn journal_of(alloc: Global, lines: &[&[u8]]) -> Result<Vec<u8>, Fail> {
    let mut bytes = Vec::new(alloc);
    for line in lines {
        bytes.extend_from_slice(&[1, 0, 0, 0])?;
        bytes.push(length(line)?)?;
        bytes.extend_from_slice(line)?;
    }
    bytes.push(0)?;
    Ok(bytes)
}

// Lines behind one another with a line feed each.
fn text_of(alloc: Global, lines: &[&[u8]]) -> Result<Vec<u8>, Fail> {
    let mut text = Vec::new(alloc);
    for line in lines {
        text.extend_from_slice(line)?;
        text.push(b'\n')?;
    }
    Ok(text)
}

// A journal with a part of an entry behind it, of which each byte is the new one, or torn to one of three others by a digit
// of the choice.
fn torn(alloc: Global, journal: &[u8], part: &[u8], choice: u32) -> Result<Vec<u8>, Fail> {
    let mut image = journal.to_vec(alloc)?;
    let mut digits = choice;
    for byte in part {
        image.push(match digits % 4 {
            0 => *byte,
            1 => 0,
            2 => 1,
            _ => 10,
        })?;
        digits /= 4;
    }
    Ok(image)
}

// Whether a start on an image gives one of two texts.
fn gives(alloc: Global, image: Vec<u8>, before: &[u8], after: &[u8]) -> Result<bool, Fail> {
    let (answer, _) = start_on(alloc, MemoryDisk::new(image, Vec::new(alloc)))?;
    Ok(match answer {
        Ok(text) => text.as_slice() == before || text.as_slice() == after,
        Err(_) => false,
    })
}

// Whether a start on each image that a crash may leave while an entry is written behind a journal gives the lines from
// before: the file ends anywhere, and each byte is there or torn.
fn entries_are_kept_out(alloc: Global, lines: &[&[u8]], line: &[u8]) -> Result<bool, Fail> {
    let journal = journal_of(alloc, lines)?;
    let before = text_of(alloc, lines)?;
    let mut entry = [0, 0, 0, length(line)?].to_vec(alloc)?;
    entry.extend_from_slice(line)?;
    entry.push(0)?;
    for (end, choices) in [1, 4, 16, 64, 256, 1_024, 4_096].into_iter().enumerate() {
        let Some(part) = entry.get(..end) else {
            break;
        };
        for choice in 0..choices {
            if !gives(
                alloc,
                torn(alloc, &journal, part, choice)?,
                &before,
                &before,
            )? {
                return Ok(false);
            }
        }
    }
    Ok(true)
}

// Whether a start on each image that a crash may leave while the gate of an entry is opened gives the lines from before, or
// those with the new one: the gate is the old byte, the new one, or torn.
fn gates_open_at_once(alloc: Global, lines: &[&[u8]], line: &[u8]) -> Result<bool, Fail> {
    let before = text_of(alloc, lines)?;
    let mut after = text_of(alloc, lines)?;
    after.extend_from_slice(line)?;
    after.push(b'\n')?;
    for gate in [0, 1, 10] {
        let mut image = journal_of(alloc, lines)?;
        image.pop();
        image.extend_from_slice(&[gate, 0, 0, 0, length(line)?])?;
        image.extend_from_slice(line)?;
        image.push(0)?;
        if !gives(alloc, image, &before, &after)? {
            return Ok(false);
        }
    }
    Ok(true)
}

#[test]
fn each_image_of_a_put_stands_for_the_lines(rt: HostRuntime) -> Result<(), Fail> {
    let alloc = rt.alloc();
    let journals: [&[&[u8]]; 7] = [
        &[],
        &[b""],
        &[b"a"],
        &[b"", b""],
        &[b"", b"a"],
        &[b"a", b""],
        &[b"a", b"a"],
    ];
    for lines in journals {
        for line in [b"".as_slice(), b"a".as_slice()] {
            assert!(rt;
                entries_are_kept_out(alloc, lines, line)?,
                "{line:?} behind {lines:?}"
            );
            assert!(rt;
                gates_open_at_once(alloc, lines, line)?,
                "{line:?} behind {lines:?}"
            );
        }
    }
    Ok(())
}
