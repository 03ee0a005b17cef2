//! Calls from memory to memory, over a source and a sink that never fail.

use crate::case::texts;
use crate::inputs::{FOUR_APPLICANTS, FOUR_REPORT};
use house_io::{MapShelf, PlainSink, PlainSource};
use house_top::{Status, house};
use std::alloc::Global;
use std::test::Fail;

/// The four applicants' run into a room for so many bytes, and how it ended.
fn run_into(alloc: Global, room: usize) -> Result<(Status, PlainSink), Fail> {
    let words = texts(alloc, &["run"])?;
    let mut input = PlainSource::new(FOUR_APPLICANTS.to_vec(alloc)?);
    let mut output = PlainSink::with_room(alloc, room)?;
    let mut shelf = MapShelf::new(Vec::new(alloc));
    let status = house(alloc, &words, &mut input, &mut output, &mut shelf);
    Ok((status, output))
}

#[test]
fn report_whole_into_their_room(rt: HostRuntime) -> Result<(), Fail> {
    let (status, output) = run_into(rt.alloc(), FOUR_REPORT.len())?;
    assert_eq!(rt; status, Status::Done);
    assert_eq!(rt; str::from_utf8(output.given())?, FOUR_REPORT);
    Ok(())
}

#[test]
fn report_all_the_same_where_there_is_no_room(rt: HostRuntime) -> Result<(), Fail> {
    let (status, output) = run_into(rt.alloc(), 0)?;
    assert_eq!(rt; status, Status::Done);
    assert_eq!(rt; output.given(), b"".as_slice());
    Ok(())
}
