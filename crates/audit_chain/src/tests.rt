//! Worked audits, and each call that may find no memory with ample memory.

use crate::{RowFault, audit_text, audit1_text, read_rows, row_version};
use command_text::cut;
use house_base::{Kind, Took};
use std::alloc::Global;
use std::test::Fail;

const LINES: &[u8] =
    b"call 2 2 1\n\n# \"quoted\" \\ / ~\n# caf\xc3\xa9\n#\ttab\n#\r\r\n\x7f \x1f\n";

const MARKS: [Took; 7] = [
    Took::Kept,
    Took::Aside(Kind::Form),
    Took::Aside(Kind::Early),
    Took::Aside(Kind::Late),
    Took::Aside(Kind::Unknown),
    Took::Aside(Kind::Unassigned),
    Took::Aside(Kind::Range),
];

const TEXT: &[u8] = b"refused 2 \"\\\"\n";

/// The audits of these lines, made by other programs.
const FIRST: &str = "{\"format\":\"peer-house-audit\",\"version\":1}\n\
    {\"aside\":\"none\",\"digest\":\"285b693aa1296866ec7f1d190119fa6fc69439fb374abea2ba1bb35f41f36d38\",\
    \"hex\":\"63616c6c203220322031\",\"line\":1}\n\
    {\"aside\":\"form\",\"digest\":\"762c08c00064ee5ae89b6824594e83a0ebcdee87901b3934f388ead8a7d398ce\",\
    \"hex\":\"\",\"line\":2}\n\
    {\"aside\":\"early\",\"digest\":\"d37b255a042bc54538ab6ff117230cce52146e9414f548b66bc2deba1c973c9b\",\
    \"hex\":\"23202271756f74656422205c202f207e\",\"line\":3}\n\
    {\"aside\":\"late\",\"digest\":\"78b69b9d804a7ddaaa30f20d6b205ddfcac9723fd4cde691a59dcbe2d63ced9b\",\
    \"hex\":\"2320636166c3a9\",\"line\":4}\n\
    {\"aside\":\"unknown\",\"digest\":\"b8a69624d7c421e42fe9e2c50d1495a29af6411d2e5cd6a21e15ddc9cbe28f43\",\
    \"hex\":\"2309746162\",\"line\":5}\n\
    {\"aside\":\"unassigned\",\"digest\":\"1c9031958f5dcf2d24bd1a2853a632bf2b639749e6c4b59b17c75cfc4cada03a\",\
    \"hex\":\"230d\",\"line\":6}\n\
    {\"aside\":\"range\",\"digest\":\"db9b64bc16466444650d62a8a8ad7c3c6c966d72bf7a7ea54c3c9c9eabde4591\",\
    \"hex\":\"7f201f\",\"line\":7}\n\
    {\"report\":\"refused 2 \\\"\\\\\\\"\\n\"}\n";

const SECOND: &str = "{\"format\":\"peer-house-audit\",\"version\":2}\n\
    {\"aside\":\"none\",\"digest\":\"285b693aa1296866ec7f1d190119fa6fc69439fb374abea2ba1bb35f41f36d38\",\
    \"line\":1,\"text\":\"call 2 2 1\"}\n\
    {\"aside\":\"form\",\"digest\":\"762c08c00064ee5ae89b6824594e83a0ebcdee87901b3934f388ead8a7d398ce\",\
    \"line\":2,\"text\":\"\"}\n\
    {\"aside\":\"early\",\"digest\":\"d37b255a042bc54538ab6ff117230cce52146e9414f548b66bc2deba1c973c9b\",\
    \"line\":3,\"text\":\"# \\\"quoted\\\" \\\\ / ~\"}\n\
    {\"aside\":\"late\",\"digest\":\"78b69b9d804a7ddaaa30f20d6b205ddfcac9723fd4cde691a59dcbe2d63ced9b\",\
    \"hex\":\"2320636166c3a9\",\"line\":4}\n\
    {\"aside\":\"unknown\",\"digest\":\"b8a69624d7c421e42fe9e2c50d1495a29af6411d2e5cd6a21e15ddc9cbe28f43\",\
    \"hex\":\"2309746162\",\"line\":5}\n\
    {\"aside\":\"unassigned\",\"digest\":\"1c9031958f5dcf2d24bd1a2853a632bf2b639749e6c4b59b17c75cfc4cada03a\",\
    \"hex\":\"230d\",\"line\":6}\n\
    {\"aside\":\"range\",\"digest\":\"db9b64bc16466444650d62a8a8ad7c3c6c966d72bf7a7ea54c3c9c9eabde4591\",\
    \"hex\":\"7f201f\",\"line\":7}\n\
    {\"report\":\"refused 2 \\\"\\\\\\\"\\n\"}\n";

/// Files of the form, and how many lines they hold. For `@` stands a digest.
const WHOLE: [(&str, u64); 8] = [
    (
        "{\"format\":\"peer-house-audit\",\"version\":1}\n{\"report\":\"\"}\n",
        0,
    ),
    (
        "{\"format\":\"peer-house-audit\",\"version\":2}\n{\"report\":\"\"}\n",
        0,
    ),
    (
        "{\"version\": 1,\"format\":\"peer\\u002dhouse-audit\"} \n{\"report\":\"\"}\n",
        0,
    ),
    (
        "{\"format\":\"peer-house-audit\",\"version\":1}\n\
         {\"aside\":\"none\",\"digest\":\"@\",\"hex\":\"6A6b\",\"line\":0}\n\
         {\"report\":\"\"}\n",
        1,
    ),
    (
        "{\"format\":\"peer-house-audit\",\"version\":1}\n\
         {\"aside\":\"range\",\"digest\":\"@\",\"hex\":\"\",\"line\":18446744073709551615}\n\
         {\"report\":\"\"}\n",
        1,
    ),
    (
        "{\"format\":\"peer-house-audit\",\"version\":1}\n\
         {\"aside\":\"none\",\"digest\":\"@\",\"hex\":\"6\",\"hex\":\"61\",\"line\":1}\n\
         {\"report\":\"\"}\n",
        1,
    ),
    (
        "{\"format\":\"peer-house-audit\",\"version\":2}\n\
         {\"aside\":\"none\",\"digest\":\"@\",\"hex\":\"61\",\"line\":1}\n\
         {\"aside\":\"none\",\"digest\":\"@\",\"line\":7,\"text\":\"caf\\u00e9\"}\n\
         {\"report\":\"\"}\n",
        2,
    ),
    (
        "{\"format\":\"peer-house-audit\",\"version\":2}\n\
         {\"aside\":\"none\",\"digest\":\"@\",\"line\":1,\"text\":\"a\\r\"}\n\
         {\"report\":\"\"}\r\n",
        1,
    ),
];

/// Files that are not of the form, and the first row that is not.
const BROKEN: [(&str, u64); 28] = [
    ("", 1),
    ("\n", 1),
    (
        "{\"format\":\"peer-house-audit\",\"version\":1}\n{\"report\":\"\"}",
        2,
    ),
    ("{\"format\":\"peer-house-audit\",\"version\":1}\n", 2),
    ("[]\n{\"report\":\"\"}\n", 1),
    (
        "{\"format\":\"peer-house-audit\",\"version\":3}\n{\"report\":\"\"}\n",
        1,
    ),
    (
        "{\"format\":\"peer-house-audit\",\"version\":1.0}\n{\"report\":\"\"}\n",
        1,
    ),
    (
        "{\"format\":\"peer-house-audi\",\"version\":1}\n{\"report\":\"\"}\n",
        1,
    ),
    (
        "{\"format\":\"peer-house-audit\",\"version\":1,\"x\":0}\n{\"report\":\"\"}\n",
        1,
    ),
    (
        "{\"format\":\"peer-house-audit\",\"version\":1}\n\
         {\"format\":\"peer-house-audit\",\"version\":1}\n\
         {\"report\":\"\"}\n",
        2,
    ),
    (
        "{\"format\":\"peer-house-audit\",\"version\":1}\n\
         {\"aside\":\"none\",\"digest\":\"@\",\"hex\":\"61\",\"line\":1}\n\n\
         {\"report\":\"\"}\n",
        3,
    ),
    (
        "{\"format\":\"peer-house-audit\",\"version\":1}\n\
         {\"aside\":\"none\",\"digest\":\"@\",\"line\":1,\"text\":\"a\"}\n\
         {\"report\":\"\"}\n",
        2,
    ),
    (
        "{\"format\":\"peer-house-audit\",\"version\":1}\n\
         {\"aside\":\"none\",\"digest\":\"@\",\"hex\":\"616\",\"line\":1}\n\
         {\"report\":\"\"}\n",
        2,
    ),
    (
        "{\"format\":\"peer-house-audit\",\"version\":1}\n\
         {\"aside\":\"none\",\"digest\":\"@\",\"hex\":\"6g\",\"line\":1}\n\
         {\"report\":\"\"}\n",
        2,
    ),
    (
        "{\"format\":\"peer-house-audit\",\"version\":1}\n\
         {\"aside\":\"none\",\"digest\":\"@\",\"hex\":\"610a\",\"line\":1}\n\
         {\"report\":\"\"}\n",
        2,
    ),
    (
        "{\"format\":\"peer-house-audit\",\"version\":2}\n\
         {\"aside\":\"none\",\"digest\":\"@\",\"line\":1,\"text\":\"a\\nb\"}\n\
         {\"report\":\"\"}\n",
        2,
    ),
    (
        "{\"format\":\"peer-house-audit\",\"version\":2}\n\
         {\"aside\":\"none\",\"digest\":\"@\",\"line\":1,\"text\":6}\n\
         {\"report\":\"\"}\n",
        2,
    ),
    (
        "{\"format\":\"peer-house-audit\",\"version\":1}\n\
         {\"aside\":\"none\",\"digest\":\"@\",\"hex\":\"61\",\"line\":-1}\n\
         {\"report\":\"\"}\n",
        2,
    ),
    (
        "{\"format\":\"peer-house-audit\",\"version\":1}\n\
         {\"aside\":\"none\",\"digest\":\"@\",\"hex\":\"61\",\"line\":1e0}\n\
         {\"report\":\"\"}\n",
        2,
    ),
    (
        "{\"format\":\"peer-house-audit\",\"version\":1}\n\
         {\"aside\":\"none\",\"digest\":\"@\",\"hex\":\"61\",\"line\":18446744073709551616}\n\
         {\"report\":\"\"}\n",
        2,
    ),
    (
        "{\"format\":\"peer-house-audit\",\"version\":1}\n\
         {\"aside\":\"kept\",\"digest\":\"@\",\"hex\":\"61\",\"line\":1}\n\
         {\"report\":\"\"}\n",
        2,
    ),
    (
        "{\"format\":\"peer-house-audit\",\"version\":1}\n\
         {\"aside\":\"none\",\"digest\":\"@0\",\"hex\":\"61\",\"line\":1}\n\
         {\"report\":\"\"}\n",
        2,
    ),
    (
        "{\"format\":\"peer-house-audit\",\"version\":1}\n\
         {\"aside\":\"none\",\"digest\":\"@\",\"hex\":\"61\",\"line\":1,\"text\":\"a\"}\n\
         {\"report\":\"\"}\n",
        2,
    ),
    (
        "{\"format\":\"peer-house-audit\",\"version\":1}\n\
         {\"aside\":\"none\",\"digest\":\"@\",\"hex\":\"61\"}\n\
         {\"report\":\"\"}\n",
        2,
    ),
    (
        "{\"format\":\"peer-house-audit\",\"version\":1}\n{\"report\":\"\"}\n{\"report\":\"\"}\n",
        3,
    ),
    (
        "{\"format\":\"peer-house-audit\",\"version\":1}\n{\"report\":\"\"}\n ",
        3,
    ),
    (
        "{\"format\":\"peer-house-audit\",\"version\":1}\n{\"report\":1}\n",
        2,
    ),
    (
        "{\"format\":\"peer-house-audit\",\"version\":1}\n{\"report\":\"\",\"x\":1}\n",
        2,
    ),
];

#[test]
fn writes_and_reads_both_versions(rt: HostRuntime) -> Result<(), Fail> {
    let lines = cut(rt.alloc(), LINES)?;
    assert!(rt; lines.count() == 7 && MARKS.as_slice().len() == 7 && TEXT.is_ascii());
    let first = audit1_text(rt.alloc(), &lines, &MARKS, TEXT)?;
    let second = audit_text(rt.alloc(), &lines, &MARKS, TEXT)?;
    assert_eq!(rt; std::str::from_utf8(&first)?, FIRST);
    assert_eq!(rt; std::str::from_utf8(&second)?, SECOND);
    for (version, audit) in [(1, &first), (2, &second)] {
        assert_eq!(rt; row_version(rt.alloc(), audit)?, version);
        let held = read_rows(rt.alloc(), audit)?;
        assert_eq!(rt; held.count(), lines.count());
        for index in 0..held.count() {
            assert!(rt; index < lines.count());
            assert_eq!(rt; held.line(index), lines.line(index));
        }
    }
    Ok(())
}

#[test]
fn reads_what_is_of_the_form(rt: HostRuntime) -> Result<(), Fail> {
    for (file, count) in WHOLE {
        let bytes = with_digests(rt.alloc(), file)?;
        let lines = read_rows(rt.alloc(), bytes.as_bytes())?;
        assert_eq!(rt; lines.count(), count, "at {file:?}");
    }
    for (file, row) in BROKEN {
        let bytes = with_digests(rt.alloc(), file)?;
        match read_rows(rt.alloc(), bytes.as_bytes()) {
            Ok(_) => assert!(rt; false, "at {file:?}"),
            Err(fault) => assert_eq!(rt; fault, RowFault::BadRow(row), "at {file:?}"),
        }
        match row_version(rt.alloc(), bytes.as_bytes()) {
            Ok(_) => assert!(rt; row > 1, "at {file:?}"),
            Err(fault) => assert_eq!(rt; (row, fault), (1, RowFault::BadRow(1)), "at {file:?}"),
        }
    }
    Ok(())
}

fn with_digests(alloc: Global, file: &str) -> Result<String, Fail> {
    let mut text = String::new(alloc);
    for c in file.chars() {
        if c == '@' {
            text.push_str("0123456789abcdefABCDEF0000000000000000000000000000000000000000ff")?;
        } else {
            text.push(c)?;
        }
    }
    Ok(text)
}
