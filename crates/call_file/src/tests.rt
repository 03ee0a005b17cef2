//! Worked files, and each call that may find no memory with ample memory.

use crate::{Key, OpenFault, open_lines};
use std::test::Fail;

const CALL: &str = "seats = 1\nclusters = 2\nreviews = 1\n";

#[test]
fn gives_the_lines(rt: HostRuntime) -> Result<(), Fail> {
    let drawn = "seats = 1\nclusters = 2\nreviews = 1\npartition = \"spring\"\n";
    let second = "version = 2\nseats = 0x1\nclusters = 2\nreviews = 1 # each\n";
    for (call, register, want) in [
        (
            drawn,
            "name,cluster,conflicts\nann,,\nbob,,ann\n",
            "call 1 2 1;applicant ann;applicant bob;partition spring;conflict bob ann;",
        ),
        (CALL, "name,cluster,conflicts\n", "call 1 2 1;"),
        (
            CALL,
            "\u{feff}\r\n\"name\",cluster,\"con\"flicts\r\"a\",1,\"\"\n\r\n\n\"b\",\"2\",\r\n",
            "call 1 2 1;applicant a;applicant b;place a 1;place b 2;",
        ),
        (
            CALL,
            "name,cluster,conflicts\na,1,\"b  c \"\na,1,\n",
            "call 1 2 1;applicant a;applicant a;place a 1;place a 1;conflict a b;conflict a c;",
        ),
        (
            second,
            "name,person,cluster,conflicts\nx1,x,1,\nx2,x,,y\ny,,2,\n",
            "call 1 2 1;applicant x1 x;applicant x2 x;applicant y;place x 1;place y 2;conflict x y;",
        ),
        (
            second,
            "name,person,cluster,conflicts\nx1,x,1,\nx2,x,1,y\ny,,2,\nx3,x,2,\n",
            "call 1 2 1;applicant x1 x;applicant x2 x;applicant y;applicant x3 x;place x 1;place y 2;place x 2;conflict x y;",
        ),
    ] {
        let lines = open_lines(rt.alloc(), call.as_bytes(), register.as_bytes())?;
        let mut text = String::new(rt.alloc());
        for index in 0..lines.count() {
            text.push_str(std::str::from_utf8(lines.line(index))?)?;
            text.push(';')?;
        }
        assert_eq!(rt; text.as_str(), want);
    }
    Ok(())
}

#[test]
fn refuses_what_is_off_its_form(rt: HostRuntime) {
    let header = "name,cluster,conflicts\n";
    let drawn = "seats = 1\nclusters = 2\nreviews = 1\npartition = \"spring\"\n";
    let second = "version = 2\nseats = 1\nclusters = 2\nreviews = 1\n";
    for (call, register, want) in [
        ("", header, OpenFault::BadKey(Key::Seats)),
        ("seats = \"5\"", header, OpenFault::BadKey(Key::Seats)),
        (
            "seats = 6.0\nclusters = 2\nreviews = 1",
            header,
            OpenFault::BadKey(Key::Seats),
        ),
        (
            "seats = 1001\nclusters = 2\nreviews = 1",
            header,
            OpenFault::BadKey(Key::Seats),
        ),
        (
            "seats = -1\nclusters = 1\nreviews = 1",
            header,
            OpenFault::BadKey(Key::Seats),
        ),
        (
            "seats = 1\nclusters = 1\nreviews = 0",
            header,
            OpenFault::BadKey(Key::Clusters),
        ),
        (
            "seats = 1\nclusters = 2\nreviews = 21",
            header,
            OpenFault::BadKey(Key::Reviews),
        ),
        ("seats =", header, OpenFault::BadToml),
        ("seats = 1\nseats = 1", header, OpenFault::BadToml),
        (
            "version = 3\nseats = 0\ncolour = 1",
            header,
            OpenFault::BadKey(Key::Version),
        ),
        (
            "seats = 5\nclusters = 4\nreviews = 3\ncolour = 1",
            header,
            OpenFault::BadKey(Key::Other),
        ),
        (
            "seats = 5\nclusters = 4\nreviews = 3\n[more]",
            header,
            OpenFault::BadKey(Key::Other),
        ),
        (
            "seats = 5\nclusters = 4\nreviews = 3\npartition = \"a b\"\nseal = \"\"",
            header,
            OpenFault::BadKey(Key::Partition),
        ),
        (
            "seats = 5\nclusters = 4\nreviews = 3\nseal = \"AB\"\ncolour = 1",
            header,
            OpenFault::BadKey(Key::Seal),
        ),
        (CALL, "", OpenFault::BadRegister(1)),
        (CALL, "name,conflicts,cluster\n", OpenFault::BadRegister(1)),
        (second, header, OpenFault::BadRegister(1)),
        (
            CALL,
            "name,cluster,conflicts\nann,1,\nBob,1,\n",
            OpenFault::BadRegister(3),
        ),
        (
            CALL,
            "name,cluster,conflicts\nann,1\nBob,1,\n",
            OpenFault::BadRegister(2),
        ),
        (
            CALL,
            "name,cluster,conflicts\nann,31,\n",
            OpenFault::BadRegister(2),
        ),
        (
            CALL,
            "name,cluster,conflicts\nann,01,\n",
            OpenFault::BadRegister(2),
        ),
        (
            CALL,
            "name,cluster,conflicts\nann,1,bob\tcat\n",
            OpenFault::BadRegister(2),
        ),
        (
            drawn,
            "name,cluster,conflicts\nann,1,\n",
            OpenFault::BadRegister(2),
        ),
    ] {
        let opened = open_lines(rt.alloc(), call.as_bytes(), register.as_bytes());
        assert_eq!(rt; opened.err(), Some(want), "at {call:?} {register:?}");
    }
}
