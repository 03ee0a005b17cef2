//! Slips beside the answers that a check has to give.

use crate::{SlipFault, Verdict, check_slip, slip_persons};

#[test]
fn slips_are_checked(rt: HostRuntime) {
    for (text, wanted) in [
        (
            "slip a chance 3000000/6000000\nseats 2 persons 6\nmember a\nmember d\nballot b c:100 d:0\nballot c d:0 e:0\nballot e f:0 a:0\nballot f a:0 b:0\n",
            Ok(Verdict::Yes),
        ),
        (
            "slip a chance 4000000/6000000\nseats 2 persons 6\nmember a\nmember d\nballot b c:100 d:0\nballot c d:0 e:0\nballot e f:0 a:0\nballot f a:0 b:0\n",
            Ok(Verdict::No(3000000)),
        ),
        (
            "slip zed chance 3000000/6000000\nseats 2 persons 6\nmember a\nmember d\nballot b c:100 d:0\nballot c d:0 e:0\nballot e f:0 a:0\nballot f a:0 b:0\n",
            Ok(Verdict::No(0)),
        ),
        (
            "slip zed chance 0/6000000\nseats 2 persons 6\nmember a\nmember d\nballot b c:100 d:0\nballot c d:0 e:0\nballot e f:0 a:0\nballot f a:0 b:0\n",
            Ok(Verdict::Yes),
        ),
        (
            "slip d chance 0/6000000\nseats 2 persons 6\nmember a\nmember d\nballot b c:100 d:0\nballot c d:0 e:0\nballot e f:0 a:0\nballot f a:0 b:0\n",
            Ok(Verdict::Yes),
        ),
        (
            "slip a chance 7000000/6000000\nseats 2 persons 6\nmember a\nmember d\nballot b c:100 d:0\nballot c d:0 e:0\nballot e f:0 a:0\nballot f a:0 b:0\n",
            Ok(Verdict::No(3000000)),
        ),
        ("", Err(SlipFault::BadSlip(1))),
        (
            "slip a chance 3000000/6000000\n",
            Err(SlipFault::BadSlip(2)),
        ),
        (
            "slip a chance 3000000/6000000\nseats 2 persons 6\n",
            Err(SlipFault::BadSlip(3)),
        ),
        (
            "slip a chance 3000000/6000000\nseats 2 persons 6\nmember a\nmember d\nballot b c:100 d:0\nballot c d:0 e:0\nballot e f:0 a:0\nballot f a:0 b:0",
            Err(SlipFault::BadSlip(8)),
        ),
        (
            "slip a chance 18446744073709551616/6000000\nseats 2 persons 6\nmember a\nmember d\nballot b c:100 d:0\nballot c d:0 e:0\nballot e f:0 a:0\nballot f a:0 b:0\n",
            Err(SlipFault::BadSlip(1)),
        ),
        (
            "slip a chance 3000000/06000000\nseats 2 persons 6\nmember a\nmember d\nballot b c:100 d:0\nballot c d:0 e:0\nballot e f:0 a:0\nballot f a:0 b:0\n",
            Err(SlipFault::BadSlip(1)),
        ),
        (
            "slip a chance 3000000/\nseats 2 persons 6\nmember a\nmember d\nballot b c:100 d:0\nballot c d:0 e:0\nballot e f:0 a:0\nballot f a:0 b:0\n",
            Err(SlipFault::BadSlip(1)),
        ),
        (
            "slip A chance 3000000/6000000\nseats 2 persons 6\nmember a\nmember d\nballot b c:100 d:0\nballot c d:0 e:0\nballot e f:0 a:0\nballot f a:0 b:0\n",
            Err(SlipFault::BadSlip(1)),
        ),
        (
            "slip a chance 3000000/9999999999999999999999999999999999999999\nseats 2 persons 6\nmember a\nmember d\nballot b c:100 d:0\nballot c d:0 e:0\nballot e f:0 a:0\nballot f a:0 b:0\n",
            Err(SlipFault::BadSlip(2)),
        ),
        (
            "slip a chance 3000000/5000000\nseats 2 persons 6\nmember a\nmember d\nballot b c:100 d:0\nballot c d:0 e:0\nballot e f:0 a:0\nballot f a:0 b:0\n",
            Err(SlipFault::BadSlip(2)),
        ),
        (
            "slip a chance 3000000/6000000\nseats 0 persons 6\nmember a\nmember d\nballot b c:100 d:0\nballot c d:0 e:0\nballot e f:0 a:0\nballot f a:0 b:0\n",
            Err(SlipFault::BadSlip(2)),
        ),
        (
            "slip a chance 3000000/6000000\nseats 1001 persons 6\nmember a\nmember d\nballot b c:100 d:0\nballot c d:0 e:0\nballot e f:0 a:0\nballot f a:0 b:0\n",
            Err(SlipFault::BadSlip(2)),
        ),
        (
            "slip a chance 3000000/6000000\nseats 2 persons 6 \nmember a\nmember d\nballot b c:100 d:0\nballot c d:0 e:0\nballot e f:0 a:0\nballot f a:0 b:0\n",
            Err(SlipFault::BadSlip(2)),
        ),
        (
            "slip a chance 3000000/6000000\nseats 2 persons 6\nballot b c:100 d:0\nmember d\nballot b c:100 d:0\nballot c d:0 e:0\nballot e f:0 a:0\nballot f a:0 b:0\n",
            Err(SlipFault::BadSlip(3)),
        ),
        (
            "slip a chance 3000000/6000000\nseats 2 persons 6\nmember a\nmember a\nballot b c:100 d:0\nballot c d:0 e:0\nballot e f:0 a:0\nballot f a:0 b:0\n",
            Err(SlipFault::BadSlip(4)),
        ),
        (
            "slip a chance 3000000/6000000\nseats 2 persons 6\nmember a\nmember  d\nballot b c:100 d:0\nballot c d:0 e:0\nballot e f:0 a:0\nballot f a:0 b:0\n",
            Err(SlipFault::BadSlip(4)),
        ),
        (
            "slip a chance 3000000/6000000\nseats 2 persons 6\nmember a\nmember\td\nballot b c:100 d:0\nballot c d:0 e:0\nballot e f:0 a:0\nballot f a:0 b:0\n",
            Err(SlipFault::BadSlip(4)),
        ),
        (
            "slip a chance 3000000/6000000\nseats 2 persons 6\nmember a\nmember d\r\nballot b c:100 d:0\nballot c d:0 e:0\nballot e f:0 a:0\nballot f a:0 b:0\n",
            Err(SlipFault::BadSlip(4)),
        ),
        (
            "slip a chance 3000000/6000000\nseats 2 persons 6\nmember a\n member d\nballot b c:100 d:0\nballot c d:0 e:0\nballot e f:0 a:0\nballot f a:0 b:0\n",
            Err(SlipFault::BadSlip(4)),
        ),
        (
            "slip a chance 3000000/6000000\nseats 2 persons 6\nmember a\n\nballot b c:100 d:0\nballot c d:0 e:0\nballot e f:0 a:0\nballot f a:0 b:0\n",
            Err(SlipFault::BadSlip(4)),
        ),
        (
            "slip a chance 3000000/6000000\nseats 2 persons 6\nmember a\nmember d e\nballot b c:100 d:0\nballot c d:0 e:0\nballot e f:0 a:0\nballot f a:0 b:0\n",
            Err(SlipFault::BadSlip(4)),
        ),
        (
            "slip a chance 3000000/6000000\nseats 2 persons 6\nmember a\nmember d\nballot b c:101 d:0\nballot c d:0 e:0\nballot e f:0 a:0\nballot f a:0 b:0\n",
            Err(SlipFault::BadSlip(5)),
        ),
        (
            "slip a chance 3000000/6000000\nseats 2 persons 6\nmember a\nmember d\nballot b c:100 d:0\nballot c d:00 e:0\nballot e f:0 a:0\nballot f a:0 b:0\n",
            Err(SlipFault::BadSlip(6)),
        ),
        (
            "slip a chance 3000000/6000000\nseats 2 persons 6\nmember a\nmember d\nballot b c:100 d:0\nballot b d:0 e:0\nballot e f:0 a:0\nballot f a:0 b:0\n",
            Err(SlipFault::BadSlip(6)),
        ),
        (
            "slip a chance 3000000/6000000\nseats 2 persons 6\nmember a\nmember d\nballot b c:100 d:0\nballot c\nballot e f:0 a:0\nballot f a:0 b:0\n",
            Err(SlipFault::BadSlip(6)),
        ),
        (
            "slip a chance 3000000/6000000\nseats 2 persons 6\nmember a\nmember d\nballot b c:100 d:0\nballot c d:0 d:0\nballot e f:0 a:0\nballot f a:0 b:0\n",
            Err(SlipFault::BadSlip(6)),
        ),
        (
            "slip a chance 3000000/6000000\nseats 2 persons 6\nmember a\nmember d\nballot b c:100 d:0\nballot c d e:0\nballot e f:0 a:0\nballot f a:0 b:0\n",
            Err(SlipFault::BadSlip(6)),
        ),
        (
            "slip a chance 3000000/6000000\nseats 2 persons 6\nmember a\nmember d\nballot b c:100 d:0\nballot c d:0 e:0\nballot e f:0 a:0\nballot f a:0 b:0\nmember e\n",
            Err(SlipFault::BadSlip(9)),
        ),
        (
            "slip a chance 0/6000000\nseats 2 persons 6\nmember a\nmember d\n",
            Ok(Verdict::Yes),
        ),
        (
            "slip a chance 5/1000000\nseats 3 persons 1\nmember a\nballot b a:2 c:3 d:2\n",
            Ok(Verdict::No(857142)),
        ),
    ] {
        let answer = check_slip(rt.alloc(), text.as_bytes());
        assert_eq!(rt; answer, wanted, "at {text:?}");
    }
}

#[test]
fn persons_are_told(rt: HostRuntime) {
    let slip = b"slip a chance 5/7000000\nseats 3 persons 7\n";
    assert_eq!(rt; slip_persons(slip), Some(7));
}
