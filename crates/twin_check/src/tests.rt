//! Comparisons of the silent call and of its copy with one review, and of files that end otherwise.

use crate::{Chances, Half, Twin, twin, write_twin};
use command_text::within;
use house_base::Name;
use std::test::Fail;

/// Six applicants in three clusters, in whose call all reviewers are silent.
const SILENT: &[u8] =
    b"call 2 3 2\napplicant a\napplicant b\napplicant c\napplicant d\napplicant e\n\
    applicant f\nplace a 1\nplace b 2\nplace c 3\nplace d 1\nplace e 2\nplace f 3\nassign\nclose\n\
    draw 3500000\n";

/// The same with a review by b.
const REVIEWED: &[u8] =
    b"call 2 3 2\napplicant a\napplicant b\napplicant c\napplicant d\napplicant e\n\
    applicant f\nplace a 1\nplace b 2\nplace c 3\nplace d 1\nplace e 2\nplace f 3\nassign\n\
    review b c 100\nclose\ndraw 3500000\n";

/// A call in which a has two applicants, and its copy with a review by a.
const PERSONS: &[u8] = b"call 2 2 1\napplicant a1 a\napplicant a2 a\napplicant b\napplicant c\n\
    place a 1\nplace b 2\nplace c 2\nassign\nclose\ndraw 0\n";

const PERSONS_REVIEWED: &[u8] =
    b"call 2 2 1\r\napplicant a1 a\napplicant a2 a\napplicant b\napplicant c\n\
    place a 1\nplace b 2\nplace c 2\nassign\n review\ta c 9\nclose\ndraw 0";

/// A call that is refused at its third line, and one that has no valid assignment.
const REFUSED: &[u8] = b"call 2 2 1\nreview a c 0\nhello\n";

const SHORT: &[u8] = b"call 1 2 1\napplicant a\nplace a 1\nassign\n";

/// A comparison for the person of a name, and its text.
#[derive(Clone, Copy)]
struct Worked {
    first: &'static [u8],
    second: &'static [u8],
    name: &'static [u8],
    text: &'static [u8],
}

const WORKED: [Worked; 7] = [
    Worked {
        first: SILENT,
        second: REVIEWED,
        name: b"b",
        text: b"first chance 4000000/6000000\nsecond chance 4000000/6000000\nagree yes\n",
    },
    Worked {
        first: SILENT,
        second: REVIEWED,
        name: b"a",
        text: b"first chance 4000000/6000000\nsecond chance 3000000/6000000\nagree no\n",
    },
    Worked {
        first: SILENT,
        second: REVIEWED,
        name: b"z",
        text: b"first unlisted\nsecond unlisted\nagree no\n",
    },
    Worked {
        first: PERSONS,
        second: PERSONS_REVIEWED,
        name: b"a",
        text: b"first chance 3000000/3000000 1000000/3000000\n\
            second chance 3000000/3000000 1000000/3000000\nagree yes\n",
    },
    Worked {
        first: PERSONS,
        second: PERSONS,
        name: b"a1",
        text: b"first unlisted\nsecond unlisted\nagree yes\n",
    },
    Worked {
        first: REFUSED,
        second: SHORT,
        name: b"a",
        text: b"first refused 3 form\nsecond short\nagree no\n",
    },
    Worked {
        first: REFUSED,
        second: b"call 2 2 1\nhello",
        name: b"a",
        text: b"first refused 3 form\nsecond refused 2 form\nagree yes\n",
    },
];

#[test]
fn comparisons_are_written(rt: HostRuntime) -> Result<(), Fail> {
    for worked in WORKED {
        let name = Name::read(worked.name).ok_or("no name")?;
        assert!(rt; within(worked.first) && within(worked.second));
        let told = twin(rt.alloc(), worked.first, worked.second, name)?;
        let mut text = Vec::new(rt.alloc());
        write_twin(rt.alloc(), &told, &mut text)?;
        assert_eq!(rt; text.as_slice(), worked.text);
    }
    Ok(())
}

#[test]
fn chances_stand_in_register_order(rt: HostRuntime) -> Result<(), Fail> {
    let name = Name::read(b"a").ok_or("no name")?;
    assert!(rt; within(PERSONS) && within(PERSONS_REVIEWED));
    let half = Half::Chances(
        Chances {
            count: 2,
            list: [3_000_000, 1_000_000, 0, 0, 0],
        },
        3_000_000,
    );
    let expected = Twin {
        first: half,
        second: half,
        agree: true,
    };
    assert!(rt; twin(rt.alloc(), PERSONS, PERSONS_REVIEWED, name)? == expected);
    Ok(())
}
