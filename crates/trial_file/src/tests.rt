//! Trial files, and the first words of the generators of two seeds.

use crate::stream::{generator_of, next_word};
use crate::{made_file, write_trial};
use house_base::{Asides, Call, Name};
use house_model::{ApplicantRow, ClusterRow};
use report_text::Outcome;
use std::test::Fail;

/// The first words for the seeds 0 and 1, from the published vectors of ChaCha8 for keys of 256 bits: of 32 bytes 0, and of
/// a byte 1 in front of 31 bytes 0.
const FIRST_WORDS: [(u64, [u32; 4]); 2] = [
    (0, [0x2fef_003e, 0xd640_5f89, 0xe8b8_5b7f, 0xa1a5_091f]),
    (1, [0xa0e9_5ecf, 0x61a9_4a49, 0xedd5_053e, 0x4b80_5b72]),
];

/// The trial of one applicant, and one whose seed has all its bits. The points and the draws were worked out apart from the
/// program.
const ONE: &[u8] =
    b"call 1 2 1\napplicant p1\nplace p1 1\nassign\nreview p1 p1 9\nclose\ndraw 211351\n";

const FOUR: &[u8] =
    b"call 3 2 2\napplicant p1\napplicant p2\napplicant p3\napplicant p4\nplace p1 1\n\
    place p2 2\nplace p3 1\nplace p4 2\nassign\nreview p1 p2 61\nreview p1 p3 8\n\
    review p2 p3 48\nreview p2 p4 77\nreview p3 p4 7\nreview p3 p1 63\nreview p4 p1 13\n\
    review p4 p2 54\nclose\ndraw 3788704\n";

#[test]
fn words_are_those_of_the_cipher(rt: HostRuntime) -> Result<(), Fail> {
    for (seed, words) in FIRST_WORDS {
        let mut generator = generator_of(seed);
        let first = next_word(&mut generator);
        let second = next_word(&mut generator);
        let third = next_word(&mut generator);
        let fourth = next_word(&mut generator);
        assert_eq!(rt; [first, second, third, fourth], words);
    }
    Ok(())
}

#[test]
fn files_are_made(rt: HostRuntime) -> Result<(), Fail> {
    let one = made_file(rt.alloc(), 3, 1, 2, 1, 1)?;
    assert_eq!(rt; one.as_slice(), ONE);
    let four = made_file(rt.alloc(), u64::MAX, 4, 2, 2, 3)?;
    assert_eq!(rt; four.as_slice(), FOUR);
    Ok(())
}

#[test]
fn a_trial_is_told(rt: HostRuntime) -> Result<(), Fail> {
    let name = Name::read(b"p1").ok_or("no name")?;
    let mut clusters = Vec::new(rt.alloc());
    clusters.push(ClusterRow {
        cents: 0,
        quota: 3_000_000,
        seats: 3,
        filled: 1,
    })?;
    let mut applicants = Vec::new(rt.alloc());
    applicants.push(ApplicantRow {
        name,
        person: name,
        cluster: 1,
        rank: 1,
        cents: 0,
        chance: 1_000_000,
        chosen: true,
    })?;
    let call = Call {
        seats: 3,
        clusters: 2,
        reviews: 1,
    };
    let asides = Asides {
        form: 0,
        early: 0,
        late: 0,
        unknown: 0,
        unassigned: 0,
        range: 0,
    };
    let outcome = Outcome::make(call, asides, 7, 1_000_000, 1, clusters, applicants, 2);
    let mut text = Vec::new(rt.alloc());
    write_trial(rt.alloc(), u64::MAX, 7, &outcome, &mut text)?;
    assert_eq!(rt;
        text.as_slice(),
        b"trial 18446744073709551615\nlines 7\napplicants 1\n\
        seats 3 filled 1 empty 2\nchances 1000000/1000000\n"
            .as_slice()
    );
    Ok(())
}
