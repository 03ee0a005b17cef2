//! Seats at worked draws, and in a stretch with more marks than could be tried; draws and seals of seeds.

use crate::{draw_of, is_sealed_by, seal_of, seats};
use house_base::Seed;
use std::test::Fail;

/// Stretches by their begin and width, a denominator, a draw, and the seats there.
const ROWS: [(u64, u64, u64, u64, u64); 12] = [
    (
        0,
        9_000_000_000_000_000_000,
        1,
        0,
        9_000_000_000_000_000_000,
    ),
    (0, 8_000_000, 5_000_000, 0, 2),
    (8_000_000, 4_000_000, 5_000_000, 0, 1),
    (12_000_000, 8_000_000, 5_000_000, 0, 1),
    (0, 8_000_000, 5_000_000, 4_999_999, 1),
    (8_000_000, 4_000_000, 5_000_000, 4_999_999, 1),
    (12_000_000, 8_000_000, 5_000_000, 4_999_999, 2),
    (3, 0, 2, 1, 0),
    (3, 1, 2, 1, 1),
    (2, 1, 2, 1, 0),
    (0, 5, u64::MAX, 4, 1),
    (0, 5, u64::MAX, 5, 0),
];

#[test]
fn seats_are_counted_without_trying_marks(rt: HostRuntime) {
    for (before, width, den, draw, wanted) in ROWS {
        assert!(rt; 0 < den && draw < den && before.saturating_add(width) < 1 << 63);
        assert_eq!(rt;
            seats(before, width, den, draw),
            wanted,
            "at {draw}/{den}, {width} from {before}"
        );
    }
}

/// The longest seed.
const LONGEST: &str = "aaaaaaaaaaaaaaaaaaaaaaaaaaaaaaaaaaaaaaaaaaaaaaaaaaaaaaaaaaaaaaaa";

/// Seeds, denominators and draws, computed by `sha256sum` and by integers without a bound.
const DRAWS: [(&str, u64, u64); 6] = [
    ("autumn", 1, 0),
    ("autumn", 4_000_000, 2_769_051),
    ("autumn", u64::MAX, 16_682_428_023_822_288_286),
    ("x", 1_000_000_000, 931_633_764),
    ("A-9", 4_000_000, 997_111),
    (LONGEST, 4_000_000, 3_208_784),
];

/// Seeds and seals, computed by `sha256sum`.
const SEALS: [(&str, [u8; 32]); 2] = [
    (
        "autumn",
        [
            0xef, 0x8b, 0x17, 0x0a, 0xde, 0x5a, 0x95, 0xd7, 0x8a, 0x30, 0xe9, 0xf1, 0x70, 0x69,
            0x3f, 0xaa, 0x60, 0xe5, 0x38, 0xb7, 0x5a, 0x41, 0xfc, 0xb7, 0xb3, 0xce, 0xed, 0x9d,
            0xa1, 0x47, 0x30, 0x01,
        ],
    ),
    (
        LONGEST,
        [
            0x73, 0x63, 0xe9, 0x2a, 0xf0, 0x83, 0x1a, 0xcb, 0xdf, 0xcc, 0x91, 0x04, 0xeb, 0x49,
            0x3b, 0x11, 0x42, 0x97, 0x12, 0x32, 0x14, 0xa7, 0xaa, 0x91, 0xbd, 0xa1, 0x91, 0x80,
            0xa0, 0x35, 0x58, 0x52,
        ],
    ),
];

#[test]
fn draws_of_seeds(rt: HostRuntime) -> Result<(), Fail> {
    for (word, den, wanted) in DRAWS {
        let seed = Seed::read(word.as_bytes()).ok_or("no seed")?;
        assert!(rt; 1 <= den);
        assert_eq!(rt; draw_of(&seed, den), wanted, "of {word}, below {den}");
    }
    Ok(())
}

#[test]
fn seals_of_seeds(rt: HostRuntime) -> Result<(), Fail> {
    for (word, wanted) in SEALS {
        let seed = Seed::read(word.as_bytes()).ok_or("no seed")?;
        assert_eq!(rt; seal_of(&seed), wanted, "of {word}");
        assert!(rt; is_sealed_by(&seed, &wanted));
        for at in 0..32 {
            let mut other = wanted;
            other[at] ^= 1;
            assert!(rt;
                !is_sealed_by(&seed, &other),
                "of {word}, with byte {at} changed"
            );
        }
    }
    Ok(())
}
