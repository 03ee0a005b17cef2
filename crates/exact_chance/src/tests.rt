//! Chances beside draws that are counted one by one.

ghost use Rattle.std.specs.Prelude.{◌+◌, ◌<◌, ◌^◌};

use crate::chance;

#[test]
fn a_chance_needs_no_draw(rt: HostRuntime) {
    for (quota, den, rank, wanted) in [
        (4_000_000_000_000_000_001, 4_000_000_000_000_000_000, 2, 1),
        (8_000_000, 5_000_000, 1, 5_000_000),
        (8_000_000, 5_000_000, 2, 3_000_000),
        (4_000_000, 5_000_000, 1, 4_000_000),
        (4_000_000, 5_000_000, 2, 0),
        (4_000_000, 4_000_000, 2, 0),
        (u64::MAX, 1, u32::MAX, 1),
        (0, 1, 1, 0),
    ] {
        assert_eq!(rt;
            chance(quota, den, rank),
            wanted,
            "at {quota}/{den}, rank {rank}"
        );
    }
}

/// How many draws put at least so many marks into a stretch, each tried.
fn count_draws(start: u64, quota: u64, den: u64, rank: u64) -> u64
    requires few { start + quota < 2 ^ 32 }
    requires den { den < 2 ^ 16 }
{
    let mut draws = 0u64;
    for draw in 0..den {
        let mut marks = 0u64;
        for t in 0..start + quota {
            let mark = draw + t * den;
            if start <= mark && mark < start + quota {
                marks = marks.saturating_add(1);
            }
        }
        if marks >= rank {
            draws = draws.saturating_add(1);
        }
    }
    draws
}

#[test]
fn chances_count_the_draws(rt: HostRuntime) {
    for den in 1..6 {
        for quota in 0..14 {
            for start in [0, 1, 3, 10] {
                for rank in 1..5 {
                    let counted = count_draws(start, quota, den, u64::from(rank));
                    assert_eq!(rt;
                        chance(quota, den, rank),
                        counted,
                        "at {quota}/{den} from {start}, rank {rank}"
                    );
                }
            }
        }
    }
}
