//! The first row in which two files differ.

ghost use Rattle.std.specs.Prelude.{◌≡◌, length, IfOk, MatchOption};
ghost use Rattle.audit_chain.specs.File.{rows};
ghost use Rattle.replay_check.specs.Rows.{IsFirstDifference};

use crate::row::{Kept, Right};
use audit_chain::first_row;
use house_base::Memory;
use std::alloc::Global;

/// The first row in which a file differs from how it should be.
#[derive(Drop)]
pub(crate) struct Difference {
    /// The number of the row, from 1.
    pub(crate) number: u64,
    pub(crate) kept: Kept,
    pub(crate) right: Right,
}

/// The first row in which a file differs from another with as many rows.
pub(crate) fn find_difference(
    alloc: Global,
    kept: &[u8],
    right: &[u8],
) -> Result<Option<Difference>, Memory>
    ensures { IfOk result (λ found. MatchOption found
        (length (rows kept.now) ≡ length (rows right.now) → rows kept.now ≡ rows right.now)
        (λ d. IsFirstDifference (rows kept.now) (rows right.now) d.number d.kept d.right)) }
{
    if kept == right {
        return Ok(None);
    }
    match first_difference(kept, right) {
        Some((number, kept, right)) => Ok(Some(Difference {
            number,
            kept: Kept::new(kept.to_vec(alloc)?),
            right: Right::new(right.to_vec(alloc)?),
        })),
        None => Ok(None),
    }
}

/// The first row in which two files differ: its number, from 1, and the row of each.
fn first_difference<'a>(kept: &'a [u8], right: &'a [u8]) -> Option<(u64, &'a [u8], &'a [u8])>
    ensures { MatchOption result
        (length (rows kept.now) ≡ length (rows right.now) → rows kept.now ≡ rows right.now)
        (λ d. IsFirstDifference (rows kept.now) (rows right.now) d.0 d.1.now d.2.now) }
{
    let mut number = 1;
    let mut kept_rest = kept;
    let mut right_rest = right;
    while let Some((kept_row, kept_behind)) = first_row(kept_rest) {
        let Some((right_row, right_behind)) = first_row(right_rest) else {
            return None;
        };
        if kept_row != right_row {
            return Some((number, kept_row, right_row));
        }
        number += 1;
        kept_rest = kept_behind;
        right_rest = right_behind;
    }
    None
}
