//! Counts of faults.

ghost use Rattle.std.specs.Prelude.{◌≡◌, ◌≤◌};
ghost use Rattle.house_io.specs.Faults.{Rose, next_count};

use std::error::Error;
use std::fmt;

/// A call failed, and the object on which it was made has counted it as a fault.
#[derive(Clone, Copy, Debug, PartialEq, Eq)]
pub struct Failed;

impl fmt::Display for Failed {
    fn fmt<W: fmt::Write>(&self, f: &mut fmt::Formatter<W>) -> fmt::Result {
        f.write_str("a read or a write failed")
    }
}

impl Error for Failed {}

// One more. A count stops at its greatest value.
pub(crate) fn next_count(count: u64) -> u64
    ensures next { result ≡ next_count count }
    ensures rose { Rose count result }
    ensures never_falls { count ≤ result }
{
    count.saturating_add(1)
}
