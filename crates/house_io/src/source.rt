//! Where input comes from.

ghost use Rattle.std.specs.Prelude.{◌≡◌, ℕ, ◌<◌, ◌≤◌, List, Option, Ok, length, is_some, IfOk, OnErr, IfSome};
ghost use Rattle.std.specs.Io.KnownBytes.{IsAtEnd};
ghost use Rattle.house_io.specs.Faults.{Rose};
ghost use Rattle.house_io.specs.Source.{Takes};

use crate::Failed;

/// Where input comes from.
pub trait Source {
    /// The bytes that are left, where the source tells them.
    ghost left: { Self → Option (List ℕ) };

    /// How many faults there were.
    ghost faults: { Self → ℕ };

    /// Takes some of the next bytes into the front of the buffer, and answers how many. A buffer that has
    /// room gets none only at the end of the input.
    fn take(&mut self, buf: &mut [u8]) -> Result<usize, Failed>
        ensures told { is_some (left self.new) ≡ is_some (left self.old) }
        ensures count { IfOk result (λ count. count ≤ length buf.old) }
        ensures taken { IfOk result (λ count. IfSome (left self.old) (λ before. Takes count before (left self.new) buf.new)) }
        ensures end { result ≡ Ok 0 → 0 < length buf.old → IsAtEnd (left self.old) }

        // What a call that fails leaves, and its cause.
        ensures untouched { OnErr result (left self.new ≡ left self.old) }
        ensures failed { OnErr result (Rose (faults self.old) (faults self.new)) }
        ensures never_falls { faults self.old ≤ faults self.new };
}
