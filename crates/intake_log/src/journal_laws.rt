//! Laws of the journal's form, and of the scan.

ghost use Rattle.std.specs.Prelude.{◌≡◌, ◌↔◌, ℕ, List, take};
ghost use Rattle.intake_log.specs.Journal.{StandsFor};
ghost use Rattle.intake_log.specs.Limits.{AreWithin};
ghost use Rattle.intake_log.specs.Scan.{Finds, Scanned, found, scan};
ghost use Rattle.intake_log.specs.Scan.Scanned.{Ended};

use crate::limits::FRONT_BYTES;

/// A file stands for one list of lines alone.
pub fn lines_are_determined()
    ensures { (bytes : List ℕ) (lines others : List (List ℕ)) →
        StandsFor bytes lines → StandsFor bytes others → lines ≡ others }
{}

/// What the scan says is what the form says: records of lines within the limits up to a closed gate, up to a place
/// where neither stands, or up to a record that passes the limits.
pub fn the_scan_agrees_with_the_form()
    ensures { (bytes : List ℕ) (scanned : Scanned) → (scan bytes ≡ scanned) ↔ Finds bytes scanned }
{}

/// The lines that a start finds are those that the file stands for, as far as these are within the limits.
pub fn a_start_finds_what_the_file_stands_for()
    ensures { (bytes : List ℕ) (lines : List (List ℕ)) →
        (found bytes ≡ Ended lines) ↔ (StandsFor bytes lines × AreWithin lines) }
{}

/// The front of a file tells all that the scan tells of the whole.
pub fn the_front_decides()
    ensures { (bytes : List ℕ) → scan (take FRONT_BYTES bytes) ≡ scan bytes }
{}
