//! The lines of the applicants of a trial, and of their places.

ghost use Rattle.std.specs.Prelude.{◌≡◌, ◌≤◌, ◌++◌, OnOk, length, map};
ghost use Rattle.house_base.specs.declared.limits.TheConstants.{MOST_APPLICANTS};
ghost use Rattle.peer_selection.specs.Counting.{numbers_below};
ghost use Rattle.trial_file.specs.Trial.{applicant_row, place_row, rows_text, trial_names};

use crate::names::name_at;
use house_base::{Memory, Name};
use line_text::Word::{Number, Text};
use line_text::push_line;
use std::alloc::Global;

/// Appends a line for each applicant.
pub(crate) fn push_applicants(
    alloc: Global,
    names: &[Name],
    out: &mut Vec<u8>,
) -> Result<(), Memory>
    requires are { names.now ≡ trial_names (length names.now) }
    ensures { OnOk result (out.new.items ≡
        out.old.items ++ rows_text (map applicant_row (numbers_below (length names.now)))) }
{
    for index in 0..names.len() {
        let name = name_at(names, index);
        push_line(alloc, &[Text(b"applicant"), Text(name.bytes())], out)?;
    }
    Ok(())
}

/// Appends a line for the place of each applicant: the clusters take turns.
pub(crate) fn push_places(
    alloc: Global,
    names: &[Name],
    clusters: u32,
    out: &mut Vec<u8>,
) -> Result<(), Memory>
    requires are { names.now ≡ trial_names (length names.now) }
    requires few { length names.now ≤ MOST_APPLICANTS }
    requires some { 1 ≤ clusters }
    ensures { OnOk result (out.new.items ≡
        out.old.items ++ rows_text (map (place_row clusters) (numbers_below (length names.now)))) }
{
    for index in 0..names.len() {
        let name = name_at(names, index);
        let cluster = index as u64 % u64::from(clusters) + 1;
        push_line(
            alloc,
            &[Text(b"place"), Text(name.bytes()), Number(cluster)],
            out,
        )?;
    }
    Ok(())
}
