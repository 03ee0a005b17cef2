//! The rows of an audit, taken in one by one.

ghost use Rattle.std.specs.Prelude.{◌≡◌, All, ◌≤◌, ◌+◌, ◌++◌, ◌∷◌, [], ◌&&◌, IfOk, List, MatchOption, Ok, None, length, true, false};
ghost use Rattle.serde_json.specs.View.{view};
ghost use Rattle.house_base.specs.Text.{Text};
ghost use Rattle.house_model.specs.Text.{is_empty};
ghost use Rattle.audit_chain.specs.Form.{is_report_value, version_in};
ghost use Rattle.audit_chain.specs.File.{IsLine, fits_behind};
ghost use Rattle.audit_chain.specs.Reading.{HasRead, fits_after, line_added};

use crate::line::push_line;
use crate::value::{is_report_value, value_of, version_named};
use command_text::Lines;
use house_base::Memory;
use house_model::limits::MOST_LINES;
use serde_json::Value;
use std::alloc::Global;

/// What was taken in of an audit, where all its rows so far are of the form.
#[derive(Drop)]
pub(crate) struct Reading {
    version: u32,
    lines: Lines,
    /// Whether the row with the report was taken in.
    ended: bool,
}

impl Reading {
    /// Takes in a first row, where it is a header.
    pub(crate) fn open(alloc: Global, row: &[u8]) -> Result<Option<Reading>, Memory>
        ensures { IfOk result (λ opened. MatchOption opened (version_in row.now ≡ None)
            (λ reading. HasRead (row.now ∷ []) reading.version reading.lines reading.ended
            × All IsLine reading.lines)) }
    {
        match version_in(alloc, row)? {
            Some(version) => Ok(Some(Reading {
                version,
                lines: Lines::new(alloc),
                ended: false,
            })),
            None => Ok(None),
        }
    }

    /// Takes in the row behind those so far. It answers whether the row is of the form; where it is not nothing
    /// changes.
    pub(crate) fn take(&mut self, alloc: Global, row: &[u8]) -> Result<bool, Memory>
        ensures fits { (rows : List Text) → HasRead rows self.old.version self.old.lines self.old.ended
            → IfOk result (λ fits. fits ≡ fits_behind rows row.now) }
        ensures taken { (rows : List Text) → HasRead rows self.old.version self.old.lines self.old.ended
            → result ≡ Ok true → HasRead (rows ++ row.now ∷ []) self.new.version self.new.lines self.new.ended }
        ensures each { result ≡ Ok true → All IsLine self.old.lines → All IsLine self.new.lines }
        ensures same { result ≡ Ok false → self.new ≡ self.old }
    {
        if self.ended {
            return Ok(false);
        }
        match value_of(alloc, row)? {
            None => Ok(false),
            Some(value) => self.take_value(alloc, &value),
        }
    }

    /// The same of the value of a row, where the report is not there yet.
    fn take_value(&mut self, alloc: Global, value: &Value) -> Result<bool, Memory>
        requires { self.old.ended ≡ false }
        ensures fits { IfOk result (λ fits. fits ≡ fits_after self.old.version self.old.lines (view value.now)) }
        ensures version { self.new.version ≡ self.old.version }
        ensures lines { result ≡ Ok true
            → self.new.lines ≡ self.old.lines ++ line_added self.old.version (view value.now) }
        ensures each { result ≡ Ok true → All IsLine self.old.lines → All IsLine self.new.lines }
        ensures ended { result ≡ Ok true → self.new.ended ≡ is_report_value (view value.now) }
        ensures same { result ≡ Ok false → self.new ≡ self.old }
    {
        if is_report_value(value) {
            self.ended = true;
            return Ok(true);
        }
        if self.lines.count() >= MOST_LINES as u64 {
            return Ok(false);
        }
        push_line(alloc, &mut self.lines, self.version, value)
    }

    /// The number of the row that would come next, from 1.
    pub(crate) fn next(&self) -> u64
        requires { length self.now.lines ≤ MOST_LINES }
        ensures { (rows : List Text) → HasRead rows self.now.version self.now.lines self.now.ended
            → result ≡ length rows + 1 }
    {
        self.lines.count() + 2 + u64::from(self.ended)
    }

    /// Whether the rows are all there is, where this stands behind them: the last is the report, and nothing follows.
    pub(crate) fn is_whole(&self, rest: &[u8]) -> bool
        ensures { result ≡ (self.now.ended && is_empty rest.now) }
    {
        self.ended && rest.is_empty()
    }

    /// The lines that the rows say.
    pub(crate) fn into_lines(self) -> Lines
        ensures { result ≡ self.lines }
    {
        self.lines
    }
}

/// The version that a first row names.
pub(crate) fn version_in(alloc: Global, row: &[u8]) -> Result<Option<u32>, Memory>
    ensures { IfOk result (λ version. version ≡ version_in row.now) }
{
    match value_of(alloc, row)? {
        Some(value) => Ok(version_named(&value)),
        None => Ok(None),
    }
}
