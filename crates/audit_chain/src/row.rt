//! The rows of an audit.

ghost use Rattle.std.specs.Prelude.{◌≡◌, IfOk};
ghost use Rattle.serde_json.specs.View.{view};
ghost use Rattle.audit_chain.specs.Chain.{header_row, is_printable, mark_word, report_row};

use house_base::{Kind, Took};
use serde_json::{Value, json};
use std::alloc::{AllocError, Global};

/// The name of the format.
pub(crate) const FORMAT_NAME: &str = "peer-house-audit";

/// The word for what became of a line.
pub(crate) fn mark_word(mark: Took) -> &'static str
    ensures { result.now ≡ mark_word mark }
{
    match mark {
        Took::Kept => "none",
        Took::Aside(Kind::Form) => "form",
        Took::Aside(Kind::Early) => "early",
        Took::Aside(Kind::Late) => "late",
        Took::Aside(Kind::Unknown) => "unknown",
        Took::Aside(Kind::Unassigned) => "unassigned",
        Took::Aside(Kind::Range) => "range",
    }
}

/// The row that names the format and its version.
#[tactic(auto, unfolding(crate::specs::Chain::header_row))]
pub(crate) fn header_row(alloc: Global, version: u32) -> Result<Value, AllocError>
    ensures { IfOk result (λ row. view row ≡ header_row version) }
{
    json!(in alloc; {"format": FORMAT_NAME, "version": version})
}

/// The row with the text that the run wrote.
#[tactic(auto, unfolding(crate::specs::Chain::report_row))]
pub(crate) fn report_row(alloc: Global, text: &str) -> Result<Value, AllocError>
    ensures { IfOk result (λ row. view row ≡ report_row text.now) }
{
    json!(in alloc; {"report": text})
}

/// Whether all bytes are printable characters of ASCII.
pub(crate) fn is_printable(line: &[u8]) -> bool
    ensures { result ≡ is_printable line.now }
{
    line.iter().all(|byte| 0x20 <= *byte && *byte <= 0x7e)
}
