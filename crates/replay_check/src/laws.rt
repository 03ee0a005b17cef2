//! What follows from the definitions that the contracts cite. Each function states it, and does nothing.

ghost use Rattle.std.specs.Prelude.{◌≡◌, ℕ, List, Ok};
ghost use Rattle.audit_chain.specs.Chain.{audit_bytes};
ghost use Rattle.audit_chain.specs.File.{AreLines, lines_held, version_held};
ghost use Rattle.house_base.specs.Text.{Text};
ghost use Rattle.house_base.specs.declared.answer.Took.{Took};
ghost use Rattle.house_model.specs.EndTexts.{IsEndText};
ghost use Rattle.house_model.specs.LineMarks.{marks};
ghost use Rattle.house_model.specs.Text.{Lines};
ghost use Rattle.replay_check.specs.Audit.{IsAuditOf, IsVersion};

/// What is written for lines is their audit, where the marks are theirs and the text is that with which they end.
pub fn marked_lines_are_written_as_their_audit()
    ensures { (version : ℕ) (lines : Lines) (made : List Took) (text : Text)
        → made ≡ marks lines → IsEndText lines text → IsAuditOf version lines (audit_bytes version lines made text) }
{}

/// The audit of a list of lines is one in each version.
pub fn audit_is_determined()
    ensures { (version : ℕ) (lines : Lines) (one other : Text)
        → IsAuditOf version lines one → IsAuditOf version lines other → one ≡ other }
{}

/// The audit of a list of lines is read as these lines, and names its version.
pub fn audits_are_read_back()
    ensures lines { (version : ℕ) (lines : Lines) (bytes : Text)
        → IsVersion version → AreLines lines → IsAuditOf version lines bytes → lines_held bytes ≡ Ok lines }
    ensures version { (version : ℕ) (lines : Lines) (bytes : Text)
        → IsVersion version → AreLines lines → IsAuditOf version lines bytes → version_held bytes ≡ Ok version }
{}
