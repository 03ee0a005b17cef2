//! What follows from the definitions that the contracts cite. Each function states it, and does nothing.

ghost use Rattle.std.specs.Prelude.{◌≡◌, ◌+◌, ◌⊎◌, ℕ, List, Ok, IsAscii, length, map};
ghost use Rattle.serde_json.specs.Written.{compact_text};
ghost use Rattle.house_base.specs.Text.{Text};
ghost use Rattle.house_base.specs.declared.answer.Took.{Took};
ghost use Rattle.house_model.specs.Text.{Lines};
ghost use Rattle.audit_chain.specs.Chain.{audit_bytes, audit_rows};
ghost use Rattle.audit_chain.specs.File.{AreLines, lines_held, rows, version_held};

/// What is written is read as the same lines, and as the same version; and its rows are those that it was made of.
pub fn rows_are_read_back()
    ensures lines { (version : ℕ) (lines : Lines) (marks : List Took) (text : Text)
        → (version ≡ 1) ⊎ (version ≡ 2) → AreLines lines → IsAscii text
        → lines_held (audit_bytes version lines marks text) ≡ Ok lines }
    ensures version { (version : ℕ) (lines : Lines) (marks : List Took) (text : Text)
        → (version ≡ 1) ⊎ (version ≡ 2) → AreLines lines → IsAscii text
        → version_held (audit_bytes version lines marks text) ≡ Ok version }
    ensures rows { (version : ℕ) (lines : Lines) (marks : List Took) (text : Text)
        → (version ≡ 1) ⊎ (version ≡ 2) → AreLines lines → IsAscii text
        → rows (audit_bytes version lines marks text) ≡ map compact_text (audit_rows version lines marks text) }
{}

/// A file of the form has as many rows as lines and two.
pub fn rows_are_counted()
    ensures { (bytes : Text) (lines : Lines) → lines_held bytes ≡ Ok lines → length (rows bytes) ≡ length lines + 2 }
{}
