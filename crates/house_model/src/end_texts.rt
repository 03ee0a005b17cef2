//! Laws of the text with which a run for the report ends, and of what becomes of its lines. Each is proved once, here,
//! and the functions have nothing to do.

ghost use Rattle.std.specs.Prelude.{◌≡◌, List, ℕ, None, IsAscii, [], length};
ghost use Rattle.house_model.specs.declared.goal.Goal.TheVariants as goal;
ghost use Rattle.house_model.specs.Ending.{stop_of};
ghost use Rattle.house_model.specs.EndTexts.{IsEndText};
ghost use Rattle.house_model.specs.LineMarks.{marks, marks_after};
ghost use Rattle.house_model.specs.Runs.{halt};
ghost use Rattle.house_model.specs.Text.{Lines};

/// The same lines end with one text.
pub fn end_text_is_determined()
    ensures { (lines : Lines) (one other : List ℕ) → IsEndText lines one → IsEndText lines other → one ≡ other }
{}

/// The text with which lines end is ASCII.
pub fn end_texts_are_ascii()
    ensures { (lines : Lines) (text : List ℕ) → IsEndText lines text → IsAscii text }
{}

/// Each line has a mark; where no line ends the run, it says what became of the line.
pub fn each_line_has_a_mark()
    ensures count { (lines : Lines) → length (marks lines) ≡ length lines }
    ensures all { (lines : Lines) → stop_of (halt goal.Run) lines ≡ None → marks lines ≡ marks_after goal.Run [] lines }
{}
