//! What follows from the definitions of the texts. Each function states it, and does nothing.

ghost use Rattle.std.specs.Prelude.{◌≡◌};
ghost use Rattle.end_text.specs.Text.{end_text_of};
ghost use Rattle.house_base.specs.Text.{Text};
ghost use Rattle.house_model.specs.EndTexts.{IsEndText};
ghost use Rattle.house_model.specs.Text.{Lines};

/// The text with which lines end for the report is that which is found for them.
pub fn end_text_is_found()
    ensures { (lines : Lines) (text : Text) → IsEndText lines text → text ≡ end_text_of lines }
{}
