//! What follows from the definition of what lines come to for one person. Each function states it, and does nothing.

ghost use Rattle.std.specs.Prelude.{◌≡◌};
ghost use Rattle.house_base.specs.Text.{Text};
ghost use Rattle.house_model.specs.declared.goal.Goal.TheVariants as goal;
ghost use Rattle.house_model.specs.Ending.{Ended};
ghost use Rattle.house_model.specs.Headline.{AreOfCall};
ghost use Rattle.house_model.specs.Runs.{end_of};
ghost use Rattle.house_model.specs.Text.{Lines};
ghost use Rattle.twin_check.specs.Agree.{Agree, AreAlike};
ghost use Rattle.twin_check.specs.Half.{half_of};

/// Lists of lines that differ in nothing but the review lines of a person come to the same for it. Where lines are done,
/// they have to be those of a whole call, as the lines are that a run finds done.
pub fn own_reviews_change_no_half()
    ensures { (name : Text) (lines others : Lines) → (end_of goal.Run lines ≡ Ended.Done → AreOfCall lines)
        → Agree name lines others → AreAlike (half_of name lines) (half_of name others) }
{}
