//! The law of interleavings: in which order the lines of different reviewers arrive decides nothing. It is proved
//! once, here, and the functions have nothing to do.

ghost use Rattle.std.specs.Prelude.{◌≡◌, [], ◌∷◌, codes};
ghost use Rattle.house_model.specs.declared.goal.Goal.TheVariants as goal;
ghost use Rattle.house_model.specs.Ending.{Ended};
ghost use Rattle.house_model.specs.Interleaving.{AreInterleaved};
ghost use Rattle.house_model.specs.Reviews.{asides_of, profile};
ghost use Rattle.house_model.specs.Said.{draw_of};
ghost use Rattle.house_model.specs.Text.{Lines};
ghost use Rattle.house_model.specs.Runs.{end_of, report_of};

/// A list of lines that is done is done in each other order of arrival, with the same profile, the same counts of
/// review lines set aside, the same draw, and so the same report.
pub fn order_of_arrival_decides_nothing()
    ensures done { (a b : Lines) → AreInterleaved a b → end_of goal.Run a ≡ Ended.Done
        → end_of goal.Run b ≡ Ended.Done }
    ensures profile { (a b : Lines) → AreInterleaved a b → end_of goal.Run a ≡ Ended.Done → profile b ≡ profile a }
    ensures asides { (a b : Lines) → AreInterleaved a b → end_of goal.Run a ≡ Ended.Done
        → asides_of goal.Run b ≡ asides_of goal.Run a }
    ensures draw { (a b : Lines) → AreInterleaved a b → draw_of b ≡ draw_of a }
    ensures report { (a b : Lines) → AreInterleaved a b → end_of goal.Run a ≡ Ended.Done → report_of b ≡ report_of a }
{}

/// Two reviewers in another order of arrival, each with its own lines in order.
pub fn two_reviewers_in_another_order()
    ensures { AreInterleaved
        (codes "assign" ∷ codes "review a c 5" ∷ codes "review b d 7" ∷ codes "review a c 6" ∷ [])
        (codes "assign" ∷ codes "review b d 7" ∷ codes "review a c 5" ∷ codes "review a c 6" ∷ []) }
{}
