//! Laws of how runs end. Each is proved once, here, and the functions have nothing to do.

ghost use Rattle.std.specs.Prelude.{◌≡◌, ◌↔◌, ℕ, false, List, Some, None, All, IsTrue};
ghost use Rattle.house_base.specs.Name.{is_name};
ghost use Rattle.house_base.specs.Text.{Text};
ghost use Rattle.peer_selection.specs.FirstAssignment.{IsFirst, has_assignment};
ghost use Rattle.peer_selection.specs.Profile.{is_valid};
ghost use Rattle.house_model.specs.declared.goal.Goal.{Goal};
ghost use Rattle.house_model.specs.declared.goal.Goal.TheVariants as goal;
ghost use Rattle.house_model.specs.declared.verb.Verb.TheVariants as verb;
ghost use Rattle.house_model.specs.Ending.{Ended, stop_of};
ghost use Rattle.house_model.specs.Faults.{fault, looks_at_pairs};
ghost use Rattle.house_model.specs.Headline.{ComesShort, IsDrawnUnder};
ghost use Rattle.house_model.specs.Runs.{halt, looked_at, end_of, taken};
ghost use Rattle.house_model.specs.Said.{register, setting, seal_of, has_pairs, run_pairs, assigned};
ghost use Rattle.house_model.specs.Seeds.{seed_seal};
ghost use Rattle.house_model.specs.Text.{Lines, word};
ghost use Rattle.house_model.specs.Verbs.{commands};

/// A run ends short exactly where the lines that are looked at come to an assignment that has no fault and is looked
/// for, and no pairs are valid.
pub fn shortages_end_runs()
    ensures { (g : Goal) (lines : Lines) → (end_of g lines ≡ Ended.Short) ↔ ComesShort g (looked_at g lines) }
{}

/// Where an assignment ends no run, some pairs are valid: those of the run, where the goal looks at them. Where none
/// were made by hand, they are the first valid ones.
pub fn accepted_assignments_are_valid()
    ensures some { (g : Goal) (before : Lines) (line : Text) → IsTrue (commands verb.Assign line)
        → halt g before line ≡ None → IsTrue (has_assignment (setting before)) }
    ensures valid { (g : Goal) (before : Lines) (line : Text) → IsTrue (commands verb.Assign line)
        → halt g before line ≡ None → IsTrue (looks_at_pairs g)
        → IsTrue (is_valid (setting before) (run_pairs before)) }
    ensures first { (g : Goal) (before : Lines) (line : Text) → IsTrue (commands verb.Assign line)
        → halt g before line ≡ None → has_pairs before ≡ false → IsFirst (setting before) (run_pairs before) }
{}

/// Where no line ends the run, the names of the applicants on record and of their persons are of their form.
pub fn accepted_names_are_formed()
    ensures { (g : Goal) (lines : Lines) → stop_of (halt g) lines ≡ None
        → All (λ a. IsTrue (is_name a.0) × IsTrue (is_name a.1)) (register lines).applicants }
{}

/// What is settled holds of the lines that were taken: some pairs are valid. Those that are printed are, and where none
/// were made by hand, they are the first valid ones.
pub fn settled_goals_are_reached()
    ensures some { (g : Goal) (lines : Lines) → end_of g lines ≡ Ended.Settled
        → IsTrue (has_assignment (setting (taken g lines))) }
    ensures valid { (lines : Lines) → end_of goal.Pairs lines ≡ Ended.Settled
        → IsTrue (is_valid (setting (taken goal.Pairs lines)) (assigned goal.Pairs (taken goal.Pairs lines))) }
    ensures first { (lines : Lines) → end_of goal.Pairs lines ≡ Ended.Settled
        → has_pairs (taken goal.Pairs lines) ≡ false
        → IsFirst (setting (taken goal.Pairs lines)) (assigned goal.Pairs (taken goal.Pairs lines)) }
{}

/// A call whose report is printed has pairs to be printed, and one that has is feasible.
pub fn goals_agree()
    ensures pairs { (lines : Lines) → end_of goal.Run lines ≡ Ended.Done → end_of goal.Pairs lines ≡ Ended.Settled }
    ensures feasible { (lines : Lines) → end_of goal.Pairs lines ≡ Ended.Settled
        → end_of goal.Feasible lines ≡ Ended.Settled }
{}

/// Under a seal no draw is given by its number, and a lottery has a seed with this seal. So the draw of a call with a
/// seal is that of such a seed, once its report is printed.
pub fn seals_are_kept()
    ensures draw { (g : Goal) (before : Lines) (line : Text) → fault g before line ≡ None
        → IsTrue (commands verb.Draw line) → seal_of before ≡ None }
    ensures lottery { (g : Goal) (before : Lines) (line : Text) → fault g before line ≡ None → (seal : List ℕ)
        → IsTrue (commands verb.Lottery line) → seal_of before ≡ Some seal → seed_seal (word line 1) ≡ seal }
    ensures call { (lines : Lines) (seal : List ℕ) → end_of goal.Run lines ≡ Ended.Done → seal_of lines ≡ Some seal
        → IsDrawnUnder seal lines }
{}
