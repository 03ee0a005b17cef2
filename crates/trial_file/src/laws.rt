//! What follows from the definition of the trial file. Each function states it, and does nothing.

ghost use Rattle.std.specs.Prelude.{◌≡◌, ◌+◌, ◌*◌, ◌^◌, ◌<◌, ◌⊎◌, ℕ, length};
ghost use Rattle.house_model.specs.declared.goal.Goal.TheVariants as goal;
ghost use Rattle.house_model.specs.Ending.{Ended};
ghost use Rattle.house_model.specs.Runs.{end_of};
ghost use Rattle.house_model.specs.Report.{OutcomeParts};
ghost use Rattle.house_model.specs.Text.{Lines, lines};
ghost use Rattle.house_core.specs.Ends.{IsOutcome};
ghost use Rattle.trial_file.specs.Told.{all_chances, all_filled};
ghost use Rattle.trial_file.specs.Trial.{IsTrial, made_file, made_lines};

/// The lines of the trial file are those of which it was made: four, two for each applicant, and one for each review.
pub fn trial_files_have_their_lines()
    ensures read { (seed n l m k : ℕ) → IsTrial n l m k → lines (made_file seed n l m k) ≡ made_lines seed n l m k }
    ensures counted { (seed n l m k : ℕ) → length (made_lines seed n l m k) ≡ 4 + 2 * n + n * m }
{}

/// A run of the trial file for the report is done, or comes short of an assignment: no line is refused.
pub fn trial_files_are_never_refused()
    ensures { (seed n l m k : ℕ) → IsTrial n l m k →
        (end_of goal.Run (lines (made_file seed n l m k)) ≡ Ended.Done)
        ⊎ (end_of goal.Run (lines (made_file seed n l m k)) ≡ Ended.Short) }
{}

/// What the outcome of lines adds up to is of 64 bits.
pub fn sums_of_outcomes_fit()
    ensures { (lines : Lines) (o : OutcomeParts) → IsOutcome lines o →
        (all_filled o < 2 ^ 64) × (all_chances o < 2 ^ 64) }
{}
