//! What is promised of the lines of a call. It is proved once, here, and the functions have nothing to do.

ghost use Rattle.std.specs.Prelude.{◌≡◌, ℕ, List};
ghost use Rattle.house_model.specs.declared.goal.Goal.TheVariants as goal;
ghost use Rattle.house_model.specs.Ending.{Ended};
ghost use Rattle.house_model.specs.Headline.{AreOfCall, ChancesAreCounted, OwnReviewsChangeNoChance, SeatsAreQuotasRounded, QuotasAreMeans, OrderOfArrivalChangesNothing, HasValidAssignment, SealIsKept};
ghost use Rattle.house_model.specs.Runs.{end_of, taken, report_of};
ghost use Rattle.house_model.specs.Text.{Lines};

/// What holds of the lines of a whole call and of the report that is printed: each chance in it is counted over all
/// draws, and no applicant's chance depends on what its person writes or leaves out as a reviewer; the seats are the
/// quotas, rounded, and over all draws the quotas; in which order the lines of different reviewers arrive decides
/// nothing; the assignment is valid, and the draw keeps to the seal.
pub fn whole_calls_keep_the_promise()
    ensures counted { (lines : Lines) (text : List ℕ) → AreOfCall lines → text ≡ report_of lines
        → ChancesAreCounted lines text }
    ensures isolated { (lines : Lines) (text : List ℕ) → AreOfCall lines → text ≡ report_of lines
        → OwnReviewsChangeNoChance lines text }
    ensures rounded { (lines : Lines) → AreOfCall lines → SeatsAreQuotasRounded lines }
    ensures means { (lines : Lines) → AreOfCall lines → QuotasAreMeans lines }
    ensures order { (lines : Lines) → AreOfCall lines → OrderOfArrivalChangesNothing lines }
    ensures assigned { (lines : Lines) → AreOfCall lines → HasValidAssignment goal.Run lines }
    ensures sealed { (lines : Lines) → AreOfCall lines → SealIsKept lines }
{}

/// The assignment that settles what was asked for, where it is printed, is valid.
pub fn printed_pairs_are_valid()
    ensures { (lines : Lines) → end_of goal.Pairs lines ≡ Ended.Settled
        → HasValidAssignment goal.Pairs (taken goal.Pairs lines) }
{}
