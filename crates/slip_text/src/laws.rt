//! What follows for the lines of a whole call. Each function states it, and does nothing.

ghost use Rattle.std.specs.Prelude.{◌≡◌, None};
ghost use Rattle.house_base.specs.Text.{Text};
ghost use Rattle.house_model.specs.Headline.{AreOfCall};
ghost use Rattle.house_model.specs.Reviews.{profile};
ghost use Rattle.house_model.specs.Text.{Lines};
ghost use Rattle.slip_check.specs.Limits.{IsRight};
ghost use Rattle.slip_text.specs.Told.{OwnReviewsAreInNoSlip, PrintsChances, slip_told};

/// What a person writes as a reviewer is in no slip of its own applicants.
pub fn own_reviews_are_in_no_slip()
    ensures { (name : Text) (lines : Lines) → AreOfCall lines →
        OwnReviewsAreInNoSlip name lines (slip_told name (profile lines)) }
{}

/// A text whose printed chance is what its slip is worth gives the applicant of its name that chance, in every call whose
/// slip of this name it is behind the first line.
pub fn right_slips_print_chances()
    ensures { (bytes : Text) → IsRight bytes → PrintsChances bytes }
{}
