//! Laws of slips. Each is proved once, here, and the functions have nothing to do.

ghost use Rattle.std.specs.Prelude.{◌≡◌, ℕ, ◌*◌, ◌^◌, ◌<◌, None, drop};
ghost use Rattle.house_base.specs.Setting.{Setting, name_at, size};
ghost use Rattle.house_base.specs.Text.{Text};
ghost use Rattle.house_base.specs.declared.limits.TheConstants.{DOLLAR};
ghost use Rattle.house_model.specs.Headline.{AreOfCall};
ghost use Rattle.house_model.specs.Isolation.{GiveAssignment, IsApplicantOf, without};
ghost use Rattle.house_model.specs.Reviews.{profile};
ghost use Rattle.house_model.specs.Text.{Lines};
ghost use Rattle.peer_selection.specs.Laws.{IsAssigned, IsInClusterOf, with_points};
ghost use Rattle.peer_selection.specs.Lottery.{chance};
ghost use Rattle.peer_selection.specs.Profile.{Pairs, Points, Profile, profile_on};
ghost use Rattle.slip_check.specs.Form.{fault_in, rows_of, slip_in};
ghost use Rattle.slip_check.specs.Limits.{GivesSlips, IsRight, IsSlip, Says};
ghost use Rattle.slip_check.specs.Places.{AgreeAtPlaces};
ghost use Rattle.slip_check.specs.Slip.{Slip, printed_slip, slip_of, slip_text, worth};
ghost use Rattle.command_text.specs.Strict.{fed_lines};

/// The slip of an applicant is worth its chance: the cents of a ballot go by the order in its line, the members' scores
/// are what the ballots give, and the draws that reach a rank are as many wherever the cluster's stretch begins.
pub fn worth_is_the_chance()
    ensures { (f : Profile) (p : ℕ) → IsAssigned f → p < size f.setting → worth (slip_of f p) ≡ chance f p }
{}

/// The text of a slip within the limits of a call is of the form, and reads back as the slip and the chance that it
/// prints; the slip of an applicant is one, and a check of it says yes. What a text is worth is told by its name and the
/// lines behind its first: the chance that the first line prints has no part in it. So whatever text is of the form, names
/// an applicant, and has the lines of its slip behind the first, is worth its chance. The lines of a whole call give such
/// slips.
pub fn slips_read_back()
    ensures text { (s : Slip) (chance : ℕ) → IsSlip s → chance < 2 ^ 64
        → Says (slip_text chance (s.persons * DOLLAR) s) s chance }
    ensures within { (f : Profile) (p : ℕ) → GivesSlips f → p < size f.setting → IsSlip (slip_of f p) }
    ensures own { (f : Profile) (p : ℕ) → GivesSlips f → p < size f.setting
        → Says (printed_slip f p) (slip_of f p) (chance f p) }
    ensures right { (f : Profile) (p : ℕ) → GivesSlips f → p < size f.setting → IsRight (printed_slip f p) }
    ensures behind_the_first { (a b : Text) → fault_in a ≡ None → fault_in b ≡ None
        → drop 1 (fed_lines a) ≡ drop 1 (fed_lines b) → (slip_in (rows_of a)).name ≡ (slip_in (rows_of b)).name
        → worth (slip_in (rows_of a)) ≡ worth (slip_in (rows_of b)) }
    ensures worth { (f : Profile) (p : ℕ) (bytes : Text) → GivesSlips f → p < size f.setting → fault_in bytes ≡ None
        → (slip_in (rows_of bytes)).name ≡ name_at f.setting p
        → drop 1 (fed_lines bytes) ≡ drop 1 (fed_lines (printed_slip f p)) → worth (slip_in (rows_of bytes)) ≡ chance f p }
    ensures call { (lines : Lines) → AreOfCall lines → GivesSlips (profile lines) }
{}

/// A slip looks at the pairs and the points of places alone: where these agree, it is the same, and so is its text,
/// chance and all.
pub fn slips_look_at_places_alone()
    ensures { (s : Setting) (a b : Pairs) (x y : Points) (p : ℕ) → IsAssigned (profile_on s a x)
        → AgreeAtPlaces s a b x y → p < size s → printed_slip (profile_on s a x) p ≡ printed_slip (profile_on s b y) p }
{}

/// What a person writes as a reviewer is in no slip of its own cluster: with other points of a reviewer, and without the
/// review lines of a person, the slip of each of these applicants is the same, and so is its text, chance and all.
pub fn own_reviews_are_in_no_own_slip()
    ensures points { (f : Profile) (reviewer p : ℕ) (points : ℕ → ℕ) → IsAssigned f → IsInClusterOf f reviewer p
        → slip_of (with_points f reviewer points) p ≡ slip_of f p }
    ensures points_text { (f : Profile) (reviewer p : ℕ) (points : ℕ → ℕ) → IsAssigned f → IsInClusterOf f reviewer p
        → printed_slip (with_points f reviewer points) p ≡ printed_slip f p }
    ensures lines { (name : Text) (lines : Lines) (p : ℕ) → GiveAssignment lines → IsApplicantOf name lines p
        → slip_of (profile (without name lines)) p ≡ slip_of (profile lines) p }
    ensures lines_text { (name : Text) (lines : Lines) (p : ℕ) → GiveAssignment lines → IsApplicantOf name lines p
        → printed_slip (profile (without name lines)) p ≡ printed_slip (profile lines) p }
{}
