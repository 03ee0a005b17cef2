//! Laws of isolation: what a person writes as a reviewer has no part in the chances of its own applicants. Each is
//! proved once, here, and the functions have nothing to do.

ghost use Rattle.std.specs.Prelude.{◌≡◌, ◌≢◌, ℕ, ◌↔◌, [], ◌∷◌, codes};
ghost use Rattle.house_base.specs.Setting.{cluster_at};
ghost use Rattle.house_base.specs.Text.{Text};
ghost use Rattle.peer_selection.specs.Lottery.{chance};
ghost use Rattle.peer_selection.specs.Profile.{score, rank, quota};
ghost use Rattle.house_model.specs.declared.goal.Goal.{Goal};
ghost use Rattle.house_model.specs.Ending.{Rule, Ended, ended, unnumbered};
ghost use Rattle.house_model.specs.Isolation.{without, GiveAssignment, IsApplicantOf, IgnoresReviews};
ghost use Rattle.house_model.specs.Register.{reviewer_at};
ghost use Rattle.house_model.specs.Reviews.{profile, points_of};
ghost use Rattle.house_model.specs.Said.{register, setting, assigned, seed_of, seal_of, phase_after, draw_of};
ghost use Rattle.house_model.specs.Text.{Lines};
ghost use Rattle.house_model.specs.Runs.{halt, end_of, taken};

/// Without the review lines of one person the lines give the same call, assignment, seed, seal, phase and draw.
pub fn reviews_are_not_on_record()
    ensures register { (name : Text) (lines : Lines) → register (without name lines) ≡ register lines }
    ensures setting { (name : Text) (lines : Lines) → setting (without name lines) ≡ setting lines }
    ensures assigned { (g : Goal) (name : Text) (lines : Lines) → assigned g (without name lines) ≡ assigned g lines }
    ensures seed { (name : Text) (lines : Lines) → seed_of (without name lines) ≡ seed_of lines }
    ensures seal { (name : Text) (lines : Lines) → seal_of (without name lines) ≡ seal_of lines }
    ensures phase { (name : Text) (lines : Lines) → phase_after (without name lines) ≡ phase_after lines }
    ensures draw { (name : Text) (lines : Lines) → draw_of (without name lines) ≡ draw_of lines }
{}

/// What is left out is left out for good: so the lines without those of one person differ from all in these alone.
pub fn reviews_are_left_out_once()
    ensures { (name : Text) (lines : Lines) → without name (without name lines) ≡ without name lines }
{}

/// Without the review lines of one person its points are 0, and those of every other reviewer are what they were.
pub fn reviews_of_one_person_give_its_points()
    ensures own { (name : Text) (lines : Lines) (r p : ℕ) → reviewer_at (setting lines) r ≡ name
        → points_of (without name lines) r p ≡ 0 }
    ensures others { (name : Text) (lines : Lines) (r p : ℕ) → reviewer_at (setting lines) r ≢ name
        → points_of (without name lines) r p ≡ points_of lines r p }
{}

/// A person's own review lines have no part in the score, the rank, the cluster's quota and the chance of any of
/// its applicants: they are what they are without these lines. So they are the same in two lists of lines that
/// differ in nothing else.
pub fn own_reviews_change_no_own_chance()
    ensures score { (name : Text) (lines : Lines) (p : ℕ) → GiveAssignment lines → IsApplicantOf name lines p
        → score (profile (without name lines)) p ≡ score (profile lines) p }
    ensures rank { (name : Text) (lines : Lines) (p : ℕ) → GiveAssignment lines → IsApplicantOf name lines p
        → rank (profile (without name lines)) p ≡ rank (profile lines) p }
    ensures quota { (name : Text) (lines : Lines) (p : ℕ) → GiveAssignment lines → IsApplicantOf name lines p
        → quota (profile (without name lines)) (cluster_at (setting lines) p)
        ≡ quota (profile lines) (cluster_at (setting lines) p) }
    ensures chance { (name : Text) (lines : Lines) (p : ℕ) → GiveAssignment lines → IsApplicantOf name lines p
        → chance (profile (without name lines)) p ≡ chance (profile lines) p }
    ensures two_lists { (name : Text) (lines others : Lines) (p : ℕ) → GiveAssignment lines → IsApplicantOf name lines p
        → without name lines ≡ without name others → chance (profile lines) p ≡ chance (profile others) p }
{}

/// Without the review lines of one person a run ends alike, at another line at most, and the same other lines are taken.
pub fn reviews_end_no_run()
    ensures any_rule { (rule : Rule) (name : Text) (lines : Lines) → IgnoresReviews rule
        → unnumbered (ended rule (without name lines)) ≡ unnumbered (ended rule lines) }
    ensures halt { (g : Goal) → IgnoresReviews (halt g) }
    ensures run { (g : Goal) (name : Text) (lines : Lines)
        → unnumbered (end_of g (without name lines)) ≡ unnumbered (end_of g lines) }
    ensures done { (g : Goal) (name : Text) (lines : Lines)
        → (end_of g (without name lines) ≡ Ended.Done) ↔ (end_of g lines ≡ Ended.Done) }
    ensures taken { (g : Goal) (name : Text) (lines : Lines)
        → taken g (without name lines) ≡ without name (taken g lines) }
{}

/// Of these lines, the review lines of a are taken out, and no other.
pub fn lines_without_one_reviewer()
    ensures { without (codes "a") (codes "assign" ∷ codes "review a c 5" ∷ codes "review b a 7" ∷ codes "review" ∷ [])
        ≡ codes "assign" ∷ codes "review b a 7" ∷ codes "review" ∷ [] }
{}
