//! Laws of the marks that the draws of systematic sampling put on the line of the quotas.

ghost use Rattle.std.specs.Prelude.{◌≡◌, ℕ, ◌+◌, ◌-◌, ◌<◌, ◌≤◌, nat_le};
ghost use Rattle.house_base.specs.Setting.{size, cluster_at};
ghost use Rattle.peer_selection.specs.Counting.{count_below, sum_below};
ghost use Rattle.peer_selection.specs.Laws.{IsAssigned, IsRounded};
ghost use Rattle.peer_selection.specs.Lottery.{seats, chance};
ghost use Rattle.peer_selection.specs.Marks.{marks};
ghost use Rattle.peer_selection.specs.Profile.{Profile, denominator, quota, cumulative_quota, rank};

/// A draw puts as many marks into a stretch as its width says, rounded down or up; all draws together put one mark
/// on each number of the stretch.
pub fn marks_lie_evenly()
    ensures rounded { (start width den draw : ℕ) → draw < den → IsRounded (marks start width den draw) width den }
    ensures all { (start width den : ℕ) → 1 ≤ den → sum_below (marks start width den) den ≡ width }
{}

/// The seats of a cluster are the marks in its stretch of the line, and the chance of an applicant counts the draws
/// that put as many marks into the stretch of its cluster as its rank says, or more.
pub fn seats_are_marks()
    ensures seats { (f : Profile) (i v : ℕ) → IsAssigned f → i < f.setting.clusters
        → seats f (i + 1) v ≡ marks (cumulative_quota f i) (quota f (i + 1)) (denominator f.setting) v }
    ensures chance { (f : Profile) (p : ℕ) → IsAssigned f → p < size f.setting → let j = cluster_at f.setting p in
        chance f p ≡ count_below
        (λ v. nat_le (rank f p) (marks (cumulative_quota f (j - 1)) (quota f j) (denominator f.setting) v))
        (denominator f.setting) }
{}
