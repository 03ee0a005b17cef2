//! Laws of the mechanism, over all profiles. Each is proved once, here, and the functions have nothing to do.

ghost use Rattle.std.specs.Prelude.{◌≡◌, ℕ, ◌<◌, ◌↔◌, List, length, IsTrue, All};
ghost use Rattle.house_base.specs.Setting.{Setting, size};
ghost use Rattle.house_base.specs.declared.limits.TheConstants.{DOLLAR};
ghost use Rattle.peer_selection.specs.Counting.{sum_below};
ghost use Rattle.peer_selection.specs.Laws.{IsValid, IsAssigned, HoldsReviews, RisesInDistance};
ghost use Rattle.peer_selection.specs.Laws.{DollarIsGiven, DollarsAreShared, QuotasFillTheSeats};
ghost use Rattle.peer_selection.specs.Laws.{SeatsAreGiven, QuotasAreRounded, SeatsAreFilled, SeatsAreCounted};
ghost use Rattle.peer_selection.specs.Laws.{RankIsInCluster, ShareCluster};
ghost use Rattle.peer_selection.specs.Laws.{QuotaIsTheMean, ChanceIsExact};
ghost use Rattle.peer_selection.specs.Laws.{KeepsScore, KeepsRank, KeepsQuota, KeepsChance};
ghost use Rattle.peer_selection.specs.Profile.{Pairs, Profile, is_valid, row, score, rank};
ghost use Rattle.peer_selection.specs.Split.{cents_at, left_over};

/// A dollar is split whole, whatever the points; of the cents that the whole parts of the shares leave over, no
/// proposal gets two.
pub fn dollar_is_split_whole()
    ensures whole { (points : List ℕ) → 0 < length points → sum_below (cents_at points) (length points) ≡ DOLLAR }
    ensures few { (points : List ℕ) → 0 < length points → left_over points < length points }
{}

/// The test of an assignment says just what a valid one is.
pub fn valid_assignment()
    ensures { (s : Setting) (pairs : Pairs) → IsTrue (is_valid s pairs) ↔ IsValid s pairs }
{}

/// The row of a reviewer has the applicants that it reviews, each once, by rising distance.
pub fn rows_rise_in_distance()
    ensures holds { (f : Profile) (r : ℕ) → r < size f.setting → HoldsReviews f r }
    ensures within { (f : Profile) (r : ℕ) → r < size f.setting → All (λ p. p < size f.setting) (row f r) }
    ensures rises { (f : Profile) (r : ℕ) → r < size f.setting → RisesInDistance f r }
{}

/// Where an assignment is valid, the persons' dollars all reach the clusters, and the quotas fill the seats.
pub fn dollars_reach_the_clusters()
    ensures given { (f : Profile) (r : ℕ) → IsAssigned f → DollarIsGiven f r }
    ensures shared { (f : Profile) → IsAssigned f → DollarsAreShared f }
    ensures filled { (f : Profile) → IsAssigned f → QuotasFillTheSeats f }
{}

/// At each draw all seats are given, and each cluster gets its quota, rounded down or up.
pub fn seats_are_given()
    ensures all { (f : Profile) (v : ℕ) → IsAssigned f → SeatsAreGiven f v }
    ensures rounded { (f : Profile) (v : ℕ) → IsAssigned f → QuotasAreRounded f v }
{}

/// The ranks of a cluster's members are their places in the order of falling score.
pub fn ranks_follow_scores()
    ensures within { (f : Profile) (p : ℕ) → RankIsInCluster f p }
    ensures differ { (f : Profile) (p q : ℕ) → ShareCluster f p q → rank f p ≡ rank f q → p ≡ q }
    ensures fall { (f : Profile) (p q : ℕ) → ShareCluster f p q → score f q < score f p → rank f p < rank f q }
{}

/// At each draw a cluster's members of best rank are selected, as many as it has seats or members; with the seats
/// that stay empty they are all the seats.
pub fn seats_are_filled_by_rank()
    ensures cluster { (f : Profile) (j v : ℕ) → SeatsAreFilled f j v }
    ensures all { (f : Profile) (v : ℕ) → IsAssigned f → SeatsAreCounted f v }
{}

/// Over all draws a cluster gets its quota of seats, as in Madow's systematic sampling, and so an applicant's
/// chance is known without trying a draw.
pub fn quotas_are_chances()
    ensures mean { (f : Profile) (i : ℕ) → IsAssigned f → QuotaIsTheMean f i }
    ensures exact { (f : Profile) (p : ℕ) → IsAssigned f → ChanceIsExact f p }
{}

/// The mechanism is impartial: whatever points a person gives, no score, rank, quota or chance in its own cluster
/// changes, so none of its own applicants gains by them. (At a given draw the selection may change.)
pub fn own_points_change_no_own_chance()
    ensures scores { (f : Profile) (reviewer p : ℕ) (points : ℕ → ℕ) → IsAssigned f → KeepsScore f reviewer points p }
    ensures ranks { (f : Profile) (reviewer p : ℕ) (points : ℕ → ℕ) → IsAssigned f → KeepsRank f reviewer points p }
    ensures quotas { (f : Profile) (reviewer : ℕ) (points : ℕ → ℕ) → IsAssigned f → KeepsQuota f reviewer points }
    ensures chances { (f : Profile) (reviewer p : ℕ) (points : ℕ → ℕ) → IsAssigned f → KeepsChance f reviewer points p }
{}
