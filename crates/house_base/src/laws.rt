//! What follows from the definitions that the contracts cite. Each function states it, and does nothing.

ghost use Rattle.std.specs.Prelude.{◌≡◌, ◌≢◌, ℕ, ◌-◌, ◌^◌, ◌<◌, List, IsTrue, Some, Contains};
ghost use Rattle.std.specs.Fmt.{decimal};
ghost use Rattle.house_base.specs.declared.plan.Owner.{Owner};
ghost use Rattle.house_base.specs.Number.{number_up_to};
ghost use Rattle.house_base.specs.Setting.{Setting, IsSetting, IsOwned, cluster_at, distance, may, owner_from};

/// Over one reviewer the proposals have the distances below the number of places, each once. The reviewer's
/// own place has the last.
pub fn distances_are_distinct()
    ensures below { (n reviewer proposal : ℕ) → 0 < n → distance n reviewer proposal < n }
    ensures distinct { (n reviewer p q : ℕ) → reviewer < n → p < n → q < n →
        distance n reviewer p ≡ distance n reviewer q → p ≡ q }
    ensures own_place_last { (n reviewer : ℕ) → reviewer < n → distance n reviewer reviewer ≡ n - 1 }
{}

/// A person reviews no applicant of its own cluster, and so none of its own.
pub fn reviewers_stand_outside()
    ensures other_cluster { (s : Setting) (reviewer proposal : ℕ) → IsTrue (may s reviewer proposal) →
        cluster_at s reviewer ≢ cluster_at s proposal }
    ensures none_of_its_own { (s : Setting) (owner : Owner) (proposal : ℕ) → IsSetting s →
        Contains s.owners owner → IsOwned owner proposal → IsTrue (may s owner.first proposal) → ⊥ }
{}

/// Each applicant belongs to one person alone, and each person is found by its first place.
pub fn applicants_have_one_owner()
    ensures one { (s : Setting) (a b : Owner) (place : ℕ) → IsSetting s → Contains s.owners a →
        Contains s.owners b → IsOwned a place → IsOwned b place → a ≡ b }
    ensures found { (s : Setting) (owner : Owner) → IsSetting s → Contains s.owners owner →
        owner_from s owner.first ≡ Some owner }
{}

/// The canonical form of a number is what it prints as, and nothing else.
pub fn canonical_form_is_printed_form()
    ensures printed { (n : ℕ) → n < 2 ^ 64 → number_up_to (2 ^ 64 - 1) (decimal n) ≡ Some n }
    ensures only { (most : ℕ) (text : List ℕ) (n : ℕ) → most < 2 ^ 64 →
        number_up_to most text ≡ Some n → text ≡ decimal n }
{}
