//! Laws of the register of a call.

ghost use Rattle.std.specs.Prelude.{◌≡◌, ◌≢◌, ℕ, ◌<◌, ◌≤◌, All, IsTrue, Option, Some, length, slice_get};
ghost use Rattle.std.specs.List.Sorted.{IsPermutation};
ghost use Rattle.house_base.specs.declared.limits.TheConstants.{MOST_SEATS, FEWEST_CLUSTERS, MOST_CLUSTERS, MOST_REVIEWS};
ghost use Rattle.house_base.specs.Setting.{IsSetting};
ghost use Rattle.house_base.specs.Text.{Text};
ghost use Rattle.peer_selection.specs.Profile.{denominator};
ghost use Rattle.house_model.specs.ReadBack.{HasFormedNames};
ghost use Rattle.house_model.specs.Register.{Register, IsRegister, persons, all_placed, registered_setting, people, place, entry};
ghost use Rattle.house_model.specs.Said.{denominator_of};
ghost use Rattle.house_model.specs.Seeds.{drawn_persons, seeded_setting};

/// A register makes a setting, once somebody applied and each person has its cluster.
pub fn register_makes_setting()
    ensures setting { (seats clusters reviews : ℕ) (reg : Register) → IsRegister reg → 1 ≤ length reg.applicants
        → IsTrue (all_placed reg)
        → (1 ≤ seats) × (seats ≤ MOST_SEATS) → (FEWEST_CLUSTERS ≤ clusters) × (clusters ≤ MOST_CLUSTERS)
        → (1 ≤ reviews) × (reviews ≤ MOST_REVIEWS)
        → All (λ p. (1 ≤ p.1) × (p.1 ≤ clusters)) reg.placed
        → IsSetting (registered_setting seats clusters reviews reg) }
    ensures people { (reg : Register) → length (people reg) ≡ length reg.applicants }
{}

/// With a seed a register makes a setting too, in which each person has the cluster that is drawn for it; and with a seed
/// or without, each person counts once in the denominator, and the names are those of the register.
pub fn register_makes_seeded_setting()
    ensures setting { (seed : Text) (seats clusters reviews : ℕ) (reg : Register) → IsRegister reg
        → 1 ≤ length reg.applicants → (1 ≤ seats) × (seats ≤ MOST_SEATS)
        → (FEWEST_CLUSTERS ≤ clusters) × (clusters ≤ MOST_CLUSTERS) → (1 ≤ reviews) × (reviews ≤ MOST_REVIEWS)
        → IsSetting (seeded_setting (Some seed) seats clusters reviews reg) }
    ensures persons { (seed : Text) (reg : Register) → IsPermutation (persons reg) (drawn_persons seed reg) }
    ensures denominator { (seed : Option Text) (seats clusters reviews : ℕ) (reg : Register)
        → denominator (seeded_setting seed seats clusters reviews reg) ≡ denominator_of reg }
    ensures names { (seed : Option Text) (seats clusters reviews : ℕ) (reg : Register) → IsRegister reg
        → HasFormedNames (seeded_setting seed seats clusters reviews reg) }
{}

/// Each applicant has a place of its own, at which it stands.
pub fn applicants_have_places()
    ensures below { (reg : Register) (i : ℕ) → i < length reg.applicants → place reg i < length reg.applicants }
    ensures apart { (reg : Register) (i j : ℕ) → i < length reg.applicants → j < length reg.applicants → i ≢ j
        → place reg i ≢ place reg j }
    ensures stands { (reg : Register) (i : ℕ) (a : Text × Text) → slice_get reg.applicants i ≡ Some a
        → slice_get (people reg) (place reg i) ≡ Some (entry reg (i, a)) }
{}
