//! Laws of what is drawn from a seed.

ghost use Rattle.std.specs.Prelude.{◌≡◌, ℕ, ◌+◌, ◌%◌, ◌<◌, Some, List, [], length, map, flat_map, slice_index_or, slice_get};
ghost use Rattle.std.specs.List.Sorted.{IsPermutation, IsSorted};
ghost use Rattle.house_base.specs.Text.{Text};
ghost use Rattle.house_model.specs.Register.{Register, persons, own_people, entry};
ghost use Rattle.house_model.specs.Seeds.{person_key, key_cmp, drawn_persons, drawn_cluster, drawn_place, drawn_register};

/// Sorted by their keys the persons stand by their ranks, the clusters are given to them in turn, and each applicant
/// stands at its place.
pub fn persons_are_sorted_by_keys()
    ensures persons { (seed : Text) (reg : Register) (keys : List (List ℕ × Text))
        → IsPermutation (map (person_key seed) (persons reg)) keys → IsSorted key_cmp keys
        → drawn_persons seed reg ≡ map (λ key. key.1) keys }
    ensures clusters { (seed : Text) (reg : Register) (keys : List (List ℕ × Text)) (clusters rank : ℕ)
        → IsPermutation (map (person_key seed) (persons reg)) keys → IsSorted key_cmp keys → rank < length keys
        → drawn_cluster seed clusters reg (slice_index_or (map (λ key. key.1) keys) rank []) ≡ 1 + rank % clusters }
    ensures places { (seed : Text) (reg : Register) (keys : List (List ℕ × Text)) (clusters i : ℕ) (a : Text × Text)
        → IsPermutation (map (person_key seed) (persons reg)) keys → IsSorted key_cmp keys
        → slice_get reg.applicants i ≡ Some a
        → slice_get (flat_map (own_people (drawn_register seed clusters reg)) (drawn_persons seed reg)) (drawn_place seed reg i)
        ≡ Some (entry (drawn_register seed clusters reg) (i, a)) }
{}
