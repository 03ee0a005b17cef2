//! Three splits of a dollar, and two calls that are worked through whole.

ghost use Rattle.std.specs.Prelude.{◌≡◌, ◌+◌, true, false, [], ◌∷◌, length, map};
ghost use Rattle.house_base.specs.Setting.{IsSetting};
ghost use Rattle.peer_selection.specs.Counting.{numbers_below};
ghost use Rattle.peer_selection.specs.Lottery.{seats, selected, filled, empty_seats};
ghost use Rattle.peer_selection.specs.Profile.{is_valid, denominator, score, cluster_cents, quota, rank};
ghost use Rattle.peer_selection.specs.Split.{cents_at};
ghost use Rattle.peer_selection.specs.Worked.{five, four};

/// A dollar is split by the largest remainder: in equal parts where there are no points, a cent more to the
/// first of these where it does not divide.
pub fn dollars_are_split()
    ensures unequal_points { let points = 2 ∷ 3 ∷ 2 ∷ [] in map (cents_at points) (numbers_below (length points))
        ≡ 285714 ∷ 428572 ∷ 285714 ∷ [] }
    ensures no_points { let points = 0 ∷ 0 ∷ 0 ∷ [] in map (cents_at points) (numbers_below (length points))
        ≡ 333334 ∷ 333333 ∷ 333333 ∷ [] }
    ensures one_proposal { cents_at (0 ∷ []) 0 ≡ 1_000_000 }
{}

/// Five applicants, each its own person, for four seats.
pub fn five_applicants_for_four_seats()
    ensures setting { IsSetting five.setting }
    ensures valid { is_valid five.setting five.pairs ≡ true }
    ensures over { denominator five.setting ≡ 5_000_000 }
    ensures scores { map (score five) (numbers_below 5)
        ≡ 2_000_000 ∷ 500_000 ∷ 500_000 ∷ 2_000_000 ∷ 0 ∷ [] }
    ensures cents { map (λ i. cluster_cents five (i + 1)) (numbers_below 3)
        ≡ 2_000_000 ∷ 1_000_000 ∷ 2_000_000 ∷ [] }
    ensures quotas { map (λ i. quota five (i + 1)) (numbers_below 3)
        ≡ 8_000_000 ∷ 4_000_000 ∷ 8_000_000 ∷ [] }
    ensures ranks { map (rank five) (numbers_below 5) ≡ 1 ∷ 1 ∷ 2 ∷ 1 ∷ 2 ∷ [] }
{}

/// The seats of the five at the least draw and at the greatest.
pub fn five_applicants_at_two_draws()
    ensures seats_at_least { map (λ i. seats five (i + 1) 0) (numbers_below 3) ≡ 2 ∷ 1 ∷ 1 ∷ [] }
    ensures filled_at_least { map (λ i. filled five (i + 1) 0) (numbers_below 3) ≡ 1 ∷ 1 ∷ 1 ∷ [] }
    ensures empty_at_least { empty_seats five 0 ≡ 1 }
    ensures selected_at_least { map (λ p. selected five p 0) (numbers_below 5)
        ≡ true ∷ true ∷ false ∷ true ∷ false ∷ [] }

    ensures seats_at_greatest { map (λ i. seats five (i + 1) 4_999_999) (numbers_below 3)
        ≡ 1 ∷ 1 ∷ 2 ∷ [] }
    ensures filled_at_greatest { map (λ i. filled five (i + 1) 4_999_999) (numbers_below 3)
        ≡ 1 ∷ 1 ∷ 2 ∷ [] }
    ensures empty_at_greatest { empty_seats five 4_999_999 ≡ 0 }
    ensures selected_at_greatest { map (λ p. selected five p 4_999_999) (numbers_below 5)
        ≡ true ∷ true ∷ false ∷ true ∷ true ∷ [] }
{}

/// A person with two applicants, and two persons with one each, for two seats.
pub fn one_person_with_two_applicants()
    ensures setting { IsSetting four.setting }
    ensures valid { is_valid four.setting four.pairs ≡ true }
    ensures over { denominator four.setting ≡ 3_000_000 }
    ensures scores { map (score four) (numbers_below 4)
        ≡ 1_000_000 ∷ 1_000_000 ∷ 500_000 ∷ 500_000 ∷ [] }
    ensures cents { map (λ i. cluster_cents four (i + 1)) (numbers_below 2)
        ≡ 2_000_000 ∷ 1_000_000 ∷ [] }
    ensures quotas { map (λ i. quota four (i + 1)) (numbers_below 2) ≡ 4_000_000 ∷ 2_000_000 ∷ [] }
    ensures ranks { map (rank four) (numbers_below 4) ≡ 1 ∷ 2 ∷ 1 ∷ 2 ∷ [] }
    ensures seats { map (λ i. seats four (i + 1) 0) (numbers_below 2) ≡ 2 ∷ 0 ∷ [] }
    ensures selected { map (λ p. selected four p 0) (numbers_below 4)
        ≡ true ∷ true ∷ false ∷ false ∷ [] }
{}
