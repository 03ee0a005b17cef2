//! Laws of withdrawals. Each is proved once, here, and the functions have nothing to do.
//!
//! Nothing is claimed of what the withdrawal of one applicant is worth to another of its cluster, and so nothing of
//! bargains between them.

ghost use Rattle.std.specs.Prelude.{◌≡◌, ℕ, ◌+◌, ◌-◌, ◌*◌, ◌<◌, ◌≤◌, List, Ok, false, length, min, true};
ghost use Rattle.house_base.specs.Setting.{cluster_at, size};
ghost use Rattle.house_base.specs.Text.{Text};
ghost use Rattle.house_base.specs.declared.answer.Asides.{Asides};
ghost use Rattle.house_model.specs.Headline.{AreOfCall};
ghost use Rattle.house_model.specs.Isolation.{GiveAssignment, IsApplicantOf, without};
ghost use Rattle.house_model.specs.Report.{outcome_of};
ghost use Rattle.house_model.specs.Reviews.{profile};
ghost use Rattle.house_model.specs.Said.{setting};
ghost use Rattle.house_model.specs.Text.{Lines, lines};
ghost use Rattle.peer_selection.specs.Counting.{count_below};
ghost use Rattle.peer_selection.specs.Laws.{IsAssigned, IsInClusterOf, with_points};
ghost use Rattle.peer_selection.specs.Lottery.{chance};
ghost use Rattle.peer_selection.specs.Profile.{Profile, denominator, quota};
ghost use Rattle.reserve_list.specs.Board.{BoardParts, IsBoard, IsRanked, board_after, count_of, empty_on, fresh_board, holds_on, seats_up_to};
ghost use Rattle.reserve_list.specs.Laws.{AgreeBeside, MoreHaveGone, HaveSameMembers, IsOfMechanism, places_gone, places_named, text_after};
ghost use Rattle.reserve_list.specs.Leaving.{board_text, leaving, left_board};
ghost use Rattle.reserve_list.specs.Reserve.{Withdrawn, chance_after, holds_after, reserve_rank};
ghost use Rattle.reserve_list.specs.Told.{PassesSeatsOn, reserve_told};

/// The outcome of a valid assignment at one of its draws makes a board.
pub fn outcomes_make_boards()
    ensures { (f : Profile) (asides : Asides) (v : ℕ) → IsAssigned f → v < denominator f.setting
        → IsRanked (outcome_of f asides v) }
{}

/// The board of such an outcome says what the mechanism does, whoever has withdrawn: who holds a seat, each one's chance,
/// how many seats nobody holds, and so what is written of it.
pub fn boards_are_of_the_mechanism()
    ensures places { (f : Profile) (asides : Asides) (v : ℕ) (b : BoardParts) → IsAssigned f → v < denominator f.setting
        → b.outcome ≡ outcome_of f asides v → IsOfMechanism f v (places_gone f.setting b) b }
    ensures names { (f : Profile) (asides : Asides) (v : ℕ) (names : List Text) → IsAssigned f
        → v < denominator f.setting
        → IsOfMechanism f v (places_named f.setting names) (board_after (fresh_board (outcome_of f asides v)) names) }
    ensures text { (f : Profile) (asides : Asides) (v : ℕ) (names : List Text) → IsAssigned f → v < denominator f.setting
        → board_text (board_after (fresh_board (outcome_of f asides v)) names)
        ≡ text_after f v (places_named f.setting names) }
{}

/// The chance of one that stays is read off its cluster's quota, with its rank among those that stay; that of one that has
/// withdrawn is nothing.
pub fn chances_after_are_exact()
    ensures stays { (f : Profile) (gone : Withdrawn) (p : ℕ) → IsAssigned f → p < size f.setting → gone p ≡ false
        → chance_after f gone p ≡ min (denominator f.setting)
        (quota f (cluster_at f.setting p) - (reserve_rank f gone p - 1) * denominator f.setting) }
    ensures gone { (f : Profile) (gone : Withdrawn) (p : ℕ) → gone p ≡ true → chance_after f gone p ≡ 0 }
{}

/// Nobody who stays loses by it that others withdraw: it keeps its seat, and its chance does not fall. Who withdraws in
/// another cluster has no part in it; with nobody of its own cluster withdrawn the chance is what it was.
pub fn nobody_who_stays_falls()
    ensures seats { (f : Profile) (gone more : Withdrawn) (p v : ℕ) → MoreHaveGone f gone more → more p ≡ false
        → holds_after f gone p v ≡ true → holds_after f more p v ≡ true }
    ensures chances { (f : Profile) (gone more : Withdrawn) (p : ℕ) → MoreHaveGone f gone more → more p ≡ false
        → chance_after f gone p ≤ chance_after f more p }
    ensures apart { (f : Profile) (gone other : Withdrawn) (p : ℕ) → p < size f.setting → AgreeBeside f p gone other
        → chance_after f gone p ≡ chance_after f other p }
    ensures untouched { (f : Profile) (gone : Withdrawn) (p : ℕ) → p < size f.setting
        → AgreeBeside f p gone (λ q. false) → chance_after f gone p ≡ chance f p }
{}

/// Those that hold a seat and the seats that nobody holds are all seats.
pub fn seats_are_held_or_empty()
    ensures { (b : BoardParts) → IsBoard b → count_below (holds_on b) (count_of b.outcome) + empty_on b
        ≡ seats_up_to b.outcome (length b.outcome.cluster_rows) }
{}

/// The board is that of the set of those that withdrew: in what order they did, and how often they are named, changes
/// nothing.
pub fn order_of_withdrawals_changes_nothing()
    ensures names { (b : BoardParts) (names others : List Text) → HaveSameMembers names others
        → board_after b names ≡ board_after b others }
    ensures files { (b : BoardParts) (one other : Text) → HaveSameMembers (leaving (lines one)) (leaving (lines other))
        → left_board b one ≡ left_board b other }
{}

/// What a person writes as a reviewer has no part in the chances of its own cluster, whoever withdraws: with other points
/// of a reviewer, and without the review lines of a person, they are the same.
pub fn own_reviews_change_no_chance_after()
    ensures points { (f : Profile) (gone : Withdrawn) (reviewer p : ℕ) (points : ℕ → ℕ) → IsAssigned f
        → IsInClusterOf f reviewer p → chance_after (with_points f reviewer points) gone p ≡ chance_after f gone p }
    ensures lines { (name : Text) (lines : Lines) (gone : Withdrawn) (own p : ℕ) → GiveAssignment lines
        → IsApplicantOf name lines own → p < size (setting lines)
        → cluster_at (setting lines) p ≡ cluster_at (setting lines) own
        → chance_after (profile (without name lines)) gone p ≡ chance_after (profile lines) gone p }
{}

/// What becomes of the lines of a whole call and a file of withdrawals without a fault.
pub fn whole_calls_pass_their_seats_on()
    ensures { (lines : Lines) (bytes text : Text) → AreOfCall lines → reserve_told bytes lines ≡ Ok text
        → PassesSeatsOn lines bytes text }
{}
