//! What follows from the definitions that the contracts cite. Each function states it, and does nothing.

ghost use Rattle.std.specs.Prelude.{◌≡◌, ◌↔◌, ◌++◌, ◌∷◌, [], ℕ, List, Option, Result, Ok, None, Contains, true, false};
ghost use Rattle.std.specs.FinMap.{empty, entries};
ghost use Rattle.std.specs.List.{list_any};
ghost use Rattle.house_base.specs.Text.{Text};
ghost use Rattle.peer_selection.specs.Lottery.{chance};
ghost use Rattle.house_model.specs.Isolation.{GiveAssignment, IsApplicantOf, without};
ghost use Rattle.house_model.specs.Reviews.{profile};
ghost use Rattle.house_model.specs.Text.{Lines, words};
ghost use Rattle.house_model.specs.Verbs.{is_review};
ghost use Rattle.desk_merge.specs.Desk.{AreItems, IsItem, Reads, desk_file};
ghost use Rattle.desk_merge.specs.Joined.{IsJoin, Item, Joined, Review, better, join, join_of};
ghost use Rattle.desk_merge.specs.Reading.{desk_read};
ghost use Rattle.desk_merge.specs.Put.{is_close, put_in, review_line, review_lines, review_words, without_reviewer};

/// The better of two reviews, either of which may be missing, is the greatest of an order.
pub fn reviews_have_an_order()
    ensures commutes { (a b : Option Review) → better a b ≡ better b a }
    ensures associates { (a b c : Option Review) → better (better a b) c ≡ better a (better b c) }
    ensures repeats { (a : Option Review) → better a a ≡ a }
    ensures none { (a : Option Review) → better a None ≡ a }
{}

/// Two maps have one join.
pub fn joins_are_determined()
    ensures one { (a b : Joined) → IsJoin a b (join a b) }
    ensures only { (a b c : Joined) → IsJoin a b c → c ≡ join a b }
{}

/// Which of two maps is the first has no part in their join.
pub fn joins_commute()
    ensures two { (a b : Joined) → join a b ≡ join b a }
    ensures lists { (ms ns : List Joined) → ((m : Joined) → Contains ms m ↔ Contains ns m) → join_of ms ≡ join_of ns }
{}

/// Maps that were joined before may stand for the maps that they are the join of.
pub fn joins_associate()
    ensures three { (a b c : Joined) → join (join a b) c ≡ join a (join b c) }
    ensures lists { (ms ns : List Joined) → join_of (ms ++ ns) ≡ join (join_of ms) (join_of ns) }
    ensures joined_before { (a b : Joined) (ms : List Joined) → join_of (join a b ∷ ms) ≡ join_of (a ∷ b ∷ ms) }
{}

/// A map that comes twice changes nothing, and neither does an empty one.
pub fn joins_repeat()
    ensures twice { (a : Joined) → join a a ≡ a }
    ensures nothing { (a : Joined) → join a empty ≡ a }
    ensures alone { (a : Joined) → join_of (a ∷ []) ≡ a }
{}

/// The join of maps that desk files can have is such a map.
pub fn joins_keep_the_form()
    ensures { (a b : Joined) → AreItems (entries a) → AreItems (entries b) → AreItems (entries (join a b)) }
{}

/// The file of a map is read as the map, and bytes are read in one way: as the map whose file they are, or as off the form
/// from one line on.
pub fn desk_files_read_back()
    ensures back { (m : Joined) → AreItems (entries m) → Reads (desk_file m) (Ok m) }
    ensures file { (bytes : Text) (m : Joined) → Reads bytes (Ok m) → bytes ≡ desk_file m }
    ensures one_way { (bytes : Text) (a b : Result Joined ℕ) → Reads bytes a → Reads bytes b → a ≡ b }
{}

/// What bytes are read as is a function of them.
pub fn bytes_are_read()
    ensures reads { (bytes : Text) → Reads bytes (desk_read bytes) }
    ensures only { (bytes : Text) (r : Result Joined ℕ) → Reads bytes r → desk_read bytes ≡ r }
{}

/// Where the reviews of a map stand: nowhere where no line is a close, else in front of the first one; and what comes behind
/// that changes nothing.
pub fn reviews_stand_in_front_of_the_first_close()
    ensures none { (lines : Lines) (m : Joined) → list_any is_close lines ≡ false → put_in lines m ≡ lines }
    ensures first { (before : Lines) (line : Text) (rest : Lines) (m : Joined) → list_any is_close before ≡ false
        → is_close line ≡ true → put_in (before ++ line ∷ rest) m ≡ before ++ (review_lines m ++ line ∷ rest) }
    ensures behind { (lines : Lines) (line : Text) (m : Joined) → list_any is_close lines ≡ true
        → put_in (lines ++ line ∷ []) m ≡ put_in lines m ++ line ∷ [] }
{}

/// The lines that are put in are review lines, each with the words of its item.
pub fn lines_put_in_are_reviews()
    ensures review { (e : Item) → IsItem e → is_review (review_line e) ≡ true }
    ensures words { (e : Item) → IsItem e → words (review_line e) ≡ review_words e }
{}

/// To take out what one person wrote is to take it out of the lines and out of the map, before one is put into the other. So
/// the chance of each applicant of the person is what it is without both.
pub fn entries_of_one_person()
    ensures lines { (name : Text) (lines : Lines) (m : Joined) → AreItems (entries m)
        → without name (put_in lines m) ≡ put_in (without name lines) (without_reviewer name m) }
    ensures chance { (name : Text) (lines : Lines) (m : Joined) (p : ℕ) → AreItems (entries m)
        → GiveAssignment (put_in lines m) → IsApplicantOf name (put_in lines m) p
        → chance (profile (put_in (without name lines) (without_reviewer name m))) p ≡ chance (profile (put_in lines m)) p }
{}
