//! The law of the text of an assignment: read back as lines, it gives the assignment again. It is proved once, here,
//! and the functions have nothing to do.

ghost use Rattle.std.specs.Prelude.{◌≡◌, ℕ, ◌<◌, IsTrue, map};
ghost use Rattle.house_base.specs.Setting.{Setting, IsSetting, size};
ghost use Rattle.peer_selection.specs.Profile.{Pairs, is_valid};
ghost use Rattle.house_model.specs.Examples as call;
ghost use Rattle.house_model.specs.ReadBack.{HasFormedNames, named_pairs, AreReadBack};
ghost use Rattle.house_model.specs.Said.{setting, run_pairs, pair_in};
ghost use Rattle.house_model.specs.Text.{Lines, lines};
ghost use Rattle.house_model.specs.Texts.{pairs_text};

/// Each line of the text of an assignment names one of its pairs. Where these lines stand in an opening as its pairs,
/// beside the same other lines of the house, the call has the same setting and the same assignment.
pub fn pairs_are_read_back()
    ensures named { (s : Setting) (pairs : Pairs) → HasFormedNames s
        → map pair_in (lines (pairs_text s pairs)) ≡ named_pairs s pairs }
    ensures setting { (opening others : Lines) → AreReadBack opening others → setting others ≡ setting opening }
    ensures pairs { (opening others : Lines) → AreReadBack opening others → IsSetting (setting opening)
        → HasFormedNames (setting opening) → IsTrue (is_valid (setting opening) (run_pairs opening))
        → (r p : ℕ) → r < size (setting opening) → p < size (setting opening)
        → run_pairs others r p ≡ run_pairs opening r p }
{}

/// Two openings, without pairs and with those of the first assignment.
pub fn two_are_read_back()
    ensures { AreReadBack (lines call.two_assigned) (lines call.two_with_both_pairs) }
{}
