//! Laws of the first assignment. Each is proved once, here, and the functions have nothing to do.

ghost use Rattle.std.specs.Prelude.{◌≡◌, ℕ, ◌<◌, false, IsTrue};
ghost use Rattle.house_base.specs.Setting.{Setting, size};
ghost use Rattle.peer_selection.specs.FirstAssignment.{IsFirst, first_assignment, has_assignment};
ghost use Rattle.peer_selection.specs.Profile.{Pairs, is_valid};

/// There is a first assignment exactly where some pairs are valid. It is valid, and no valid one comes before it.
pub fn first_assignment_is_first()
    ensures some { (s : Setting) (pairs : Pairs) → IsTrue (is_valid s pairs) → IsTrue (has_assignment s) }
    ensures none { (s : Setting) → has_assignment s ≡ false → (pairs : Pairs) → is_valid s pairs ≡ false }
    ensures valid { (s : Setting) → IsTrue (has_assignment s) → IsTrue (is_valid s (first_assignment s)) }
    ensures first { (s : Setting) → IsTrue (has_assignment s) → IsFirst s (first_assignment s) }
{}

/// There is at most one first assignment: the one that is found pair by pair.
pub fn first_assignment_is_determined()
    ensures one { (s : Setting) (a b : Pairs) → IsFirst s a → IsFirst s b → (r p : ℕ) → r < size s → p < size s
        → a r p ≡ b r p }
    ensures found { (s : Setting) (pairs : Pairs) → IsFirst s pairs → (r p : ℕ) → r < size s → p < size s
        → first_assignment s r p ≡ pairs r p }
{}
