//! Laws of the shortage that is printed where no assignment can be.

ghost use Rattle.std.specs.Prelude.{◌≡◌, ℕ, ◌<◌};
ghost use Rattle.peer_selection.specs.Shortage.{Demand, Places, IsShortage};

/// There is at most one shortage that the rules print.
pub fn shortage_is_determined()
    ensures reviewers { (d : Demand) (a b c e : Places) → IsShortage d a b → IsShortage d c e
        → (r : ℕ) → r < d.side → a r ≡ c r }
    ensures proposals { (d : Demand) (a b c e : Places) → IsShortage d a b → IsShortage d c e
        → (p : ℕ) → p < d.side → b p ≡ e p }
{}
