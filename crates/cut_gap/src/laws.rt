//! Laws of cuts, over all that may be asked. Each is proved once, here, and the functions have nothing to do.

ghost use Rattle.std.specs.Prelude.{◌≡◌, ℕ, ◌+◌};
ghost use Rattle.house_base.specs.Setting.{Setting};
ghost use Rattle.peer_selection.specs.Counting.{sum_below};
ghost use Rattle.peer_selection.specs.Profile.{Pairs, is_valid};
ghost use Rattle.peer_selection.specs.Shortage.{Demand, Places, needed_in, room_outside, allowed, capacity};
ghost use Rattle.peer_selection.specs.Shortage.{is_met, assignment_demand};

/// A valid assignment is one that meets what is asked of assignments.
pub fn valid_assignments_meet_all()
    ensures { (s : Setting) (pairs : Pairs) → is_valid s pairs ≡ is_met (assignment_demand s) pairs }
{}

/// The capacity of a cut and its gap are all that is needed: a greater gap is a lesser capacity.
pub fn gap_and_capacity_are_all_needs()
    ensures { (d : Demand) (a b : Places)
        → capacity d a b + needed_in d a ≡ sum_below d.need d.side + (room_outside d b + allowed d a b) }
{}
