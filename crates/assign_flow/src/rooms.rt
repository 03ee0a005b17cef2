//! The room that is left.

ghost use Rattle.std.specs.Prelude.{◌≡◌, ℕ, ◌+◌, ◌<◌, ◌≤◌, nat_lt, length, slice_index, vec_len, IfOk};
ghost use Rattle.house_base.specs.declared.limits.TheConstants.{MOST_APPLICANTS};
ghost use Rattle.assign_flow.specs.Places.{places_of};

use crate::places::PlaceSet;
use house_base::Memory;
use house_base::limits::MOST_APPLICANTS;
use std::alloc::Global;

/// For how many reviewers each proposal still has room.
#[derive(Drop)]
pub struct Rooms {
    pub spare: Vec<u32>,
    /// The proposals that have room.
    pub with_room: PlaceSet,
    ghost few: { vec_len spare ≤ MOST_APPLICANTS },
    ghost with_room_is: { (p : ℕ) → p < vec_len spare
        → places_of with_room p ≡ nat_lt 0 (slice_index spare.items p) },
}

impl Rooms {
    ghost use Rattle.assign_flow.specs.Residual.{at_one};

    /// All the room that there is.
    pub fn new(alloc: Global, room: &[u32]) -> Result<Rooms, Memory>
        requires { length room.now ≤ MOST_APPLICANTS }
        ensures side { IfOk result (λ rooms. vec_len rooms.spare ≡ length room.now) }
        ensures spare { IfOk result (λ rooms. (p : ℕ) → p < length room.now
            → slice_index rooms.spare.items p ≡ slice_index room.now p) }
    {
        Ok(Rooms {
            spare: room.to_vec(alloc)?,
            with_room: PlaceSet::of_some(room),
        })
    }

    /// Takes room for one reviewer.
    pub fn take(&mut self, proposal: u32)
        requires below { proposal < vec_len self.old.spare }
        requires some { 0 < slice_index self.old.spare.items proposal }
        ensures side { vec_len self.new.spare ≡ vec_len self.old.spare }
        ensures taken { (p : ℕ) → slice_index self.new.spare.items p + at_one p proposal
            ≡ slice_index self.old.spare.items p }
    {
        self.spare[proposal as usize] -= 1;
        if self.spare[proposal as usize] == 0 {
            self.with_room.remove(proposal);
        }
    }
}
