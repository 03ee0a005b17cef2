//! A cut: a set of reviewers and a set of proposals.

ghost use Rattle.std.specs.Prelude.{◌≡◌, ◌^◌, ◌<◌, length, vec_len};
ghost use Rattle.peer_selection.specs.Shortage.{Places};
ghost use Rattle.cut_gap.specs.Cut.{marked};

use std::marker::Model;

/// A set of reviewers and a set of proposals, among equally many places from 0.
#[derive(Drop)]
pub struct Cut {
    reviewers: Vec<bool>,
    proposals: Vec<bool>,
}

impl Model for Cut {
    ghost use Rattle.std.specs.Prelude.{◌≡◌, ◌^◌, ◌<◌, length};
    ghost use Rattle.cut_gap.specs.Cut.{Sides};

    ghost Value = { Sides };

    ghost view = { λ c. record { reviewers = c.reviewers.items; proposals = c.proposals.items } };

    ghost invariant = { λ c. (length c.proposals.items ≡ length c.reviewers.items)
        × (length c.reviewers.items < 2 ^ 32) };
}

impl Cut {
    /// The cut of the places that are true.
    pub fn new(reviewers: Vec<bool>, proposals: Vec<bool>) -> Cut
        requires same_length { vec_len proposals ≡ vec_len reviewers }
        requires few { vec_len reviewers < 2 ^ 32 }
        ensures { result ≡ record { reviewers = reviewers.items; proposals = proposals.items } }
    {
        Cut {
            reviewers,
            proposals,
        }
    }

    /// How many places there are on each side.
    pub fn side(&self) -> u32
        ensures reviewers { result ≡ length self.now.reviewers }
        ensures proposals { result ≡ length self.now.proposals }
    {
        self.reviewers.len() as u32
    }

    pub fn has_reviewer(&self, place: u32) -> bool
        requires { place < length self.now.reviewers }
        ensures { result ≡ marked self.now.reviewers place }
    {
        self.reviewers[place as usize]
    }

    pub fn has_proposal(&self, place: u32) -> bool
        requires { place < length self.now.proposals }
        ensures { result ≡ marked self.now.proposals place }
    {
        self.proposals[place as usize]
    }
}
