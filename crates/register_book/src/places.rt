//! The clusters into which persons were put.

ghost use Rattle.std.specs.Prelude.{◌≡◌, ℕ, ◌+◌, ◌<◌, ◌≤◌, [], ◌∷◌, ◌++◌, OnOk, length, slice_index, slice_set};

use house_base::Name;
use std::alloc::{AllocError, Global};
use std::marker::Model;

/// The places of persons, in the order in which they came, and the cluster of each person by its number.
#[derive(Drop)]
pub struct Places {
    placed: Vec<(Name, u32)>,
    clusters: Vec<u32>,
}

impl Model for Places {
    ghost use Rattle.std.specs.Prelude.{vec_capacity};
    ghost use Rattle.register_book.specs.Places.{PlacesHeld};

    ghost Value = { PlacesHeld };

    ghost view = { λ p. record {
      placed = p.placed.items;
      clusters = p.clusters.items;
      room = vec_capacity p.placed;
    } };
}

impl Places {
    /// No places.
    pub fn new(alloc: Global) -> Places
        ensures placed { result.placed ≡ [] }
        ensures clusters { result.clusters ≡ [] }
    {
        Places {
            placed: Vec::new(alloc),
            clusters: Vec::new(alloc),
        }
    }

    /// How many places there are.
    pub fn count(&self) -> u64
        ensures { result ≡ length self.now.placed }
    {
        self.placed.len() as u64
    }

    /// The cluster of the person with a number; 0 where it has none.
    pub fn cluster(&self, person: u32) -> u32
        requires { person < length self.now.clusters }
        ensures { result ≡ slice_index self.now.clusters person }
    {
        self.clusters[person as usize]
    }

    /// Puts a person, who has a number and a name, into a cluster.
    pub fn place(&mut self, person: u32, name: Name, cluster: u32)
        requires room { length self.old.placed < self.old.room }
        requires person { person < length self.old.clusters }
        ensures placed { self.new.placed ≡ self.old.placed ++ (name, cluster) ∷ [] }
        ensures clusters { self.new.clusters ≡ slice_set self.old.clusters person cluster }
        ensures room { self.new.room ≡ self.old.room }
    {
        self.placed.push_reserved((name, cluster));
        self.clusters[person as usize] = cluster;
    }

    /// Makes room for this many persons and for as many places. A new person has no cluster.
    pub fn make_room(&mut self, persons: u32) -> Result<(), AllocError>
        ensures placed { self.new.placed ≡ self.old.placed }
        ensures clusters { (k : ℕ) → slice_index self.new.clusters k ≡ slice_index self.old.clusters k }
        ensures longer { length self.old.clusters ≤ length self.new.clusters }
        ensures wider { self.old.room ≤ self.new.room }
        ensures long { OnOk result (persons ≤ length self.new.clusters) }
        ensures wide { OnOk result (persons ≤ self.new.room) }
    {
        let persons = persons as usize;
        if self.placed.len() < persons {
            self.placed.reserve(persons - self.placed.len())?;
        }
        if self.clusters.len() < persons {
            self.clusters.resize(persons, 0)?;
        }
        Ok(())
    }
}
