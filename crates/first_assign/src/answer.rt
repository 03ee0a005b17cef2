//! What the search for the first assignment answers.

use cut_gap::Cut;
use house_base::Grid;

/// The first assignment, or the shortage by which there is none.
#[derive(Drop)]
pub enum First {
    /// Who reviews whom, by places.
    Pairs(Grid),
    Short(Cut),
}
