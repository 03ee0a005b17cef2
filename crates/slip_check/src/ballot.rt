//! The ballots of a slip, line by line.

ghost use Rattle.std.specs.Prelude.{◌≡◌, ◌++◌, Some, Err, true, false, [], ◌∷◌, codes, OnOk, IfOk};
ghost use Rattle.house_base.specs.Text.{among};
ghost use Rattle.slip_check.specs.Counted.{AreCells, IsBallotOf};
ghost use Rattle.slip_check.specs.Form.{are_cells, is_ballot};
ghost use Rattle.command_text.specs.Strict.{Row, spelled_behind};

use crate::stop::Stop;
use crate::word::{read_cell, read_name};
use command_text::strict::next_word;
use house_base::Name;
use house_base::limits::{MOST_OWN, MOST_REVIEWS};
use std::alloc::Global;

/// The most cells of a ballot.
pub const MOST_CELLS: usize = MOST_REVIEWS as usize * MOST_OWN as usize;

/// The cells of a ballot: different proposals, and the points of each.
#[derive(Drop)]
pub struct Cells {
    pub proposals: Vec<Name>,
    pub points: Vec<u32>,
}

/// A person with its cells.
#[derive(Drop)]
pub struct Ballot {
    pub person: Name,
    pub cells: Cells,
}

/// Reads what stands behind the first word of a ballot's line.
pub fn read_ballot(alloc: Global, rest: &[u8]) -> Result<Ballot, Stop>
    ensures found { IfOk result (λ ballot. (ws : Row) × (spelled_behind rest.now ≡ Some ws)
        × IsBallotOf (codes "ballot" ∷ ws) ballot.person ballot.cells.proposals.items ballot.cells.points.items) }
    ensures off { result ≡ Err Stop.Off → (ws : Row) → spelled_behind rest.now ≡ Some ws
        → is_ballot (codes "ballot" ∷ ws) ≡ false }
{
    let Some((person, rest)) = next_word(rest) else {
        return Err(Stop::Off);
    };
    let Some(person) = read_name(person) else {
        return Err(Stop::Off);
    };
    if rest.is_empty() {
        return Err(Stop::Off);
    }
    match read_cells(alloc, rest) {
        Ok(cells) => Ok(Ballot { person, cells }),
        Err(stop) => Err(stop),
    }
}

/// Reads the cells behind the person of a ballot.
fn read_cells(alloc: Global, rest: &[u8]) -> Result<Cells, Stop>
    ensures found { IfOk result (λ cells. (ws : Row) × (spelled_behind rest.now ≡ Some ws)
        × AreCells ws cells.proposals.items cells.points.items) }
    ensures off { result ≡ Err Stop.Off → (ws : Row) → spelled_behind rest.now ≡ Some ws → are_cells ws ≡ false }
{
    let mut cells = Cells {
        proposals: Vec::new(alloc),
        points: Vec::new(alloc),
    };
    let mut left = rest;
    while !left.is_empty() {
        let Some((word, more)) = next_word(left) else {
            return Err(Stop::Off);
        };
        match cells.add(word) {
            Ok(()) => (),
            Err(stop) => return Err(stop),
        }
        left = more;
    }
    Ok(cells)
}

impl Cells {
    /// Puts the cell that a word spells behind the others. After an error some of it may have been put there.
    fn add(&mut self, word: &[u8]) -> Result<(), Stop>
        ensures added { (ws : Row) → AreCells ws self.old.proposals.items self.old.points.items
            → OnOk result (AreCells (ws ++ word.now ∷ []) self.new.proposals.items self.new.points.items) }
        ensures off { (ws : Row) → AreCells ws self.old.proposals.items self.old.points.items
            → result ≡ Err Stop.Off → are_cells (ws ++ word.now ∷ []) ≡ false }
    {
        if self.proposals.len() >= MOST_CELLS {
            return Err(Stop::Off);
        }
        let Some(cell) = read_cell(word) else {
            return Err(Stop::Off);
        };
        if is_among(&self.proposals, &cell.proposal) {
            return Err(Stop::Off);
        }
        self.proposals.push(cell.proposal)?;
        self.points.push(cell.points)?;
        Ok(())
    }
}

/// Whether a name is among others.
#[tactic(auto, unfolding(house_base::specs::Text::among))]
fn is_among(names: &[Name], name: &Name) -> bool
    ensures { result ≡ among names.now name.now }
{
    names.iter().any(|held| *name == *held)
}
