//! Hand-made assignments.

ghost use Rattle.std.specs.Prelude.{◌≡◌, ℕ, ◌<◌, false, IsTrue, OnOk, IfOk};
ghost use Rattle.house_base.specs.Grid.{cell};
ghost use Rattle.house_base.specs.Setting.{size};
ghost use Rattle.peer_selection.specs.Profile.{is_valid};
ghost use Rattle.house_model.specs.Naming.{HasNamesOf};
ghost use Rattle.house_model.specs.Register.{IsRegister, persons, name_pair};
ghost use Rattle.first_assign.specs.FirstPlaces.{GivesFirstPlaces};

use crate::fault::GivenFault;
use crate::valid::is_valid;
use house_base::{Grid, Memory, Plan};
use register_book::Book;
use std::alloc::Global;

/// The hand-made assignment of a register, by places: who reviews whom. The plan is that of the register, or
/// one that stands by the same names.
pub fn given(alloc: Global, plan: &Plan, book: &Book) -> Result<Grid, GivenFault>
    requires names { HasNamesOf book.now.applicants plan.now }

    ensures side { IfOk result (λ pairs. pairs.side ≡ size plan.now) }
    ensures pairs { IfOk result (λ pairs. (r p : ℕ) → r < size plan.now → p < size plan.now
        → cell pairs r p ≡ name_pair book.now.pairs plan.now r p) }
    ensures valid { OnOk result (IsTrue (is_valid plan.now (name_pair book.now.pairs plan.now))) }
    ensures invalid { result ≡ Err GivenFault.Invalid → is_valid plan.now (name_pair book.now.pairs plan.now) ≡ false }
{
    let pairs = pairs_by_place(alloc, plan, book)?;
    if !is_valid(plan, &pairs) {
        return Err(GivenFault::Invalid);
    }
    Ok(pairs)
}

/// The pairs of a hand-made assignment, by places.
fn pairs_by_place(alloc: Global, plan: &Plan, book: &Book) -> Result<Grid, Memory>
    requires names { HasNamesOf book.now.applicants plan.now }
    ensures side { IfOk result (λ grid. grid.side ≡ size plan.now) }
    ensures pairs { IfOk result (λ grid. (r p : ℕ) → r < size plan.now → p < size plan.now
        → cell grid r p ≡ name_pair book.now.pairs plan.now r p) }
{
    let places = first_places(alloc, plan, book)?;
    let mut grid = Grid::new(alloc, plan.count())?;
    for index in 0..book.pairs() {
        let (person, number) = book.pair_at(index);
        grid.set(places[person as usize], plan.at_number(number), true);
    }
    Ok(grid)
}

/// The first place of each person, by its number in the register.
fn first_places(alloc: Global, plan: &Plan, book: &Book) -> Result<Vec<u32>, Memory>
    requires names { HasNamesOf book.now.applicants plan.now }
    ensures places { IfOk result (λ places. GivesFirstPlaces plan.now (persons book.now) places.items) }
    ensures register { OnOk result (IsRegister book.now) }
{
    let mut places = vec![in alloc; 0; book.persons() as usize]?;
    for number in 0..book.count() {
        let owner = plan.owner_at(plan.at_number(number));
        places[book.person_of(number) as usize] = owner.first;
    }
    Ok(places)
}
