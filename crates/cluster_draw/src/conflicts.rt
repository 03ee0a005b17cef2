//! The pairs of a register that may not be, by places.

ghost use Rattle.std.specs.Prelude.{◌≡◌, ℕ, ◌<◌, ◌*◌, ◌==◌, ◌&&◌, ◌||◌, IfOk, length, slice_index, slice_index_or};
ghost use Rattle.house_base.specs.Grid.{cell};
ghost use Rattle.house_model.specs.Register.{names, persons, pair_among};
ghost use Rattle.register_book.specs.Held.{text_at};
ghost use Rattle.cluster_draw.specs.Barred.{is_barred, name_in};
ghost use Rattle.cluster_draw.specs.Placings.{AreApplicants, AreReviewers, GivesOwnPlaces};

use crate::placings::Placing;
use house_base::tables::{Table, table_of_places};
use house_base::{Grid, Memory, Owner, Person};
use register_book::Book;
use std::alloc::Global;

/// The pairs of a person's first place and an applicant's place that may not be.
pub fn barred_pairs(
    alloc: Global,
    book: &Book,
    applicants: &[Person],
    reviewers: &[Owner],
    placings: &[Placing],
) -> Result<Grid, Memory>
    requires applicants { AreApplicants book.now applicants.now }
    requires reviewers { AreReviewers book.now placings.now reviewers.now }
    ensures side { IfOk result (λ grid. grid.side ≡ length book.now.applicants) }
    ensures square { IfOk result (λ grid. length grid.cells ≡ grid.side * grid.side) }
    ensures cells { IfOk result (λ grid. (r p : ℕ) → r < length book.now.applicants → p < length book.now.applicants
        → cell grid r p ≡ is_barred book.now.barred applicants.now reviewers.now r p) }
{
    let mut barred = Grid::new(alloc, book.count())?;
    let places = table_of_places(applicants);
    for index in 0..placings.len() {
        let first = reviewers[index].first;
        bar_person(&mut barred, book, &places, placings[index].person, first);
    }
    Ok(barred)
}

/// Bars the person with a number, whose first place this is, from each applicant in a conflict with it. The places are
/// those of the register numbers.
fn bar_person(barred: &mut Grid, book: &Book, places: &Table, person: u32, first: u32)
    requires side { barred.old.side ≡ length book.now.applicants }
    requires places { GivesOwnPlaces (length book.now.applicants) places.now }
    requires known { person < length (persons book.now) }
    requires first_below { first < length book.now.applicants }
    ensures side { barred.new.side ≡ barred.old.side }
    ensures as_many { length barred.new.cells ≡ length barred.old.cells }
    ensures cells { (r number : ℕ) → r < length book.now.applicants → number < length book.now.applicants
        → cell barred.new r (slice_index places.now number)
        ≡ (cell barred.old r (slice_index places.now number) || (first == r && pair_among book.now.barred
        (text_at (persons book.now) person) (text_at (names book.now) number))) }
{
    let mut from = 0;
    while let Some(number) = book.next_conflict(person, from) {
        let place = u32::from(places[number as usize]);
        barred.set(first, place, true);
        from = number + 1;
    }
}
