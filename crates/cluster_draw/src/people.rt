//! The applicants of a register in place order, and their persons.

ghost use Rattle.std.specs.Prelude.{◌≡◌, ◌<◌, ◌≤◌, ◌*◌, ◌++◌, All, OnOk, IfOk, length, vec_len};
ghost use Rattle.std.specs.List.{enumerate_from};
ghost use Rattle.house_model.specs.Register.{persons, own_count, owners_from};
ghost use Rattle.cluster_draw.specs.Placings.{name_of, names_of, own_rows, applicants_in};

use crate::placings::Placing;
use house_base::limits::{MOST_APPLICANTS, MOST_OWN};
use house_base::{Owner, Person};
use register_book::Book;
use std::alloc::{AllocError, Global};

/// The applicants in place order, person by person in the order of the placings, and their persons.
pub fn people_and_owners(
    alloc: Global,
    book: &Book,
    placings: &[Placing],
) -> Result<(Vec<Person>, Vec<Owner>), AllocError>
    requires known { All (λ placing. placing.person < length (persons book.now)) placings.now }
    requires few { length placings.now ≤ MOST_APPLICANTS }
    ensures people { IfOk result (λ both. both.0.items ≡ applicants_in book.now placings.now) }
    ensures owners { IfOk result (λ both. both.1.items ≡ owners_from book.now 0 (names_of book.now placings.now)) }
{
    let mut people = Vec::new(alloc);
    let mut owners = Vec::new(alloc);
    for index in 0..placings.len() {
        let owner = push_own(&mut people, book, placings[index])?;
        owners.push(owner)?;
    }
    Ok((people, owners))
}

/// Puts the applicants of a person behind those who have a place already.
fn push_own(people: &mut Vec<Person>, book: &Book, placing: Placing) -> Result<Owner, AllocError>
    requires known { placing.person < length (persons book.now) }
    requires few { vec_len people.old ≤ MOST_OWN * MOST_APPLICANTS }
    ensures people { OnOk result (people.new.items ≡ people.old.items
        ++ own_rows (name_of book.now placing) placing.cluster (enumerate_from 0 book.now.applicants)) }
    ensures name { IfOk result (λ owner. owner.name ≡ name_of book.now placing) }
    ensures first { IfOk result (λ owner. owner.first ≡ vec_len people.old) }
    ensures own { IfOk result (λ owner. owner.own ≡ own_count book.now (name_of book.now placing)) }
    ensures few_own { IfOk result (λ owner. owner.own ≤ MOST_OWN) }
{
    let person = placing.person;
    let name = book.person_name(person);
    let first = people.len() as u32;
    let own = book.own_count(person);
    // Each person before this one in the register has an applicant before this person's first.
    let mut number = person;
    'applicants: while (people.len() as u32) < first + own {
        if book.person_of(number) == person {
            people.push(Person {
                name: book.name(number),
                cluster: placing.cluster,
                number,
            })?;
        }
        number += 1;
    }
    Ok(Owner { name, first, own })
}
