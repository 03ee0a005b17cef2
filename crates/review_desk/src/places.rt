//! The places of persons and applicants, by name.

ghost use Rattle.std.specs.Prelude.{◌≡◌, map, position, IfOk};
ghost use Rattle.std.specs.Option.{option_and_then};
ghost use Rattle.std.specs.Str.{bytes_eq};
ghost use Rattle.house_base.specs.Setting.{IsSetting, names_of};
ghost use Rattle.review_desk.specs.Desk.{person_under};

use house_base::{Memory, Plan, ReviewLine};
use name_index::NameIndex;
use std::alloc::Global;

/// The names of the persons, in the order of their first places.
pub(crate) fn persons(alloc: Global, plan: &Plan) -> Result<NameIndex, Memory>
    requires { IsSetting plan.now }
    ensures { IfOk result (λ names. names ≡ map (λ owner. owner.name) plan.now.owners) }
{
    let mut names = NameIndex::new(alloc);
    for index in 0..plan.owners() {
        names.add(plan.owner(index).name)?;
    }
    Ok(names)
}

/// The names of the applicants, in place order.
pub(crate) fn applicants(alloc: Global, plan: &Plan) -> Result<NameIndex, Memory>
    ensures { IfOk result (λ names. names ≡ names_of plan.now) }
{
    let mut names = NameIndex::new(alloc);
    for place in 0..plan.count() {
        names.add(plan.person(place).name)?;
    }
    Ok(names)
}

/// The place of the person that a line names, which is that of its first applicant. None where it names no person.
pub(crate) fn reviewer_place(persons: &NameIndex, plan: &Plan, line: &ReviewLine) -> Option<u32>
    requires { persons.now ≡ map (λ owner. owner.name) plan.now.owners }
    ensures { result ≡ option_and_then (person_under plan.now) line.now.reviewer }
{
    let name = line.reviewer.as_ref()?;
    let index = persons.find(name)?;
    Some(plan.owner(index).first)
}

/// The place of the applicant that a line names. None where it names none.
pub(crate) fn proposal_place(applicants: &NameIndex, line: &ReviewLine) -> Option<u32>
    ensures { result ≡ option_and_then (λ name. position (bytes_eq name) applicants.now) line.now.proposal }
{
    applicants.find(line.proposal.as_ref()?)
}
