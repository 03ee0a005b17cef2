//! Tests of the small types.

ghost use Rattle.std.specs.Prelude.{◌≡◌, ◌<◌, IfOk};
ghost use Rattle.house_base.specs.Setting.{size};

use crate::answer::{Asides, Kind};
use crate::call::Call;
use crate::grid::Grid;
use crate::memory::Memory;
use crate::name::Name;
use crate::number::read_number;
use crate::plan::{Owner, Person, Plan};
use std::alloc::{AllocFailed, Global};
use std::test::Fail;

#[test]
fn names_and_numbers_have_one_form(rt: HostRuntime) -> Result<(), Fail> {
    for (word, is_name) in [
        (b"ann-2".as_slice(), true),
        (b"a", true),
        (b"", false),
        (b"2ann", false),
        (b"-a", false),
        (b"Ann", false),
        (b"a_b", false),
        (b"abcdefghijklmnopqrstuvwx", true),
        (b"abcdefghijklmnopqrstuvwxy", false),
    ] {
        assert_eq!(rt; Name::read(word).is_some(), is_name, "at {word:?}");
    }
    for (text, number) in [
        (b"0".as_slice(), Some(0)),
        (b"100", Some(100)),
        (b"101", None),
        (b"", None),
        (b"00", None),
        (b"07", None),
        (b"+7", None),
        (b"7 ", None),
        (b"18446744073709551616", None),
    ] {
        assert_eq!(rt; read_number(text, 100), number, "at {text:?}");
    }
    assert_eq!(rt;
        read_number(b"18446744073709551615", u64::MAX),
        Some(u64::MAX)
    );
    let name = Name::read(b"ann-2").ok_or("no name")?;
    assert_eq!(rt; format!(in rt.alloc(); "{name:?}")?.as_str(), "ann-2");
    Ok(())
}

fn name(word: &[u8]) -> Result<Name, Fail>
    ensures { IfOk result (λ name. name ≡ word.now) }
{
    Ok(Name::read(word).ok_or("not a name")?)
}

// Person a has the applicants a1 and a2, persons b and c have one each. Only a2 is out of register order, and
// a may not review c's.
fn three_persons(alloc: Global) -> Result<Plan, Fail>
    ensures { IfOk result (λ plan. size plan ≡ 4) }
{
    let people = vec![in alloc;
        Person {
            name: name(b"a1")?,
            cluster: 1,
            number: 0
        },
        Person {
            name: name(b"a2")?,
            cluster: 1,
            number: 3
        },
        Person {
            name: name(b"b1")?,
            cluster: 2,
            number: 1
        },
        Person {
            name: name(b"c1")?,
            cluster: 2,
            number: 2
        },
    ]?;
    let owners = vec![in alloc;
        Owner {
            name: name(b"a")?,
            first: 0,
            own: 2
        },
        Owner {
            name: name(b"b")?,
            first: 2,
            own: 1
        },
        Owner {
            name: name(b"c")?,
            first: 3,
            own: 1
        },
    ]?;
    let mut barred = Grid::new(alloc, 4)?;
    barred.set(0, 3, true);
    let call = Call {
        seats: 2,
        clusters: 2,
        reviews: 2,
    };
    Ok(Plan::build(call, people, owners, barred))
}

fn places(plan: &Plan) -> [u32; 4]
    requires { size plan.now ≡ 4 }
{
    [
        plan.at_number(0),
        plan.at_number(1),
        plan.at_number(2),
        plan.at_number(3),
    ]
}

fn needs(plan: &Plan) -> [u32; 4]
    requires { size plan.now ≡ 4 }
{
    [plan.need(0), plan.need(1), plan.need(2), plan.need(3)]
}

fn first_places(plan: &Plan) -> [u32; 4]
    requires { size plan.now ≡ 4 }
{
    [
        plan.owner_at(0).first,
        plan.owner_at(1).first,
        plan.owner_at(2).first,
        plan.owner_at(3).first,
    ]
}

fn reviewed_by(plan: &Plan, reviewer: u32) -> [bool; 4]
    requires four { size plan.now ≡ 4 }
    requires below { reviewer < 4 }
{
    [
        plan.may(reviewer, 0),
        plan.may(reviewer, 1),
        plan.may(reviewer, 2),
        plan.may(reviewer, 3),
    ]
}

#[test]
fn persons_review_for_each_applicant(rt: HostRuntime) -> Result<(), Fail> {
    let plan = three_persons(rt.alloc())?;
    assert_eq!(rt; places(&plan), [0, 2, 3, 1]);
    assert_eq!(rt; needs(&plan), [4, 0, 2, 2]);
    assert_eq!(rt; first_places(&plan), [0, 0, 2, 3]);
    let owner = Owner {
        name: name(b"a")?,
        first: 0,
        own: 2,
    };
    assert_eq!(rt; plan.owner_at(1), owner);
    assert_eq!(rt; reviewed_by(&plan, 0), [false, false, true, false]);
    assert_eq!(rt; reviewed_by(&plan, 1), [false; 4]);
    assert_eq!(rt; reviewed_by(&plan, 2), [true, true, false, false]);
    Ok(())
}

#[test]
fn names_are_found(rt: HostRuntime) -> Result<(), Fail> {
    let plan = three_persons(rt.alloc())?;
    for (word, person, applicant) in [
        (b"a".as_slice(), Some(0), None),
        (b"a2", None, Some(1)),
        (b"c", Some(3), None),
        (b"c1", None, Some(3)),
    ] {
        let name = name(word)?;
        assert_eq!(rt; plan.owner_of(name), person, "at {name:?}");
        assert_eq!(rt; plan.place_of(name), applicant, "at {name:?}");
    }
    let person = Person {
        name: name(b"a2")?,
        cluster: 1,
        number: 3,
    };
    assert_eq!(rt; plan.person(1), person);
    Ok(())
}

#[test]
fn counts_and_errors(rt: HostRuntime) -> Result<(), Fail> {
    let mut asides = Asides {
        form: 0,
        early: 0,
        late: u64::MAX,
        unknown: 0,
        unassigned: 0,
        range: 0,
    };
    asides.count(Kind::Form);
    asides.count(Kind::Late);
    assert_eq!(rt; (asides.form, asides.late, asides.range), (1, u64::MAX, 0));
    assert_eq!(rt; Memory::from(AllocFailed { value: 7u8 }), Memory);
    assert_eq!(rt; Memory.to_string(rt.alloc())?.as_str(), "no memory is left");
    Ok(())
}

#[test]
fn squares_are_read_by_places_and_by_words(rt: HostRuntime) -> Result<(), Fail> {
    let alloc = rt.alloc();
    let mut grid = Grid::new(alloc, 200)?;
    grid.set(7, 3, true);
    grid.set(7, 64, true);
    grid.set(7, 199, true);
    let same = grid.copy(alloc)?;
    grid.set(7, 64, false);
    assert_eq!(rt; grid.next_in_row(7, 0), Some(3));
    assert_eq!(rt; grid.next_in_row(7, 4), Some(199));
    assert_eq!(rt; grid.next_in_row(8, 0), None);
    assert_eq!(rt; same.next_in_row(7, 4), Some(64));
    assert_eq!(rt; same.next_in_row(7, 200), None);
    assert_eq!(rt; grid.word(7, 0), 8);
    assert_eq!(rt; same.word(7, 1), 1);
    grid.set_word(9, 2, 0b101);
    assert_eq!(rt; grid.get(9, 128), true);
    assert_eq!(rt; grid.get(9, 129), false);
    assert_eq!(rt; grid.get(9, 130), true);
    assert_eq!(rt; grid.get(9, 3), false);
    Ok(())
}
