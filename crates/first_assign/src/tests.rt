//! Worked rows: the first assignment, one that a conflict moves, and a shortage.

ghost use Rattle.std.specs.Prelude.{◌≡◌, ◌<◌, IfOk};
ghost use Rattle.house_base.specs.Setting.{size};

use crate::{First, first};
use house_base::{Call, Grid, Memory, Name, Owner, Person, Plan};
use std::alloc::Global;
use std::test::Fail;

fn name(word: &[u8]) -> Result<Name, Fail>
    ensures { IfOk result (λ name. name ≡ word.now) }
{
    Ok(Name::read(word).ok_or("not a name")?)
}

// The pairs that may not be, among six applicants.
fn barring(alloc: Global, barred: &[(u32, u32)]) -> Result<Grid, Memory>
    ensures { IfOk result (λ grid. grid.side ≡ 6) }
{
    let mut grid = Grid::new(alloc, 6)?;
    for row in 0..6 {
        for column in 0..6 {
            grid.set(row, column, barred.contains(&(row, column)));
        }
    }
    Ok(grid)
}

// Six persons with one applicant each, two in each of three clusters, and two reviews for each.
fn six_persons(alloc: Global, barred: &[(u32, u32)]) -> Result<Plan, Fail>
    ensures { IfOk result (λ plan. size plan ≡ 6) }
{
    let (a, b, c) = (name(b"a")?, name(b"b")?, name(b"c")?);
    let (d, e, f) = (name(b"d")?, name(b"e")?, name(b"f")?);
    let people = vec![in alloc;
        Person {
            name: a,
            cluster: 1,
            number: 0
        },
        Person {
            name: b,
            cluster: 2,
            number: 1
        },
        Person {
            name: c,
            cluster: 3,
            number: 2
        },
        Person {
            name: d,
            cluster: 1,
            number: 3
        },
        Person {
            name: e,
            cluster: 2,
            number: 4
        },
        Person {
            name: f,
            cluster: 3,
            number: 5
        },
    ]?;
    let owners = vec![in alloc;
        Owner {
            name: a,
            first: 0,
            own: 1
        },
        Owner {
            name: b,
            first: 1,
            own: 1
        },
        Owner {
            name: c,
            first: 2,
            own: 1
        },
        Owner {
            name: d,
            first: 3,
            own: 1
        },
        Owner {
            name: e,
            first: 4,
            own: 1
        },
        Owner {
            name: f,
            first: 5,
            own: 1
        },
    ]?;
    let call = Call {
        seats: 2,
        clusters: 3,
        reviews: 2,
    };
    Ok(Plan::build(call, people, owners, barring(alloc, barred)?))
}

// Whom a reviewer reviews, by places.
fn reviewed_by(alloc: Global, pairs: &Grid, reviewer: u32) -> Result<Vec<u32>, Memory>
    requires { reviewer < pairs.now.side }
{
    let mut proposals = Vec::new(alloc);
    for proposal in 0..pairs.side() {
        if pairs.get(reviewer, proposal) {
            proposals.push(proposal)?;
        }
    }
    Ok(proposals)
}

#[test]
fn gives_the_nearest_proposals(rt: HostRuntime) -> Result<(), Fail> {
    for (barred, rows) in [
        (
            [].as_slice(),
            [[1, 2], [2, 3], [3, 4], [4, 5], [0, 5], [0, 1]],
        ),
        (&[(0, 1)], [[2, 4], [2, 3], [3, 4], [1, 5], [0, 5], [0, 1]]),
    ] {
        let plan = six_persons(rt.alloc(), barred)?;
        let First::Pairs(pairs) = first(rt.alloc(), &plan)? else {
            return Err(Fail::from("short"));
        };
        for reviewer in 0..6 {
            assert_eq!(rt;
                reviewed_by(rt.alloc(), &pairs, reviewer)?.as_slice(),
                rows[reviewer as usize].as_slice(),
                "by {reviewer}, with {barred:?}"
            );
        }
    }
    Ok(())
}

#[test]
fn shows_the_shortage(rt: HostRuntime) -> Result<(), Fail> {
    let plan = six_persons(rt.alloc(), &[(0, 1), (0, 2), (0, 4)])?;
    let First::Short(cut) = first(rt.alloc(), &plan)? else {
        return Err(Fail::from("not short"));
    };
    assert_eq!(rt; cut.side(), 6);
    for place in 0..cut.side() {
        assert_eq!(rt; cut.has_reviewer(place), place == 0, "at {place}");
        assert!(rt; cut.has_proposal(place));
    }
    Ok(())
}
