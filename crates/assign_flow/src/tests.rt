//! Worked rows: the only pairs there are, shortages, and pairs that are settled.

ghost use Rattle.std.specs.Prelude.{◌≡◌, ◌≤◌, IfOk};
ghost use Rattle.house_base.specs.declared.limits.TheConstants.{MOST_APPLICANTS};

use crate::{Flow, Solved, Started, solve};
use cut_gap::Cut;
use house_base::{Grid, Memory};
use std::alloc::Global;
use std::test::Fail;

// A square in which all pairs may be but these.
fn all_but(alloc: Global, side: u32, barred: &[(u32, u32)]) -> Result<Grid, Memory>
    requires { side ≤ MOST_APPLICANTS }
    ensures { IfOk result (λ may. may.side ≡ side) }
{
    let mut may = Grid::new(alloc, side)?;
    for row in 0..side {
        for column in 0..side {
            may.set(row, column, !barred.contains(&(row, column)));
        }
    }
    Ok(may)
}

fn reviewers(alloc: Global, cut: &Cut) -> Result<Vec<u32>, Memory> {
    let mut places = Vec::new(alloc);
    for place in 0..cut.side() {
        if cut.has_reviewer(place) {
            places.push(place)?;
        }
    }
    Ok(places)
}

fn proposals(alloc: Global, cut: &Cut) -> Result<Vec<u32>, Memory> {
    let mut places = Vec::new(alloc);
    for place in 0..cut.side() {
        if cut.has_proposal(place) {
            places.push(place)?;
        }
    }
    Ok(places)
}

#[test]
fn takes_the_only_pairs(rt: HostRuntime) -> Result<(), Fail> {
    let may = all_but(rt.alloc(), 2, &[(0, 0), (1, 1)])?;
    let need = [1, 1];
    let Solved::Pairs(pairs) = solve(rt.alloc(), &need, &need, &may)? else {
        return Err(Fail::from("no pairs"));
    };
    assert_eq!(rt; pairs.side(), 2);
    assert!(rt; pairs.get(0, 1) && pairs.get(1, 0));
    assert!(rt; !pairs.get(0, 0) && !pairs.get(1, 1));
    Ok(())
}

// The reviewers who cannot be served, and the proposals that those may review who can be.
#[test]
fn shows_the_shortage(rt: HostRuntime) -> Result<(), Fail> {
    let one_against_three = [
        (0, 0),
        (1, 1),
        (1, 2),
        (1, 3),
        (2, 1),
        (2, 2),
        (2, 3),
        (3, 1),
        (3, 2),
        (3, 3),
    ];
    let first_bars_second = [(0, 0), (1, 1), (2, 2), (0, 1)];
    for (side, reviews, barred, served, wanted) in [
        (
            4,
            1,
            one_against_three.as_slice(),
            [1, 2, 3].as_slice(),
            [1, 2, 3].as_slice(),
        ),
        (3, 2, &first_bars_second, &[0], &[0, 1, 2]),
        (1, 1, &[(0, 0)], &[0], &[0]),
    ] {
        let may = all_but(rt.alloc(), side, barred)?;
        let need = vec![in rt.alloc(); reviews; side as usize]?;
        let Solved::Short(cut) = solve(rt.alloc(), &need, &need, &may)? else {
            return Err(Fail::from("not short"));
        };
        assert_eq!(rt;
            reviewers(rt.alloc(), &cut)?.as_slice(),
            served,
            "at {side}"
        );
        assert_eq!(rt;
            proposals(rt.alloc(), &cut)?.as_slice(),
            wanted,
            "at {side}"
        );
    }
    Ok(())
}

#[test]
fn settles_pairs(rt: HostRuntime) -> Result<(), Fail> {
    let may = all_but(rt.alloc(), 2, &[(0, 0)])?;
    assert!(rt; may.get(0, 1) && may.get(1, 1));
    let need = [1, 1];
    let Started::Ready(flow) = Flow::start(rt.alloc(), &need, &need, &may)? else {
        return Err(Fail::from("short"));
    };
    let mut flow = flow;
    assert!(rt; !flow.settle(1, 1));
    assert!(rt; flow.settle(0, 1));
    assert!(rt; flow.pairs().get(1, 0));
    Ok(())
}
