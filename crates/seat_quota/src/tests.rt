//! A tally beside a desk whose totals are added up whole, over a run of reviews.

ghost use Rattle.std.specs.Prelude.{◌≡◌, ◌<◌, ◌≤◌, ℕ, length, IfOk};
ghost use Rattle.house_base.specs.Grid.{cell};
ghost use Rattle.house_base.specs.Setting.{size};
ghost use Rattle.review_desk.specs.Desk.{IsSetUp};
ghost use Rattle.seat_quota.specs.Six.{six_applicants, six_owners, six_pairs, six_people};
ghost use Rattle.seat_quota.specs.Tally.{IsTally};
ghost use Rattle.seat_quota.specs.Totals.{HoldsTotals};

use crate::{Tally, Totals};
use house_base::{Call, Grid, Kind, Memory, Name, Owner, Person, Plan, ReviewLine, Took};
use review_desk::Desk;
use std::alloc::Global;
use std::process::Abort;
use std::test::Fail;

fn name(word: &[u8]) -> Result<Name, Fail>
    ensures { IfOk result (λ name. name ≡ word.now) }
{
    Ok(Name::read(word).ok_or("not a name")?)
}

fn applicant(word: &[u8], cluster: u32, number: u32) -> Result<Person, Fail>
    ensures { IfOk result (λ person. person ≡ record { name = word.now; cluster = cluster; number = number }) }
{
    Ok(Person {
        name: name(word)?,
        cluster,
        number,
    })
}

fn person(word: &[u8], first: u32) -> Result<Owner, Fail>
    ensures { IfOk result (λ owner. owner ≡ record { name = word.now; first = first; own = 1 }) }
{
    Ok(Owner {
        name: name(word)?,
        first,
        own: 1,
    })
}

fn people(alloc: Global) -> Result<Vec<Person>, Fail>
    ensures { IfOk result (λ people. people.items ≡ six_people) }
{
    Ok(vec![in alloc;
        applicant(b"a", 1, 0)?,
        applicant(b"b", 2, 1)?,
        applicant(b"c", 3, 2)?,
        applicant(b"d", 1, 3)?,
        applicant(b"e", 2, 4)?,
        applicant(b"f", 3, 5)?,
    ]?)
}

fn owners(alloc: Global) -> Result<Vec<Owner>, Fail>
    ensures { IfOk result (λ owners. owners.items ≡ six_owners) }
{
    Ok(vec![in alloc;
        person(b"a", 0)?,
        person(b"b", 1)?,
        person(b"c", 2)?,
        person(b"d", 3)?,
        person(b"e", 4)?,
        person(b"f", 5)?,
    ]?)
}

/// The plan of six applicants.
fn plan(alloc: Global) -> Result<Plan, Fail>
    ensures value { IfOk result (λ plan. plan ≡ six_applicants) }
    ensures size { IfOk result (λ plan. size plan ≡ 6) }
    ensures clusters { IfOk result (λ plan. plan.clusters ≡ 3) }
{
    let call = Call {
        seats: 2,
        clusters: 3,
        reviews: 2,
    };
    Ok(Plan::build(call, people(alloc)?, owners(alloc)?, Grid::new(alloc, 6)?))
}

/// Each of them reviews the next two.
fn pairs(alloc: Global) -> Result<Grid, Memory>
    ensures side { IfOk result (λ grid. grid.side ≡ 6) }
    ensures cells { IfOk result (λ grid. (r p : ℕ) → r < 6 → p < 6 → cell grid r p ≡ six_pairs r p) }
{
    let mut pairs = Grid::new(alloc, 6)?;
    for reviewer in 0..6 {
        pairs.set(reviewer, (reviewer + 1) % 6, true);
        pairs.set(reviewer, (reviewer + 2) % 6, true);
    }
    Ok(pairs)
}

fn line(reviewer: &[u8], proposal: &[u8], points: Option<u32>) -> ReviewLine {
    ReviewLine {
        whole: true,
        reviewer: Name::read(reviewer),
        proposal: Name::read(proposal),
        points,
    }
}

/// The scores and the cents of the clusters.
fn numbers(totals: &Totals) -> ([u64; 6], [u64; 3])
    requires scores { 6 ≤ length totals.now.scores }
    requires clusters { 3 ≤ length totals.now.clusters }
{
    let scores = [
        totals.score(0),
        totals.score(1),
        totals.score(2),
        totals.score(3),
        totals.score(4),
        totals.score(5),
    ];
    let clusters = [
        totals.cluster_cents(1),
        totals.cluster_cents(2),
        totals.cluster_cents(3),
    ];
    (scores, clusters)
}

/// Takes a run of reviews at both, and compares their totals after each.
fn compare<R: Abort>(
    rt: &R,
    alloc: Global,
    plan: &Plan,
    desk: &mut Desk,
    tally: &mut Tally,
) -> Result<(), Fail>
    requires size { size plan.now ≡ 6 }
    requires clusters { plan.now.clusters ≡ 3 }
    requires desk { IsSetUp plan.now desk.old }
    requires tally { IsTally plan.now tally.old }
    ensures held { HoldsTotals plan.now tally.new.totals }
{
    for (line, took) in [
        (line(b"b", b"c", Some(100)), Took::Kept),
        (line(b"b", b"z", Some(5)), Took::Aside(Kind::Unknown)),
        (line(b"b", b"e", Some(5)), Took::Aside(Kind::Unassigned)),
        (line(b"b", b"c", Some(101)), Took::Aside(Kind::Range)),
        (line(b"B", b"c", None), Took::Aside(Kind::Unknown)),
        (line(b"b", b"c", None), Took::Aside(Kind::Range)),
        (line(b"f", b"a", Some(2)), Took::Kept),
        (line(b"f", b"b", Some(1)), Took::Kept),
        (line(b"b", b"d", Some(50)), Took::Kept),
    ] {
        assert_eq!(rt; desk.review(plan, &line), took, "at {line:?}");
        assert_eq!(rt; tally.review(plan, &line), took, "at {line:?}");
        let totals = Totals::of(alloc, plan, desk)?;
        assert_eq!(rt; numbers(tally.totals()), numbers(&totals), "at {line:?}");
    }
    Ok(())
}

#[test]
fn tally_follows_each_review(rt: HostRuntime) -> Result<(), Fail> {
    let plan = plan(rt.alloc())?;
    let first = pairs(rt.alloc())?;
    let second = pairs(rt.alloc())?;
    let mut desk = Desk::set_up(rt.alloc(), &plan, first)?;
    let mut tally = Tally::set_up(rt.alloc(), &plan, second)?;
    assert_eq!(rt; numbers(tally.totals()), ([1_000_000; 6], [2_000_000; 3]));
    assert_eq!(rt; tally.totals().denominator(), 6_000_000);
    compare(&rt, rt.alloc(), &plan, &mut desk, &mut tally)?;
    assert_eq!(rt;
        numbers(tally.totals()).0,
        [1_166_667, 833_333, 1_166_667, 833_333, 1_000_000, 1_000_000]
    );
    Ok(())
}

#[test]
fn one_review_moves_its_dollar(rt: HostRuntime) -> Result<(), Fail> {
    let plan = plan(rt.alloc())?;
    let mut tally = Tally::set_up(rt.alloc(), &plan, pairs(rt.alloc())?)?;
    tally.review(&plan, &line(b"b", b"c", Some(100)));
    assert_eq!(rt; tally.desk().points(1, 2), 100);
    assert_eq!(rt; tally.desk().grid().side(), 6);
    assert_eq!(rt;
        numbers(tally.totals()),
        (
            [
                1_000_000, 1_000_000, 1_500_000, 500_000, 1_000_000, 1_000_000
            ],
            [1_500_000, 2_000_000, 2_500_000]
        )
    );
    Ok(())
}
