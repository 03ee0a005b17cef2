//! Slips of a worked call: two seats, three clusters, two reviews each, and six applicants.

ghost use Rattle.std.specs.Prelude.{◌≡◌, ◌<◌, ℕ, IfOk};
ghost use Rattle.house_base.specs.Grid.{cell};
ghost use Rattle.house_base.specs.Setting.{size};
ghost use Rattle.seat_quota.specs.Six.{six_applicants, six_owners, six_pairs, six_people};

use crate::{SlipWrite, Verdict, check_slip, write_slip};
use house_base::{Call, Grid, Memory, Name, Owner, Person, Plan, ReviewLine};
use review_desk::Desk;
use std::alloc::Global;
use std::test::Fail;

fn name(word: &[u8]) -> Result<Name, Fail>
    ensures { IfOk result (λ name. name ≡ word.now) }
{
    Ok(Name::read(word).ok_or("not a name")?)
}

fn applicant(word: &[u8], cluster: u32, number: u32) -> Result<Person, Fail>
    ensures { IfOk result (λ person. person ≡ record { name = word.now; cluster = cluster; number = number }) }
{
    Ok(Person {
        name: name(word)?,
        cluster,
        number,
    })
}

fn person(word: &[u8], first: u32) -> Result<Owner, Fail>
    ensures { IfOk result (λ owner. owner ≡ record { name = word.now; first = first; own = 1 }) }
{
    Ok(Owner {
        name: name(word)?,
        first,
        own: 1,
    })
}

fn people(alloc: Global) -> Result<Vec<Person>, Fail>
    ensures { IfOk result (λ people. people.items ≡ six_people) }
{
    Ok(vec![in alloc;
        applicant(b"a", 1, 0)?,
        applicant(b"b", 2, 1)?,
        applicant(b"c", 3, 2)?,
        applicant(b"d", 1, 3)?,
        applicant(b"e", 2, 4)?,
        applicant(b"f", 3, 5)?,
    ]?)
}

fn owners(alloc: Global) -> Result<Vec<Owner>, Fail>
    ensures { IfOk result (λ owners. owners.items ≡ six_owners) }
{
    Ok(vec![in alloc;
        person(b"a", 0)?,
        person(b"b", 1)?,
        person(b"c", 2)?,
        person(b"d", 3)?,
        person(b"e", 4)?,
        person(b"f", 5)?,
    ]?)
}

/// The plan of six applicants.
fn plan(alloc: Global) -> Result<Plan, Fail>
    ensures value { IfOk result (λ plan. plan ≡ six_applicants) }
    ensures size { IfOk result (λ plan. size plan ≡ 6) }
    ensures seats { IfOk result (λ plan. plan.seats ≡ 2) }
{
    let call = Call {
        seats: 2,
        clusters: 3,
        reviews: 2,
    };
    Ok(Plan::build(call, people(alloc)?, owners(alloc)?, Grid::new(alloc, 6)?))
}

/// Each of them reviews the next two.
fn pairs(alloc: Global) -> Result<Grid, Memory>
    ensures side { IfOk result (λ grid. grid.side ≡ 6) }
    ensures cells { IfOk result (λ grid. (r p : ℕ) → r < 6 → p < 6 → cell grid r p ≡ six_pairs r p) }
{
    let mut pairs = Grid::new(alloc, 6)?;
    for reviewer in 0..6 {
        pairs.set(reviewer, (reviewer + 1) % 6, true);
        pairs.set(reviewer, (reviewer + 2) % 6, true);
    }
    Ok(pairs)
}

#[test]
fn slips_of_six_applicants_are_written(rt: HostRuntime) -> Result<(), Fail> {
    let alloc = rt.alloc();
    let plan = plan(alloc)?;
    let mut desk = Desk::set_up(alloc, &plan, pairs(alloc)?)?;
    let line = ReviewLine {
        whole: true,
        reviewer: Name::read(b"b"),
        proposal: Name::read(b"c"),
        points: Some(100),
    };
    desk.review(&plan, &line);
    for (word, wanted) in [
        (
            "a",
            "slip a chance 3000000/6000000\nseats 2 persons 6\nmember a\nmember d\nballot b c:100 d:0\nballot c d:0 e:0\nballot e f:0 a:0\nballot f a:0 b:0\n",
        ),
        (
            "b",
            "slip b chance 4000000/6000000\nseats 2 persons 6\nmember b\nmember e\nballot a b:0 c:0\nballot c d:0 e:0\nballot d e:0 f:0\nballot f a:0 b:0\n",
        ),
        (
            "c",
            "slip c chance 5000000/6000000\nseats 2 persons 6\nmember c\nmember f\nballot a b:0 c:0\nballot b c:100 d:0\nballot d e:0 f:0\nballot e f:0 a:0\n",
        ),
    ] {
        let mut out = Vec::new(alloc);
        assert_eq!(rt;
            write_slip(alloc, &plan, &desk, 2, name(word.as_bytes())?, &mut out),
            Ok(()),
            "at {word}"
        );
        assert_eq!(rt; out.as_slice(), wanted.as_bytes(), "at {word}");
        assert_eq!(rt; check_slip(alloc, &out), Ok(Verdict::Yes), "at {word}");
    }
    let mut out = Vec::new(alloc);
    assert_eq!(rt;
        write_slip(alloc, &plan, &desk, 2, name(b"zed")?, &mut out),
        Err(SlipWrite::Unlisted)
    );
    assert!(rt; out.is_empty());
    Ok(())
}
