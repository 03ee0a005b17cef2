//! The texts of two outcomes, of a refusal and of refused files.

ghost use Rattle.std.specs.Prelude.{◌≡◌, IfOk};

use crate::{
    ApplicantRow, ClusterRow, Outcome, write_bad_key, write_bad_record, write_bad_toml,
    write_refused, write_report,
};
use house_base::{Asides, Call, Name, Reason};
use std::alloc::Global;
use std::test::Fail;

fn name(word: &[u8]) -> Result<Name, Fail>
    ensures { IfOk result (λ name. name ≡ word.now) }
{
    Ok(Name::read(word).ok_or("not a name")?)
}

fn cluster(cents: u64, quota: u64, seats: u64, filled: u64) -> ClusterRow {
    ClusterRow {
        cents,
        quota,
        seats,
        filled,
    }
}

fn applicant(
    names: [&[u8]; 2],
    cluster: u32,
    rank: u32,
    cents: u64,
    chance: u64,
    chosen: bool,
) -> Result<ApplicantRow, Fail> {
    Ok(ApplicantRow {
        name: name(names[0])?,
        person: name(names[1])?,
        cluster,
        rank,
        cents,
        chance,
        chosen,
    })
}

/// Person a has the applicants a1 and a2, persons b and c have one each.
fn three_persons(alloc: Global) -> Result<Outcome, Fail> {
    let call = Call {
        seats: 2,
        clusters: 2,
        reviews: 1,
    };
    let asides = Asides {
        form: 1,
        early: 2,
        late: 3,
        unknown: 4,
        unassigned: 5,
        range: 6,
    };
    let clusters = vec![in alloc;
        cluster(2_000_000, 4_000_000, 2, 2),
        cluster(1_000_000, 2_000_000, 0, 0),
    ]?;
    let applicants = vec![in alloc;
        applicant([b"a1", b"a"], 1, 1, 1_000_000, 3_000_000, true)?,
        applicant([b"a2", b"a"], 1, 2, 1_000_000, 1_000_000, true)?,
        applicant([b"b", b"b"], 2, 1, 500_000, 2_000_000, false)?,
        applicant([b"c", b"c"], 2, 2, 500_000, 0, false)?,
    ]?;
    Ok(Outcome::make(call, asides, 0, 3_000_000, 3, clusters, applicants, 0))
}

/// One applicant in each of two clusters, for five seats.
fn two_alone(alloc: Global) -> Result<Outcome, Fail> {
    let call = Call {
        seats: 5,
        clusters: 2,
        reviews: 1,
    };
    let asides = Asides {
        form: 0,
        early: 0,
        late: 0,
        unknown: 0,
        unassigned: 0,
        range: 0,
    };
    let clusters = vec![in alloc;
        cluster(1_000_000, 5_000_000, 2, 1),
        cluster(1_000_000, 5_000_000, 3, 1),
    ]?;
    let applicants = vec![in alloc;
        applicant([b"a", b"a"], 1, 1, 1_000_000, 2_000_000, true)?,
        applicant([b"b", b"b"], 2, 1, 1_000_000, 2_000_000, true)?,
    ]?;
    Ok(Outcome::make(
        call, asides, 1_999_999, 2_000_000, 2, clusters, applicants, 3,
    ))
}

const TEXTS: &[u8] = b"call 2 2 1
applicants 4 persons 3
aside 1 2 3 4 5 6
draw 0/3000000
cluster 1 cents 2000000 quota 4000000/3000000 seats 2 filled 2
cluster 2 cents 1000000 quota 2000000/3000000 seats 0 filled 0
applicant a1 person a cluster 1 rank 1 cents 1000000 chance 3000000/3000000 yes
applicant a2 person a cluster 1 rank 2 cents 1000000 chance 1000000/3000000 yes
applicant b cluster 2 rank 1 cents 500000 chance 2000000/3000000 no
applicant c cluster 2 rank 2 cents 500000 chance 0/3000000 no
empty 0
call 5 2 1
applicants 2
aside 0 0 0 0 0 0
draw 1999999/2000000
cluster 1 cents 1000000 quota 5000000/2000000 seats 2 filled 1
cluster 2 cents 1000000 quota 5000000/2000000 seats 3 filled 1
applicant a cluster 1 rank 1 cents 1000000 chance 2000000/2000000 yes
applicant b cluster 2 rank 1 cents 1000000 chance 2000000/2000000 yes
empty 3
refused 18 range
bad toml
bad key seats
bad record 3
";

#[test]
fn texts_stand_one_after_another(rt: HostRuntime) -> Result<(), Fail> {
    let alloc = rt.alloc();
    let mut out = Vec::new(alloc);
    write_report(alloc, &three_persons(alloc)?, &mut out)?;
    write_report(alloc, &two_alone(alloc)?, &mut out)?;
    write_refused(alloc, 18, Reason::Range, &mut out)?;
    write_bad_toml(alloc, &mut out)?;
    write_bad_key(alloc, "seats", &mut out)?;
    write_bad_record(alloc, 3, &mut out)?;
    assert_eq!(rt; out.as_slice(), TEXTS);
    Ok(())
}
