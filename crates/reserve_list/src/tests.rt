//! Boards of an outcome made by hand, beside what they have to say.

ghost use Rattle.std.specs.Prelude.{◌≡◌, ◌<◌, IfOk};
ghost use Rattle.reserve_list.specs.Board.{IsRanked};
ghost use Rattle.reserve_list.specs.Seven.{member, seven, seven_rows, two_rows};

use crate::{Board, LeaveFault, write_reserve};
use house_base::{Asides, Call, Memory, Name, Reason};
use report_text::{ApplicantRow, ClusterRow, Outcome};
use std::alloc::Global;
use std::test::Fail;

fn name(word: &[u8]) -> Result<Name, Fail>
    ensures { IfOk result (λ name. name ≡ word.now) }
{
    Ok(Name::read(word).ok_or("not a name")?)
}

fn member(
    word: &[u8],
    person: &[u8],
    cluster: u32,
    rank: u32,
    chance: u64,
    chosen: bool,
) -> Result<ApplicantRow, Fail>
    ensures { IfOk result (λ row. row ≡ member word.now person.now cluster rank chance chosen) }
{
    Ok(ApplicantRow {
        name: name(word)?,
        person: name(person)?,
        cluster,
        rank,
        cents: 0,
        chance,
        chosen,
    })
}

/// Of person a both a and d are applicants.
fn applicants(alloc: Global) -> Result<Vec<ApplicantRow>, Fail>
    ensures { IfOk result (λ rows. rows.items ≡ seven_rows) }
{
    Ok(vec![in alloc;
        member(b"a", b"a", 1, 2, 2, false)?,
        member(b"b", b"b", 2, 1, 2, true)?,
        member(b"c", b"c", 1, 1, 4, true)?,
        member(b"d", b"a", 1, 4, 0, false)?,
        member(b"e", b"e", 2, 3, 0, false)?,
        member(b"f", b"f", 1, 3, 0, false)?,
        member(b"g", b"g", 2, 2, 0, false)?,
    ]?)
}

fn clusters(alloc: Global) -> Result<Vec<ClusterRow>, Fail>
    ensures { IfOk result (λ rows. rows.items ≡ two_rows) }
{
    Ok(vec![in alloc;
        ClusterRow {
            cents: 3,
            quota: 6,
            seats: 1,
            filled: 1,
        },
        ClusterRow {
            cents: 1,
            quota: 2,
            seats: 1,
            filled: 1,
        },
    ]?)
}

/// Four draws, two seats, two clusters of quotas 6/4 and 2/4, drawn at 2, so that each has one seat.
#[tactic(auto, unfolding(crate::specs::Seven::seven))]
fn seven(alloc: Global) -> Result<Outcome, Fail>
    ensures { IfOk result (λ outcome. outcome ≡ seven) }
{
    let call = Call {
        seats: 2,
        clusters: 2,
        reviews: 1,
    };
    let asides = Asides {
        form: 0,
        early: 0,
        late: 0,
        unknown: 0,
        unassigned: 0,
        range: 0,
    };
    Ok(Outcome::make(
        call,
        asides,
        2,
        4,
        6,
        clusters(alloc)?,
        applicants(alloc)?,
        0,
    ))
}

/// The same, of which a board can be made.
fn ranked(alloc: Global) -> Result<Outcome, Fail>
    ensures { IfOk result (λ outcome. IsRanked outcome) }
{
    let outcome = seven(alloc)?;
    Ok(outcome)
}

#[test]
fn files_of_withdrawals(rt: HostRuntime) -> Result<(), Fail> {
    let outcome = ranked(rt.alloc())?;
    for (file, wanted) in [
        (
            "",
            "final a chance 2/4 no\nfinal b chance 2/4 yes\nfinal c chance 4/4 yes\nfinal d chance 0/4 no\nfinal e chance 0/4 no\nfinal f chance 0/4 no\nfinal g chance 0/4 no\nempty 0\n",
        ),
        (
            "# gone\n\n \t\nwithdraw c\r\nwithdraw\tb",
            "withdraw c up a\nwithdraw b up g\nfinal a chance 4/4 yes\nfinal b chance 0/4 gone\nfinal c chance 0/4 gone\nfinal d chance 0/4 no\nfinal e chance 0/4 no\nfinal f chance 2/4 no\nfinal g chance 2/4 yes\nempty 0\n",
        ),
        (
            "withdraw a\nwithdraw f\nwithdraw c\n",
            "withdraw a up -\nwithdraw f up -\nwithdraw c up d\nfinal a chance 0/4 gone\nfinal b chance 2/4 yes\nfinal c chance 0/4 gone\nfinal d chance 4/4 yes\nfinal e chance 0/4 no\nfinal f chance 0/4 gone\nfinal g chance 0/4 no\nempty 0\n",
        ),
        (
            "withdraw b\nwithdraw g\nwithdraw e\n",
            "withdraw b up g\nwithdraw g up e\nwithdraw e up -\nfinal a chance 2/4 no\nfinal b chance 0/4 gone\nfinal c chance 4/4 yes\nfinal d chance 0/4 no\nfinal e chance 0/4 gone\nfinal f chance 0/4 no\nfinal g chance 0/4 gone\nempty 1\n",
        ),
        (
            "withdraw g\nwithdraw f\nwithdraw e\nwithdraw d\nwithdraw c\nwithdraw b\nwithdraw a\n",
            "withdraw g up -\nwithdraw f up -\nwithdraw e up -\nwithdraw d up -\nwithdraw c up a\nwithdraw b up -\nwithdraw a up -\nfinal a chance 0/4 gone\nfinal b chance 0/4 gone\nfinal c chance 0/4 gone\nfinal d chance 0/4 gone\nfinal e chance 0/4 gone\nfinal f chance 0/4 gone\nfinal g chance 0/4 gone\nempty 2\n",
        ),
    ] {
        let mut text = Vec::new(rt.alloc());
        let wrote = write_reserve(rt.alloc(), &outcome, file.as_bytes(), &mut text);
        assert_eq!(rt; wrote, Ok(()), "at {file}");
        assert!(rt;
            text.starts_with(b"call 2 2 1\napplicants 7 persons 6\n"),
            "at {file}"
        );
        assert!(rt; text.ends_with(wanted.as_bytes()), "at {file}");
    }
    Ok(())
}

#[test]
fn refused_files(rt: HostRuntime) -> Result<(), Fail> {
    let outcome = ranked(rt.alloc())?;
    for (file, line, reason) in [
        ("withdraw", 1, Reason::Form),
        ("#\nwithdraw a b\n", 2, Reason::Form),
        ("Withdraw a", 1, Reason::Form),
        ("withdraw a\n\nwithdraw A", 3, Reason::Name),
        ("withdraw abcdefghijklmnopqrstuvwxy", 1, Reason::Name),
        ("withdraw z", 1, Reason::Unknown),
        ("withdraw b\nwithdraw b", 2, Reason::Known),
    ] {
        let mut text = Vec::new(rt.alloc());
        let wrote = write_reserve(rt.alloc(), &outcome, file.as_bytes(), &mut text);
        assert_eq!(rt; wrote, Err(LeaveFault::BadLine(line, reason)), "at {file}");
        assert!(rt; text.is_empty(), "at {file}");
    }
    Ok(())
}

const CLUSTERS: [u32; 7] = [1, 2, 1, 1, 2, 1, 2];

const RANKS: [u32; 7] = [2, 1, 1, 4, 3, 3, 2];

/// The sampling points of a draw in the stretch of a cluster, one by one.
fn plain_seats(cluster: u32, draw: u64) -> u32 {
    let mut seats = 0;
    for point in [draw, draw.saturating_add(4)] {
        if (cluster == 1) == (point < 6) {
            seats = 1u32.saturating_add(seats);
        }
    }
    seats
}

/// Whether an applicant holds a seat of a draw: it stays, and fewer of its cluster that stay have a smaller rank than there
/// are seats.
fn plain_holds(gone: &[bool; 7], number: usize, draw: u64) -> bool
    requires { number < 7 }
{
    let mut ahead = 0u32;
    for other in 0..7 {
        if CLUSTERS[other] == CLUSTERS[number] && RANKS[other] < RANKS[number] && !gone[other] {
            ahead = ahead.saturating_add(1);
        }
    }
    !gone[number] && ahead < plain_seats(CLUSTERS[number], draw)
}

/// Whether a board says what counting draw by draw does.
fn agrees(board: &Board, gone: &[bool; 7]) -> bool {
    let mut holders = 0u64;
    for number in 0..board.count().min(7) {
        let mut chance = 0u64;
        for draw in 0..4 {
            if plain_holds(gone, number as usize, draw) {
                chance = chance.saturating_add(1);
            }
        }
        let holds = plain_holds(gone, number as usize, 2);
        if holds {
            holders = holders.saturating_add(1);
        }
        if board.holds(number) != holds || board.chance(number) != chance {
            return false;
        }
    }
    board.empty() == 2u64.saturating_sub(holders)
}

/// Whether a number in base 7 has each digit once.
fn is_order(code: u32) -> bool {
    let mut seen = [false; 7];
    let mut rest = code;
    for _ in 0..7 {
        let digit = (rest % 7) as usize;
        if seen[digit] {
            return false;
        }
        seen[digit] = true;
        rest /= 7;
    }
    true
}

/// Whether the board agrees all along when all withdraw in the order of the digits of a number in base 7.
fn agrees_along(alloc: Global, outcome: &Outcome, code: u32) -> Result<bool, Memory>
    requires { IsRanked outcome.now }
{
    let mut board = Board::of(alloc, outcome)?;
    let mut gone = [false; 7];
    let mut rest = code;
    let mut agreed = agrees(&board, &gone);
    for _ in 0..7 {
        let digit = rest % 7;
        rest /= 7;
        gone[digit as usize] = true;
        if digit < board.count() {
            let name = board.name(digit);
            agreed = agreed && board.withdraw(name).is_ok() && agrees(&board, &gone);
        }
    }
    Ok(agreed)
}

/// All seven, in every order, and so every set of them.
#[test]
fn every_order_is_counted_draw_by_draw(rt: HostRuntime) -> Result<(), Fail> {
    let outcome = ranked(rt.alloc())?;
    let mut orders = 0u32;
    for code in 0..823_543 {
        if is_order(code) {
            assert!(rt; agrees_along(rt.alloc(), &outcome, code)?, "at {code}");
            orders = orders.saturating_add(1);
        }
    }
    assert_eq!(rt; orders, 5_040);
    Ok(())
}
