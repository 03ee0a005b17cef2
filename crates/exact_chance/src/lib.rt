//! The exact chance of an applicant, from its rank and its cluster's quota.

#![tactic(auto)]

ghost use Rattle.std.specs.Prelude.{◌≡◌, ℕ, ◌+◌, ◌/◌, ◌%◌, ◌<◌, ◌≤◌, nat_le};
ghost use Rattle.peer_selection.specs.Counting.{count_below};
ghost use Rattle.peer_selection.specs.Marks.{marks};

/// The chance, over `den`, of a rank in a cluster with this quota, over `den` too: how many of the `den` draws give the
/// cluster at least as many seats as the rank says.
///
/// In systematic sampling (Madow) the seats of a cluster at a draw are the marks in its stretch of the line. Wherever
/// the stretch begins, each draw puts the whole part of `quota / den` marks into it, and as many draws as the remainder
/// says put in one more. So no draw needs to be tried.
pub fn chance(quota: u64, den: u64, rank: u32) -> u64
    requires den { 1 ≤ den }
    requires rank { 1 ≤ rank }
    ensures certain { rank ≤ quota / den → result ≡ den }
    ensures partial { rank ≡ quota / den + 1 → result ≡ quota % den }
    ensures none { quota / den + 1 < rank → result ≡ 0 }
    ensures counted { (start : ℕ) → result ≡ count_below (λ draw. nat_le rank (marks start quota den draw)) den }
{
    let whole = quota / den;
    let rank = u64::from(rank);
    if rank <= whole {
        den
    } else if rank == whole + 1 {
        quota % den
    } else {
        0
    }
}

#[cfg(test)]
mod tests;
