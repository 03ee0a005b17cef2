//! The largest remainder rule: whole shares first, then the cents left over to the greatest remainders.

ghost use Rattle.std.specs.Prelude.{◌≡◌, ℕ, ◌+◌, ◌*◌, ◌<◌, ◌≤◌, nat_le, if◌then◌else◌, IfSome, All, length, slice_index, sum};
ghost use Rattle.peer_selection.specs.Split.{weights, base_at, remainder_at, left_over, cents_at};
ghost use Rattle.dollar_split.specs.Weighed.{IsSplit, IsWeighed, is_silent, priority_of, is_among_first, extra_at, count_reaching};

use house_base::limits::{DOLLAR, MOST_OWN, MOST_POINTS, MOST_REVIEWS};

/// The most proposals among which a dollar is split.
const MOST_SHARES: usize = MOST_REVIEWS as usize * MOST_OWN as usize;

/// Splits a dollar, in cents, among the proposals that a person reviews, by the points for each, given in the
/// order of rising distance: each gets the cents of its share rounded down, and the cents left over go one each
/// to the greatest remainders, equal ones by the smaller distance. Where all points are 0 the shares are equal.
pub fn split(points: &[u32], cents: &mut [u32])
    requires same_length { length points.now ≡ length cents.old }
    requires some { 1 ≤ length points.now }
    requires few { length points.now ≤ MOST_REVIEWS * MOST_OWN }
    requires points { All (λ x. x ≤ MOST_POINTS) points.now }
    ensures each { length cents.new ≡ length points.now }
    ensures shares { (i : ℕ) → i < length points.now → slice_index cents.new i ≡ cents_at points.now i }
    ensures whole { sum cents.new ≡ DOLLAR }
{
    let silent = is_silent(points);
    let total = total_weight(points, silent);
    let mut room = [0; MOST_SHARES];
    let priorities = &mut room[..points.len()];
    let left = give_bases(points, silent, total, cents, priorities);
    give_left_over(priorities, left, total * MOST_SHARES as u32 + 1, cents);
}

/// Whether all points are 0.
fn is_silent(points: &[u32]) -> bool
    ensures { result ≡ is_silent points.now }
{
    points.iter().all(|x| *x == 0)
}

/// The sum of the weights.
fn total_weight(points: &[u32], silent: bool) -> u32
    requires split { IsSplit points.now }
    requires silent { silent ≡ is_silent points.now }
    ensures value { result ≡ sum (weights points.now) }
    ensures most { result ≤ MOST_REVIEWS * MOST_OWN * MOST_POINTS }
{
    let mut total = 0;
    for i in 0..points.len() {
        total += weight_at(points, silent, i);
    }
    total
}

/// The weight of a proposal: its points, or 1 where all points are 0.
fn weight_at(points: &[u32], silent: bool, i: usize) -> u32
    requires split { IsSplit points.now }
    requires silent { silent ≡ is_silent points.now }
    requires index { i < length points.now }
    ensures value { result ≡ slice_index (weights points.now) i }
    ensures most { result ≤ MOST_POINTS }
{
    if silent { 1 } else { points[i] }
}

/// Gives each proposal its share rounded down, notes the priority that rounding gives it, and says how many cents
/// are left over.
fn give_bases(
    points: &[u32],
    silent: bool,
    total: u32,
    cents: &mut [u32],
    priorities: &mut [u32],
) -> u32
    requires weighed { IsWeighed points.now silent total }
    requires cent_each { length points.now ≡ length cents.old }
    requires priority_each { length points.now ≡ length priorities.old }
    ensures left { result ≡ left_over points.now }
    ensures each { length points.now ≡ length priorities.new }
    ensures bases { (i : ℕ) → i < length points.now → slice_index cents.new i ≡ base_at points.now i }
    ensures priorities { (i : ℕ) → i < length points.now →
        slice_index priorities.new i ≡ priority_of (remainder_at points.now i) i }
{
    let mut left = DOLLAR;
    for i in 0..points.len() {
        let dollars = DOLLAR * weight_at(points, silent, i);
        let share = dollars / total;
        cents[i] = share;
        priorities[i] = priority(dollars % total, i);
        left -= share;
    }
    left
}

/// The priority of a proposal for one of the cents left over, which is greater for the greater remainder, and of equal
/// ones for the smaller distance. So one comparison tells which of two proposals goes first.
fn priority(remainder: u32, i: usize) -> u32
    requires remainder { remainder ≤ MOST_REVIEWS * MOST_OWN * MOST_POINTS }
    requires index { i < MOST_REVIEWS * MOST_OWN }
    ensures { result ≡ priority_of remainder i }
{
    remainder * MOST_SHARES as u32 + (MOST_SHARES - i) as u32
}

/// Gives the cents left over one each to the greatest priorities, all of which are below a limit.
fn give_left_over(priorities: &[u32], left: u32, limit: u32, cents: &mut [u32])
    requires same_length { length priorities.now ≡ length cents.old }
    requires few { length priorities.now ≤ MOST_REVIEWS * MOST_OWN }
    requires room { (i : ℕ) → i < length priorities.now → slice_index cents.old i ≤ DOLLAR }
    ensures { (i : ℕ) → i < length priorities.now →
        slice_index cents.new i ≡ slice_index cents.old i + extra_at priorities.now left i }
{
    match bound_of(priorities, left, limit) {
        Some(bound) => give_to_reaching(priorities, bound, cents),
        None => give_to_first(priorities, left, cents),
    }
}

/// A bound that so many priorities reach, where halving what is below a limit comes upon one.
fn bound_of(priorities: &[u32], many: u32, limit: u32) -> Option<u32>
    requires { length priorities.now ≤ MOST_REVIEWS * MOST_OWN }
    ensures { IfSome result (λ bound. count_reaching priorities.now bound ≡ many) }
{
    let mut low = 0;
    let mut high = limit;
    while high - low > 1 {
        let middle = low + (high - low) / 2;
        let count = count_reaching(priorities, middle);
        if count == many {
            return Some(middle);
        }
        if count > many {
            low = middle;
        } else {
            high = middle;
        }
    }
    None
}

/// How many priorities reach a bound.
fn count_reaching(priorities: &[u32], bound: u32) -> u32
    requires { length priorities.now ≤ MOST_REVIEWS * MOST_OWN }
    ensures { result ≡ count_reaching priorities.now bound }
{
    let mut count = 0;
    for j in 0..priorities.len() {
        if priorities[j] >= bound {
            count += 1;
        }
    }
    count
}

/// Gives one cent each to the priorities that reach a bound.
fn give_to_reaching(priorities: &[u32], bound: u32, cents: &mut [u32])
    requires same_length { length priorities.now ≡ length cents.old }
    requires room { (i : ℕ) → i < length priorities.now → slice_index cents.old i ≤ DOLLAR }
    ensures { (i : ℕ) → i < length priorities.now → slice_index cents.new i
        ≡ slice_index cents.old i + (if nat_le bound (slice_index priorities.now i) then 1 else 0) }
{
    for i in 0..priorities.len() {
        cents[i] += u32::from(priorities[i] >= bound);
    }
}

/// Gives one cent each to the first priorities, so many.
fn give_to_first(priorities: &[u32], left: u32, cents: &mut [u32])
    requires same_length { length priorities.now ≡ length cents.old }
    requires few { length priorities.now ≤ MOST_REVIEWS * MOST_OWN }
    requires room { (i : ℕ) → i < length priorities.now → slice_index cents.old i ≤ DOLLAR }
    ensures { (i : ℕ) → i < length priorities.now →
        slice_index cents.new i ≡ slice_index cents.old i + extra_at priorities.now left i }
{
    for i in 0..priorities.len() {
        cents[i] += u32::from(is_among_first(priorities, left, i));
    }
}

/// Whether a priority is among the first so many: fewer than these are greater. All are compared, without a way out
/// of the loop, so that several are compared at a time.
fn is_among_first(priorities: &[u32], left: u32, i: usize) -> bool
    requires few { length priorities.now ≤ MOST_REVIEWS * MOST_OWN }
    requires index { i < length priorities.now }
    ensures { result ≡ is_among_first priorities.now left i }
{
    let mut before = 0;
    for j in 0..priorities.len() {
        if priorities[j] > priorities[i] {
            before += 1;
        }
    }
    before < left
}
