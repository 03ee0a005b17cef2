//! What a call gives out.

ghost use Rattle.std.specs.Prelude.{◌≤◌};
ghost use Rattle.house_base.specs.declared.limits.TheConstants.{MOST_SEATS, FEWEST_CLUSTERS, MOST_CLUSTERS, MOST_REVIEWS};

/// What a call gives out, and among how many clusters and reviews.
#[derive(Clone, Copy, Debug, PartialEq, Eq)]
pub struct Call {
    /// How many seats are given out.
    pub seats: u32,
    /// Into how many clusters the applicants are divided.
    pub clusters: u32,
    /// How many reviews each applicant gets.
    pub reviews: u32,
    ghost seats_in_range: { (1 ≤ seats) × (seats ≤ MOST_SEATS) },
    ghost clusters_in_range: { (FEWEST_CLUSTERS ≤ clusters) × (clusters ≤ MOST_CLUSTERS) },
    ghost reviews_in_range: { (1 ≤ reviews) × (reviews ≤ MOST_REVIEWS) },
}
