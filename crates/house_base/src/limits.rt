//! The sizes up to which a call is run.

/// The most applicants of a call.
pub const MOST_APPLICANTS: u32 = 1_000;

/// The most seats of a call.
pub const MOST_SEATS: u32 = 1_000;

/// The fewest clusters of a call: with one alone nobody could be reviewed.
pub const FEWEST_CLUSTERS: u32 = 2;

/// The most clusters of a call.
pub const MOST_CLUSTERS: u32 = 30;

/// The most reviews that each applicant gets.
pub const MOST_REVIEWS: u32 = 20;

/// The most applicants of one person.
pub const MOST_OWN: u32 = 5;

/// The most bytes of a name.
pub const MOST_NAME_BYTES: usize = 24;

/// The most bytes of a seed.
pub const MOST_SEED_BYTES: usize = 64;

/// The most points that a review gives.
pub const MOST_POINTS: u32 = 100;

/// One dollar, which each person shares among the applicants that it reviews, in cents.
pub const DOLLAR: u32 = 1_000_000;
