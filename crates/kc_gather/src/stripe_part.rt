//! What is taken from a stripe of a count for its summary.

use kc_tally::{Histogram, LooseRows};

/// What is taken from a stripe: its rows in parts, if a tally is wanted, otherwise its numbers.
// It is one type for all summaries, since the checker gives the clauses of a trait to no method that takes an
// associated type.
#[derive(Drop)]
pub struct StripePart {
    pub(crate) rows: Vec<LooseRows>,
    pub(crate) numbers: StripeNumbers,
}

/// What is known of the counts of words without rows: their bins, their sum, and the greatest one, 0 if there is none.
#[derive(Drop)]
pub struct StripeNumbers {
    pub(crate) histogram: Histogram,
    pub(crate) total: u64,
    pub(crate) greatest: u64,
}
