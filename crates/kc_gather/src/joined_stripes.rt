//! The numbers of all stripes of a count together, without rows.
ghost use Rattle.std.specs.Prelude.{◌<◌, ◌^◌, ℕ, List, length, sum, IfOk};
ghost use Rattle.kc_gather.specs.JoinedStripes.{first_counts, AreNumbersOf, HaveNumbers};

use crate::stripe_part::{StripeNumbers, StripePart};
use kc_tally::Histogram;
use std::alloc::{AllocError, Global};

/// The numbers of all parts together. Conditions: they have fewer than 2^64 words together, and their sum fits.
pub(crate) fn joined_numbers(
    alloc: Global,
    parts: &[StripePart],
) -> Result<StripeNumbers, AllocError>
    requires { (counts : ℕ → List ℕ) × HaveNumbers counts parts.now
        × (length (first_counts counts (length parts.now)) < 2 ^ 64)
        × (sum (first_counts counts (length parts.now)) < 2 ^ 64) }
    ensures { (counts : ℕ → List ℕ) → HaveNumbers counts parts.now
        → IfOk result (AreNumbersOf (first_counts counts (length parts.now))) }
{
    let mut bins = Histogram::new(alloc)?;
    let mut total = 0;
    let mut greatest: u64 = 0;
    for part in parts {
        bins.add(&part.numbers.histogram);
        total += part.numbers.total;
        greatest = greatest.max(part.numbers.greatest);
    }
    Ok(StripeNumbers {
        histogram: bins,
        total,
        greatest,
    })
}
