//! The numbers that are gathered from the stripes of a count, without the rows of the tally.
ghost use Rattle.std.specs.Prelude.{◌≡◌, ◌<◌, ◌^◌, sum};
ghost use Rattle.kc_gather.specs.JoinedStripes.{HasStripeNumbers};
ghost use Rattle.kc_gather.specs.TallyNumbers.{AreNumbersOfTally};

use crate::joined_stripes::joined_numbers;
use crate::stripe_part::{StripeNumbers, StripePart};
use crate::summary::Summary;
use kc_booking::{Setup, Stripe};
use kc_table::Counts;
use kc_tally::{Histogram, LooseLists, PackedRows, Statistics};
use std::alloc::{AllocError, Global};

/// What is known of the counts of a tally without its rows.
#[derive(Drop)]
pub struct Numbers {
    /// The histogram of the counts.
    pub histogram: Histogram,
    /// The statistics of the tally.
    pub statistics: Statistics,
}

impl Summary for Numbers {
    ghost is_of = { AreNumbersOfTally };

    ghost is_part = { HasStripeNumbers };

    /// What the stripe has, and the greatest count, which one pass over its table finds.
    fn part_of<C: Counts + Drop>(
        alloc: Global,
        stripe: Stripe<C>,
    ) -> Result<StripePart, AllocError> {
        // for the proof: facts about the bins
        stripe.is_lawful();
        let histogram = stripe.histogram(alloc)?;
        Ok(StripePart {
            rows: Vec::new(alloc),
            numbers: StripeNumbers {
                histogram,
                total: stripe.total(),
                greatest: stripe.greatest(),
            },
        })
    }

    fn of_parts<F: Fn(Vec<LooseLists>) -> Result<Vec<PackedRows>, AllocError>>(
        alloc: Global,
        parts: Vec<StripePart>,
        setup: &Setup,
        _sort: &F,
    ) -> Result<Numbers, AllocError> {
        // for the proof: facts about the length of words
        let _bases = setup.rule().k().get();
        let all = joined_numbers(alloc, &parts)?;
        let statistics = Statistics {
            unique: all.histogram.bin(1),
            distinct: words_in(&all.histogram),
            total: all.total,
            greatest: all.greatest,
        };
        Ok(Numbers {
            histogram: all.histogram,
            statistics,
        })
    }
}

// How many words there are in all bins. Condition: their number fits.
fn words_in(bins: &Histogram) -> u64
    requires { sum bins.now < 2 ^ 64 }
    ensures { result ≡ sum bins.now }
{
    bins.sizes().iter().sum()
}
