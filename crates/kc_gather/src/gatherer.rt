//! The tally that is gathered from the stripes of a count.
ghost use Rattle.std.specs.Prelude.{◌≡◌, ◌≤◌, ◌^◌, length, IfOk, OnOk, IfErr};
ghost use Rattle.kc_word.specs.Shared.{values};
ghost use Rattle.kc_tally.specs.Tally.{AreRows, IsTallyOf};
ghost use Rattle.kc_booking.specs.Setup.{stripe_count};
ghost use Rattle.kc_booking.specs.Stripe.{reads_in, position_sum};
ghost use Rattle.kc_gather.specs.Parts.{list_rows};
ghost use Rattle.kc_gather.specs.Gathering.{AreWholeBefore};
ghost use Rattle.kc_gather.specs.Gathering.{IsRefusal, HasRowsOf};

use crate::columns::{columns_of, sort_each};
use crate::gather_fault::GatherFault;
use crate::given_stripes::GivenStripes;
use crate::stripe_part::{StripeNumbers, StripePart};
use crate::summary::Summary;
use crate::taken_parts::take_parts;
use crate::taken_rows::{rows_in, rows_of};
use kc_booking::{Setup, Stripe};
use kc_table::Counts;
use kc_tally::{Histogram, LooseLists, PackedRows, Tally};
use kc_word::Batch;
use std::alloc::{AllocError, Global};
use std::sync::Arc;

/// The tally of the batches, gathered from the stripes into which they were booked. It is refused unless each stripe is
/// that of its index and its journal has exactly the given batches, whichever stripe counted what. All stripes are
/// checked before memory is asked for. A journal with as many entries as there are batches lacks none.
///
/// Conditions: there are as many stripes as the setup has; the batches have at most 2^62 positions together.
pub fn gather<C: Counts + Drop>(
    alloc: Global,
    stripes: Vec<Stripe<C>>,
    batches: &[Arc<Batch>],
    setup: &Setup,
) -> Result<Tally, GatherFault>
    requires one_each { length stripes.items ≡ stripe_count setup.now }
    requires few { position_sum setup.now.rule.k (values batches.now) ≤ 2 ^ 62 }
    ensures whole { OnOk result (AreWholeBefore setup.now (values batches.now) stripes.items (length stripes.items)) }
    ensures tally { IfOk result (IsTallyOf setup.now.rule (reads_in (values batches.now))) }
    ensures refused { IfErr result (IsRefusal setup.now (values batches.now) stripes.items) }
{
    // for the proof: facts about the number of stripes
    setup.stripes();
    let given = GivenStripes {
        stripes: &stripes,
        batches,
        setup,
    };
    given.check(0, stripes.len())?;
    let parts = take_parts::<Tally, C>(alloc, stripes)?;
    let sort = |columns| sort_each(alloc, columns);
    let tally = Tally::of_parts(alloc, parts, setup, &sort)?;
    Ok(tally)
}

impl Summary for Tally {
    ghost is_of = { IsTallyOf };

    ghost is_part = { λ setup batches n part. HasRowsOf setup batches n part.rows };

    /// The stripe's rows in parts.
    fn part_of<C: Counts + Drop>(
        alloc: Global,
        stripe: Stripe<C>,
    ) -> Result<StripePart, AllocError> {
        let histogram = Histogram::new(alloc)?;
        let rows = rows_of(alloc, stripe)?;
        Ok(StripePart {
            rows,
            numbers: StripeNumbers {
                histogram,
                total: 0,
                greatest: 0,
            },
        })
    }

    /// The tally of the rows of all stripes.
    fn of_parts<F: Fn(Vec<LooseLists>) -> Result<Vec<PackedRows>, AllocError>>(
        alloc: Global,
        parts: Vec<StripePart>,
        setup: &Setup,
        sort: &F,
    ) -> Result<Tally, AllocError> {
        let taken = rows_in(alloc, parts)?;
        let columns = columns_of(alloc, setup.rule().k(), taken)?;
        let sorted = sort(columns)?;
        let tally = tally_of(alloc, sorted, setup)?;
        Ok(tally)
    }
}

// The tally of the rows of these parts, which are sorted.
fn tally_of(alloc: Global, parts: Vec<PackedRows>, setup: &Setup) -> Result<Tally, AllocError>
    requires { AreRows setup.now.rule.k setup.now.rule.both (list_rows parts) }
    ensures { IfOk result (λ tally.
        tally ≡ record { k = setup.now.rule.k; both = setup.now.rule.both; rows = list_rows parts }) }
{
    let rule = setup.rule();
    Tally::of_packed(alloc, rule.k(), rule.both(), parts)
}
