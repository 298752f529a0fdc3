//! Numbers that are gathered from the stripes of a count, without a row.
ghost use Rattle.std.specs.Prelude.{◌≤◌, ◌^◌};
ghost use Rattle.kc_word.specs.Shared.{values};
ghost use Rattle.kc_booking.specs.Stripe.{position_sum};

use crate::gatherings::{batches_of, stripes_of};
use crate::sample_batches::made_setup;
use crate::stripe_assertions::assert_same;
use kc_gather::{Numbers, Summary};
use kc_stripe::Setup;
use kc_tally::Statistics;
use kc_word::Batch;
use std::alloc::Global;
use std::sync::Arc;
use std::test::Fail;
use std::thread::Threads;

// The numbers of these batches, which were booked.
fn numbers_of<H: Threads + Sync>(
    rt: &H,
    alloc: Global,
    setup: &Setup,
    batches: &[Arc<Batch>],
) -> Result<Numbers, Fail>
    requires { position_sum setup.now.rule.k (values batches.now) ≤ 2 ^ 62 }
{
    let stripes = stripes_of(alloc, setup, batches)?;
    if stripes.len() != setup.stripes() as usize {
        return Err(Fail::from("not a stripe for each number"));
    }
    match Numbers::gather(rt, alloc, 2, stripes, batches, setup) {
        Ok(numbers) => Ok(numbers),
        Err(_) => Err(Fail::from("no numbers")),
    }
}

// Numbers of stripes, and positions of a batch.
const COUNTS: &[(u32, u64)] = &[(1, 1), (4, 2), (4, 7), (64, 1)];

// CGT and GTA occur once, ACG twice.
const WANT: Statistics = Statistics {
    unique: 2,
    distinct: 3,
    total: 4,
    greatest: 2,
};

#[test]
fn the_numbers_of_all_stripes(rt: HostRuntime) -> Result<(), Fail> {
    for (stripes, size) in COUNTS {
        let setup = made_setup(3, *stripes)?;
        let batches = batches_of(rt.alloc(), &setup, b"ACGTANACG", *size)?;
        let numbers = numbers_of(&rt, rt.alloc(), &setup, &batches)?;
        assert_same(&rt, "words once", &numbers.histogram.bin(1), &2);
        assert_same(&rt, "words twice", &numbers.histogram.bin(2), &1);
        assert_same(&rt, "no word", &numbers.histogram.bin(3), &0);
        assert_same(&rt, "statistics", &numbers.statistics, &WANT);
    }
    Ok(())
}
