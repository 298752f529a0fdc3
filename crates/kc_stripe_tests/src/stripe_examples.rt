//! The examples at the front of kc_booking and kc_gather.
use crate::gatherings::batches_of;
use crate::sample_batches::{made_setup, plain_stripe};
use kc_gather::gather;
use kc_stripe::{Setup, Stripe, cut_up};
use kc_table::PlainCounts;
use kc_word::Batch;
use std::alloc::Global;
use std::sync::Arc;
use std::test::Fail;

#[test]
fn a_batch_is_cut_up_booked_and_gathered(rt: HostRuntime) -> Result<(), Fail> {
    let alloc = rt.alloc();
    let setup = made_setup(3, 1)?;
    if setup.stripes() != 1 {
        return Err(Fail::from("another setup"));
    }
    let batches = batches_of(alloc, &setup, b"ACGTA", 8)?;
    let stripe = booked_stripe(alloc, &setup, &batches)?;
    let stripes = vec![in alloc; Box::into_inner(stripe)]?;
    let tally = gather(alloc, stripes, &batches, &setup)?;
    assert_eq!(rt; tally.total(), 3);
    Ok(())
}

// The one stripe of the setup, in which the batches are booked.
fn booked_stripe(
    alloc: Global,
    setup: &Setup,
    batches: &[Arc<Batch>],
) -> Result<Box<Stripe<PlainCounts>>, Fail> {
    let mut stripe = plain_stripe(alloc, setup, 0)?;
    book(alloc, setup, &mut stripe, batches)?;
    Ok(stripe)
}

// Books the batches in the one stripe of the setup.
fn book(
    alloc: Global,
    setup: &Setup,
    stripe: &mut Stripe<PlainCounts>,
    batches: &[Arc<Batch>],
) -> Result<(), Fail> {
    for batch in batches {
        let cuts = cut_up(alloc, setup, batch)?;
        stripe.book(cuts.first().ok_or("no cut")?)?;
    }
    Ok(())
}
