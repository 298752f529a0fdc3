//! Counts that are kept to a list of words: setups with a list, their cuts and their stripes.
use crate::sample_batches::{cuts_in, made_setup, plain_stripe, reads_of, setup_with};
use crate::stripe_assertions::{assert_items, assert_same};
use kc_stripe::{BookFault, Cut, Setup, Stripe};
use kc_table::PlainCounts;
use kc_word::Only;
use std::alloc::{AllocError, Global};
use std::process::Abort;
use std::sync::Arc;
use std::test::Fail;

// Words of three bases in one stripe; those of these reads count.
fn listed_setup(alloc: Global, both: bool, texts: &[&[u8]]) -> Result<Setup, Fail> {
    let Some(setup) = setup_with(3, both, 1) else {
        return Err(Fail::from("no setup"));
    };
    let reads = reads_of(alloc, texts)?;
    let list = Arc::new(alloc, Only::of(alloc, &reads, setup.rule())?)?;
    match setup.listed(list) {
        Some(setup) => Ok(setup),
        None => Err(Fail::from("no list of the setup")),
    }
}

// Whether both strands count, the reads of the list, and what is then counted in ACGTA.
const LISTED: &[(bool, &[&[u8]], &[(u64, u64)])] = &[
    (false, &[b"CGT"], &[(27, 1)]),
    (true, &[b"CGT"], &[(6, 2)]),
    (false, &[b"CGTA"], &[(27, 1), (44, 1)]),
    (false, &[], &[]),
];

#[test]
fn listed_words_alone_are_counted(rt: HostRuntime) -> Result<(), Fail> {
    for (both, texts, rows) in LISTED {
        let setup = listed_setup(rt.alloc(), *both, *texts)?;
        assert_booked(&rt, rt.alloc(), &setup, &setup, &Ok(()), *rows)?;
    }
    Ok(())
}

// An empty stripe of one setup returns so to the cut of ACGTA by another one, and then has these rows.
fn assert_booked(
    rt: &impl Abort,
    alloc: Global,
    setup: &Setup,
    other: &Setup,
    answer: &Result<(), BookFault>,
    rows: &[(u64, u64)],
) -> Result<(), Fail> {
    let cuts = cuts_in(alloc, other, b"ACGTA")?;
    Ok(assert_rows(
        rt,
        alloc,
        &mut *plain_stripe(alloc, setup, 0)?,
        &cuts,
        answer,
        rows,
    )?)
}

// The stripe returns so to the first of the cuts, and then has these rows.
fn assert_rows(
    rt: &impl Abort,
    alloc: Global,
    stripe: &mut Stripe<PlainCounts>,
    cuts: &[Cut],
    answer: &Result<(), BookFault>,
    rows: &[(u64, u64)],
) -> Result<(), AllocError> {
    assert!(rt; !cuts.is_empty());
    assert_same(rt, "a booking", &stripe.book(&cuts[0]), answer);
    let found = stripe.rows(alloc)?;
    assert_items(rt, "rows", found.as_slice(), rows);
    Ok(())
}

// Lists other than that of CGT.
const OTHER_LISTS: &[&[&[u8]]] = &[&[b"ACG"], &[b"CGTA"]];

#[test]
fn a_cut_by_another_list_is_a_stranger(rt: HostRuntime) -> Result<(), Fail> {
    let setup = listed_setup(rt.alloc(), false, &[b"CGT"])?;
    let stranger = Err(BookFault::Stranger);
    let other = made_setup(3, 1)?;
    assert_booked(&rt, rt.alloc(), &setup, &other, &stranger, &[])?;
    for texts in OTHER_LISTS {
        let other = listed_setup(rt.alloc(), false, *texts)?;
        assert_booked(&rt, rt.alloc(), &setup, &other, &stranger, &[])?;
    }
    Ok(())
}
