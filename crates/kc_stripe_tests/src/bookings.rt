//! Batches that are booked in a stripe, and refused.
use crate::sample_batches::{count_in, cuts_of_three, made_setup, plain_stripe};
use crate::stripe_assertions::{assert_items, assert_same};
use kc_stripe::{BookFault, Cut, Stripe};
use kc_table::{Counts, LimitedCounts, PlainCounts, QuotientTable, TableFault};
use kc_word::Batch;
use std::alloc::Global;
use std::process::Abort;
use std::sync::Arc;
use std::test::Fail;

// What a stripe of words of three bases holds, by its calls: no bin above the third is filled.
#[derive(Drop)]
pub(crate) struct Held<'a> {
    // the numbers of the batches in the journal
    pub(crate) journal: &'a [u64],
    pub(crate) total: u64,
    // the bins 1 to 3
    pub(crate) bins: [u64; 3],
    // the words with a count above 0, each with its count
    pub(crate) counts: &'a [(u64, u64)],
}

// How often a word was counted, among the words with a count above 0.
fn count_among(counts: &[(u64, u64)], word: u64) -> u64 {
    for (counted, count) in counts {
        if *counted == word {
            return *count;
        }
    }
    0
}

// Each word of three bases has its count.
fn assert_counts<C: Counts>(rt: &impl Abort, stripe: &Stripe<C>, counts: &[(u64, u64)]) {
    for word in 0..64 {
        let want = Some(count_among(counts, word));
        assert_same(rt, "a count", &count_in(stripe, word), &want);
    }
}

// The journal has the batches of these numbers.
fn assert_journal(rt: &impl Abort, journal: &[Arc<Batch>], numbers: &[u64]) {
    assert_same(rt, "batches", &journal.len(), &numbers.len());
    for place in 0..numbers.len() {
        let number = number_at(journal, place);
        assert_same(rt, "a batch", &number, &Some(numbers[place]));
    }
}

// The number of the batch at this place.
fn number_at(journal: &[Arc<Batch>], place: usize) -> Option<u64> {
    Some(journal.get(place)?.number())
}

pub(crate) fn assert_held<C: Counts>(rt: &impl Abort, stripe: &Stripe<C>, held: &Held<'_>) {
    assert_journal(rt, stripe.journal(), held.journal);
    assert_same(rt, "the total", &stripe.total(), &held.total);
    let bins = [stripe.bin(1), stripe.bin(2), stripe.bin(3)];
    assert_same(rt, "the bins", &bins, &held.bins);
    assert_same(
        rt,
        "the greatest",
        &stripe.greatest(),
        &greatest_among(held.counts),
    );
    assert_counts(rt, stripe, held.counts);
}

// The greatest of these counts, 0 if there is none.
fn greatest_among(counts: &[(u64, u64)]) -> u64 {
    let mut greatest: u64 = 0;
    for (_, count) in counts {
        greatest = greatest.max(*count);
    }
    greatest
}

pub(crate) const NOTHING: Held<'static> = Held {
    journal: &[],
    total: 0,
    bins: [0, 0, 0],
    counts: &[],
};

// AAA twice in batch 0, and once more in batch 1.
const ONE: Held<'static> = Held {
    journal: &[0],
    total: 2,
    bins: [0, 1, 0],
    counts: &[(0, 2)],
};

const BOTH: Held<'static> = Held {
    journal: &[0, 1],
    total: 3,
    bins: [0, 0, 1],
    counts: &[(0, 3)],
};

// The number of a cut that is booked, what is returned, and what the stripe then holds.
type Step = (usize, Result<(), BookFault>, Held<'static>);

const STEPS: &[Step] = &[
    (0, Ok(()), ONE),
    (0, Err(BookFault::Twice), ONE),
    (2, Err(BookFault::Stranger), ONE),
    (1, Ok(()), BOTH),
    (2, Err(BookFault::Twice), BOTH),
    (0, Err(BookFault::Twice), BOTH),
];

// ACGTA in batch 0 and ACG in batch 1: a table of two keys refuses the third.
const FULL: &[Step] = &[
    (0, Err(BookFault::Full), NOTHING),
    (1, Ok(()), ONE_WORD),
    (0, Err(BookFault::Full), ONE_WORD),
];

const NO_MEMORY: &[Step] = &[
    (0, Err(BookFault::Memory), NOTHING),
    (1, Ok(()), ONE_WORD),
    (0, Err(BookFault::Memory), ONE_WORD),
];

// ACG alone, in batch 1.
const ONE_WORD: Held<'static> = Held {
    journal: &[1],
    total: 1,
    bins: [1, 0, 0],
    counts: &[(6, 1)],
};

// The rows after these steps.
const ROWS: &[(u64, u64)] = &[(0, 3)];

// AAA twice in batch 0, and once in batch 1.
const TWO_BATCHES: &[&[u8]] = &[b"AAAA", b"AAA"];

// The cut of batch 1 by another setup.
fn stranger(alloc: Global) -> Result<Cut, Fail> {
    let mut cuts = cuts_of_three(alloc, 2, TWO_BATCHES, 2)?;
    match cuts.pop() {
        Some(cut) => Ok(cut),
        None => Err(Fail::from("no batch")),
    }
}

// The cuts of both batches, and then the stranger.
pub(crate) fn cuts_and_stranger(alloc: Global) -> Result<Vec<Cut>, Fail> {
    let mut cuts = cuts_of_three(alloc, 1, TWO_BATCHES, 2)?;
    cuts.push(stranger(alloc)?)?;
    Ok(cuts)
}

// The stripe takes the steps one after another.
fn assert_steps<C: Counts>(rt: &impl Abort, stripe: &mut Stripe<C>, cuts: &[Cut], steps: &[Step]) {
    for (number, answer, held) in steps {
        assert!(rt; *number < cuts.len());
        assert_same(rt, "a booking", &stripe.book(&cuts[*number]), answer);
        assert_held(rt, stripe, held);
    }
}

// An empty stripe over a quotient table with a slot for each key: all words of three bases in one stripe.
pub(crate) fn quotient_stripe(alloc: Global) -> Result<Box<Stripe<QuotientTable>>, Fail> {
    let setup = made_setup(3, 1)?;
    if setup.key_bits() != 6 || setup.stripes() != 1 {
        return Err(Fail::from("another setup"));
    }
    let table = QuotientTable::new(alloc, 6, 6, 6)?;
    Ok(Box::new(alloc, Stripe::new(alloc, &setup, 0, table)?)?)
}

// An empty stripe of words of three bases over a `BTreeMap`.
pub(crate) fn map_stripe(alloc: Global) -> Result<Box<Stripe<PlainCounts>>, Fail> {
    let setup = made_setup(3, 1)?;
    plain_stripe(alloc, &setup, 0)
}

// A stripe over a table that takes two keys, and refuses a third like this.
pub(crate) fn limited_stripe(
    alloc: Global,
    refusal: TableFault,
) -> Result<Box<Stripe<LimitedCounts>>, Fail> {
    let setup = made_setup(3, 1)?;
    if setup.stripes() != 1 {
        return Err(Fail::from("another setup"));
    }
    let table = LimitedCounts::new(alloc, setup.key_bits(), 2, refusal);
    Ok(Box::new(alloc, Stripe::new(alloc, &setup, 0, table)?)?)
}

#[test]
fn batches_are_booked_in_order(rt: HostRuntime) -> Result<(), Fail> {
    let alloc = rt.alloc();
    let cuts = cuts_and_stranger(alloc)?;
    let mut stripe = map_stripe(alloc)?;
    assert_steps(&rt, &mut *stripe, &cuts, STEPS);
    let rows = stripe.rows(alloc)?;
    assert_items(&rt, "rows", rows.as_slice(), ROWS);
    Ok(())
}

#[test]
fn a_full_table_refuses(rt: HostRuntime) -> Result<(), Fail> {
    let alloc = rt.alloc();
    let cuts = cuts_of_three(alloc, 1, &[b"ACGTA", b"ACG"], 3)?;
    let mut stripe = limited_stripe(alloc, TableFault::Full)?;
    assert_steps(&rt, &mut *stripe, &cuts, FULL);
    let mut stripe = limited_stripe(alloc, TableFault::Memory)?;
    assert_steps(&rt, &mut *stripe, &cuts, NO_MEMORY);
    Ok(())
}
