//! Several batches that are cut up at once, and booked into a stripe by one call.
ghost use Rattle.std.specs.Prelude.{◌≡◌, ◌<◌};
ghost use Rattle.kc_booking.specs.Setup.{stripe_count};

use crate::bookings::{Held, NOTHING, assert_held, limited_stripe, map_stripe};
use crate::open_terms::Open;
use crate::sample_batches::{batches_in, made_setup};
use crate::sharings::stripes_of;
use crate::stripe_assertions::{assert_items, assert_same};
use kc_share::{Books, Share, Sheet};
use kc_stripe::{BookFault, Cuts, Ordered, Round, Setup, Stripe, Stripes};
use kc_table::{Counts, PlainCounts, TableFault};
use kc_word::Batch;
use std::alloc::Global;
use std::marker::Brand;
use std::process::Abort;
use std::sync::{Arc, Wait};
use std::test::Fail;

// The batches of these places, in their order, as one list.
fn batches_at(
    alloc: Global,
    batches: &[Arc<Batch>],
    places: &[usize],
) -> Result<Vec<Arc<Batch>>, Fail> {
    let mut round = Vec::new(alloc);
    for place in places {
        let batch = batches.get(*place).ok_or("no batch")?;
        round.push(batch.clone()?)?;
    }
    Ok(round)
}

// AAA twice in batch 0, and once in batch 1.
const TWO_BATCHES: &[&[u8]] = &[b"AAAA", b"AAA"];

// Asserts the keys of the words of two batches in stripe 0, and how many each batch has.
fn assert_first(rt: &impl Abort, round: &Round, keys: &[u64], sizes: &[usize]) {
    let cuts = first_cuts(round);
    assert_items(rt, "keys", cuts.keys(), keys);
    assert_items(rt, "sizes", cuts.sizes(), sizes);
    assert_same(rt, "batches", &cuts.batches().len(), &sizes.len());
    assert_same(rt, "a stripe", &cuts.stripe(), &0);
    assert!(rt; *cuts.setup() == *round.setup());
    assert!(rt; cuts.numbers_differ());
}

#[test]
fn cuts_of_two_batches_and_of_the_next_one(rt: HostRuntime) -> Result<(), Fail> {
    let alloc = rt.alloc();
    let setup = made_setup(3, 1)?;
    let batches = batches_in(alloc, &setup, TWO_BATCHES, 2)?;
    let mut round = made_round(alloc, &setup, &batches)?;
    assert_first(&rt, &round, &[0, 0, 0], &[2, 1]);
    round.clear();
    assert!(rt; batches.len() == 2);
    round.cut_up(&batches[1])?;
    assert_first(&rt, &round, &[0], &[1]);
    Ok(())
}

// AAA three times, the batches booked in this order.
const TURNED: Held<'static> = Held {
    journal: &[1, 0],
    total: 3,
    bins: [0, 0, 1],
    counts: &[(0, 3)],
};

// The number of stripes of the setup by which a round is cut up, the places of its batches, what is returned if it is
// booked, and what the stripe then holds. The stripe is of one stripe's setup.
type Step = (u32, &'static [usize], Result<(), BookFault>, Held<'static>);

const STEPS: &[Step] = &[
    (1, &[], Ok(()), NOTHING),
    (2, &[], Ok(()), NOTHING),
    (1, &[0, 1, 0], Err(BookFault::Twice), NOTHING),
    (2, &[0, 0], Err(BookFault::Stranger), NOTHING),
    (1, &[1, 0], Ok(()), TURNED),
    (2, &[1], Err(BookFault::Twice), TURNED),
    (1, &[0], Err(BookFault::Twice), TURNED),
];

// The words of these places' batches of the texts, of so many positions, in so many stripes.
pub(crate) fn round_in(
    alloc: Global,
    stripes: u32,
    texts: &[&[u8]],
    size: u64,
    places: &[usize],
) -> Result<Round, Fail> {
    let setup = made_setup(3, stripes)?;
    let batches = batches_in(alloc, &setup, texts, size)?;
    made_round(alloc, &setup, &batches_at(alloc, &batches, places)?)
}

// The batches cut up, one after another.
fn made_round(alloc: Global, setup: &Setup, batches: &[Arc<Batch>]) -> Result<Round, Fail> {
    let mut round = Round::new(alloc, setup)?;
    for batch in batches {
        round.cut_up(batch)?;
    }
    Ok(round)
}

// The words of the round's batches in stripe 0.
pub(crate) fn first_cuts(round: &Round) -> Cuts<'_>
    ensures { result.stripe ≡ 0 }
{
    // for the proof: there is a stripe
    let _stripes = round.setup().stripes();
    round.cuts(0)
}

// The stripe takes the steps, rounds of batches of these texts, one after another.
fn takes_the_steps<C: Counts>(
    rt: &impl Abort,
    alloc: Global,
    stripe: &mut Stripe<C>,
    texts: &[&[u8]],
    steps: &[Step],
) -> Result<(), Fail> {
    let mut ordered = Ordered::new(alloc)?;
    for (stripes, places, answer, held) in steps {
        let round = round_in(alloc, *stripes, texts, 2, *places)?;
        let found = stripe.book_all(&first_cuts(&round), &mut ordered);
        assert_same(rt, "a booking", &found, answer);
        assert_held(rt, stripe, held);
    }
    Ok(())
}

// ACG and CGT in batch 0, TTT in batch 1.
const THREE_WORDS: &[&[u8]] = &[b"ACGT", b"TTT"];

// Batch 0 alone.
const FIRST: Held<'static> = Held {
    journal: &[0],
    total: 2,
    bins: [2, 0, 0],
    counts: &[(6, 1), (27, 1)],
};

// A table of two keys refuses the third, which is that of the second batch: neither is booked. The first alone then is.
const FULL: &[Step] = &[
    (1, &[0, 1], Err(BookFault::Full), NOTHING),
    (1, &[0], Ok(()), FIRST),
];

const NO_MEMORY: &[Step] = &[
    (1, &[0, 1], Err(BookFault::Memory), NOTHING),
    (1, &[0], Ok(()), FIRST),
];

#[test]
fn rounds_are_booked_or_refused(rt: HostRuntime) -> Result<(), Fail> {
    let alloc = rt.alloc();
    takes_the_steps(&rt, alloc, &mut *map_stripe(alloc)?, TWO_BATCHES, STEPS)?;
    let mut full = limited_stripe(alloc, TableFault::Full)?;
    takes_the_steps(&rt, alloc, &mut *full, THREE_WORDS, FULL)?;
    let mut full = limited_stripe(alloc, TableFault::Memory)?;
    takes_the_steps(&rt, alloc, &mut *full, THREE_WORDS, NO_MEMORY)
}

// Books the round twice with the share of everything: what is returned, and what the share then has of the stripe.
fn share_twice<N: Books, R: Wait>(
    rt: &R,
    alloc: Global,
    setup: &Setup,
    sheet: Sheet,
    cuts: &Cuts,
) -> Result<(Result<(), BookFault>, [u64; 2]), Fail>
    requires name { sheet.table ≡ N.table }
    requires plan { (sheet.plan.stripes ≡ 1) × (stripe_count setup.now ≡ 1) }
{
    if cuts.stripe() != 0 {
        return Err(Fail::from("another stripe"));
    }
    let (stripes, mut share) = stripes_of::<N>(alloc, setup, sheet)?;
    let mut ordered = Ordered::new(alloc)?;
    book_twice(rt, &stripes, &mut share, cuts, &mut ordered)
}

// Books the round twice in these stripes: what is returned, and what the share then has of stripe 0.
fn book_twice<N: Books, R: Wait>(
    rt: &R,
    stripes: &Stripes<PlainCounts, Open<N>>,
    share: &mut Share<Open<N>>,
    cuts: &Cuts,
    ordered: &mut Ordered,
) -> Result<(Result<(), BookFault>, [u64; 2]), Fail>
    requires cuts { cuts.now.stripe < stripe_count stripes.now.setup }
    requires plan { 0 < share.old.plan.stripes }
{
    stripes.book_all(rt, share, cuts, ordered)?;
    let again = match stripes.book_all(rt, share, cuts, ordered) {
        Ok(_) => Ok(()),
        Err(fault) => Err(fault),
    };
    Ok((again, [share.words(0), share.entries(0)]))
}

#[test]
fn a_share_has_the_batches_of_a_round_once(rt: HostRuntime) -> Result<(), Fail> {
    let alloc = rt.alloc();
    let setup = made_setup(3, 1)?;
    let round = round_in(alloc, 1, TWO_BATCHES, 2, &[0, 1])?;
    if setup.stripes() != 1 {
        return Err(Fail::from("another setup"));
    }
    let sheet = Sheet::new(alloc, 1, 1)?;
    let (again, told) = share_twice::<Brand, _>(&rt, alloc, &setup, sheet, &first_cuts(&round))?;
    assert_same(&rt, "a booking", &again, &Err(BookFault::Twice));
    assert_same(&rt, "a share", &told, &[3, 2]);
    Ok(())
}
