//! What is refused memory is unchanged before: a stripe while a batch is booked, and a share while it books and looks.
//! Run with each growth refused in turn.
ghost use Rattle.std.specs.Prelude.{◌≡◌, ◌<◌};
ghost use Rattle.kc_booking.specs.Setup.{stripe_count, word_count};

use crate::bookings::{Held, NOTHING, assert_held, map_stripe, quotient_stripe};
use crate::open_terms::Open;
use crate::rounds::{first_cuts, round_in};
use crate::sample_batches::{cuts_of, cuts_of_three, made_setup};
use crate::sharings::stripes_of;
use crate::stripe_assertions::assert_same;
use kc_share::{Books, Share, Sheet};
use kc_stripe::{BookFault, Cut, Cuts, Ordered, Setup, Stripe, Stripes};
use kc_table::{Counts, PlainCounts};
use kc_word::Word;
use std::alloc::Global;
use std::marker::Brand;
use std::process::Abort;
use std::sync::Wait;
use std::test::Fail;

// Books the cut, again if memory is refused: the stripe is unchanged then.
fn is_booked_again<C: Counts>(
    rt: &impl Abort,
    stripe: &mut Stripe<C>,
    cut: &Cut,
    before: &Held<'_>,
) -> Result<(), Fail> {
    if let Err(fault) = stripe.book(cut) {
        assert_same(rt, "a fault", &fault, &BookFault::Memory);
        assert_held(rt, stripe, before);
        stripe.book(cut)?;
    }
    Ok(())
}

// AAA and the words of the text of 40 words, each once.
const ONCE: Held<'static> = Held {
    journal: &[1, 0],
    total: 41,
    bins: [41, 0, 0],
    counts: &[
        (0, 1),
        (1, 1),
        (2, 1),
        (3, 1),
        (4, 1),
        (5, 1),
        (6, 1),
        (7, 1),
        (8, 1),
        (9, 1),
        (10, 1),
        (11, 1),
        (12, 1),
        (13, 1),
        (14, 1),
        (15, 1),
        (16, 1),
        (17, 1),
        (18, 1),
        (19, 1),
        (20, 1),
        (21, 1),
        (22, 1),
        (24, 1),
        (25, 1),
        (28, 1),
        (32, 1),
        (33, 1),
        (34, 1),
        (35, 1),
        (36, 1),
        (37, 1),
        (40, 1),
        (44, 1),
        (49, 1),
        (50, 1),
        (51, 1),
        (52, 1),
        (53, 1),
        (56, 1),
        (61, 1),
    ],
};

// 40 words, each once, and AAA.
const TEXTS: &[&[u8]] = &[b"AACAAGAATACCACGACTAGCAGGAGTATCATGATTCCCGCC", b"AAA"];

// AAA alone.
const AAA: Held<'static> = Held {
    journal: &[1],
    total: 1,
    bins: [1, 0, 0],
    counts: &[(0, 1)],
};

// Books AAA, and then a batch of 40 other words, again if memory is refused.
fn is_booked_at_last<C: Counts>(
    rt: &impl Abort,
    stripe: &mut Stripe<C>,
    cuts: &[Cut],
) -> Result<(), Fail> {
    assert!(rt; cuts.len() == 2);
    is_booked_again(rt, stripe, &cuts[1], &NOTHING)?;
    is_booked_again(rt, stripe, &cuts[0], &AAA)?;
    assert_held(rt, stripe, &ONCE);
    Ok(())
}

#[test]
fn a_refused_growth_leaves_the_stripe(rt: HostRuntime) -> Result<(), Fail> {
    let alloc = rt.alloc();
    let cuts = cuts_of_three(alloc, 1, TEXTS, 40)?;
    is_booked_at_last(&rt, &mut *map_stripe(alloc)?, &cuts)?;
    is_booked_at_last(&rt, &mut *quotient_stripe(alloc)?, &cuts)
}

// Books both batches at once, again if memory is refused: the stripe is unchanged then.
fn is_round_booked_at_last<C: Counts>(
    rt: &impl Abort,
    alloc: Global,
    stripe: &mut Stripe<C>,
) -> Result<(), Fail> {
    let round = round_in(alloc, 1, TEXTS, 40, &[1, 0])?;
    let mut ordered = Ordered::new(alloc)?;
    is_round_booked_again(rt, stripe, &first_cuts(&round), &mut ordered)?;
    assert_held(rt, stripe, &ONCE);
    Ok(())
}

// Books the round, again if memory is refused: the stripe is then empty.
fn is_round_booked_again<C: Counts>(
    rt: &impl Abort,
    stripe: &mut Stripe<C>,
    cuts: &Cuts,
    ordered: &mut Ordered,
) -> Result<(), Fail> {
    if let Err(fault) = stripe.book_all(cuts, ordered) {
        assert_same(rt, "a fault", &fault, &BookFault::Memory);
        assert_held(rt, stripe, &NOTHING);
        stripe.book_all(cuts, ordered)?;
    }
    Ok(())
}

#[test]
fn a_refused_growth_leaves_the_stripe_of_a_round(rt: HostRuntime) -> Result<(), Fail> {
    let alloc = rt.alloc();
    is_round_booked_at_last(&rt, alloc, &mut *map_stripe(alloc)?)?;
    is_round_booked_at_last(&rt, alloc, &mut *quotient_stripe(alloc)?)
}

// What a share has of stripe 0: words and entries; and its parts.
fn share_numbers<N: Books>(share: &Share<Open<N>>) -> [u64; 3]
    requires { 0 < share.now.plan.stripes }
{
    [share.words(0), share.entries(0), share.parts()]
}

// Books the cut with the share, again if memory is refused: the share is unchanged then.
fn is_shared_again<N: Books, R: Wait + Abort>(
    rt: &R,
    stripes: &Stripes<PlainCounts, Open<N>>,
    share: &mut Share<Open<N>>,
    cut: &Cut,
    before: [u64; 3],
) -> Result<(), Fail>
    requires cut { cut.now.stripe < stripe_count stripes.now.setup }
    requires plan { 0 < share.old.plan.stripes }
    ensures { share.new.plan ≡ share.old.plan }
{
    match stripes.book(rt, share, cut) {
        Ok(()) => Ok(()),
        Err(fault) => {
            assert_same(rt, "a fault", &fault, &BookFault::Memory);
            assert_same(rt, "a share", &share_numbers(share), &before);
            match stripes.book(rt, share, cut) {
                Ok(()) => Ok(()),
                Err(fault) => Err(Fail::from(fault)),
            }
        }
    }
}

// How often the word was counted; looked up again if memory is refused: the share is unchanged then.
fn is_seen_again<N: Books, R: Wait + Abort>(
    rt: &R,
    alloc: Global,
    stripes: &Stripes<PlainCounts, Open<N>>,
    share: &mut Share<Open<N>>,
    word: Word,
) -> Result<u64, Fail>
    requires word { word.0 < word_count stripes.now.setup }
    requires plan { 0 < share.old.plan.stripes }
    ensures { share.new.plan ≡ share.old.plan }
{
    let before = share_numbers(share);
    match stripes.look(rt, alloc, share, word) {
        Ok(seen) => Ok(seen.count()),
        Err(fault) => {
            assert_same(rt, "a fault", &fault, &BookFault::Memory);
            assert_same(rt, "a share", &share_numbers(share), &before);
            Ok(stripes.look(rt, alloc, share, word)?.count())
        }
    }
}

// Books AAA, and then a batch of 40 other words, and looks up AAC: how often it was counted, and what the share has.
fn share_at_last<N: Books, R: Wait + Abort>(
    rt: &R,
    alloc: Global,
    setup: &Setup,
    sheet: Sheet,
    cuts: (&Cut, &Cut),
) -> Result<(u64, [u64; 3]), Fail>
    requires name { sheet.table ≡ N.table }
    requires plan { (sheet.plan.stripes ≡ 1) × (stripe_count setup.now ≡ 1) }
{
    let (forty, one) = cuts;
    if setup.rule().k().get() != 3 || forty.stripe() != 0 || one.stripe() != 0 {
        return Err(Fail::from("another setup"));
    }
    let (stripes, mut share) = stripes_of::<N>(alloc, setup, sheet)?;
    let count = share_and_look(rt, alloc, &stripes, &mut share, forty, one)?;
    Ok((count, share_numbers(&share)))
}

// Books AAA and the 40 words with the share, and looks up how often AAC was counted.
fn share_and_look<N: Books, R: Wait + Abort>(
    rt: &R,
    alloc: Global,
    stripes: &Stripes<PlainCounts, Open<N>>,
    share: &mut Share<Open<N>>,
    forty: &Cut,
    one: &Cut,
) -> Result<u64, Fail>
    requires forty { forty.now.stripe < stripe_count stripes.now.setup }
    requires one { one.now.stripe < stripe_count stripes.now.setup }
    requires word { 1 < word_count stripes.now.setup }
    requires plan { 0 < share.old.plan.stripes }
    ensures { share.new.plan ≡ share.old.plan }
{
    is_shared_again(rt, stripes, share, one, [0, 0, 1])?;
    is_shared_again(rt, stripes, share, forty, [1, 1, 1])?;
    is_seen_again(rt, alloc, stripes, share, Word(1))
}

#[test]
fn a_refused_growth_leaves_the_share(rt: HostRuntime) -> Result<(), Fail> {
    let alloc = rt.alloc();
    let setup = made_setup(3, 1)?;
    let cuts = cuts_of(alloc, &setup, TEXTS, 40)?;
    is_shared_at_last(&rt, alloc, &setup, &cuts)
}

// Whatever growth is refused, both cuts are booked in the end, and the share has them.
fn is_shared_at_last<R: Wait + Abort>(
    rt: &R,
    alloc: Global,
    setup: &Setup,
    cuts: &[Cut],
) -> Result<(), Fail> {
    let [forty, one] = cuts else {
        return Err(Fail::from("other batches"));
    };
    if setup.stripes() != 1 {
        return Err(Fail::from("another setup"));
    }
    let sheet = Sheet::new(alloc, 1, 1)?;
    let (count, share) = share_at_last::<Brand, _>(rt, alloc, setup, sheet, (forty, one))?;
    assert_same(rt, "a count", &count, &1);
    assert_same(rt, "a share", &share, &[41, 2, 1]);
    Ok(())
}
