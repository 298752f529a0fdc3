//! Stripes that threads share, and a caller who counts with them.
ghost use Rattle.std.specs.Prelude.{◌≡◌, ◌<◌, [], All, IfOk, vec_len};
ghost use Rattle.std.specs.FinMap.{empty};
ghost use Rattle.kc_booking.specs.Setup.{word_count, stripe_count, key_bits};
ghost use Rattle.kc_share.specs.Share.{share_of};

use crate::bookings::cuts_and_stranger;
use crate::open_terms::Open;
use crate::sample_batches::{batches_in, made_setup, setup_with};
use crate::stripe_assertions::{assert_items, assert_same};
use kc_share::{Books, Share, Sheet};
use kc_stripe::{BookFault, Cut, Setup, Stripe, Stripes, cut_up};
use kc_table::PlainCounts;
use kc_word::{Batch, Word};
use std::alloc::{AllocError, Global};
use std::marker::Brand;
use std::process::Abort;
use std::sync::{Arc, Wait};
use std::test::Fail;
use std::thread::{Threads, join};

// An empty table for each stripe.
fn tables_of(alloc: Global, setup: &Setup) -> Result<Vec<PlainCounts>, AllocError>
    ensures count { IfOk result (λ tables. vec_len tables ≡ stripe_count setup.now) }
    ensures tables { IfOk result (λ tables.
        All (λ table. (table.counts ≡ empty) × (table.bits ≡ key_bits setup.now)) tables.items) }
{
    let mut tables = Vec::new(alloc);
    for _ in 0..setup.stripes() {
        tables.push(PlainCounts::new(alloc, setup.key_bits()))?;
    }
    Ok(tables)
}

// Stripes over empty tables, and the share of everything.
pub(crate) fn stripes_of<N: Books>(
    alloc: Global,
    setup: &Setup,
    sheet: Sheet,
) -> Result<(Stripes<PlainCounts, Open<N>>, Share<Open<N>>), AllocError>
    requires name { sheet.table ≡ N.table }
    requires stripes { sheet.plan.stripes ≡ stripe_count setup.now }
    ensures setup { IfOk result (λ made. made.0.setup ≡ setup.now) }
    ensures share { IfOk result (λ made. made.1 ≡ share_of sheet.plan sheet.plan.parts []) }
{
    let tables = tables_of(alloc, setup)?;
    Stripes::new(alloc, setup, tables, sheet)
}

// Books a batch into the stripe of its cut.
fn book_cut<N: Books, R: Wait>(
    rt: &R,
    stripes: &Stripes<PlainCounts, Open<N>>,
    share: &mut Share<Open<N>>,
    cut: &Cut,
) -> Result<(), BookFault>
    requires { cut.now.stripe < stripe_count stripes.now.setup }
    ensures { (share.new.parts ≡ share.old.parts) × (share.new.plan ≡ share.old.plan) }
{
    match stripes.book(rt, share, cut) {
        Ok(()) => Ok(()),
        Err(fault) => Err(fault),
    }
}

// Books a batch everywhere.
fn book_batch<N: Books, R: Wait>(
    rt: &R,
    alloc: Global,
    stripes: &Stripes<PlainCounts, Open<N>>,
    share: &mut Share<Open<N>>,
    batch: &Arc<Batch>,
) -> Result<(), BookFault>
    ensures { (share.new.parts ≡ share.old.parts) × (share.new.plan ≡ share.old.plan) }
{
    for cut in &cut_up(alloc, stripes.setup(), batch)? {
        if cut.stripe() < stripes.setup().stripes() {
            book_cut(rt, stripes, share, cut)?;
        }
    }
    Ok(())
}

// Books batches everywhere, and gives the share back.
fn book_all<N: Books, R: Wait>(
    rt: &R,
    alloc: Global,
    stripes: &Stripes<PlainCounts, Open<N>>,
    mut share: Share<Open<N>>,
    batches: &[Arc<Batch>],
) -> (Share<Open<N>>, Result<(), BookFault>)
    ensures { (result.0.parts ≡ share.parts) × (result.0.plan ≡ share.plan) }
{
    for batch in batches {
        if let Err(fault) = book_batch(rt, alloc, stripes, &mut share, batch) {
            return (share, Err(fault));
        }
    }
    (share, Ok(()))
}

// Two threads, with a share each, book half of the batches each. Then the shares are joined, and the sharing ends: what
// was booked with the whole share is all that the stripes have.
fn sums_by_two<N: Books + Send + Sync, R: Threads + Wait + Sync>(
    rt: &R,
    alloc: Global,
    setup: &Setup,
    sheet: Sheet,
    batches: &[Arc<Batch>],
) -> Result<Vec<Sums>, BookFault>
    requires name { sheet.table ≡ N.table }
    requires stripes { sheet.plan.stripes ≡ stripe_count setup.now }
    requires parts { sheet.plan.parts ≡ 2 }
{
    let (stripes, one) = stripes_of::<N>(alloc, setup, sheet)?;
    let whole = book_by_two(rt, alloc, &stripes, one, batches)?;
    let (stripes, whole) = stripes.into_stripes(alloc, whole)?;
    Ok(sums_of(alloc, setup, &stripes, &whole)?)
}

// Splits the share in two, books half of the batches with each, and joins the shares.
fn book_by_two<N: Books + Send + Sync, R: Threads + Wait + Sync>(
    rt: &R,
    alloc: Global,
    stripes: &Stripes<PlainCounts, Open<N>>,
    mut one: Share<Open<N>>,
    batches: &[Arc<Batch>],
) -> Result<Share<Open<N>>, BookFault>
    requires { one.parts ≡ 2 }
    ensures { IfOk result (λ whole. (whole.parts ≡ 2) × (whole.plan ≡ one.plan)) }
{
    let other = stripes.split(&mut one);
    let (first, second) = batches.split_at(batches.len() / 2);
    let (mut whole, other) = book_halves(rt, alloc, stripes, (one, other), (first, second))?;
    stripes.join(&mut whole, other);
    Ok(whole)
}

// Each share books its half of the batches in a thread of its own.
fn book_halves<N: Books + Send + Sync, R: Threads + Wait + Sync>(
    rt: &R,
    alloc: Global,
    stripes: &Stripes<PlainCounts, Open<N>>,
    shares: (Share<Open<N>>, Share<Open<N>>),
    halves: (&[Arc<Batch>], &[Arc<Batch>]),
) -> Result<(Share<Open<N>>, Share<Open<N>>), BookFault>
    ensures first { IfOk result (λ both. (both.0.parts ≡ shares.0.parts) × (both.0.plan ≡ shares.0.plan)) }
    ensures second { IfOk result (λ both. (both.1.parts ≡ shares.1.parts) × (both.1.plan ≡ shares.1.plan)) }
{
    let (one, other) = shares;
    let (first, second) = halves;
    let ((one, first), (other, second)) = join(
        rt,
        move || -> (Share<Open<N>>, Result<(), BookFault>)
            ensures { (result.0.parts ≡ one.parts) × (result.0.plan ≡ one.plan) }
        { book_all(rt, alloc, stripes, one, first) },
        move || -> (Share<Open<N>>, Result<(), BookFault>)
            ensures { (result.0.parts ≡ other.parts) × (result.0.plan ≡ other.plan) }
        { book_all(rt, alloc, stripes, other, second) },
    );
    first?;
    second?;
    Ok((one, other))
}

// What each stripe has, its total and the length of its journal, and what the share has of it.
type Sums = ((u64, u64), (u64, u64));

fn sums_of<N: Books>(
    alloc: Global,
    setup: &Setup,
    stripes: &[Stripe<PlainCounts>],
    share: &Share<Open<N>>,
) -> Result<Vec<Sums>, AllocError>
    requires { share.now.plan.stripes ≡ stripe_count setup.now }
{
    let mut sums = Vec::new(alloc);
    for stripe in stripes {
        let number = stripe.number();
        if number < setup.stripes() {
            let has = (stripe.total(), stripe.journal().len() as u64);
            sums.push((has, (share.words(number), share.entries(number))))?;
        }
    }
    Ok(sums)
}

// What the one stripe has, and what the share has of it.
const SUMS: &[Sums] = &[((8, 2), (8, 2))];

#[test]
fn what_two_threads_booked_is_what_the_stripes_have(rt: HostRuntime) -> Result<(), Fail> {
    let alloc = rt.alloc();
    let setup = made_setup(3, 1)?;
    let batches = batches_in(alloc, &setup, &[b"AAAAAAAAAA"], 4)?;
    assert_same(&rt, "batches", &batches.len(), &2);
    sum_up(&rt, alloc, &setup, &batches)
}

// What two threads booked with their shares is what the stripes have.
fn sum_up<R: Threads + Wait + Abort + Sync>(
    rt: &R,
    alloc: Global,
    setup: &Setup,
    batches: &[Arc<Batch>],
) -> Result<(), Fail> {
    let sheet = Sheet::new(alloc, setup.stripes(), 2)?;
    let sums = sums_by_two::<Brand, _>(rt, alloc, setup, sheet, batches)?;
    assert_items(rt, "stripes", sums.as_slice(), SUMS);
    Ok(())
}

// What the booking of a cut returns, if its stripe is one of these.
fn book_own_cut<N: Books, R: Wait>(
    rt: &R,
    stripes: &Stripes<PlainCounts, Open<N>>,
    share: &mut Share<Open<N>>,
    cut: &Cut,
) -> Option<Result<(), BookFault>>
    ensures { (share.new.parts ≡ share.old.parts) × (share.new.plan ≡ share.old.plan) }
{
    if cut.stripe() >= stripes.setup().stripes() {
        return None;
    }
    Some(book_cut(rt, stripes, share, cut))
}

// How often a word of three bases was counted, and in how many batches. Another word is a stranger.
fn look_up<N: Books, R: Wait>(
    rt: &R,
    alloc: Global,
    stripes: &Stripes<PlainCounts, Open<N>>,
    share: &mut Share<Open<N>>,
    word: u64,
) -> Result<(u64, usize), BookFault>
    ensures { share.new.plan ≡ share.old.plan }
{
    if stripes.setup().rule().k().get() != 3 || word >= 64 {
        return Err(BookFault::Stranger);
    }
    let seen = stripes.look(rt, alloc, share, Word(word))?;
    Ok((seen.count(), seen.batches().len()))
}

const TWICE: &Option<Result<(), BookFault>> = &Some(Err(BookFault::Twice));

const A_STRANGER: &Option<Result<(), BookFault>> = &Some(Err(BookFault::Stranger));

// The booking of a cut has this result.
fn assert_booked<N: Books, R: Wait + Abort>(
    rt: &R,
    stripes: &Stripes<PlainCounts, Open<N>>,
    share: &mut Share<Open<N>>,
    cut: &Cut,
    answer: &Option<Result<(), BookFault>>,
)
    ensures { share.new.plan ≡ share.old.plan }
{
    let found = book_own_cut(rt, stripes, share, cut);
    assert_same(rt, "a booking", &found, answer);
}

// AAA, which was counted, and CCC, which was not, are looked up.
fn assert_seen<N: Books, R: Wait + Abort>(
    rt: &R,
    alloc: Global,
    stripes: &Stripes<PlainCounts, Open<N>>,
    share: &mut Share<Open<N>>,
)
    ensures { share.new.plan ≡ share.old.plan }
{
    let there = look_up(rt, alloc, stripes, share, 0);
    assert_same(rt, "AAA", &there, &Ok((2, 1)));
    let missing = look_up(rt, alloc, stripes, share, 21);
    assert_same(rt, "CCC", &missing, &Ok((0, 1)));
}

// Books the first cut twice and then the second. Then AAA and CCC are looked up; and what the share has.
fn book_and_look<N: Books, R: Wait + Abort>(
    rt: &R,
    alloc: Global,
    setup: &Setup,
    sheet: Sheet,
    cuts: (&Cut, &Cut),
) -> Result<(), AllocError>
    requires name { sheet.table ≡ N.table }
    requires plan { (sheet.plan.stripes ≡ 1) × (stripe_count setup.now ≡ 1) }
{
    let (stripes, mut share) = stripes_of::<N>(alloc, setup, sheet)?;
    let (cut, stranger) = cuts;
    assert_booked(rt, &stripes, &mut share, cut, &Some(Ok(())));
    assert_booked(rt, &stripes, &mut share, cut, TWICE);
    assert_booked(rt, &stripes, &mut share, stranger, A_STRANGER);
    assert_seen(rt, alloc, &stripes, &mut share);
    assert_same(rt, "words", &share.words(0), &2);
    assert_same(rt, "entries", &share.entries(0), &1);
    Ok(())
}

#[test]
fn a_word_is_looked_up_among_the_batches(rt: HostRuntime) -> Result<(), Fail> {
    let alloc = rt.alloc();
    let setup = made_setup(3, 1)?;
    let cuts = cuts_and_stranger(alloc)?;
    look_among_batches(&rt, alloc, &setup, &cuts)
}

// Books a cut, a second time, and the cut of another setup, and looks words up.
fn look_among_batches<R: Wait + Abort>(
    rt: &R,
    alloc: Global,
    setup: &Setup,
    cuts: &[Cut],
) -> Result<(), Fail> {
    let [cut, _, stranger] = cuts else {
        return Err(Fail::from("other batches"));
    };
    if setup.stripes() != 1 {
        return Err(Fail::from("another setup"));
    }
    let sheet = Sheet::new(alloc, 1, 1)?;
    Ok(book_and_look::<Brand, _>(rt, alloc, setup, sheet, (cut, stranger))?)
}

// The results of looks: how often each of the words was counted, and in how many batches, or why not.
fn looks_of<N: Books, R: Wait>(
    rt: &R,
    alloc: Global,
    stripes: &Stripes<PlainCounts, Open<N>>,
    share: &mut Share<Open<N>>,
    words: &[u64],
) -> Result<Vec<Look>, AllocError> {
    let mut looks = Vec::new(alloc);
    for word in words {
        looks.push(look_up(rt, alloc, stripes, share, *word))?;
    }
    Ok(looks)
}

type Look = Result<(u64, usize), BookFault>;

// Books batches everywhere, and looks the words up before and after: among no batches, and among all of them. Then the
// sharing ends: the numbers and the totals of the stripes, as they come.
fn look_book_and_look<N: Books, R: Wait>(
    rt: &R,
    alloc: Global,
    setup: &Setup,
    sheet: Sheet,
    batches: &[Arc<Batch>],
    words: &[u64],
) -> Result<(Vec<Look>, Vec<Look>, Vec<(u32, u64)>), BookFault>
    requires name { sheet.table ≡ N.table }
    requires stripes { sheet.plan.stripes ≡ stripe_count setup.now }
{
    let (stripes, mut share) = stripes_of::<N>(alloc, setup, sheet)?;
    let (before, after) = looks_around(rt, alloc, &stripes, &mut share, batches, words)?;
    Ok((before, after, totals_at_end(alloc, stripes, share)?))
}

// The results of looks for the words before and after the batches are booked.
fn looks_around<N: Books, R: Wait>(
    rt: &R,
    alloc: Global,
    stripes: &Stripes<PlainCounts, Open<N>>,
    share: &mut Share<Open<N>>,
    batches: &[Arc<Batch>],
    words: &[u64],
) -> Result<(Vec<Look>, Vec<Look>), BookFault> {
    let before = looks_of(rt, alloc, stripes, share, words)?;
    for batch in batches {
        book_batch(rt, alloc, stripes, share, batch)?;
    }
    let after = looks_of(rt, alloc, stripes, share, words)?;
    Ok((before, after))
}

// The sharing ends: the numbers and the totals of the stripes, as they come.
fn totals_at_end<N: Books>(
    alloc: Global,
    stripes: Stripes<PlainCounts, Open<N>>,
    share: Share<Open<N>>,
) -> Result<Vec<(u32, u64)>, AllocError> {
    let (stripes, _) = stripes.into_stripes(alloc, share)?;
    let mut totals = Vec::new(alloc);
    for stripe in &stripes {
        totals.push((stripe.number(), stripe.total()))?;
    }
    Ok(totals)
}

// ACG and its reverse complement CGT, AAC and its reverse complement GTT, and TTT, whose reverse complement is AAA. By
// their own numbers CGT, GTT and TTT would be in stripe 3, but the forms under which they count are in stripes 2, 1 and
// 0.
const STRANDS: &[u64] = &[6, 27, 1, 47, 63];

const NOT_YET: &[Look] = &[Ok((0, 0)), Ok((0, 0)), Ok((0, 0)), Ok((0, 0)), Ok((0, 0))];

// How often each form occurs in ACGT and CGTT, which are a batch each: ACG and CGT, and CGT and GTT.
const TOGETHER: &[Look] = &[Ok((3, 2)), Ok((3, 2)), Ok((1, 2)), Ok((1, 2)), Ok((0, 2))];

// The stripes, and how many words of both are in each.
const TOTALS: &[(u32, u64)] = &[(0, 0), (1, 1), (2, 3), (3, 0)];

#[test]
fn a_word_is_found_under_the_lock_of_its_form(rt: HostRuntime) -> Result<(), Fail> {
    let alloc = rt.alloc();
    let Some(setup) = setup_with(3, true, 4) else {
        return Err(Fail::from("no setup"));
    };
    let batches = batches_in(alloc, &setup, &[b"ACGT", b"CGTT"], 2)?;
    assert_same(&rt, "batches", &batches.len(), &2);
    find_forms(&rt, alloc, &setup, &batches)
}

// Each word is looked up in the stripe of its form, and each stripe has its own total.
fn find_forms<R: Wait + Abort>(
    rt: &R,
    alloc: Global,
    setup: &Setup,
    batches: &[Arc<Batch>],
) -> Result<(), Fail> {
    let sheet = Sheet::new(alloc, setup.stripes(), 1)?;
    let (before, after, totals) = look_book_and_look::<Brand, _>(
        rt, alloc, setup, sheet, batches, STRANDS,
    )?;
    assert_items(rt, "before", before.as_slice(), NOT_YET);
    assert_items(rt, "after", after.as_slice(), TOGETHER);
    assert_items(rt, "totals", totals.as_slice(), TOTALS);
    Ok(())
}
