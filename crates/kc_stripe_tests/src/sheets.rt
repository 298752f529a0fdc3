//! Shares of one sheet, and the journals of its stripes.
ghost use Rattle.std.specs.Prelude.{◌≡◌, ◌<◌, ◌≤◌, ◌^◌, [], length, All, IfOk, IfSome, MatchBool};
ghost use Rattle.kc_share.specs.Entries.{entry_of, word_total};
ghost use Rattle.kc_share.specs.Share.{share_of, word_total_in, entry_total_in, with_booking};

use crate::sample_batches::{batches_in, made_setup};
use crate::stripe_assertions::{assert_items, assert_same};
use kc_share::{Books, Keeper, OpenSheet, Share, Sheet};
use kc_word::Batch;
use std::alloc::{AllocError, Global};
use std::marker::Brand;
use std::sync::{Arc, Mutex, Wait};
use std::test::Fail;

// What lies behind a lock: a keeper, its stripe's number, and the sums of its journal.
#[derive(Drop)]
struct Locked<N: Books> {
    keeper: Keeper<N>,
    stripe: u32,
    words: u64,
    entries: u64,
    ghost stripe_is: { stripe ≡ keeper.stripe },
    ghost words_are: { words ≡ word_total keeper.journal },
    ghost entries_are: { entries ≡ length keeper.journal },
}

impl<N: Books> Locked<N> {
    fn new(keeper: Keeper<N>, stripe: u32) -> Locked<N>
        requires stripe { keeper.stripe ≡ stripe }
        requires journal { keeper.journal ≡ [] }
        ensures { result.keeper ≡ keeper }
    {
        Locked {
            keeper,
            stripe,
            words: 0,
            entries: 0,
        }
    }

    // Books a batch if the sums stay small, and returns whether it did.
    fn book(
        &mut self,
        sheet: &OpenSheet<N>,
        share: &mut Share<N>,
        batch: &Batch,
        words: u64,
    ) -> bool
        ensures { MatchBool result
            (share.new ≡ with_booking share.old self.old.keeper.stripe (entry_of batch.now words))
            (share.new ≡ share.old) }
    {
        if self.words >= 1 << 62 || words >= 1 << 62 || self.entries >= 1 << 62 {
            return false;
        }
        let Locked {
            keeper,
            stripe: _,
            words: total,
            entries,
        } = self;
        sheet.note(share, keeper, batch, words);
        *total += words;
        *entries += 1;
        true
    }

    // The sums, which are those of the whole share in this stripe.
    fn settle(&mut self, sheet: &OpenSheet<N>, share: &mut Share<N>) -> (u64, u64)
        requires { share.old.parts ≡ share.old.plan.parts }
        ensures share { share.new ≡ share.old }
        ensures words { result.0 ≡ word_total_in self.old.keeper.stripe share.old.booked }
        ensures entries { result.1 ≡ entry_total_in self.old.keeper.stripe share.old.booked }
    {
        sheet.look(share, &mut self.keeper);
        (self.words, self.entries)
    }
}

// The 8 batches of one position each of a piece of ten bases, for words of three.
fn batches(alloc: Global) -> Result<Vec<Arc<Batch>>, Fail> {
    batches_in(alloc, &made_setup(3, 1)?, &[b"AAAAAAAAAA"], 1)
}

// Books a batch under each lock, with one word more than its number.
fn book_everywhere<N: Books, R: Wait>(
    rt: &R,
    sheet: &OpenSheet<N>,
    locks: &[Mutex<Locked<N>>],
    share: &mut Share<N>,
    batch: &Batch,
)
    ensures { (share.new.parts ≡ share.old.parts) × (share.new.plan ≡ share.old.plan) }
{
    for lock in locks {
        let words = batch.number() % 64 + 1;
        lock.lock(rt).book(sheet, share, batch, words);
    }
}

// Books all batches everywhere.
fn book_all<N: Books, R: Wait>(
    rt: &R,
    sheet: &OpenSheet<N>,
    locks: &[Mutex<Locked<N>>],
    mut share: Share<N>,
    batches: &[Arc<Batch>],
) -> Share<N>
    ensures { (result.parts ≡ share.parts) × (result.plan ≡ share.plan) }
{
    for batch in batches {
        book_everywhere(rt, sheet, locks, &mut share, batch);
    }
    share
}

// A lock for each of two stripes, and the first share.
fn locks_of<N: Books>(
    alloc: Global,
    sheet: Sheet,
) -> Result<(OpenSheet<N>, Vec<Mutex<Locked<N>>>, Share<N>), AllocError>
    requires name { sheet.table ≡ N.table }
    requires plan { sheet.plan.stripes ≡ 2 }
    ensures { IfOk result (λ made. made.2 ≡ share_of sheet.plan sheet.plan.parts []) }
{
    let (sheet, mut opening) = sheet.open::<N>();
    let mut locks = Vec::new(alloc);
    for stripe in 0..2u32 {
        locks.push(Mutex::new(Locked::new(sheet.next_keeper(&mut opening), stripe)))?;
    }
    let share = sheet.first_share(opening);
    Ok((sheet, locks, share))
}

// Two shares of one part each book half of the batches each, everywhere. Then they are joined, and each stripe is
// settled: what its journal has, and what the whole share has.
fn book_by_two<N: Books, R: Wait>(
    rt: &R,
    alloc: Global,
    sheet: Sheet,
    batches: &[Arc<Batch>],
) -> Result<Vec<((u64, u64), (u64, u64))>, AllocError>
    requires name { sheet.table ≡ N.table }
    requires plan { (sheet.plan.stripes ≡ 2) × (sheet.plan.parts ≡ 2) }
    ensures { IfOk result (λ sums. All (λ sum. sum.0 ≡ sum.1) sums.items) }
{
    let (sheet, locks, one) = locks_of::<N>(alloc, sheet)?;
    let mut whole = book_under(rt, &sheet, locks.as_slice(), one, batches);
    settle_all(alloc, &sheet, locks, &mut whole)
}

// The share is split in two, both book, and they are joined.
fn book_under<N: Books, R: Wait>(
    rt: &R,
    sheet: &OpenSheet<N>,
    locks: &[Mutex<Locked<N>>],
    mut one: Share<N>,
    batches: &[Arc<Batch>],
) -> Share<N>
    requires { one.parts ≡ 2 }
    ensures { (result.parts ≡ 2) × (result.plan ≡ one.plan) }
{
    let other = sheet.split(&mut one);
    let (first, second) = batches.split_at(batches.len() / 2);
    let mut whole = book_all(rt, sheet, locks, one, first);
    let other = book_all(rt, sheet, locks, other, second);
    sheet.join(&mut whole, other);
    whole
}

// What the journal of each stripe has, and what the whole share has.
fn settle_all<N: Books>(
    alloc: Global,
    sheet: &OpenSheet<N>,
    locks: Vec<Mutex<Locked<N>>>,
    whole: &mut Share<N>,
) -> Result<Vec<((u64, u64), (u64, u64))>, AllocError>
    requires plan { (whole.old.plan.stripes ≡ 2) × (whole.old.plan.parts ≡ 2) }
    requires whole { whole.old.parts ≡ 2 }
    ensures { IfOk result (λ sums. All (λ sum. sum.0 ≡ sum.1) sums.items) }
{
    let mut sums = Vec::new(alloc);
    for lock in locks {
        let mut lock = lock.into_inner();
        let stripe = lock.stripe;
        let kept = lock.settle(sheet, whole);
        if stripe < 2 {
            sums.push((kept, (whole.words(stripe), whole.entries(stripe))))?;
        }
    }
    Ok(sums)
}

// What each of the two stripes has: words 1 to 8 add up to 36.
const SUMS: &[((u64, u64), (u64, u64))] = &[((36, 8), (36, 8)), ((36, 8), (36, 8))];

#[test]
fn what_two_shares_booked_is_what_the_journals_have(rt: HostRuntime) -> Result<(), Fail> {
    let alloc = rt.alloc();
    let batches = batches(alloc)?;
    assert_same(&rt, "batches", &batches.len(), &8);
    let sheet = Sheet::new(alloc, 2, 2)?;
    let sums = book_by_two::<Brand, _>(&rt, alloc, sheet, batches.as_slice())?;
    assert_items(&rt, "stripes", sums.as_slice(), SUMS);
    Ok(())
}
