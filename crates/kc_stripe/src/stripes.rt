//! The stripes of a count, which threads share.
ghost use Rattle.std.specs.Prelude.{◌≡◌, ◌<◌, ◌≤◌, ◌⊎◌, [], All, IfOk, IsOk, OnOk, OnErr, vec_len};
ghost use Rattle.std.specs.FinMap.{empty};
ghost use Rattle.kc_share.specs.Share.{share_of, with_booking, with_one_part_less, new_share, joined_shares};
ghost use Rattle.kc_booking.specs.Setup.{word_count, stripe_count, key_bits};
ghost use Rattle.kc_booking.specs.Cut.{keys_of};
ghost use Rattle.kc_booking.specs.Cuts.{cuts_in, all_keys_of};
ghost use Rattle.kc_booking.specs.Stripe.{IsLawful};
ghost use Rattle.kc_stripe.specs.Locked.{cut_entry, with_bookings, IsAllOf};
ghost use Rattle.kc_stripe.specs.Seen.{form_stripe, AreNamed};
ghost use Rattle.kc_stripe.specs.Terms.{IsFullOnlyWhere, MayBeTooMany, SomeKeyMayBeFull};

use crate::locked::Locked;
use crate::seen::Seen;
use crate::terms::Terms;
use kc_booking::{BookFault, Cut, Cuts, Ordered, Setup, Stripe};
use kc_share::{OpenSheet, Share, Sheet};
use kc_table::Counts;
use kc_word::Word;
use std::alloc::{AllocError, Global};
use std::marker::Model;
use std::sync::{Mutex, Wait};

/// The stripes of a count, each behind a lock of its own. Threads share them by reference, and each books with a share.
/// Whoever gets a lock finds a lawful stripe, whatever others did, with only batches that N allows; and what was booked
/// with the shares, taken together, is what the stripes' journals have.
#[derive(Drop)]
pub struct Stripes<C: Counts, N: Terms> {
    setup: Setup,
    sheet: OpenSheet<N>,
    locks: Vec<Mutex<Locked<C, N>>>,
}

impl<C: Counts, N: Terms> Model for Stripes<C, N> {
    ghost use Rattle.std.specs.Prelude.{◌≡◌, vec_len};
    ghost use Rattle.kc_booking.specs.Setup.{stripe_count};
    ghost use Rattle.kc_stripe.specs.Stripes.{StripesSeen};

    ghost Value = { StripesSeen };

    ghost view = { λ s. record { setup = s.setup } };

    ghost invariant = { λ s. vec_len s.locks ≡ stripe_count s.setup };
}

impl<C: Counts + Drop, N: Terms> Stripes<C, N> {
    /// Stripes without batches, and the first share, which has all parts of the sheet.
    ///
    /// Conditions: the sheet's name is N, and it is for as many stripes as the setup has. There is a table for each
    /// stripe, with nothing stored and keys of the setup's `key_bits`, which may be full only if N allows it.
    pub fn new(
        alloc: Global,
        setup: &Setup,
        tables: Vec<C>,
        sheet: Sheet,
    ) -> Result<(Stripes<C, N>, Share<N>), AllocError>
        requires name { sheet.table ≡ N.table }
        requires stripes { sheet.plan.stripes ≡ stripe_count setup.now }
        requires count { vec_len tables ≡ stripe_count setup.now }
        requires tables { All (λ table. (C.counts table ≡ empty) × (C.bits table ≡ key_bits setup.now)) tables.items }
        requires limits { All (λ table. IsFullOnlyWhere N.may_be_full (C.may_be_full table)) tables.items }
        ensures setup { IfOk result (λ made. made.0.setup ≡ setup.now) }
        ensures share { IfOk result (λ made. made.1 ≡ share_of sheet.plan sheet.plan.parts []) }
    {
        let kept = setup.clone()?;
        let (sheet, mut opening) = sheet.open::<N>();
        let mut locks = Vec::with_capacity(alloc, tables.len())?;
        for table in tables {
            let keeper = sheet.next_keeper(&mut opening);
            let stripe = Stripe::new(alloc, setup, locks.len() as u32, table)?;
            locks.push(Mutex::new(Locked { stripe, keeper }))?;
        }
        let share = sheet.first_share(opening);
        let stripes = Stripes {
            setup: kept,
            sheet,
            locks,
        };
        Ok((stripes, share))
    }

    /// Ends the sharing: the stripes, in the order of their locks. If the share is the whole, what it booked is all
    /// that the stripes have.
    pub fn into_stripes(
        self,
        alloc: Global,
        mut share: Share<N>,
    ) -> Result<(Vec<Stripe<C>>, Share<N>), AllocError>
        ensures count { IfOk result (λ ended. vec_len ended.0 ≡ stripe_count self.setup) }
        ensures share { IfOk result (λ ended. ended.1 ≡ share) }
        ensures whole { IfOk result (λ ended. share.parts ≡ share.plan.parts
            → All (λ stripe. IsAllOf share.booked stripe) ended.0.items) }
    {
        let Stripes {
            setup: _,
            sheet,
            locks,
        } = self;
        let mut stripes = Vec::with_capacity(alloc, locks.len())?;
        for lock in locks {
            let Locked { stripe, mut keeper } = lock.into_inner();
            // For the proof: if the share has all parts, what it booked is all of the stripe.
            sheet.look(&mut share, &mut keeper);
            stripes.push(stripe)?;
        }
        Ok((stripes, share))
    }
}

impl<C: Counts, N: Terms> Stripes<C, N> {
    /// How the words are divided.
    pub fn setup(&self) -> &Setup
        ensures { result.now ≡ self.now.setup }
    {
        &self.setup
    }

    /// Splits one part off a share that has two or more. Returns a share with that part, which has booked nothing.
    /// Takes no memory.
    pub fn split(&self, share: &mut Share<N>) -> Share<N>
        requires { 2 ≤ share.old.parts }
        ensures share { share.new ≡ with_one_part_less share.old }
        ensures new { result ≡ new_share share.old }
    {
        self.sheet.split(share)
    }

    /// Joins two shares: their parts and numbers are added up, and the bookings of one follow those of the other. Takes
    /// no memory.
    pub fn join(&self, share: &mut Share<N>, other: Share<N>)
        ensures { share.new ≡ joined_shares share.old other }
    {
        self.sheet.join(share, other);
    }

    /// Books a batch into the stripe of its cut, under that stripe's lock, and into a share.
    ///
    /// Conditions: the cut's stripe is one of these, and its batch may be booked. A refused booking leaves the share
    /// unchanged. `Full` comes only if batches that may be booked have more than 2^62 positions, or a table may be full
    /// for one of the keys.
    pub fn book<R: Wait>(&self, rt: &R, share: &mut Share<N>, cut: &Cut) -> Result<(), BookFault>
        requires stripe { cut.now.stripe < stripe_count self.now.setup }
        requires allowed { N.may_be_booked cut.now.batch }
        ensures booked { OnOk result (share.new ≡ with_booking share.old cut.now.stripe (cut_entry cut.now)) }
        ensures refused { OnErr result (share.new ≡ share.old) }
        ensures full { result ≡ Err BookFault.Full → MayBeTooMany cut.now.setup.rule.k N.may_be_booked
            ⊎ SomeKeyMayBeFull N.may_be_full (keys_of cut.now) }
    {
        self.locks[cut.stripe() as usize]
            .lock(rt)
            .book(&self.sheet, share, cut)
    }

    /// Books several batches into one stripe with one call, under that stripe's lock, and into a share, all or none.
    /// The share gets one booking for each batch, in order.
    ///
    /// It returns how many slots the stripe's table then has. That matters only for speed; no clause can state it
    /// behind a lock.
    ///
    /// Conditions: the stripe of the cuts is one of these, and their batches may be booked. A refused booking leaves
    /// the share unchanged. A round of no batches is never refused. `Full` comes only if batches that may be booked
    /// have more than 2^62 positions, or a table may be full for one of the keys.
    pub fn book_all<R: Wait>(
        &self,
        rt: &R,
        share: &mut Share<N>,
        cuts: &Cuts,
        ordered: &mut Ordered,
    ) -> Result<u64, BookFault>
        requires stripe { cuts.now.stripe < stripe_count self.now.setup }
        requires allowed { All N.may_be_booked cuts.now.batches }
        ensures booked { OnOk result (share.new ≡ with_bookings share.old (cuts_in cuts.now)) }
        ensures kept { (share.new.parts ≡ share.old.parts) × (share.new.plan ≡ share.old.plan) }
        ensures refused { OnErr result (share.new ≡ share.old) }
        ensures full { result ≡ Err BookFault.Full → MayBeTooMany cuts.now.setup.rule.k N.may_be_booked
            ⊎ SomeKeyMayBeFull N.may_be_full (all_keys_of cuts.now) }
        ensures empty { cuts.now.batches ≡ [] → IsOk result }
    {
        self.locks[cuts.stripe() as usize]
            .lock(rt)
            .book_all(&self.sheet, share, cuts, ordered)
    }

    /// How often a word occurs in the batches that were booked, and in which: all that are in the stripe of the form
    /// under which the word counts, under that stripe's lock.
    ///
    /// Condition: the word is below 4^k. Each batch that the share booked into that stripe is among them. A look books
    /// nothing, so it is never refused as twice or full.
    pub fn look<R: Wait>(
        &self,
        rt: &R,
        alloc: Global,
        share: &mut Share<N>,
        word: Word,
    ) -> Result<Seen, BookFault>
        requires { word.0 < word_count self.now.setup }
        ensures setup { IfOk result (λ seen. seen.setup ≡ self.now.setup) }
        ensures word { IfOk result (λ seen. seen.word ≡ word.0) }
        ensures named { IfOk result (λ seen.
            AreNamed (form_stripe self.now.setup word.0) share.old.booked seen.batches) }
        ensures share { share.new ≡ share.old }
        ensures twice { ¬ (result ≡ Err BookFault.Twice) }
        ensures full { ¬ (result ≡ Err BookFault.Full) }
    {
        let number = self.setup.stripe_of(self.setup.form_of(word));
        self.locks[number as usize]
            .lock(rt)
            .look(alloc, &self.sheet, share, &self.setup, word)
    }
}
