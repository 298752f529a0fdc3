//! A stripe together with its keeper, behind the stripe's lock.
ghost use Rattle.std.specs.Prelude.{◌≡◌, ◌+◌, ◌<◌, ◌≤◌, ◌^◌, ◌↔◌, ◌⊎◌, ◌++◌, ◌∷◌, [], length, All};
ghost use Rattle.std.specs.Prelude.{IfOk, IsOk, OnOk, OnErr};
ghost use Rattle.kc_share.specs.Share.{with_booking};
ghost use Rattle.kc_booking.specs.Setup.{word_count};
ghost use Rattle.kc_booking.specs.Cut.{keys_of};
ghost use Rattle.kc_booking.specs.Cuts.{cuts_in, all_keys_of, IsOwnRound, FirstIsBooked, FirstIsNew};
ghost use Rattle.kc_booking.specs.Counted.{SomeMayBeFull, SomeMayBeFullInSomeOrder};
ghost use Rattle.kc_booking.specs.Stripe.{IsBooked, IsOwnCut, IsUnchanged, NumbersDiffer};
ghost use Rattle.kc_stripe.specs.Locked.{cut_entry, with_bookings};
ghost use Rattle.kc_stripe.specs.Seen.{form_stripe, AreNamed, IsStripeOf};
ghost use Rattle.kc_stripe.specs.Terms.{MayBeTooMany, SomeKeyMayBeFull};

use crate::seen::Seen;
use crate::terms::Terms;
use kc_booking::{BookFault, Cut, Cuts, Ordered, Setup, Stripe};
use kc_share::{Keeper, OpenSheet, Share, share_laws};
use kc_table::Counts;
use kc_word::Word;
use std::alloc::Global;
use std::marker::Model;

/// A stripe, and its keeper on the sheet of the shares, whose journal is the stripe's.
#[derive(Drop)]
pub(crate) struct Locked<C: Counts, N: Terms> {
    pub(crate) stripe: Stripe<C>,
    pub(crate) keeper: Keeper<N>,
}

impl<C: Counts, N: Terms> Model for Locked<C, N> {
    ghost use Rattle.kc_booking.specs.Stripe.{StripeState};
    ghost use Rattle.kc_stripe.specs.Locked.{IsLocked};

    ghost Value = { StripeState C };

    ghost view = { λ l. l.stripe };

    ghost invariant = { λ l. IsLocked N.may_be_booked N.may_be_full C.may_be_full l.stripe l.keeper };
}

impl<C: Counts, N: Terms> Locked<C, N> {
    /// Books a batch that may be booked into the stripe, and into a share. A refused booking leaves both unchanged.
    pub(crate) fn book(
        &mut self,
        sheet: &OpenSheet<N>,
        share: &mut Share<N>,
        cut: &Cut,
    ) -> Result<(), BookFault>
        requires allowed { N.may_be_booked cut.now.batch }
        ensures share { OnOk result (share.new ≡ with_booking share.old cut.now.stripe (cut_entry cut.now)) }
        ensures journal { OnOk result (self.new.journal ≡ self.old.journal ++ cut.now.batch ∷ []) }
        ensures refused { OnErr result (share.new ≡ share.old) }
        ensures unchanged { OnErr result (IsUnchanged C.counts self.old self.new) }
        ensures twice { result ≡ Err BookFault.Twice ↔ IsBooked self.old.journal cut.now.batch.number }
        ensures stranger { result ≡ Err BookFault.Stranger
            ↔ (¬ IsBooked self.old.journal cut.now.batch.number × ¬ IsOwnCut self.old cut.now) }
        ensures full { result ≡ Err BookFault.Full → (2 ^ 62 < self.old.total + length (keys_of cut.now))
            ⊎ SomeMayBeFull (C.may_be_full self.old.table) (C.counts self.old.table) (keys_of cut.now) }
        ensures terms { result ≡ Err BookFault.Full → MayBeTooMany cut.now.setup.rule.k N.may_be_booked
            ⊎ SomeKeyMayBeFull N.may_be_full (keys_of cut.now) }
        ensures memory { result ≡ Err BookFault.Memory → self.old.total + length (keys_of cut.now) ≤ 2 ^ 62 }
    {
        // For the proof: the batches of the journal have different numbers.
        self.stripe.is_lawful();
        self.stripe.book(cut)?;
        sheet.note(
            share,
            &mut self.keeper,
            cut.batch(),
            cut.keys().len() as u64,
        );
        Ok(())
    }

    /// Books several batches that may be booked into the stripe, and into a share, all or none. It returns how many
    /// slots the stripe's table then has. A refused booking leaves both unchanged.
    pub(crate) fn book_all(
        &mut self,
        sheet: &OpenSheet<N>,
        share: &mut Share<N>,
        cuts: &Cuts,
        ordered: &mut Ordered,
    ) -> Result<u64, BookFault>
        requires allowed { All N.may_be_booked cuts.now.batches }
        ensures share { OnOk result (share.new ≡ with_bookings share.old (cuts_in cuts.now)) }
        ensures slots { IfOk result (λ slots. slots ≡ C.slots self.new.table) }
        ensures journal { OnOk result (self.new.journal ≡ self.old.journal ++ cuts.now.batches) }
        ensures refused { OnErr result (share.new ≡ share.old) }
        ensures unchanged { OnErr result (IsUnchanged C.counts self.old self.new) }
        ensures twice { result ≡ Err BookFault.Twice ↔ (FirstIsBooked self.old.journal cuts.now.batches
            ⊎ (IsOwnRound self.old cuts.now × ¬ NumbersDiffer (self.old.journal ++ cuts.now.batches))) }
        ensures stranger { result ≡ Err BookFault.Stranger
            ↔ (FirstIsNew self.old.journal cuts.now.batches × ¬ IsOwnRound self.old cuts.now) }
        ensures full { result ≡ Err BookFault.Full → (2 ^ 62 < self.old.total + length (all_keys_of cuts.now))
            ⊎ SomeMayBeFullInSomeOrder (C.may_be_full self.old.table) (C.counts self.old.table)
            (all_keys_of cuts.now) }
        ensures terms { result ≡ Err BookFault.Full → MayBeTooMany cuts.now.setup.rule.k N.may_be_booked
            ⊎ SomeKeyMayBeFull N.may_be_full (all_keys_of cuts.now) }
        ensures memory { result ≡ Err BookFault.Memory
            → self.old.total + length (all_keys_of cuts.now) ≤ 2 ^ 62 }
        ensures empty { cuts.now.batches ≡ [] → IsOk result }
    {
        self.stripe.book_all(cuts, ordered)?;
        let keeper = &mut self.keeper;
        for i in 0..cuts.batches().len() {
            sheet.note(share, keeper, &cuts.batches()[i], cuts.sizes()[i] as u64);
        }
        Ok(self.stripe.slots())
    }

    /// What the stripe knows of a word, if the word counts in it: it has this setup, and the number of the word's
    /// stripe.
    ///
    /// Condition: the word is below 4^k. A look books nothing, so it is refused only for another stripe, or for lack of
    /// memory.
    pub(crate) fn look(
        &mut self,
        alloc: Global,
        sheet: &OpenSheet<N>,
        share: &mut Share<N>,
        setup: &Setup,
        word: Word,
    ) -> Result<Seen, BookFault>
        requires { word.0 < word_count setup.now }
        ensures setup { IfOk result (λ seen. seen.setup ≡ setup.now) }
        ensures word { IfOk result (λ seen. seen.word ≡ word.0) }
        ensures named { IfOk result (λ seen.
            AreNamed (form_stripe setup.now word.0) share.old.booked seen.batches) }
        ensures batches { IfOk result (λ seen. seen.batches ≡ self.old.journal) }
        ensures share { share.new ≡ share.old }
        ensures kept { self.new ≡ self.old }
        ensures stranger { result ≡ Err BookFault.Stranger ↔ ¬ IsStripeOf setup.now word.0 self.old }
        ensures twice { ¬ (result ≡ Err BookFault.Twice) }
        ensures full { ¬ (result ≡ Err BookFault.Full) }
    {
        let number = setup.stripe_of(setup.form_of(word));
        if self.stripe.setup() != setup || self.stripe.number() != number {
            return Err(BookFault::Stranger);
        }
        // What the share booked is in the journal.
        sheet.look(share, &mut self.keeper);
        share_laws::among_is_there();
        let seen = Seen::of(alloc, &self.stripe, word)?;
        Ok(seen)
    }
}
