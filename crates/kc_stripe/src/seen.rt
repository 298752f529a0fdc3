//! The result of a look: how often a word was counted so far, and in which batches.
ghost use Rattle.std.specs.Prelude.{◌≡◌, ◌<◌, IfOk};
ghost use Rattle.kc_word.specs.Shared.{values};
ghost use Rattle.kc_booking.specs.Setup.{word_count};
ghost use Rattle.kc_stripe.specs.Seen.{IsSeen, form_stripe};

use kc_booking::{Setup, Stripe, clones_of};
use kc_table::Counts;
use kc_word::{Batch, Word};
use std::alloc::{AllocError, Global};
use std::marker::Model;
use std::sync::Arc;

/// How often a word occurs, in the form under which it counts, and in which batches: all that were booked into the
/// stripe of that form.
#[derive(Drop)]
pub struct Seen {
    setup: Setup,
    word: Word,
    count: u64,
    batches: Vec<Arc<Batch>>,
}

impl Model for Seen {
    ghost use Rattle.kc_word.specs.Shared.{values};
    ghost use Rattle.kc_stripe.specs.Seen.{WordSeen, IsSeen};

    ghost Value = { WordSeen };

    ghost view = { λ s. record {
      setup = s.setup;
      word = s.word.0;
      count = s.count;
      batches = values s.batches.items;
    } };

    ghost invariant = { λ s. IsSeen s.setup s.word.0 s.count (values s.batches.items) };
}

impl Seen {
    // The result for a word's stripe: the count of its form, and the batches of the journal.
    pub(crate) fn of<C: Counts>(
        alloc: Global,
        stripe: &Stripe<C>,
        word: Word,
    ) -> Result<Seen, AllocError>
        requires word { word.0 < word_count stripe.now.setup }
        requires stripe { form_stripe stripe.now.setup word.0 ≡ stripe.now.number }
        ensures setup { IfOk result (λ seen. seen.setup ≡ stripe.now.setup) }
        ensures word { IfOk result (λ seen. seen.word ≡ word.0) }
        ensures batches { IfOk result (λ seen. seen.batches ≡ stripe.now.journal) }
    {
        // The batches of its journal have different numbers.
        stripe.is_lawful();
        let count = stripe.count_of(stripe.setup().form_of(word));
        let batches = clones_of(alloc, stripe.journal())?;
        Ok(Seen {
            setup: stripe.setup().clone()?,
            word,
            count,
            batches,
        })
    }

    /// How the words are divided.
    pub fn setup(&self) -> &Setup
        ensures { result.now ≡ self.now.setup }
    {
        &self.setup
    }

    /// The word.
    pub fn word(&self) -> Word
        ensures { result.0 ≡ self.now.word }
    {
        self.word
    }

    /// How often the word's form occurs in the batches.
    pub fn count(&self) -> u64
        ensures value { result ≡ self.now.count }
        ensures seen { IsSeen self.now.setup self.now.word result self.now.batches }
    {
        self.count
    }

    /// The batches.
    pub fn batches(&self) -> &[Arc<Batch>]
        ensures { values result.now ≡ self.now.batches }
    {
        &self.batches
    }
}
