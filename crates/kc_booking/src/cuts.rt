//! The words of several batches that belong to one stripe.
ghost use Rattle.std.specs.Prelude.{◌≡◌, IfOk, MatchBool};
ghost use Rattle.kc_word.specs.Shared.{values};
ghost use Rattle.kc_booking.specs.Cuts.{all_keys_of, sizes_of};
ghost use Rattle.kc_booking.specs.Stripe.{NumbersDiffer};

use crate::setup::Setup;
use kc_lemmas::room_for_each;
use kc_word::Batch;
use std::alloc::{AllocError, Global};
use std::marker::Model;
use std::sync::Arc;

/// The cuts of several batches for one stripe: the batches, and the keys of their words there, borrowed from a round.
#[derive(Drop)]
pub struct Cuts<'a> {
    pub(crate) setup: &'a Setup,
    pub(crate) stripe: u32,
    pub(crate) batches: &'a [Arc<Batch>],
    // the keys, batch after batch
    pub(crate) keys: &'a [u64],
    // how many keys each batch has
    pub(crate) sizes: &'a [usize],
    // whether the batches have different numbers
    pub(crate) numbers_differ: bool,
}

impl<'a> Model for Cuts<'a> {
    ghost use Rattle.kc_word.specs.Shared.{values};
    ghost use Rattle.kc_booking.specs.Cuts.{RoundCut, round_at, AreCuts};

    ghost Value = { RoundCut };

    ghost view = { λ c. round_at c.setup.now (values c.batches.now) c.stripe };

    ghost invariant = { λ c.
        AreCuts (round_at c.setup.now (values c.batches.now) c.stripe) c.keys.now c.sizes.now c.numbers_differ };
}

impl<'a> Cuts<'a> {
    /// How the words are divided.
    pub fn setup(&self) -> &Setup
        ensures { result.now ≡ self.now.setup }
    {
        self.setup
    }

    /// The number of the stripe.
    pub fn stripe(&self) -> u32
        ensures { result ≡ self.now.stripe }
    {
        self.stripe
    }

    /// The batches, in order.
    pub fn batches(&self) -> &[Arc<Batch>]
        ensures { values result.now ≡ self.now.batches }
    {
        self.batches
    }

    /// The keys of the batches' words in the stripe, batch by batch, in the order of the words.
    pub fn keys(&self) -> &[u64]
        ensures { result.now ≡ all_keys_of self.now }
    {
        self.keys
    }

    /// How many of the keys belong to each batch.
    pub fn sizes(&self) -> &[usize]
        ensures { result.now ≡ sizes_of self.now }
    {
        self.sizes
    }

    /// Whether the batches have different numbers.
    pub fn numbers_differ(&self) -> bool
        ensures { MatchBool result (NumbersDiffer self.now.batches) (¬ NumbersDiffer self.now.batches) }
    {
        self.numbers_differ
    }
}

/// A new list of the same batches: each `Arc` is cloned, and no batch is copied.
pub fn clones_of(alloc: Global, batches: &[Arc<Batch>]) -> Result<Vec<Arc<Batch>>, AllocError>
    ensures { IfOk result (λ more. values more.items ≡ values batches.now) }
{
    let mut more = room_for_each(alloc, batches)?;
    for batch in batches {
        more.push(batch.clone()?)?;
    }
    Ok(more)
}
