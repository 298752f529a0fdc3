//! The words of a batch divided among the stripes.
ghost use Rattle.std.specs.Prelude.{◌≡◌, ℕ, ◌%◌, ◌^◌, ◌≤◌, ◌==◌, [], ◌∷◌, length, count_by, slice_index, IfOk, OnOk};
ghost use Rattle.kc_booking.specs.Cut.{StripeCut, keys_of, cuts_of, batch_hash_values};
ghost use Rattle.kc_booking.specs.Cuts.{round_at};

use crate::cuts::Cuts;
use crate::round::Round;
use crate::setup::Setup;
use kc_lemmas::{bucket_sizes, room_for_each};
use kc_word::{Batch, put_words};
use std::alloc::{AllocError, Global};
use std::marker::Model;
use std::slice::from_ref;
use std::sync::Arc;

/// A cut: the keys of those words of a batch that one stripe counts.
#[derive(Drop)]
pub struct Cut {
    pub(crate) setup: Setup,
    pub(crate) stripe: u32,
    pub(crate) batch: Arc<Batch>,
    pub(crate) keys: Vec<u64>,
}

impl Model for Cut {
    ghost use Rattle.std.specs.Prelude.{◌≡◌};
    ghost use Rattle.kc_booking.specs.Cut.{StripeCut, keys_of};

    ghost Value = { StripeCut };

    ghost view = { λ c. record { setup = c.setup; stripe = c.stripe; batch = c.batch.value } };

    ghost invariant = { λ c.
        c.keys.items ≡ keys_of (record { setup = c.setup; stripe = c.stripe; batch = c.batch.value }) };
}

impl Cut {
    /// How the words are divided.
    pub fn setup(&self) -> &Setup
        ensures { result.now ≡ self.now.setup }
    {
        &self.setup
    }

    /// The number of the stripe.
    pub fn stripe(&self) -> u32
        ensures { result ≡ self.now.stripe }
    {
        self.stripe
    }

    /// The batch.
    pub fn batch(&self) -> &Arc<Batch>
        ensures { result.now.value ≡ self.now.batch }
    {
        &self.batch
    }

    /// The keys of the batch's words in the stripe, in the order of the words.
    pub fn keys(&self) -> &[u64]
        ensures { result.now ≡ keys_of self.now }
    {
        &self.keys
    }

    /// The same as a round of one batch. Condition: the size is the number of keys.
    pub(crate) fn as_round<'a>(&'a self, size: &'a usize) -> Cuts<'a>
        requires { size.now ≡ length (keys_of self.now) }
        ensures { result ≡ round_at self.now.setup (self.now.batch ∷ []) self.now.stripe }
    {
        Cuts {
            setup: &self.setup,
            stripe: self.stripe,
            batches: from_ref(&self.batch),
            keys: &self.keys,
            sizes: from_ref(size),
            numbers_differ: true,
        }
    }
}

/// The words of a batch divided among the stripes: a cut for each stripe, in order, even if it has no word.
pub fn cut_up(alloc: Global, setup: &Setup, batch: &Arc<Batch>) -> Result<Vec<Cut>, AllocError>
    ensures { IfOk result (λ cuts. cuts.items ≡ cuts_of setup.now batch.now.value) }
{
    let mut round = Round::new(alloc, setup)?;
    round.cut_up(batch)?;
    let parts = round.into_keys();
    let mut cuts = room_for_each(alloc, &parts)?;
    for keys in parts {
        let setup = setup.clone()?;
        let cut = Cut {
            setup,
            stripe: cuts.len() as u32,
            batch: batch.clone()?,
            keys,
        };
        cuts.push(cut)?;
    }
    Ok(cuts)
}

/// Replaces the numbers by the hash values of those words of the batch that count, in order: with a list, those of the
/// listed words.
pub(crate) fn put_hash_values(
    hash_values: &mut Vec<u64>,
    setup: &Setup,
    batch: &Batch,
) -> Result<(), AllocError>
    ensures { OnOk result (hash_values.new.items ≡ batch_hash_values setup.now batch.now) }
{
    // for the proof: facts about the hash's bits
    let _bits = setup.stripe_bits;
    put_words(batch, setup.rule(), hash_values)?;
    match setup.list() {
        None => {}
        Some(list) => list.keep_listed(hash_values),
    }
    let tables = setup.hash.forward_tables();
    for word in hash_values.iter_mut() {
        *word = tables.apply(*word);
    }
    Ok(())
}

/// How many hash values belong to each stripe.
pub(crate) fn part_sizes(hash_values: &[u64], stripe_bits: u32) -> [usize; 64]
    requires { stripe_bits ≤ 6 }
    ensures { (stripe : ℕ) → slice_index result stripe
        ≡ count_by (λ value. value % 2 ^ stripe_bits == stripe) hash_values.now }
{
    let low = (1 << stripe_bits) - 1;
    let mut sizes = [0usize; 64];
    bucket_sizes(hash_values, &mut sizes, |value| (value & low) as usize);
    sizes
}
