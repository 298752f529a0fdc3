//! A round: batches that are cut up one by one, as they are drawn, and then booked together, stripe by stripe. Its
//! buffers are kept from one round to the next.
ghost use Rattle.std.specs.Prelude.{◌≡◌, ℕ, ◌+◌, ◌<◌, ◌≤◌, ◌^◌, [], ◌∷◌, ◌++◌, length, max, slice_index};
ghost use Rattle.std.specs.Prelude.{IfOk, OnOk, OnErr};
ghost use Rattle.kc_word.specs.Shared.{values};
ghost use Rattle.kc_booking.specs.Setup.{stripe_count};
ghost use Rattle.kc_booking.specs.Cuts.{all_keys_of, round_at};
ghost use Rattle.kc_booking.specs.Round.{items_at, room_at, rooms_of, stripe_keys, with_an_eighth};

use crate::buffers::{clear_each, empty_vecs, make_room};
use crate::cut::{part_sizes, put_hash_values};
use crate::cuts::Cuts;
use crate::setup::Setup;
use kc_word::Batch;
use std::alloc::{AllocError, Global};
use std::collections::HashSet;
use std::marker::Model;
use std::sync::Arc;

/// The batches of a round, and the keys of their words in each stripe.
///
/// The vectors of the keys are made once: `clear` removes the batches, and keeps the capacity.
#[derive(Drop)]
pub struct Round {
    setup: Setup,
    batches: Vec<Arc<Batch>>,
    // the hash values of the batch that was cut up last
    hash_values: Vec<u64>,
    // for each stripe its keys, batch after batch
    keys: Vec<Vec<u64>>,
    // for each stripe, how many keys each batch has there
    sizes: Vec<Vec<usize>>,
    // the numbers of the batches
    numbers: HashSet<u64>,
    // whether the batches have different numbers
    numbers_differ: bool,
}

impl Model for Round {
    ghost use Rattle.std.specs.Prelude.{nat_eq};
    ghost use Rattle.std.specs.HashSet.{contains};
    ghost use Rattle.kc_word.specs.Shared.{values};
    ghost use Rattle.kc_booking.specs.Round.{RoundState, IsRound, rooms_of};

    ghost Value = { RoundState };

    ghost view = { λ r.
        record { setup = r.setup; batches = values r.batches.items; rooms = rooms_of r.keys.items } };

    ghost invariant = { λ r.
        IsRound r.setup (values r.batches.items) r.keys.items r.sizes.items (contains nat_eq r.numbers)
        r.numbers_differ };
}

impl Round {
    /// A round without batches.
    pub fn new(alloc: Global, setup: &Setup) -> Result<Round, AllocError>
        ensures setup { IfOk result (λ round. round.setup ≡ setup.now) }
        ensures batches { IfOk result (λ round. round.batches ≡ []) }
    {
        let stripes = setup.stripes() as usize;
        Ok(Round {
            setup: setup.clone()?,
            batches: Vec::new(alloc),
            hash_values: Vec::new(alloc),
            keys: empty_vecs(alloc, stripes)?,
            sizes: empty_vecs(alloc, stripes)?,
            numbers: HashSet::new(alloc),
            numbers_differ: true,
        })
    }

    /// How the words are divided.
    pub fn setup(&self) -> &Setup
        ensures { result.now ≡ self.now.setup }
    {
        &self.setup
    }

    /// The batches, in order.
    pub fn batches(&self) -> &[Arc<Batch>]
        ensures { values result.now ≡ self.now.batches }
    {
        &self.batches
    }

    /// The words of the batches that belong to a stripe. Condition: it is one of the setup's stripes.
    pub fn cuts(&self, stripe: u32) -> Cuts<'_>
        requires { stripe < stripe_count self.now.setup }
        ensures { result ≡ round_at self.now.setup self.now.batches stripe }
    {
        Cuts {
            setup: &self.setup,
            stripe,
            batches: &self.batches,
            keys: &self.keys[stripe as usize],
            sizes: &self.sizes[stripe as usize],
            numbers_differ: self.numbers_differ,
        }
    }

    /// Divides the words of one more batch, after the others. If memory is refused, the batches are as before.
    pub fn cut_up(&mut self, batch: &Arc<Batch>) -> Result<(), AllocError>
        ensures setup { self.new.setup ≡ self.old.setup }
        ensures batches { OnOk result (self.new.batches ≡ self.old.batches ++ batch.now.value ∷ []) }
        ensures unchanged { OnErr result (self.new.batches ≡ self.old.batches) }
        ensures bounded { (stripe : ℕ) → slice_index self.new.rooms stripe ≤ max (slice_index self.old.rooms stripe)
            (with_an_eighth (length (all_keys_of
            (round_at self.old.setup (self.old.batches ++ batch.now.value ∷ []) stripe)))) }
    {
        let stripe_bits = self.setup.stripe_bits();
        put_hash_values(&mut self.hash_values, &self.setup, batch)?;
        let sizes = part_sizes(&self.hash_values, stripe_bits);
        let batch = batch.clone()?;
        // What can fail comes first.
        make_room(&mut self.keys, &sizes)?;
        make_room(&mut self.sizes, &[1; 64])?;
        self.batches.reserve(1)?;
        let Ok(is_new) = self.numbers.insert(batch.number()) else {
            return Err(AllocError);
        };
        self.numbers_differ &= is_new;
        push_keys(&mut self.keys, &self.hash_values, stripe_bits);
        push_sizes(&mut self.sizes, &sizes);
        self.batches.push_reserved(batch);
        Ok(())
    }

    /// Removes all batches. The capacity for their keys stays.
    pub fn clear(&mut self)
        ensures setup { self.new.setup ≡ self.old.setup }
        ensures batches { self.new.batches ≡ [] }
        ensures rooms { self.new.rooms ≡ self.old.rooms }
    {
        self.batches.clear();
        clear_each(&mut self.keys);
        clear_each(&mut self.sizes);
        self.numbers.clear();
        self.numbers_differ = true;
    }

    /// The keys of the batches in each stripe.
    pub(crate) fn into_keys(self) -> Vec<Vec<u64>>
        ensures all { length result.items ≡ stripe_count self.setup }
        ensures keys { (stripe : ℕ) → stripe < stripe_count self.setup
            → items_at result.items stripe ≡ all_keys_of (round_at self.setup self.batches stripe) }
        ensures few { length result.items ≤ 64 }
    {
        // for the proof: the greatest number of stripes
        let _stripes = self.setup.stripes();
        self.keys
    }
}

// Appends the key of each hash value to those of its stripe. Conditions: there is a vector for each stripe, with enough
// room.
fn push_keys(keys: &mut Vec<Vec<u64>>, hash_values: &[u64], stripe_bits: u32)
    requires bits { stripe_bits ≤ 6 }
    requires all { length keys.old.items ≡ 2 ^ stripe_bits }
    requires room { (stripe : ℕ) → stripe < 2 ^ stripe_bits → length (items_at keys.old.items stripe)
        + length (stripe_keys stripe_bits stripe hash_values.now) ≤ room_at keys.old.items stripe }
    ensures all { length keys.new.items ≡ length keys.old.items }
    ensures keys { (stripe : ℕ) → stripe < 2 ^ stripe_bits → items_at keys.new.items stripe
        ≡ items_at keys.old.items stripe ++ stripe_keys stripe_bits stripe hash_values.now }
    ensures rooms { rooms_of keys.new.items ≡ rooms_of keys.old.items }
{
    let low = (1 << stripe_bits) - 1;
    for hash_value in hash_values {
        keys[(*hash_value & low) as usize].push_reserved(*hash_value >> stripe_bits);
    }
}

// Appends one size to those of each stripe. Conditions: there is one for each stripe, and room for it.
fn push_sizes(columns: &mut Vec<Vec<usize>>, sizes: &[usize; 64])
    requires few { length columns.old.items ≤ 64 }
    requires room { (stripe : ℕ) → stripe < length columns.old.items
        → length (items_at columns.old.items stripe) < room_at columns.old.items stripe }
    ensures all { length columns.new.items ≡ length columns.old.items }
    ensures sizes { (stripe : ℕ) → stripe < length columns.old.items → items_at columns.new.items stripe
        ≡ items_at columns.old.items stripe ++ slice_index sizes.now stripe ∷ [] }
{
    for stripe in 0..columns.len() {
        columns[stripe].push_reserved(sizes[stripe]);
    }
}
