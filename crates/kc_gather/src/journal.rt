//! Whether a stripe's journal has the batches that were given.
ghost use Rattle.std.specs.Prelude.{◌≡◌, ◌<◌, ◌↔◌, All, count_by, nat_lt, MatchBool};
ghost use Rattle.std.specs.Prelude.{IsTrue, OnOk, IfErr, IfSome, IfNone};
ghost use Rattle.kc_word.specs.Shared.{values};
ghost use Rattle.kc_booking.specs.Stripe.{NumbersDiffer};
ghost use Rattle.kc_gather.specs.Gathering.{HasAllBelow, HasAllNumbers, IsGiven, IsLeastMissing};
ghost use Rattle.kc_gather.specs.Gathering.{IsOwn, IsStripeRefusal, IsWhole};

use crate::gather_fault::GatherFault;
use kc_booking::{Setup, Stripe};
use kc_table::Counts;
use kc_word::Batch;
use std::sync::Arc;

/// Whether the stripe is that of this index, and its journal has exactly the given batches. It takes no memory.
pub(crate) fn check_stripe<C: Counts>(
    index: u32,
    stripe: &Stripe<C>,
    batches: &[Arc<Batch>],
    setup: &Setup,
) -> Result<(), GatherFault>
    ensures whole { OnOk result (IsWhole setup.now (values batches.now) index stripe.now) }
    ensures refused { IfErr result (IsStripeRefusal setup.now (values batches.now) index stripe.now) }
    ensures foreign { result ≡ Err (GatherFault.Foreign index)
        ↔ ¬ IsOwn setup.now (values batches.now) index stripe.now }
{
    if !is_own(index, stripe, batches, setup) {
        return Err(GatherFault::Foreign(index));
    }
    // for the proof: the numbers in the journal differ
    stripe.is_lawful();
    match first_missing(stripe.journal(), batches) {
        Some(number) => Err(GatherFault::Missing(index, number)),
        None => Ok(()),
    }
}

// Whether the stripe is that of this index in a count of the given batches.
fn is_own<C: Counts>(index: u32, stripe: &Stripe<C>, batches: &[Arc<Batch>], setup: &Setup) -> bool
    ensures { IsTrue result ↔ IsOwn setup.now (values batches.now) index stripe.now }
{
    stripe.setup() == setup && stripe.number() == index && are_given(stripe.journal(), batches)
}

// Whether the batch is the given one with its number.
fn is_given(batch: &Batch, batches: &[Arc<Batch>]) -> bool
    ensures { IsTrue result ↔ IsGiven (values batches.now) batch.now }
{
    let number = batch.number();
    number < batches.len() as u64 && *batches[number as usize] == *batch
}

// Whether each batch in the journal is the given one with its number.
fn are_given(journal: &[Arc<Batch>], batches: &[Arc<Batch>]) -> bool
    ensures { IsTrue result ↔ All (IsGiven (values batches.now)) (values journal.now) }
{
    for batch in journal {
        if !is_given(batch, batches) {
            return false;
        }
    }
    true
}

// The least number of a given batch that the journal lacks. It is searched by halving, without memory: of different
// numbers, exactly m are below m if and only if none of those is missing. Conditions: the numbers in the journal
// differ, and each batch in it is the given one with its number.
fn first_missing(journal: &[Arc<Batch>], batches: &[Arc<Batch>]) -> Option<u64>
    requires differ { NumbersDiffer (values journal.now) }
    requires given { All (IsGiven (values batches.now)) (values journal.now) }
    ensures least { IfSome result (IsLeastMissing (values batches.now) (values journal.now)) }
    ensures none { IfNone result (HasAllNumbers (values batches.now) (values journal.now)) }
{
    let mut to = batches.len() as u64;
    if has_all_below(journal, to) {
        return None;
    }
    let mut from = 0;
    while to - from > 1 {
        let middle = from + (to - from) / 2;
        if has_all_below(journal, middle) {
            from = middle;
        } else {
            to = middle;
        }
    }
    Some(from)
}

// Whether the journal has a batch for each number below this one. Condition: its numbers differ.
fn has_all_below(journal: &[Arc<Batch>], number: u64) -> bool
    requires { NumbersDiffer (values journal.now) }
    ensures { MatchBool result (HasAllBelow (values journal.now) number)
        (¬ HasAllBelow (values journal.now) number) }
{
    count_below(journal, number) == number
}

// How many batches in the journal have a number below this one.
fn count_below(journal: &[Arc<Batch>], number: u64) -> u64
    ensures { result ≡ count_by (λ batch. nat_lt batch.number number) (values journal.now) }
{
    let mut below = 0;
    for batch in journal {
        if batch.number() < number {
            below += 1;
        }
    }
    below
}
