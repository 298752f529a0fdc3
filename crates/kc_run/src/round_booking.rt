//! A round of a worker: batches are cut up one by one, and then booked stripe by stripe, with one call each, so that a
//! stripe's cache lines that one batch has fetched are still there for the next.
ghost use Rattle.std.specs.Prelude.{◌≡◌, ◌*◌, ◌/◌, ◌≤◌, ◌<◌, ◌⊎◌, [], max, All, IfOk, OnOk, IfErr};
ghost use Rattle.std.specs.Prelude.{length};
ghost use Rattle.kc_booking.specs.Setup.{stripe_count};
ghost use Rattle.kc_stripe.specs.Terms.{MayBeTooMany};
ghost use Rattle.kc_run.specs.Runs.{HaveMoreIn, IsWorkerFault, MayEverBeFull, least_positions};

use crate::run_fault::RunFault;
use kc_share::Share;
use kc_stripe::{Ordered, Round, Setup, Stripes, Terms};
use kc_table::Counts;
use std::alloc::{AllocError, Global};
use std::sync::Wait;

// The least number of positions in a round.
const MIN_POSITIONS: u64 = 4_000_000;

// The least number of rounds of each worker, if there are so many batches.
const ROUNDS: u64 = 4;

// The rounds of all workers together have one position for this many slots of the hash tables.
const SLOTS_A_POSITION: u64 = 4;

/// What a worker keeps from one round to the next.
#[derive(Drop)]
pub(crate) struct RoundBuffers {
    /// The batches of the round, and all their words in each stripe.
    pub round: Round,
    pub ordered: Ordered,
}

impl RoundBuffers {
    /// A round without batches.
    pub fn new(alloc: Global, setup: &Setup) -> Result<RoundBuffers, AllocError>
        ensures setup { IfOk result (λ buffers. buffers.round.setup ≡ setup.now) }
        ensures none { IfOk result (λ buffers. buffers.round.batches ≡ []) }
    {
        Ok(RoundBuffers {
            round: Round::new(alloc, setup)?,
            ordered: Ordered::new(alloc)?,
        })
    }
}

/// How large the rounds of a run may be.
#[derive(Drop)]
pub(crate) struct RoundLimits {
    /// The greatest number of batches in a round: it leaves each worker four rounds, and is at least one.
    pub batches: u64,
    // the least number of positions in a round
    pub positions: u64,
    // how many workers have a round at the same time
    pub workers: u64,
    ghost some: { 1 ≤ workers },
}

impl RoundLimits {
    /// The limits of rounds in which so many workers count so many batches.
    pub fn new(batches: usize, setup: &Setup, workers: u32) -> RoundLimits
        requires { 1 ≤ workers }
        ensures some { 1 ≤ result.batches }
        ensures four { (result.batches ≡ 1) ⊎ (result.batches * (4 * workers) ≤ batches) }
        ensures positions { result.positions ≡ least_positions setup.now.rule.only }
        ensures workers { result.workers ≡ workers }
    {
        let listed = match setup.list() {
            Some(list) => list.words().len() as u64,
            None => 0,
        };
        let workers = u64::from(workers);
        RoundLimits {
            batches: (batches as u64 / (ROUNDS * workers)).max(1),
            positions: MIN_POSITIONS.max(listed),
            workers,
        }
    }

    /// How many positions make a round if the hash tables have so many slots: the rounds of all workers together have
    /// one for each four slots, so that a visit of a table's cache line counts more than one key; but each has at least
    /// 4 million or, if a list has more words, as many as it has words, since each booking compares the lists.
    pub fn positions_for(&self, slots: u64) -> u64
        ensures { result ≡ max self.now.positions (slots / (4 * self.now.workers)) }
    {
        self.positions.max(slots / SLOTS_A_POSITION / self.workers)
    }
}

/// Books the batches of a round into the stripes from one number to before another.
///
/// The round was cut up for these stripes, and the numbers are some of theirs. Its batches may be booked, and all
/// batches that may be are not too many. It is unchanged. The result is how many slots their hash tables then have, for
/// the size of the next round.
pub(crate) fn book_range<H: Wait, C: Counts, N: Terms>(
    rt: &H,
    stripes: &Stripes<C, N>,
    buffers: &mut RoundBuffers,
    from: u32,
    to: u32,
    share: &mut Share<N>,
) -> Result<u64, RunFault>
    requires cut_up { buffers.old.round.setup ≡ stripes.now.setup }
    requires allowed { All N.may_be_booked buffers.old.round.batches }
    requires few { ¬ MayBeTooMany stripes.now.setup.rule.k N.may_be_booked }
    requires range { (from ≤ to) × (to ≤ stripe_count stripes.now.setup) }
    ensures round { buffers.new.round ≡ buffers.old.round }
    ensures kept { (share.new.parts ≡ share.old.parts) × (share.new.plan ≡ share.old.plan) }
    ensures booked { OnOk result (HaveMoreIn from to (length buffers.old.round.batches)
        share.old.booked share.new.booked) }
    ensures refused { IfErr result (IsWorkerFault (MayEverBeFull N.may_be_full) to) }
{
    let mut slots: u64 = 0;
    for stripe in from..to {
        let cuts = buffers.round.cuts(stripe);
        match stripes.book_all(rt, share, &cuts, &mut buffers.ordered) {
            Ok(more) => slots = slots.saturating_add(more),
            Err(fault) => return Err(RunFault::of_booking(stripe, fault)),
        }
    }
    Ok(slots)
}
