//! Whole runs: batches counted by several workers over one table in locked stripes.
ghost use Rattle.std.specs.Prelude.{◌≡◌, ℕ, ◌<◌, ◌≤◌, ◌^◌, All, IfOk, IfErr, length, vec_len};
ghost use Rattle.std.specs.FinMap.{empty};
ghost use Rattle.kc_word.specs.Shared.{values};
ghost use Rattle.kc_share.specs.Sheet.{plan_of};
ghost use Rattle.kc_share.specs.Share.{entry_total_in};
ghost use Rattle.kc_booking.specs.Setup.{stripe_count, key_bits};
ghost use Rattle.kc_booking.specs.Stripe.{reads_in, position_sum};
ghost use Rattle.kc_run.specs.Runs.{HaveCounted, IsReady, IsGatheringFault, IsRunFault, MayEverBeFull};
ghost use Rattle.kc_stripe.specs.Terms.{IsFullOnlyWhere, MayBeTooMany, SomeTableMayBeFull};

use crate::crew::{join_shares, work_all, workers_of};
use crate::gate::Gate;
use crate::round_booking::RoundLimits;
use crate::run_fault::RunFault;
use crate::worker::{Job, Worker};
use kc_gather::Summary;
use kc_share::{Plan, Sheet};
use kc_stripe::{Setup, Stripe, Stripes, Terms};
use kc_table::Counts;
use kc_tickets::Tickets;
use kc_word::Batch;
use std::alloc::Global;
use std::marker::Brand;
use std::sync::{Arc, Wait};
use std::thread::Threads;

/// Counts batches with so many workers over one table in locked stripes, and returns the summary that the caller wants:
/// the tally of all batches or, without its rows, the numbers of that tally. The result is the same whatever the number
/// of workers and of stripes, and the order in which threads run. A refused run gives no summary; if its fault names a
/// worker or a stripe, it is one of this run's. A stripe is full only if one of the tables may be full at some counts
/// for some key.
///
/// Each worker, in a thread of its own, draws numbers until there is none left, and books the batch of each number into
/// every stripe. It works in rounds of some 4 million positions: it cuts up all batches of a round, and books them
/// stripe by stripe. The gate is called before the first and after the last booking of a batch.
///
/// Conditions: 1 to 64 workers; at most 2^40 batches, with at most 2^62 positions together; a table for each stripe,
/// with nothing stored and keys of the setup's `key_bits`.
pub fn run<S: Summary, H: Threads + Wait + Sync, C: Counts + Drop + Send + Sync, G: Gate + Sync>(
    rt: &H,
    alloc: Global,
    batches: &[Arc<Batch>],
    setup: &Setup,
    tables: Vec<C>,
    workers: u32,
    gate: &G,
) -> Result<S, RunFault>
    requires workers { (1 ≤ workers) × (workers ≤ 64) }
    requires few { length batches.now ≤ 2 ^ 40 }
    requires small { position_sum setup.now.rule.k (values batches.now) ≤ 2 ^ 62 }
    requires one_each { length tables.items ≡ stripe_count setup.now }
    requires tables { All (λ table. (C.counts table ≡ empty) × (C.bits table ≡ key_bits setup.now)) tables.items }
    ensures summary { IfOk result (S.is_of setup.now.rule (reads_in (values batches.now))) }
    ensures refused { let MayBeFull = MayEverBeFull (SomeTableMayBeFull C.may_be_full tables.items) in
        IfErr result (IsRunFault MayBeFull workers (stripe_count setup.now)) }
{
    let count = Count {
        batches,
        setup,
        workers,
        gate,
    };
    let sheet = Sheet::new(alloc, setup.stripes(), u64::from(workers))?;
    let stripes = count_batches::<H, C, G, Brand>(rt, alloc, &count, tables, sheet)?;
    gather_summary(rt, alloc, &count, stripes)
}

// What is counted, and how.
#[derive(Drop)]
struct Count<'a, G: Gate> {
    batches: &'a [Arc<Batch>],
    setup: &'a Setup,
    workers: u32,
    gate: &'a G,
}

// The stripes into which the workers booked all batches, with this sheet of shares. Every sheet has a type of its own,
// N, so no share of another sheet can be used, and with it the batches that may be booked: these.
fn count_batches<
    H: Threads + Wait + Sync,
    C: Counts + Drop + Send,
    G: Gate + Sync,
    N: Terms + Send + Sync,
>(
    rt: &H,
    alloc: Global,
    count: &Count<G>,
    tables: Vec<C>,
    sheet: Sheet,
) -> Result<Vec<Stripe<C>>, RunFault>
    requires name { sheet.table ≡ N.table }
    requires plan { sheet.plan ≡ plan_of (stripe_count count.now.setup.now) count.now.workers }
    requires allowed { All N.may_be_booked (values count.now.batches.now) }
    requires few_allowed { ¬ MayBeTooMany count.now.setup.now.rule.k N.may_be_booked }
    requires workers { (1 ≤ count.now.workers) × (count.now.workers ≤ 64) }
    requires few { length count.now.batches.now ≤ 2 ^ 40 }
    requires small { position_sum count.now.setup.now.rule.k (values count.now.batches.now) ≤ 2 ^ 62 }
    requires one_each { length tables.items ≡ stripe_count count.now.setup.now }
    requires tables { All (λ table. (C.counts table ≡ empty) × (C.bits table ≡ key_bits count.now.setup.now))
        tables.items }
    requires limits { All (λ table. IsFullOnlyWhere N.may_be_full (C.may_be_full table)) tables.items }
    ensures counted { IfOk result
        (λ stripes. HaveCounted count.now.setup.now (length count.now.batches.now) stripes.items) }
    ensures refused { IfErr result
        (IsRunFault (MayEverBeFull N.may_be_full) count.now.workers (stripe_count count.now.setup.now)) }
{
    let Count {
        batches,
        setup,
        workers,
        gate,
    } = *count;
    let (tickets, seats) = Tickets::new(alloc, batches.len() as u64, workers)?;
    let (stripes, share) = Stripes::<C, N>::new(alloc, setup, tables, sheet)?;
    let ready = workers_of(alloc, &stripes, seats, share)?;
    let job = Job {
        batches,
        stripes: &stripes,
        plan: Plan {
            stripes: u64::from(setup.stripes()),
            parts: u64::from(workers),
        },
        tickets: &tickets,
        gate,
        limits: RoundLimits::new(batches.len(), setup, workers),
        stripes_apart: (setup.stripes() / workers).max(1),
    };
    let ended = work_all(rt, alloc, &job, ready)?;
    let (seats, share) = join_shares(alloc, &stripes, ended)?;
    tickets.close(seats);
    let (stripes, _) = stripes.into_stripes(alloc, share)?;
    Ok(stripes)
}

// The summary that is gathered from the stripes. No stripe lacks a batch, since each journal has as many entries as
// there are batches.
fn gather_summary<S: Summary, H: Threads + Sync, C: Counts + Drop + Send + Sync, G: Gate>(
    rt: &H,
    alloc: Global,
    count: &Count<G>,
    stripes: Vec<Stripe<C>>,
) -> Result<S, RunFault>
    requires workers { 1 ≤ count.now.workers }
    requires small { position_sum count.now.setup.now.rule.k (values count.now.batches.now) ≤ 2 ^ 62 }
    requires counted { HaveCounted count.now.setup.now (length count.now.batches.now) stripes.items }
    ensures summary { IfOk result
        (S.is_of count.now.setup.now.rule (reads_in (values count.now.batches.now))) }
    ensures refused { IfErr result (IsGatheringFault (stripe_count count.now.setup.now)) }
{
    let (batches, setup) = (count.batches, count.setup);
    match S::gather(rt, alloc, count.workers, stripes, batches, setup) {
        Ok(summary) => Ok(summary),
        Err(fault) => Err(RunFault::of_gathering(fault)),
    }
}
