//! The workers of a run, each in a thread of its own.
ghost use Rattle.std.specs.Prelude.{◌≡◌, ℕ, ◌<◌, ◌≤◌, ◌⊎◌, []};
ghost use Rattle.std.specs.Prelude.{All, Some, None, Ok, Err, IfOk, IfErr, IfSome, MatchOption};
ghost use Rattle.std.specs.Prelude.{length, map, slice_get, vec_len};
ghost use Rattle.kc_share.specs.declared.entry.Plan.{Plan};
ghost use Rattle.kc_share.specs.Share.{share_of};
ghost use Rattle.kc_run.specs.declared.run_fault.RunFault.TheVariants.{Memory, NoThread};
ghost use Rattle.kc_tickets.specs.Tickets.{TicketsSeen};
ghost use Rattle.kc_run.specs.Runs.{IsJob, IsFreshSeatOf, IsReady, HasWorked, HaveWorked, IsPromised, AreEnds};
ghost use Rattle.kc_run.specs.Runs.{IsWorkerFault, IsRunFault, MayEverBeFull, AllEndedWell, IsFirstFault};

use crate::gate::Gate;
use crate::run_fault::RunFault;
use crate::worker::{Job, Worker};
use kc_share::{Books, Plan, Share};
use kc_stripe::{Stripes, Terms};
use kc_table::Counts;
use kc_tickets::{Seat, Tickets};
use std::alloc::{AllocError, Global};
use std::snapshot::Snapshot;
use std::sync::Wait;
use std::thread;
use std::thread::{Promise, PromisedHandle, Scope, Threads};

/// What a worker's thread returns.
type Ended<N> = Result<Worker<N>, RunFault>;

/// What a worker's thread promises for its result: a worker that succeeds has worked with these tickets and a sheet
/// with this plan; one that fails names one of the plan's stripes, as full only if one may be, or was refused memory.
#[derive(Drop)]
struct Working {
    tickets: Snapshot<Tickets>,
    plan: Plan,
}

impl<N: Terms> Promise<Result<Worker<N>, RunFault>> for Working {
    ghost use Rattle.std.specs.Prelude.{IfOk, IfErr};
    ghost use Rattle.kc_run.specs.Runs.{HasWorked, IsWorkerFault, MayEverBeFull};

    ghost kept_by = { λ promise result. IfOk result (λ worker.
        HasWorked promise.tickets.value promise.plan worker.seat worker.share)
        × IfErr result (IsWorkerFault (MayEverBeFull N.may_be_full) promise.plan.stripes) };
}

/// The threads that were started, in the order of their workers, and the number of the first worker for which none
/// could be started.
#[derive(Drop)]
struct Started<N: Terms> {
    threads: Vec<PromisedHandle<Result<Worker<N>, RunFault>, Working>>,
    refused: Option<u32>,
}

/// A worker for each seat, each with one part of the share.
pub(crate) fn workers_of<C: Counts, N: Terms>(
    alloc: Global,
    stripes: &Stripes<C, N>,
    mut seats: Vec<Seat>,
    mut share: Share<N>,
) -> Result<Vec<Worker<N>>, AllocError>
    requires some { 1 ≤ vec_len seats }
    requires share { share ≡ share_of share.plan (vec_len seats) [] }
    ensures len { IfOk result (λ workers. vec_len workers ≡ vec_len seats) }
    ensures ready { IfOk result (λ workers. (tickets : TicketsSeen) → All (IsFreshSeatOf tickets) seats.items
        → All (λ worker. IsReady tickets share.plan worker.seat worker.share) workers.items) }
{
    let mut workers = Vec::with_capacity(alloc, seats.len())?;
    while seats.len() > 1 {
        let Some(seat) = seats.pop() else {
            unreachable!()
        };
        let share = stripes.split(&mut share);
        workers.push(Worker { seat, share })?;
    }
    let Some(seat) = seats.pop() else {
        unreachable!()
    };
    workers.push(Worker { seat, share })?;
    Ok(workers)
}

/// Lets the workers work, each in a thread of its own, and waits for all of them. If some failed or could not be
/// started, the fault of the first one in their order is returned.
pub(crate) fn work_all<
    H: Threads + Wait + Sync,
    C: Counts + Send,
    N: Terms + Send + Sync,
    G: Gate + Sync,
>(
    rt: &H,
    alloc: Global,
    job: &Job<C, N, G>,
    workers: Vec<Worker<N>>,
) -> Result<Vec<Worker<N>>, RunFault>
    requires job { let Job = IsJob N.may_be_booked job.now.tickets.now job.now.plan in
        Job job.now.batches.now job.now.stripes.now.setup }
    requires few { vec_len workers ≤ 64 }
    requires ready { All (λ worker. IsReady job.now.tickets.now job.now.plan worker.seat worker.share) workers.items }
    ensures len { IfOk result (λ ended. vec_len ended ≡ vec_len workers) }
    ensures worked { IfOk result (λ ended.
        All (λ worker. HasWorked job.now.tickets.now job.now.plan worker.seat worker.share) ended.items) }
    ensures refused { IfErr result
        (IsRunFault (MayEverBeFull N.may_be_full) (vec_len workers) job.now.plan.stripes) }
{
    let results = thread::scope(
        thread::scope_env(),
        rt,
        |scope| -> Result<Vec<Ended<N>>, AllocError>
            requires { let Job = IsJob N.may_be_booked job.now.tickets.now job.now.plan in
                Job job.now.batches.now job.now.stripes.now.setup
                × (vec_len workers ≤ 64)
                × All (λ worker. IsReady job.now.tickets.now job.now.plan worker.seat worker.share) workers.items }
            ensures { IfOk result (λ results. AreEnds
                (λ worker. HasWorked job.entry.now.tickets.now job.entry.now.plan worker.seat worker.share)
                (MayEverBeFull N.may_be_full) (vec_len workers) job.entry.now.plan.stripes results.items) }
        {
            let started = start_all(scope, rt, alloc, job, workers)?;
            let results = join_all(rt, started)?;
            Ok(results)
        },
    )?;
    let ended = collect_workers(alloc, results)?;
    Ok(ended)
}

// Starts a thread for each worker, until one is refused.
fn start_all<
    's,
    E,
    H: Threads + Wait + Sync,
    C: Counts + Send,
    N: Terms + Send + Sync,
    G: Gate + Sync,
>(
    scope: &Scope<'s, E>,
    rt: &'s H,
    alloc: Global,
    job: &'s Job<'s, C, N, G>,
    mut workers: Vec<Worker<N>>,
) -> Result<Started<N>, AllocError>
    requires job { let Job = IsJob N.may_be_booked job.now.tickets.now job.now.plan in
        Job job.now.batches.now job.now.stripes.now.setup }
    requires few { vec_len workers ≤ 64 }
    requires ready { All (λ worker. IsReady job.now.tickets.now job.now.plan worker.seat worker.share) workers.items }
    ensures all { IfOk result (λ started. started.refused ≡ None → vec_len started.threads ≡ vec_len workers) }
    ensures refused { IfOk result (λ started. IfSome started.refused (λ number. number ≡ vec_len started.threads)) }
    ensures below { IfOk result (λ started. IfSome started.refused (λ number. number < vec_len workers)) }
    ensures promised { IfOk result (λ started. All (λ thread.
        IsPromised job.now.tickets.now job.now.plan thread.promise.tickets.value thread.promise.plan)
        started.threads.items) }
{
    let mut threads = Vec::with_capacity(alloc, workers.len())?;
    while let Some(worker) = workers.pop() {
        let number = threads.len() as u32;
        let working = Working {
            tickets: Snapshot::of(job.tickets),
            plan: job.plan,
        };
        let work = move || -> Result<Worker<N>, RunFault>
            requires { let Job = IsJob N.may_be_booked job.now.tickets.now job.now.plan in
                Job job.now.batches.now job.now.stripes.now.setup
                × IsReady job.now.tickets.now job.now.plan worker.seat worker.share }
            ensures { IfOk result (λ ended.
                HasWorked job.entry.now.tickets.now job.entry.now.plan ended.seat ended.share)
                × IfErr result (IsWorkerFault (MayEverBeFull N.may_be_full) job.entry.now.plan.stripes) }
        { worker.work(rt, alloc, job, number) };
        match scope.spawn_with(working, work) {
            Ok(thread) => threads.push(thread)?,
            Err(_) => {
                return Ok(Started {
                    threads,
                    refused: Some(number),
                });
            }
        }
    }
    Ok(Started {
        threads,
        refused: None,
    })
}

// Waits for the threads. Their results are in the order of the workers, followed by the fault of a worker that could
// not be started.
fn join_all<R: Threads, N: Terms>(rt: &R, started: Started<N>) -> Result<Vec<Ended<N>>, AllocError>
    ensures kept { IfOk result (λ results. (tickets : TicketsSeen) (plan : Plan)
        → All (λ thread. IsPromised tickets plan thread.promise.tickets.value thread.promise.plan) started.threads.items
        → All (λ ended. IfOk ended (λ worker. HasWorked tickets plan worker.seat worker.share)) results.items) }
    ensures faults { IfOk result (λ results. (tickets : TicketsSeen) (plan : Plan) (workers : ℕ)
        → All (λ thread. IsPromised tickets plan thread.promise.tickets.value thread.promise.plan) started.threads.items
        → IfSome started.refused (λ number. number < workers)
        → All (λ ended. IfErr ended (IsRunFault (MayEverBeFull N.may_be_full) workers plan.stripes))
        results.items) }
    ensures all { IfOk result (λ results. started.refused ≡ None → vec_len results ≡ vec_len started.threads) }
    ensures refused { IfOk result (λ results. (number : ℕ) → started.refused ≡ Some number
        → slice_get results.items (vec_len started.threads) ≡ Some (Err (NoThread number))) }
{
    let Started { threads, refused } = started;
    let mut results = thread::join_promised(rt, threads)?;
    if let Some(number) = refused {
        results.push(Err(RunFault::NoThread(number)))?;
    }
    Ok(results)
}

// The fault of the first worker in their order that has one, None if all succeeded. Takes no memory.
fn first_fault<N: Books>(results: &[Ended<N>]) -> Option<RunFault>
    ensures { MatchOption result (AllEndedWell results.now) (IsFirstFault results.now) }
{
    for ended in results {
        match ended {
            Ok(_) => {}
            Err(fault) => return Some(*fault),
        }
    }
    None
}

// The workers, if all succeeded, otherwise the fault of the first one in their order that has one. Memory is refused
// only if all succeeded.
fn collect_workers<N: Books>(
    alloc: Global,
    results: Vec<Ended<N>>,
) -> Result<Vec<Worker<N>>, RunFault>
    ensures well { IfOk result (λ workers. map (λ worker. Ok worker) workers.items ≡ results.items) }
    ensures first { IfErr result (λ fault.
        IsFirstFault results.items fault ⊎ ((fault ≡ Memory) × AllEndedWell results.items)) }
{
    if let Some(fault) = first_fault(&results) {
        return Err(fault);
    }
    let mut workers = Vec::with_capacity(alloc, results.len())?;
    for ended in results {
        let Ok(worker) = ended else { unreachable!() };
        let Ok(()) = workers.push(worker) else {
            return Err(RunFault::Memory);
        };
    }
    Ok(workers)
}

/// The seats of the workers, and their shares joined.
pub(crate) fn join_shares<C: Counts, N: Terms>(
    alloc: Global,
    stripes: &Stripes<C, N>,
    mut workers: Vec<Worker<N>>,
) -> Result<(Vec<Seat>, Share<N>), AllocError>
    requires some { 1 ≤ vec_len workers }
    ensures len { IfOk result (λ both. vec_len both.0 ≡ vec_len workers) }
    ensures whole { IfOk result (λ both. (tickets : TicketsSeen) (plan : Plan)
        → All (λ worker. HasWorked tickets plan worker.seat worker.share) workers.items
        → HaveWorked tickets plan both.0.items both.1) }
{
    let mut seats = Vec::with_capacity(alloc, workers.len())?;
    let Some(Worker { seat, mut share }) = workers.pop() else {
        unreachable!()
    };
    seats.push(seat)?;
    while let Some(Worker { seat, share: other }) = workers.pop() {
        seats.push(seat)?;
        stripes.join(&mut share, other);
    }
    Ok((seats, share))
}
