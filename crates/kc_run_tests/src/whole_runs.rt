//! Runs with several workers, stripes and batches, and their results.
ghost use Rattle.std.specs.Prelude.{◌≡◌, ◌<◌, ◌≤◌, ◌^◌, All, IfOk, length};
ghost use Rattle.std.specs.FinMap.{empty};
ghost use Rattle.kc_word.specs.Shared.{values};
ghost use Rattle.kc_booking.specs.Setup.{stripe_count, key_bits};
ghost use Rattle.kc_booking.specs.Stripe.{position_sum};

use crate::run_assertions::assert_same;
use kc_fastx::SeqRead;
use kc_hash::{Hash, Matrix};
use kc_run::{Gate, NoGate, RunFault, Summary, Tally, plain_tables, run};
use kc_stripe::Setup;
use kc_table::{Counts, LimitedCounts, TableFault};
use kc_tally::Row;
use kc_word::{Batch, K, Rule, clean, cut, cutting_laws};
use std::alloc::{AllocError, Global};
use std::process::Abort;
use std::sync::atomic::{AtomicU64, Ordering};
use std::sync::{Arc, Wait};
use std::test::Fail;
use std::thread;
use std::thread::Threads;
use std::time::{Clock, Duration};

// Words of k bases on one strand, in so many stripes, with a hash that leaves them unchanged.
fn setup_of(k: u32, stripes: u32) -> Option<Setup> {
    let k = K::new(k)?;
    let hash = Hash::of_matrix(Matrix::identity(2 * k.get())).ok()?;
    Setup::new(Rule::new(k, false, b'!'), hash, stripes)
}

// The same setup. A test without it fails.
pub(crate) fn made_setup(k: u32, stripes: u32) -> Result<Setup, Fail> {
    match setup_of(k, stripes) {
        Some(setup) => Ok(setup),
        None => Err(Fail::from("no setup")),
    }
}

// The batches of one read, with so many positions each.
pub(crate) fn batches_of(
    alloc: Global,
    setup: &Setup,
    bases: &[u8],
    size: u64,
) -> Result<Vec<Arc<Batch>>, Fail>
    ensures few { IfOk result (λ batches. length batches.items ≤ 2 ^ 40) }
    ensures small { IfOk result (λ batches. position_sum setup.now.rule.k (values batches.items) ≤ 2 ^ 62) }
{
    // for the proof: facts about the positions
    cutting_laws::cutting_positions();
    cutting_laws::positions_within_bytes();
    cutting_laws::cleaned_length();
    if bases.len() > 10_000 {
        return Err(Fail::from("too many bases"));
    }
    let mut pieces = Vec::new(alloc);
    let read = SeqRead::new(Vec::from_slice(alloc, bases)?, None).ok_or("no read")?;
    pieces.push(clean(alloc, &read, setup.rule())?)?;
    let batches = cut(alloc, pieces, setup.rule().k(), size.max(1))?;
    if batches.len() > 10_000 {
        return Err(Fail::from("too many batches"));
    }
    Ok(batches)
}

// The batches of a read, with so many positions each, and the number of workers.
#[derive(Drop)]
pub(crate) struct Case<'a> {
    pub(crate) bases: &'a [u8],
    pub(crate) size: u64,
    pub(crate) workers: u32,
}

// What a run over these tables returns.
pub(crate) fn run_over<
    S: Summary,
    H: Threads + Wait + Sync,
    C: Counts + Drop + Send + Sync,
    G: Gate + Sync,
>(
    rt: &H,
    alloc: Global,
    setup: &Setup,
    tables: Vec<C>,
    case: &Case<'_>,
    gate: &G,
) -> Result<Result<S, RunFault>, Fail>
    requires one_each { length tables.items ≡ stripe_count setup.now }
    requires tables { All (λ table. (C.counts table ≡ empty) × (C.bits table ≡ key_bits setup.now)) tables.items }
{
    if case.workers < 1 || case.workers > 64 {
        return Err(Fail::from("no such workers"));
    }
    let batches = batches_of(alloc, setup, case.bases, case.size)?;
    Ok(run(rt, alloc, &batches, setup, tables, case.workers, gate))
}

// What a run over tables that are never full returns.
fn run_plainly<H: Threads + Wait + Sync + AllocGlobal, G: Gate + Sync>(
    rt: &H,
    setup: &Setup,
    case: &Case<'_>,
    gate: &G,
) -> Result<Result<Tally, RunFault>, Fail> {
    let tables = plain_tables(rt.alloc(), setup)?;
    run_over(rt, rt.alloc(), setup, tables, case, gate)
}

// The tally of a run over tables that are never full.
fn tally_of_run<H: Threads + Wait + Sync + AllocGlobal, G: Gate + Sync>(
    rt: &H,
    setup: &Setup,
    case: &Case<'_>,
    gate: &G,
) -> Result<Tally, Fail> {
    match run_plainly(rt, setup, case, gate)? {
        Ok(tally) => Ok(tally),
        Err(_) => Err(Fail::from("no tally")),
    }
}

// Asserts that a tally has these rows and no others.
fn assert_rows<H: Abort>(rt: &H, tally: &Tally, rows: &[Row]) {
    let mut left = tally.rows();
    for row in rows {
        assert_same(rt, "a row", &left.next(), &Some(*row));
    }
    assert_same(rt, "no row", &left.next(), &None);
}

// Asserts that a run over tables that are never full counts these rows and no others, with this total.
fn assert_counted<H: Threads + Wait + Abort + Sync + AllocGlobal, G: Gate + Sync>(
    rt: &H,
    setup: &Setup,
    case: &Case<'_>,
    gate: &G,
    rows: &[Row],
    total: u64,
) -> Result<(), Fail> {
    let tally = tally_of_run(rt, setup, case, gate)?;
    assert_rows(rt, &tally, rows);
    assert_same(rt, "in all", &tally.total(), &total);
    Ok(())
}

// The one word of ten bases A.
const EIGHT: &[Row] = &[Row { word: 0, count: 8 }];

// Ten bases A in batches of so many positions, with so many workers, and in a number of stripes that depends on both.
fn count_ten<H: Threads + Wait + Abort + Sync + AllocGlobal>(
    rt: &H,
    size: u32,
    workers: u32,
) -> Result<(), Fail>
    requires { (size ≤ 11) × (workers ≤ 8) }
{
    let setup = made_setup(3, 1 << ((size + workers) % 7))?;
    let case = Case {
        bases: b"AAAAAAAAAA",
        size: u64::from(size),
        workers,
    };
    assert_counted(rt, &setup, &case, &NoGate, EIGHT, 8)
}

#[test]
fn the_tally_is_one_for_all_workers_stripes_and_batches(rt: HostRuntime) -> Result<(), Fail> {
    for size in 1..=11u32 {
        for workers in 1..=8u32 {
            count_ten(&rt, size, workers)?;
        }
    }
    Ok(())
}

// Tables for this many keys, one for each stripe, which refuse the next one.
fn refusing_tables(
    alloc: Global,
    setup: &Setup,
    keys: u64,
    refusal: TableFault,
) -> Result<Vec<LimitedCounts>, AllocError>
    ensures one_each { IfOk result (λ tables. length tables.items ≡ stripe_count setup.now) }
    ensures tables { IfOk result (λ tables.
        All (λ table. (table.counts ≡ empty) × (table.bits ≡ key_bits setup.now)) tables.items) }
{
    let mut tables = Vec::new(alloc);
    for _ in 0..setup.stripes() {
        tables.push(LimitedCounts::new(alloc, setup.key_bits(), keys, refusal))?;
    }
    Ok(tables)
}

// Bases whose first key is refused, why, and what is returned: AAA is in stripe 0, and AAC in stripe 1.
const REFUSALS: &[(&[u8], TableFault, RunFault)] = &[
    (b"AAA", TableFault::Full, RunFault::Full(0)),
    (b"AAC", TableFault::Full, RunFault::Full(1)),
    (b"AAA", TableFault::Memory, RunFault::Memory),
    (b"AAC", TableFault::Memory, RunFault::Memory),
];

// The fault of a run over two stripes whose tables refuse the first key.
fn fault_of_run<H: Threads + Wait + Sync + AllocGlobal>(
    rt: &H,
    bases: &[u8],
    refusal: TableFault,
    workers: u32,
) -> Result<RunFault, Fail> {
    let setup = made_setup(3, 2)?;
    let case = Case {
        bases,
        size: 1,
        workers,
    };
    let tables = refusing_tables(rt.alloc(), &setup, 0, refusal)?;
    match run_over::<Tally, H, _, _>(rt, rt.alloc(), &setup, tables, &case, &NoGate)? {
        Ok(_) => Err(Fail::from("a tally")),
        Err(fault) => Ok(fault),
    }
}

#[test]
fn a_refused_key_ends_the_run(rt: HostRuntime) -> Result<(), Fail> {
    for (bases, refusal, want) in REFUSALS {
        for workers in 1..=2 {
            let fault = fault_of_run(&rt, *bases, *refusal, workers)?;
            assert_same(&rt, workers, &fault, want);
        }
    }
    Ok(())
}

// A gate that holds the worker that comes first until another worker has booked a batch.
#[derive(Drop)]
struct HoldsFirst<'a, R: Clock> {
    clock: &'a R,
    // 0, or one more than the number of the worker that came first
    first: AtomicU64,
    // how many batches were booked by other workers
    booked: AtomicU64,
    // 1 once the worker that came first went on since another worker had booked
    released: AtomicU64,
}

impl<'a, R: Clock> Gate for HoldsFirst<'a, R> {
    fn before_book(&self, worker: u32, _batch: u64) {
        let own = u64::from(worker) + 1;
        let order = Ordering::SeqCst;
        if self.first.compare_exchange(0, own, order, order).is_err() {
            return;
        }
        for _ in 0..1000 {
            if self.booked.load(order) > 0 {
                self.released.store(1, order);
                return;
            }
            thread::sleep(self.clock, Duration::from_millis(10));
        }
    }

    fn after_book(&self, worker: u32, _batch: u64) {
        if self.first.load(Ordering::SeqCst) != u64::from(worker) + 1 {
            self.booked.fetch_add(1, Ordering::SeqCst);
        }
    }
}

// The words ACG, CGT, GTA and TAC.
const FOUR: &[Row] = &[
    Row { word: 6, count: 1 },
    Row { word: 27, count: 1 },
    Row { word: 44, count: 1 },
    Row { word: 49, count: 1 },
];

// Their bases, a word a batch, for two workers.
const FOUR_BY_TWO: Case = Case {
    bases: b"ACGTAC",
    size: 1,
    workers: 2,
};

#[test]
fn two_workers_book_at_once(rt: HostRuntime) -> Result<(), Fail> {
    let setup = made_setup(3, 4)?;
    let gate = HoldsFirst {
        clock: &rt,
        first: AtomicU64::new(0),
        booked: AtomicU64::new(0),
        released: AtomicU64::new(0),
    };
    assert_counted(&rt, &setup, &FOUR_BY_TWO, &gate, FOUR, 4)?;
    assert_same(&rt, "released", &gate.released.load(Ordering::SeqCst), &1);
    Ok(())
}

// A gate that keeps how many batches each worker has begun and not ended, and the most that any had.
#[derive(Drop)]
struct Begun {
    now: Vec<AtomicU64>,
    most: AtomicU64,
}

impl Gate for Begun {
    fn before_book(&self, worker: u32, _batch: u64) {
        if let Some(now) = self.now.get(worker as usize) {
            let begun = now.fetch_add(1, Ordering::SeqCst).wrapping_add(1);
            self.most.fetch_max(begun, Ordering::SeqCst);
        }
    }

    fn after_book(&self, worker: u32, _batch: u64) {
        if let Some(now) = self.now.get(worker as usize) {
            now.fetch_sub(1, Ordering::SeqCst);
        }
    }
}

// Eighteen bases of sixteen words.
const SIXTEEN: &[u8] = b"AAAAAAAAAAAAAAAAAA";

// The most batches that one of so many workers books in a round, out of sixteen batches.
fn longest_round<H: Threads + Wait + Sync + AllocGlobal>(
    rt: &H,
    setup: &Setup,
    workers: u32,
) -> Result<u64, Fail> {
    let mut now = Vec::new(rt.alloc());
    for _ in 0..workers {
        now.push(AtomicU64::new(0))?;
    }
    let gate = Begun {
        now,
        most: AtomicU64::new(0),
    };
    let case = Case {
        bases: SIXTEEN,
        size: 1,
        workers,
    };
    tally_of_run(rt, setup, &case, &gate)?;
    Ok(gate.most.load(Ordering::SeqCst))
}

// Numbers of workers, and how many of sixteen batches make a round of theirs.
const ROUNDS: &[(u32, u64)] = &[(1, 4), (2, 2), (3, 1), (64, 1)];

// A worker calls the gate for all batches of a round before it books them. One of two workers always has a whole round,
// since there are more batches than each could have begun one of.
#[test]
fn a_round_leaves_each_worker_four(rt: HostRuntime) -> Result<(), Fail> {
    let setup = made_setup(3, 1)?;
    let batches = batches_of(rt.alloc(), &setup, SIXTEEN, 1)?;
    assert_same(&rt, "batches", &batches.len(), &16);
    for (workers, want) in ROUNDS {
        let longest = longest_round(&rt, &setup, *workers)?;
        assert_same(&rt, *workers, &longest, want);
    }
    Ok(())
}

// Run with each growth refused in turn, by `make memory`: no other fault is returned, and no other tally.
#[test]
fn a_refused_growth_gives_no_tally(rt: HostRuntime) -> Result<(), Fail> {
    let setup = made_setup(3, 4)?;
    match run_plainly(&rt, &setup, &FOUR_BY_TWO, &NoGate)? {
        Ok(tally) => {
            assert_rows(&rt, &tally, FOUR);
            Ok(())
        }
        Err(RunFault::Memory) => Err(Fail::from("answered 34")),
        Err(RunFault::NoThread(_)) => Err(Fail::from("answered 33")),
        Err(_) => Err(Fail::from("another fault")),
    }
}
