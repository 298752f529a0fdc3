//! When workers call the gate for a batch, in which order they visit the stripes, and which calls the tables get.
ghost use Rattle.std.specs.Prelude.{◌≡◌, ◌<◌, All, IfOk, length};
ghost use Rattle.std.specs.FinMap.{empty};
ghost use Rattle.kc_booking.specs.Setup.{stripe_count, key_bits};

use crate::run_assertions::assert_same;
use crate::whole_runs::{Case, made_setup, run_over};
use kc_run::{Gate, Numbers, Summary, Tally};
use kc_stripe::Setup;
use kc_table::{Counts, PlainCounts, TableFault};
use std::alloc::{AllocError, Global};
use std::process::Abort;
use std::sync::atomic::{AtomicU64, Ordering};
use std::sync::{Mutex, Wait};
use std::test::Fail;
use std::thread;
use std::thread::Threads;
use std::time::{Clock, Duration};

// What the gate and the tables of a run hear.
#[derive(Clone, Copy, Debug, Drop, PartialEq)]
enum Event {
    // that a worker begins a batch
    Before(u32, u64),
    // that a table counts a key, by its stripe and the key
    Counted(u32, u64),
    // that a worker is done with a batch
    After(u32, u64),
    // that the table of a stripe gives its rows
    Rows(u32),
    // that it gives its greatest count
    Greatest(u32),
    // that anything else is asked of its keys
    Asked(u32),
}

impl Event {
    // The batch of the event, if it is about one: the keys of a batch are its number.
    fn batch(&self) -> Option<u64> {
        match self {
            Event::Before(_, batch) | Event::Counted(_, batch) | Event::After(_, batch) => {
                Some(*batch)
            }
            Event::Rows(_) | Event::Greatest(_) | Event::Asked(_) => None,
        }
    }
}

// All calls, in order. Each worker is held at its first batch until all have begun one, or for ten seconds.
#[derive(Drop)]
struct Log<'a, R: Wait + Clock> {
    rt: &'a R,
    events: Mutex<Vec<Event>>,
    // a bit for each worker that has begun a batch, and the bits of all
    begun: AtomicU64,
    all: u64,
}

impl<R: Wait + Clock> Log<'_, R> {
    // An event that finds no memory is left out, which every comparison notices.
    fn note(&self, event: Event) {
        if self.events.lock(self.rt).push(event).is_err() {
            return;
        }
    }
}

impl<R: Wait + Clock> Gate for Log<'_, R> {
    fn before_book(&self, worker: u32, batch: u64) {
        self.note(Event::Before(worker, batch));
        self.begun.fetch_or(1 << (worker % 64), Ordering::SeqCst);
        for _ in 0..1000 {
            if self.begun.load(Ordering::SeqCst) == self.all {
                return;
            }
            thread::sleep(self.rt, Duration::from_millis(10));
        }
    }

    fn after_book(&self, worker: u32, batch: u64) {
        self.note(Event::After(worker, batch));
    }
}

// A table that notes what is asked of it.
#[derive(Drop)]
struct NotingCounts<'a, R: Wait + Clock> {
    plain: PlainCounts,
    stripe: u32,
    log: &'a Log<'a, R>,
}

impl<R: Wait + Clock> Counts for NotingCounts<'_, R> {
    ghost bits = { λ t. t.plain.bits };

    ghost counts = { λ t. t.plain.counts };

    ghost may_be_full = { λ _ _ _. ⊥ };

    ghost slots = { λ _. 0 };

    ghost part = { λ _ _. 0 };

    fn key_bits(&self) -> u32 {
        self.plain.key_bits()
    }

    fn ready(&mut self, key: u64) -> Result<(), TableFault> {
        self.log.note(Event::Asked(self.stripe));
        self.plain.ready(key)
    }

    fn count(&mut self, key: u64) -> Result<u64, TableFault> {
        self.log.note(Event::Counted(self.stripe, key));
        self.plain.count(key)
    }

    fn uncount(&mut self, key: u64) {
        self.log.note(Event::Asked(self.stripe));
        self.plain.uncount(key);
    }

    fn slots(&self) -> u64 {
        self.plain.slots()
    }

    fn add(&mut self, key: u64) {
        self.log.note(Event::Asked(self.stripe));
        self.plain.add(key);
    }

    fn get(&self, key: u64) -> u64 {
        self.log.note(Event::Asked(self.stripe));
        self.plain.get(key)
    }

    fn part_of(&self, key: u64) -> u32 {
        self.plain.part_of(key)
    }

    fn rows(&self, alloc: Global) -> Result<Vec<(u64, u64)>, AllocError> {
        self.log.note(Event::Rows(self.stripe));
        self.plain.rows(alloc)
    }

    fn greatest(&self) -> u64 {
        self.log.note(Event::Greatest(self.stripe));
        self.plain.greatest()
    }
}

// A table for each stripe, empty.
fn noting_tables<'a, R: Wait + Clock>(
    alloc: Global,
    setup: &Setup,
    log: &'a Log<'a, R>,
) -> Result<Vec<NotingCounts<'a, R>>, AllocError>
    ensures one_each { IfOk result (λ tables. length tables.items ≡ stripe_count setup.now) }
    ensures tables { IfOk result (λ tables.
        All (λ table. (table.plain.counts ≡ empty) × (table.plain.bits ≡ key_bits setup.now)) tables.items) }
{
    let mut tables = Vec::new(alloc);
    for stripe in 0..setup.stripes() {
        tables.push(NotingCounts {
            plain: PlainCounts::new(alloc, setup.key_bits()),
            stripe,
            log,
        })?;
    }
    Ok(tables)
}

// The bases of sixteen batches: the words of a batch are its number in two bases and one more base, each of the four.
// The hash leaves words unchanged, so the last base is a word's stripe of four, and the first two are its key.
fn bases_of(alloc: Global) -> Result<Vec<u8>, AllocError> {
    let mut bases = Vec::new(alloc);
    for word in 0..64usize {
        bases.push(b"ACGT"[word / 16 % 4])?;
        bases.push(b"ACGT"[word / 4 % 4])?;
        bases.push(b"ACGT"[word % 4])?;
        bases.push(b'N')?;
    }
    Ok(bases)
}

// All calls if this many workers count sixteen batches into such a summary.
fn heard_events<S: Summary + Drop, H: Threads + Wait + Clock + Sync + AllocGlobal + Abort>(
    rt: &H,
    workers: u32,
) -> Result<Vec<Event>, Fail> {
    let setup = made_setup(3, 4)?;
    let log = Log {
        rt,
        events: Mutex::new(Vec::new(rt.alloc())),
        begun: AtomicU64::new(0),
        all: (1 << (workers % 64)) - 1,
    };
    count_sixteen::<S, H>(rt, &setup, workers, &log)?;
    assert_same(rt, "workers", &log.begun.load(Ordering::SeqCst), &log.all);
    Ok(log.events.into_inner())
}

// Counts sixteen batches with this many workers.
fn count_sixteen<S: Summary + Drop, H: Threads + Wait + Clock + Sync + AllocGlobal>(
    rt: &H,
    setup: &Setup,
    workers: u32,
    log: &Log<'_, H>,
) -> Result<(), Fail> {
    let bases = bases_of(rt.alloc())?;
    let case = Case {
        bases: &bases,
        size: 16,
        workers,
    };
    let tables = noting_tables(rt.alloc(), setup, log)?;
    match run_over::<S, H, _, _>(rt, rt.alloc(), setup, tables, &case, log)? {
        Ok(_) => Ok(()),
        Err(_) => Err(Fail::from("no summary")),
    }
}

// The calls for a batch, in order, or after all batches.
fn events_of(
    alloc: Global,
    events: &[Event],
    batch: Option<u64>,
) -> Result<Vec<Event>, AllocError> {
    let mut own = Vec::new(alloc);
    for event in events {
        if event.batch() == batch {
            own.push(*event)?;
        }
    }
    Ok(own)
}

// The calls that are expected for a batch that a worker books from this stripe of four on: the gate before the first
// booking and after the last one.
fn whole_batch(worker: u32, first: u32, batch: u64) -> [Event; 6]
    requires { first < 4 }
{
    [
        Event::Before(worker, batch),
        Event::Counted(first, batch),
        Event::Counted((first + 1) % 4, batch),
        Event::Counted((first + 2) % 4, batch),
        Event::Counted((first + 3) % 4, batch),
        Event::After(worker, batch),
    ]
}

// Numbers of workers, and how many stripes apart their rounds begin.
const APART: &[(u32, u32)] = &[(1, 4), (2, 2), (3, 1), (4, 1)];

// Asserts the calls for a batch. The first of them is that of the worker that begins it.
fn assert_whole<H: Abort + AllocGlobal>(
    rt: &H,
    events: &[Event],
    apart: u32,
    batch: u64,
) -> Result<(), Fail> {
    let own = events_of(rt.alloc(), events, Some(batch))?;
    let Some(Event::Before(worker, _)) = own.first() else {
        return Err(Fail::from("not begun"));
    };
    let first = worker.wrapping_mul(apart) % 4;
    let want = whole_batch(*worker, first, batch);
    assert_same(rt, batch, &own.as_slice(), &want.as_slice());
    Ok(())
}

#[test]
fn the_gate_is_called_around_all_bookings_of_a_batch(rt: HostRuntime) -> Result<(), Fail> {
    for (workers, apart) in APART {
        let events = heard_events::<Tally, _>(&rt, *workers)?;
        for batch in 0..16 {
            assert_whole(&rt, &events, *apart, batch)?;
        }
    }
    Ok(())
}

// What is asked of the tables beside the counting of keys, stripe by stripe, for a tally and for numbers.
const FOR_A_TALLY: &[Event] = &[
    Event::Rows(0),
    Event::Rows(1),
    Event::Rows(2),
    Event::Rows(3),
];

const FOR_NUMBERS: &[Event] = &[
    Event::Greatest(0),
    Event::Greatest(1),
    Event::Greatest(2),
    Event::Greatest(3),
];

// A key is counted by one call, and no row is taken for numbers.
#[test]
fn a_table_is_asked_for_rows_or_for_its_greatest_count(rt: HostRuntime) -> Result<(), Fail> {
    let events = events_of(rt.alloc(), &heard_events::<Tally, _>(&rt, 1)?, None)?;
    assert_same(&rt, "a tally", &events.as_slice(), &FOR_A_TALLY);
    let events = events_of(rt.alloc(), &heard_events::<Numbers, _>(&rt, 1)?, None)?;
    assert_same(&rt, "numbers", &events.as_slice(), &FOR_NUMBERS);
    Ok(())
}
