//! Worked rows of tables and of gathering.
ghost use Rattle.std.specs.Prelude.{◌≡◌, ◌≤◌, ◌^◌, IfOk, length};
ghost use Rattle.kc_booking.specs.Setup.{stripe_count};
ghost use Rattle.kc_word.specs.Shared.{values};
ghost use Rattle.kc_booking.specs.Stripe.{position_sum};

use crate::sample_batches::{book_batch, made_setup, plain_stripes, read_of};
use crate::stripe_assertions::assert_same;
use kc_gather::{GatherFault, Summary, gather, quotient_tables};
use kc_stripe::{Setup, Stripe};
use kc_table::{Counts, PlainCounts, QuotientTable};
use kc_tally::{Row, Tally};
use kc_word::{Batch, clean, cut, cutting_laws};
use std::alloc::Global;
use std::process::Abort;
use std::sync::Arc;
use std::test::Fail;
use std::thread::Threads;

// Lengths of words, numbers of stripes, sizes, and the logs with which the tables begin.
const LOGS: &[(u32, u32, u64, u32)] = &[
    (31, 16, 1_000_000, 16),
    (31, 16, 1, 4),
    (31, 16, 1 << 20, 16),
    (31, 16, (1 << 20) + 1, 17),
    (3, 4, 0, 4),
    (3, 4, u64::MAX, 4),
];

// There are so many tables, for keys of so many bits, each with this log.
fn assert_logs(rt: &impl Abort, tables: &[QuotientTable], count: u32, bits: u32, log: u32) {
    assert_same(rt, "tables", &tables.len(), &(count as usize));
    for table in tables {
        assert_same(rt, "bits", &table.key_bits(), &bits);
        assert_same(rt, "a log", &table.log(), &log);
    }
}

#[test]
fn quotient_tables_begin_with_the_size(rt: HostRuntime) -> Result<(), Fail> {
    for (k, stripes, size, log) in LOGS {
        let setup = made_setup(*k, *stripes)?;
        let tables = quotient_tables(rt.alloc(), &setup, *size)?;
        assert_logs(&rt, &tables, *stripes, setup.key_bits(), *log);
    }
    Ok(())
}

// The batches of one read, with so many positions each.
pub(crate) fn batches_of(
    alloc: Global,
    setup: &Setup,
    bases: &[u8],
    size: u64,
) -> Result<Vec<Arc<Batch>>, Fail>
    ensures { IfOk result (λ batches. position_sum setup.now.rule.k (values batches.items) ≤ 2 ^ 62) }
{
    // for the proof: facts about the positions
    cutting_laws::cutting_positions();
    cutting_laws::positions_within_bytes();
    cutting_laws::cleaned_length();
    if bases.len() > 1_000 {
        return Err(Fail::from("too many bases"));
    }
    let read = read_of(alloc, bases)?;
    let mut pieces = Vec::new(alloc);
    pieces.push(clean(alloc, &read, setup.rule())?)?;
    Ok(cut(alloc, pieces, setup.rule().k(), size.max(1))?)
}

// All stripes of the setup, in which the batches were booked.
pub(crate) fn stripes_of(
    alloc: Global,
    setup: &Setup,
    batches: &[Arc<Batch>],
) -> Result<Vec<Stripe<PlainCounts>>, Fail> {
    let mut stripes = plain_stripes(alloc, setup)?;
    for batch in batches {
        book_batch(alloc, setup, &mut stripes, batch)?;
    }
    Ok(stripes)
}

// The result of gathering these stripes, if the batches of the read are given: by so many threads, or by `gather` if
// that is 0.
fn gather_tally<H: Threads + Sync>(
    rt: &H,
    threads: u32,
    alloc: Global,
    setup: &Setup,
    stripes: Vec<Stripe<PlainCounts>>,
    bases: &[u8],
    size: u64,
) -> Result<Result<Tally, GatherFault>, Fail> {
    let batches = batches_of(alloc, setup, bases, size)?;
    if stripes.len() != setup.stripes() as usize {
        return Err(Fail::from("other stripes"));
    }
    Ok(gather_by(rt, threads, alloc, setup, stripes, &batches))
}

// The result of gathering these stripes by so many threads, or by `gather` if that is 0.
pub(crate) fn gather_by<H: Threads + Sync>(
    rt: &H,
    threads: u32,
    alloc: Global,
    setup: &Setup,
    stripes: Vec<Stripe<PlainCounts>>,
    batches: &[Arc<Batch>],
) -> Result<Tally, GatherFault>
    requires one_each { length stripes.items ≡ stripe_count setup.now }
    requires few { position_sum setup.now.rule.k (values batches.now) ≤ 2 ^ 62 }
{
    if threads == 0 {
        return gather(alloc, stripes, batches, setup);
    }
    Tally::gather(rt, alloc, threads, stripes, batches, setup)
}

// The tally has these rows and no others.
fn assert_rows(rt: &impl Abort, tally: &Tally, want: &[(u64, u64)]) {
    assert_same(rt, "rows", &(tally.row_count() as usize), &want.len());
    let mut rows = tally.rows();
    for (word, count) in want {
        let row = Row {
            word: *word,
            count: *count,
        };
        assert_same(rt, "a row", &rows.next(), &Some(row));
    }
}

// The bases whose batches are given if those of AAAA were booked, the fault, and how many threads there are.
const REFUSALS: &[(&[u8], GatherFault, u32)] = &[
    (b"AAAAC", GatherFault::Missing(0, 1), 0),
    (b"CCCCC", GatherFault::Foreign(0), 0),
    (b"AAAAC", GatherFault::Missing(0, 1), 2),
    (b"CCCCC", GatherFault::Foreign(0), 2),
];

#[test]
fn a_stripe_that_lacks_a_batch_or_has_another(rt: HostRuntime) -> Result<(), Fail> {
    let setup = made_setup(3, 1)?;
    let booked = batches_of(rt.alloc(), &setup, b"AAAA", 2)?;
    for (bases, fault, threads) in REFUSALS {
        let stripes = stripes_of(rt.alloc(), &setup, &booked)?;
        match gather_tally(&rt, *threads, rt.alloc(), &setup, stripes, *bases, 2)? {
            Ok(_) => return Err(Fail::from("a tally")),
            Err(found) => assert_same(&rt, "a fault", &found, fault),
        }
    }
    Ok(())
}

// Numbers of stripes, positions of a batch, and numbers of threads.
const COUNTS: &[(u32, u64, u32)] = &[(1, 1, 0), (4, 2, 1), (4, 7, 0), (64, 1, 3)];

#[test]
fn the_tally_of_all_stripes(rt: HostRuntime) -> Result<(), Fail> {
    let rows = &[(6, 2), (27, 1), (44, 1)];
    for (count, size, threads) in COUNTS {
        let setup = made_setup(3, *count)?;
        assert_tally(&rt, *threads, rt.alloc(), &setup, b"ACGTANACG", *size, rows)?;
    }
    Ok(())
}

// The tally of these bases has these rows; their batches were booked and are given. If memory is refused, that is the
// fault.
fn assert_tally<H: Threads + Sync + Abort>(
    rt: &H,
    threads: u32,
    alloc: Global,
    setup: &Setup,
    bases: &[u8],
    size: u64,
    rows: &[(u64, u64)],
) -> Result<(), Fail> {
    let batches = batches_of(alloc, setup, bases, size)?;
    let stripes = stripes_of(alloc, setup, &batches)?;
    match gather_tally(rt, threads, alloc, setup, stripes, bases, size)? {
        Ok(tally) => assert_rows(rt, &tally, rows),
        Err(fault) => {
            assert_same(rt, "a fault", &fault, &GatherFault::Memory);
            return Err(Fail::from("answered 34"));
        }
    }
    Ok(())
}

// Run with each growth refused in turn, by `make memory`.
#[test]
fn a_refused_growth_gives_no_tally(rt: HostRuntime) -> Result<(), Fail> {
    let setup = made_setup(3, 2)?;
    let rows = &[(0, 1), (1, 2), (4, 1), (16, 1)];
    assert_tally(&rt, 0, rt.alloc(), &setup, b"AAACAAC", 2, rows)?;
    assert_tally(&rt, 2, rt.alloc(), &setup, b"AAACAAC", 2, rows)
}
