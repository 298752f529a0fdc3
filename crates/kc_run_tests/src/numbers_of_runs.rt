//! Numbers of whole runs, for which no row is taken.
use crate::run_assertions::assert_same;
use crate::whole_runs::{batches_of, made_setup};
use kc_run::{NoGate, Numbers, Statistics, plain_tables, run};
use std::alloc::Global;
use std::sync::Wait;
use std::test::Fail;
use std::thread::Threads;

// Numbers of stripes and of workers.
const RUNS: &[(u32, u32)] = &[(1, 1), (4, 2), (64, 3)];

// The numbers of the words of three bases of ACGTANACG.
fn numbers_by<H: Threads + Wait + Sync>(
    rt: &H,
    alloc: Global,
    stripes: u32,
    workers: u32,
) -> Result<Numbers, Fail> {
    if workers < 1 || workers > 64 {
        return Err(Fail::from("no such workers"));
    }
    let setup = made_setup(3, stripes)?;
    let batches = batches_of(alloc, &setup, b"ACGTANACG", 2)?;
    let tables = plain_tables(alloc, &setup)?;
    Ok(run(rt, alloc, &batches, &setup, tables, workers, &NoGate)?)
}

// CGT and GTA occur once, ACG twice.
const WANT: Statistics = Statistics {
    unique: 2,
    distinct: 3,
    total: 4,
    greatest: 2,
};

#[test]
fn the_numbers_are_one_for_all_workers_and_stripes(rt: HostRuntime) -> Result<(), Fail> {
    for (stripes, workers) in RUNS {
        let numbers = numbers_by(&rt, rt.alloc(), *stripes, *workers)?;
        assert_same(&rt, "words once", &numbers.histogram.bin(1), &2);
        assert_same(&rt, "words twice", &numbers.histogram.bin(2), &1);
        assert_same(&rt, "no word", &numbers.histogram.bin(3), &0);
        assert_same(&rt, "statistics", &numbers.statistics, &WANT);
    }
    Ok(())
}
