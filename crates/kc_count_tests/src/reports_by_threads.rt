//! Dumps and tables with text made by several threads.

use crate::count_assertions::{assert_items, assert_same};
use kc_io::{FromBytes, ToVec, ToWrite};
use kc_report::{
    Dump, MAX_COUNT, ReportFault, read_table, write_dump, write_dump_in_parallel,
    write_table_in_parallel,
};
use kc_tally::Tally;
use std::alloc::{AllocError, Global};
use std::io;
use std::io::Write;
use std::process::Abort;
use std::test::Fail;
use std::thread::Threads;

// How many words have a row, the first ones of ten bases: two parts of a tally, and nine pieces of a report.
const ROWS: u64 = 66_000;

// Numbers of threads.
const THREADS: &[u32] = &[1, 2, 3, 7];

// The count of a word. It is 1 in each third piece of the text, and large if it is stored apart from its row.
fn count_of(word: u64) -> u64 {
    if word % 10_007 == 0 {
        (1 << 50) | word
    } else if (word >> 13) % 3 == 1 {
        1
    } else {
        word % 150 + 2
    }
}

// Appends the row of a word to the text.
fn push_row(alloc: Global, text: &mut Vec<u8>, word: u64) -> Result<(), AllocError> {
    for i in 0..10u64 {
        text.push(b"ACGT"[(word >> (18 - 2 * i)) as usize & 3])?;
    }
    text.extend_from_slice(format!(in alloc; " {}\n", count_of(word))?.as_bytes())
}

// The table text of the words, made row by row.
fn table_text(alloc: Global) -> Result<Vec<u8>, AllocError> {
    let mut text = Vec::new(alloc);
    text.extend_from_slice(b"KCT 1 10 s\n")?;
    let mut total = 0u64;
    for word in 0..ROWS {
        push_row(alloc, &mut text, word)?;
        total = total.wrapping_add(count_of(word));
    }
    text.extend_from_slice(format!(in alloc; "END {ROWS} {total}\n")?.as_bytes())?;
    Ok(text)
}

// The tally of a table's text, which has at most 10 million bytes.
fn tally_of(alloc: Global, text: &[u8]) -> Result<Tally, ReportFault> {
    let (tally, _) = read_table(alloc, &mut FromBytes::new(text), 10_000_000)?;
    Ok(tally)
}

#[test]
fn a_table_is_the_text_that_it_was_read_from(rt: HostRuntime) -> Result<(), Fail> {
    let text = table_text(rt.alloc())?;
    let tally = tally_of(rt.alloc(), &text)?;
    for threads in THREADS {
        let mut sink = ToVec::new(Vec::new(rt.alloc()));
        write_table_in_parallel(&rt, rt.alloc(), *threads, &mut sink, &tally, None)?;
        assert_items(&rt, *threads, sink.as_slice(), &text);
    }
    Ok(())
}

// Asserts that the dump by this many threads is that by one.
fn assert_dump<H: Abort + AllocGlobal + Threads + Sync>(
    rt: &H,
    tally: &Tally,
    dump: &Dump,
) -> Result<(), ReportFault> {
    let mut one = ToVec::new(Vec::new(rt.alloc()));
    write_dump(&mut one, tally, dump)?;
    for threads in THREADS {
        let mut sink = ToVec::new(Vec::new(rt.alloc()));
        write_dump_in_parallel(rt, rt.alloc(), *threads, &mut sink, tally, dump)?;
        assert_items(rt, *threads, sink.as_slice(), one.as_slice());
    }
    Ok(())
}

#[test]
fn dumps_are_those_of_one_thread(rt: HostRuntime) -> Result<(), Fail> {
    let tally = tally_of(rt.alloc(), &table_text(rt.alloc())?)?;
    let (lines, columns) = (Dump::in_lines(), Dump::in_columns());
    let tabs = Dump {
        tab: true,
        ..columns
    };
    assert_dump(&rt, &tally, &lines)?;
    assert_dump(&rt, &tally, &columns.with_bounds(2, 100))?;
    assert_dump(&rt, &tally, &tabs.with_bounds(1 << 50, MAX_COUNT))?;
    Ok(())
}

// A writer that takes what it has room for, and fails if it has none. It knows how many bytes each call handed over.
#[derive(Drop)]
struct Full {
    bytes: Vec<u8>,
    room: usize,
    calls: Vec<usize>,
    flushes: bool,
}

impl Write for Full {
    fn write(&mut self, buf: &[u8]) -> io::Result<usize> {
        let count = buf.len().min(self.room.saturating_sub(self.bytes.len()));
        let noted = self.calls.push(buf.len());
        if count == 0 || noted.is_err() {
            return Err(io::Error::from(io::ErrorKind::Other));
        }
        match self.bytes.extend_from_slice(&buf[..count]) {
            Ok(()) => Ok(count),
            Err(_) => Err(io::Error::from(io::ErrorKind::Other)),
        }
    }

    fn flush(&mut self) -> io::Result<()> {
        if self.flushes {
            Ok(())
        } else {
            Err(io::Error::from(io::ErrorKind::Other))
        }
    }
}

// The result of writing the table by this many threads, and its writer with this room.
fn write_by_threads<H: AllocGlobal + Threads + Sync>(
    rt: &H,
    threads: u32,
    tally: &Tally,
    room: usize,
    flushes: bool,
) -> (Result<(), ReportFault>, Full) {
    let alloc = rt.alloc();
    let mut sink = ToWrite::new(Full {
        bytes: Vec::new(alloc),
        room,
        calls: Vec::new(alloc),
        flushes,
    });
    let outcome = write_table_in_parallel(rt, alloc, threads, &mut sink, tally, None);
    (outcome, sink.into_inner())
}

// Asserts that a writer without room for all has a beginning of the text, by any number of threads.
#[test]
fn a_writer_that_is_full_has_a_beginning(rt: HostRuntime) -> Result<(), Fail> {
    let text = table_text(rt.alloc())?;
    let tally = tally_of(rt.alloc(), &text)?;
    for threads in THREADS {
        for room in [0usize, 400_000] {
            let room = room.min(text.len());
            let (outcome, full) = write_by_threads(&rt, *threads, &tally, room, true);
            assert_same(&rt, room, &outcome, &Err(ReportFault::Write));
            assert_items(&rt, room, full.bytes.as_slice(), &text[..room]);
        }
    }
    Ok(())
}

// Asserts that a flush that fails is reported, and that any number of threads from two on makes the same calls.
#[test]
fn a_flush_is_heard_and_calls_are_the_same(rt: HostRuntime) -> Result<(), Fail> {
    let text = table_text(rt.alloc())?;
    let tally = tally_of(rt.alloc(), &text)?;
    let (first, two) = write_by_threads(&rt, 2, &tally, text.len(), true);
    first?;
    for threads in THREADS {
        let (outcome, full) = write_by_threads(&rt, *threads, &tally, text.len(), false);
        assert_same(&rt, *threads, &outcome, &Err(ReportFault::Write));
        assert_items(&rt, *threads, full.bytes.as_slice(), &text);
        if *threads >= 2 {
            assert_items(&rt, *threads, full.calls.as_slice(), two.calls.as_slice());
        }
    }
    Ok(())
}
