//! The words of two tables, visited one after another: their numbers, their spectrum, and the texts of both.
use crate::count_assertions::{assert_items, assert_same};
use kc_combine::{Comparing, CopySpectrum, VisitsWords, write_comparison, write_spectrum};
use kc_io::ToVec;
use std::process::Abort;
use std::test::Fail;

// The counts of ACG, CGA, CGT, GAA and GTA in the reads ACGTA, ACG and ACG, and in the assembly ACGAA.
const COUNTS: &[[u64; 2]] = &[[3, 1], [0, 1], [1, 0], [0, 1], [1, 0]];

const NUMBERS: &[u8] =
    b"Reads_distinct:         3\nAssembly_distinct:      3\nShared_distinct:        1\n\
    Assembly_total:         3\nAssembly_only_distinct: 2\nAssembly_only_total:    2\n\
    Solid_distinct:         1\nSolid_shared:           1\n";

fn visit_all<V: VisitsWords>(visitor: &mut V, words: &[[u64; 2]]) {
    for counts in words {
        visitor.visit(counts);
    }
}

#[test]
fn numbers_of_two_tables(rt: HostRuntime) {
    let mut comparing = Comparing::new(2);
    visit_all(&mut comparing, COUNTS);
    let mut sink = ToVec::new(Vec::new(rt.alloc()));
    let outcome = write_comparison(&mut sink, comparing.comparison());
    assert_same(&rt, "outcome", &outcome, &Ok(()));
    assert_items(&rt, "numbers", sink.as_slice(), NUMBERS);
}

// Asserts that the spectrum of words with these counts is this text.
fn assert_spectrum<H: Abort + AllocGlobal>(
    rt: &H,
    words: &[[u64; 2]],
    high: u64,
    want: &[u8],
) -> Result<(), Fail> {
    assert!(rt; high <= 10_000_000);
    let mut spectrum = CopySpectrum::new(rt.alloc(), high)?;
    visit_all(&mut spectrum, words);
    let mut sink = ToVec::new(Vec::new(rt.alloc()));
    let outcome = write_spectrum(&mut sink, &spectrum);
    assert_same(rt, high, &outcome, &Ok(()));
    assert_items(rt, high, sink.as_slice(), want);
    Ok(())
}

#[test]
fn spectra_of_two_tables(rt: HostRuntime) -> Result<(), Fail> {
    assert_spectrum(&rt, COUNTS, 10_000, b"0\t1\t2\n1\t0\t2\n1\t3\t1\n")?;
    assert_spectrum(&rt, COUNTS, 1, b"0\t1\t2\n1\t0\t2\n1\t2\t1\n")?;
    assert_spectrum(&rt, &[], 1, b"")
}

#[test]
fn more_than_4_copies(rt: HostRuntime) -> Result<(), Fail> {
    let words = &[[2, 4], [2, 5], [2, 6], [9, 9]];
    assert_spectrum(&rt, words, 7, b"4\t2\t1\n5\t2\t2\n5\t8\t1\n")
}
