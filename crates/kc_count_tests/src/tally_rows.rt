//! Worked rows of tallies and histograms.
ghost use Rattle.std.specs.Prelude.{◌≡◌, ◌<◌, ◌≤◌, ◌^◌, All, IfOk};
ghost use Rattle.std.specs.List.{flat_map};

use crate::count_assertions::assert_same;
use kc_fastx::{SeqRead, parse};
use kc_kmer::slow_count::base_count;
use kc_kmer::{K, Rule};
use kc_tally::{Histogram, PackedRows, Row, Tally, slow_tally, tally_laws};
use std::alloc::{AllocError, Global};
use std::process::Abort;
use std::test::Fail;

// Rows with these counts, all of word 0.
fn rows_of(alloc: Global, counts: &[u64]) -> Result<Vec<Row>, AllocError> {
    let mut rows = Vec::new(alloc);
    for count in counts {
        let count = *count;
        rows.push(Row { word: 0, count })?;
    }
    Ok(rows)
}

// Asserts that these bins of the histogram have these sizes.
fn assert_bins<H: Abort>(rt: &H, histogram: &Histogram, bins: &[(u64, u64)]) {
    for (bin, size) in bins {
        assert!(rt; 1 <= *bin && *bin <= 10_001);
        assert_same(rt, *bin, &histogram.bin(*bin), size);
    }
}

// Raises one word's count. The histogram has the word, and few in the bin that it comes to.
fn raise<H: Abort>(rt: &H, histogram: &mut Histogram, count: u64) {
    assert!(rt; count < 70_000);
    let left = count.min(10_001);
    assert!(rt; left == 0 || histogram.bin(left) > 0);
    assert!(rt; histogram.bin((count + 1).min(10_001)) < 100);
    histogram.raise(count);
}

#[test]
fn raised_counts(rt: HostRuntime) -> Result<(), AllocError> {
    let rows = rows_of(rt.alloc(), &[1, 10_000, 10_001, 70_000, 0])?;
    let mut histogram = Histogram::of_rows(rt.alloc(), &rows)?;
    // a new word, a second occurrence, and two steps into and within the last bin
    raise(&rt, &mut histogram, 0);
    raise(&rt, &mut histogram, 1);
    raise(&rt, &mut histogram, 10_000);
    raise(&rt, &mut histogram, 10_001);
    let bins = &[(1, 1), (2, 1), (3, 0), (10_000, 0), (10_001, 3)];
    assert_bins(&rt, &histogram, bins);
    Ok(())
}

// The tally of the reads on both strands, counted slowly.
fn tally_of(alloc: Global, reads: &[SeqRead], k: K) -> Result<Tally, Fail> {
    let Some(bases) = base_count(reads) else {
        return Err(Fail::from("too many bases"));
    };
    if bases > 1_000_000 {
        return Err(Fail::from("too many bases"));
    }
    let _bases = k.get();
    let rows = slow_tally::tally(alloc, reads, &Rule::new(k, true, b'!'))?;
    // the rows of a tally may be a `Tally`'s
    tally_laws::rows_of_tally();
    let tally = Tally::of_rows(alloc, k, true, rows)?;
    Ok(tally)
}

// The length of a word.
pub(crate) fn k_of(k: u32) -> Result<K, Fail>
    ensures { IfOk result (λ made. made ≡ k) }
{
    match K::new(k) {
        Some(k) => Ok(k),
        None => Err(Fail::from("no length of a word")),
    }
}

// The tally of the reads of these bytes.
fn tally_in(alloc: Global, bytes: &[u8], k: K) -> Result<Tally, Fail> {
    match parse(alloc, bytes) {
        Ok(reads) => tally_of(alloc, &reads, k),
        Err(_) => Err(Fail::from("no reads")),
    }
}

// Asserts that these bins of the tally have these sizes.
fn assert_tally_bins<H: Abort>(rt: &H, tally: &Tally, bins: &[(u64, u64)]) {
    for (bin, size) in bins {
        assert!(rt; 1 <= *bin && *bin <= 10_001);
        assert_same(rt, *bin, &tally.bin(*bin), size);
    }
}

// A occurs three times in ACGTA and its other strand together, and C twice.
#[test]
fn a_tally_of_reads(rt: HostRuntime) -> Result<(), Fail> {
    let tally = tally_in(rt.alloc(), b">r\nACGTA\n", k_of(1)?)?;
    assert_same(&rt, "A", &tally.count_of(0), &3);
    assert_same(&rt, "C", &tally.count_of(1), &2);
    assert_same(&rt, "k", &tally.k().get(), &1);
    assert_same(&rt, "both", &tally.both(), &true);
    assert_same(&rt, "total", &tally.total(), &5);
    assert_tally_bins(&rt, &tally, &[(1, 0), (2, 1), (3, 1), (4, 0)]);
    Ok(())
}

// Asserts that the tally has these words with these counts, and no others.
fn assert_tally_rows<H: Abort>(rt: &H, tally: &Tally, want: &[(u64, u64)]) {
    assert_same(rt, "rows", &tally.row_count(), &(want.len() as u64));
    let mut rows = tally.rows();
    for (word, count) in want {
        let (word, count) = (*word, *count);
        assert_same(rt, word, &rows.next(), &Some(Row { word, count }));
    }
    assert_same(rt, "end", &rows.next(), &None);
    assert_same(rt, "end", &rows.next(), &None);
}

// Run with each allocation refused in turn: `rt try --test --fail-alloc N`.
#[test]
fn memory_or_the_tally(rt: HostRuntime) -> Result<(), Fail> {
    let tally = tally_in(rt.alloc(), b">r\nACGTA\n", k_of(2)?)?;
    assert_tally_rows(&rt, &tally, &[(1, 2), (6, 1), (12, 1)]);
    Ok(())
}

// The rows in parts that end at these places, and a last one. An end comes no earlier than the one before it.
fn divide_rows(alloc: Global, rows: &[Row], ends: &[usize]) -> Result<Vec<PackedRows>, AllocError>
    requires words { All (λ row. row.word < 2 ^ 62) rows.now }
    requires present { All (λ row. 1 ≤ row.count) rows.now }
    ensures { IfOk result (λ parts. flat_map (λ part. part) parts.items ≡ rows.now) }
{
    let mut parts = Vec::new(alloc);
    let mut at = 0;
    for end in ends {
        let end = at.max(*end).min(rows.len());
        parts.push(PackedRows::of_rows(alloc, &rows[at..end])?)?;
        at = end;
    }
    parts.push(PackedRows::of_rows(alloc, &rows[at..])?)?;
    Ok(parts)
}

// The tally of AC twice, CG once, GT 70,000 times and TT once, its rows in parts that end at these places.
fn parted_tally(alloc: Global, k: K, ends: &[usize]) -> Result<Tally, AllocError>
    requires { k ≡ 2 }
{
    let rows = [
        Row { word: 1, count: 2 },
        Row { word: 6, count: 1 },
        Row {
            word: 11,
            count: 70_000,
        },
        Row { word: 15, count: 1 },
    ];
    Tally::of_packed(alloc, k, false, divide_rows(alloc, &rows, ends)?)
}

// The same tally, with its length of words.
fn made_parted(alloc: Global, ends: &[usize]) -> Result<Tally, Fail> {
    Ok(parted_tally(alloc, k_of(2)?, ends)?)
}

// The rows of the parted tally.
const PARTED: &[(u64, u64)] = &[(1, 2), (6, 1), (11, 70_000), (15, 1)];

// Asserts that this is the parted tally.
pub(crate) fn assert_parted<H: Abort>(rt: &H, tally: &Tally) {
    assert_same(rt, "total", &tally.total(), &70_004);
    assert_tally_bins(rt, tally, &[(1, 2), (2, 1), (3, 0), (10_001, 1)]);
    assert_tally_rows(rt, tally, PARTED);
    for (word, count) in PARTED {
        assert_same(rt, *word, &tally.count_of(*word), count);
    }
    assert_same(rt, 5, &tally.count_of(5), &0);
}

// The rows of the parted tally, each counted twice.
const DOUBLED: &[(u64, u64)] = &[(1, 4), (6, 2), (11, 140_000), (15, 2)];

// The sum of tallies that the caller knows to match.
fn sum_of<H: Abort + AllocGlobal>(rt: &H, one: &Tally, other: &Tally) -> Result<Tally, AllocError> {
    assert!(rt; one.k().get() == other.k().get() && one.both() == other.both());
    assert!(rt; one.total() + other.total() <= 1 << 62);
    Tally::sum(rt.alloc(), one, other)
}

// Ends of parts.
const PARTINGS: &[&[usize]] = &[
    &[],
    &[0],
    &[4],
    &[1, 2, 3],
    &[0, 0, 2, 2, 2, 3],
    &[0, 1, 1, 4, 4],
    &[0, 0, 0, 4],
];

// A tally is the same in any parts, and with itself it has each row twice.
#[test]
fn tallies_of_parts(rt: HostRuntime) -> Result<(), Fail> {
    for ends in PARTINGS {
        let tally = made_parted(rt.alloc(), *ends)?;
        assert_parted(&rt, &tally);
        let sum = sum_of(&rt, &tally, &tally)?;
        assert_tally_rows(&rt, &sum, DOUBLED);
    }
    Ok(())
}
