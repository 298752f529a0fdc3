//! Reports on a worked tally, and tables that are none.
ghost use Rattle.std.specs.Prelude.{◌≡◌};

use crate::count_assertions::{assert_items, assert_same};
use crate::merged_tables::text_of;
use kc_io::{FromBytes, ToVec};
use kc_kmer::K;
use kc_report::{
    Dump, MAX_HIGH, Origin, ReportFault, TableReading, query, read_numbers, read_table, read_words,
    write_dump, write_histo, write_stats, write_stats_of,
};
use kc_tally::{Row, Statistics, Tally};
use std::alloc::{AllocError, Global};
use std::process::Abort;
use std::test::Fail;

// The tally of AC twice, CG once and GT 70,000 times.
fn worked_tally(alloc: Global, k: K) -> Result<Tally, AllocError>
    requires { k ≡ 2 }
{
    let rows = [
        Row { word: 1, count: 2 },
        Row { word: 6, count: 1 },
        Row {
            word: 11,
            count: 70_000,
        },
    ];
    Tally::of_rows(alloc, k, false, Vec::from_slice(alloc, &rows)?)
}

// The same tally, with its length of words.
pub(crate) fn tally_of_three(alloc: Global) -> Result<Tally, Fail> {
    match K::new(2) {
        Some(k) => Ok(worked_tally(alloc, k)?),
        None => Err(Fail::from("no length of a word")),
    }
}

// Asserts that the tally's dump is this text.
fn assert_dump<H: Abort + AllocGlobal>(rt: &H, tally: &Tally, dump: &Dump, want: &[u8]) {
    let mut sink = ToVec::new(Vec::new(rt.alloc()));
    let outcome = write_dump(&mut sink, tally, dump);
    assert_same(rt, "an outcome", &outcome, &Ok(()));
    assert_items(rt, "a dump", sink.as_slice(), want);
}

#[test]
fn dumps(rt: HostRuntime) -> Result<(), Fail> {
    let tally = tally_of_three(rt.alloc())?;
    let (lines, columns) = (Dump::in_lines(), Dump::in_columns());
    let tabs = Dump {
        tab: true,
        ..columns
    };
    assert_dump(&rt, &tally, &lines, b">2\nAC\n>1\nCG\n>70000\nGT\n");
    assert_dump(&rt, &tally, &columns, b"AC 2\nCG 1\nGT 70000\n");
    assert_dump(&rt, &tally, &tabs, b"AC\t2\nCG\t1\nGT\t70000\n");
    assert_dump(&rt, &tally, &tabs.with_bounds(1, 2), b"AC\t2\nCG\t1\n");
    assert_dump(&rt, &tally, &columns.with_bounds(2, 69_999), b"AC 2\n");
    assert_dump(&rt, &tally, &lines.with_bounds(3, 2), b"");
    Ok(())
}

#[test]
fn statistics_of_three_words(rt: HostRuntime) -> Result<(), Fail> {
    let tally = tally_of_three(rt.alloc())?;
    let mut sink = ToVec::new(Vec::new(rt.alloc()));
    write_stats(&mut sink, &tally)?;
    assert_items(&rt, "statistics", sink.as_slice(), STATISTICS_TEXT);
    Ok(())
}

#[test]
fn statistics_without_rows(rt: HostRuntime) -> Result<(), Fail> {
    let mut sink = ToVec::new(Vec::new(rt.alloc()));
    write_stats_of(&mut sink, &STATISTICS)?;
    assert_items(&rt, "statistics", sink.as_slice(), STATISTICS_TEXT);
    Ok(())
}

// The statistics of the worked tally, and their text.
const STATISTICS: Statistics = Statistics {
    unique: 1,
    distinct: 3,
    total: 70_003,
    greatest: 70_000,
};

const STATISTICS_TEXT: &[u8] = b"Unique:    1\nDistinct:  3\nTotal:     70003\nMax_count: 70000\n";

// Greatest counts that have a line of their own, and the histograms up to them.
pub(crate) const HISTOGRAMS: &[(u64, &[u8])] = &[
    (1, b"1 1\n2 2\n"),
    (2, b"1 1\n2 1\n3 1\n"),
    (10_000, b"1 1\n2 1\n10001 1\n"),
    (10_001, b"1 1\n2 1\n10002 1\n"),
    (69_999, b"1 1\n2 1\n70000 1\n"),
    (70_000, b"1 1\n2 1\n70000 1\n"),
    (100_000, b"1 1\n2 1\n70000 1\n"),
];

// Asserts that the tally's histogram up to this count is this text.
fn assert_histogram<H: Abort + AllocGlobal>(rt: &H, tally: &Tally, high: u64, want: &[u8]) {
    assert!(rt; 1 <= high && high <= MAX_HIGH);
    let mut sink = ToVec::new(Vec::new(rt.alloc()));
    let outcome = write_histo(rt.alloc(), &mut sink, tally, high);
    assert_same(rt, high, &outcome, &Ok(()));
    assert_items(rt, high, sink.as_slice(), want);
}

#[test]
fn histograms(rt: HostRuntime) -> Result<(), Fail> {
    let tally = tally_of_three(rt.alloc())?;
    for (high, want) in HISTOGRAMS {
        assert_histogram(&rt, &tally, *high, *want);
    }
    Ok(())
}

// The table text of the worked tally.
const TABLE_OF_THREE: &[u8] = b"KCT 1 2 s\nAC 2\nCG 1\nGT 70000\nEND 3 70003\n";

// Asserts that the histogram of this table text up to this count is this text.
fn assert_histogram_of_text<H: Abort + AllocGlobal>(
    rt: &H,
    table: &[u8],
    high: u64,
    want: &[u8],
) -> Result<(), ReportFault> {
    assert!(rt; high <= MAX_HIGH);
    let numbers = read_numbers(rt.alloc(), &mut FromBytes::new(table), 100, high)?;
    let mut sink = ToVec::new(Vec::new(rt.alloc()));
    let outcome = numbers.write_histo(&mut sink);
    assert_same(rt, high, &outcome, &Ok(()));
    assert_items(rt, high, sink.as_slice(), want);
    Ok(())
}

#[test]
fn histograms_of_table_texts(rt: HostRuntime) -> Result<(), ReportFault> {
    for (high, want) in HISTOGRAMS {
        assert_histogram_of_text(&rt, TABLE_OF_THREE, *high, *want)?;
    }
    assert_histogram_of_text(&rt, b"KCT 1 2 s\nEND 0 0\n", 10, b"")
}

#[test]
fn statistics_of_table_texts(rt: HostRuntime) -> Result<(), ReportFault> {
    let mut source = FromBytes::new(TABLE_OF_THREE);
    let numbers = read_numbers(rt.alloc(), &mut source, 100, 1)?;
    assert_same(&rt, "statistics", numbers.statistics(), &STATISTICS);
    Ok(())
}

// The tally of a table's text, which has at most 100 bytes.
pub(crate) fn table_of(alloc: Global, text: &[u8]) -> Result<Tally, ReportFault> {
    let (tally, _) = read_table(alloc, &mut FromBytes::new(text), 100)?;
    Ok(tally)
}

const TABLE: &[u8] = b"KCT 1 3 c\nACG 2\nGTA 1\nEND 2 3\n";

// Asserts that reading a text of at most so many bytes as a table ends with this fault, with its rows and without.
fn assert_refused<H: Abort + AllocGlobal>(rt: &H, text: &[u8], limit: u64, want: ReportFault) {
    assert!(rt; limit <= 100);
    let fault = read_table(rt.alloc(), &mut FromBytes::new(text), limit).err();
    assert_same(rt, text.len(), &fault, &Some(want));
    let fault = read_numbers(rt.alloc(), &mut FromBytes::new(text), limit, 1).err();
    assert_same(rt, text.len(), &fault, &Some(want));
}

// Asserts that what is written of the tally and the origin that a text gives is the text.
fn assert_copied<H: Abort + AllocGlobal>(rt: &H, text: &[u8]) -> Result<(), ReportFault> {
    let alloc = rt.alloc();
    let (tally, origin) = read_table(alloc, &mut FromBytes::new(text), 100)?;
    let written = text_of(alloc, &tally, origin.as_ref())?;
    assert_items(rt, "a table", written.as_slice(), text);
    Ok(())
}

const ORIGIN: &[u8] = b"KCT 2 3 c a 33 1\nACG 2\nGTA 1\nEND 2 3\n";

const TABLES: &[&[u8]] = &[
    TABLE,
    b"KCT 1 3 s\nEND 0 0\n",
    b"KCT 1 1 c\nA 3\nC 2\nEND 2 5\n",
    b"KCT 1 9 s\nACGTTGCAC 7\nTGCAACGTA 12\nEND 2 19\n",
    b"KCT 1 31 s\nTTTTTTTTTTTTTTTTTTTTTTTTTTTTTTT 4611686018427387904\nEND 1 4611686018427387904\n",
    ORIGIN,
    b"KCT 2 31 s o 126 4611686018427387904\nEND 0 0\n",
    b"KCT 2 1 s a 99 0\nEND 0 0\n",
];

#[test]
fn tables_are_read_as_they_were_written(rt: HostRuntime) -> Result<(), ReportFault> {
    for text in TABLES {
        assert_copied(&rt, *text)?;
    }
    Ok(())
}

// Texts that are no tables, and their faults.
const NO_TABLES: &[(&[u8], ReportFault)] = &[
    (b"", ReportFault::BadHeader),
    (b"KCT 1 32 s\nEND 0 0\n", ReportFault::BadHeader),
    (b"KCT 1 0 s\nEND 0 0\n", ReportFault::BadHeader),
    (b"KCT 1 3 s\r\nEND 0 0\r\n", ReportFault::BadHeader),
    (b"KCT 1 3 s\nACG 1\n", ReportFault::BadEnd),
    (b"KCT 1 3 s\nACG 1\nEND 1 2\n", ReportFault::BadEnd),
    (b"KCT 1 3 s\nEND 0 0\n\n", ReportFault::BadEnd),
    (b"KCT 1 3 c\nACG 02\n", ReportFault::BadRow(2)),
    (b"KCT 1 3 c\nGTA 1\nACG 2\n", ReportFault::BadRow(3)),
    (b"KCT 1 3 c\nCGT 1\nEND 1 1\n", ReportFault::BadRow(2)),
    (b"KCT 1 3 s\nacg 1\nEND 1 1\n", ReportFault::BadRow(2)),
    (b"KCT 1 3 s\nACG 0\nEND 1 0\n", ReportFault::BadRow(2)),
    (b"KCT 1 3 s\n\nEND 0 0\n", ReportFault::BadRow(2)),
    (b"KCT 1 3 s\nACG +1\nEND 1 1\n", ReportFault::BadRow(2)),
    (b"KCT 1 3 s\nACG 1:\nEND 1 1\n", ReportFault::BadRow(2)),
    (b"KCT 1 5 s\nACGTN 1\nEND 1 1\n", ReportFault::BadRow(2)),
    (b"KCT 1 5 s\nacgtA 1\nEND 1 1\n", ReportFault::BadRow(2)),
    (
        b"KCT 1 3 s\nACG 18446744073709551617\nEND 1 1\n",
        ReportFault::BadRow(2),
    ),
    (
        b"KCT 1 3 s\nACG 4611686018427387905\n",
        ReportFault::BadRow(2),
    ),
    (
        b"KCT 1 3 s\nACG 4611686018427387904\nGTA 1\n",
        ReportFault::BadRow(3),
    ),
];

// Lines that are no headers.
const NO_HEADERS: &[&[u8]] = &[
    b"KCT 2 3 s a 33 01\n",
    b"KCT 2 3 s a 033 1\n",
    b"KCT 2 03 s a 33 1\n",
    b"KCT 2 3 s a 33 +1\n",
    b"KCT 2 3 s a +33 1\n",
    b"KCT 2 3 s a 33  1\n",
    b"KCT 2 3 s a 33 1 \n",
    b"KCT 2 3 s a 33 1\r\n",
    b"KCT 2 3 s a 33\n",
    b"KCT 2 3 s a 33 \n",
    b"KCT 2 3 s a 1\n",
    b"KCT 2 3 s 33 1\n",
    b"KCT 2 3 s\n",
    b"KCT 2 3 a 33 1\n",
    b"KCT 2 3 s a 127 1\n",
    b"KCT 2 3 s a 32 1\n",
    b"KCT 2 3 s a 289 1\n",
    b"KCT 2 3 s a 33 4611686018427387905\n",
    b"KCT 2 3 s a 33 18446744073709551617\n",
    b"KCT 2 0 s a 33 0\n",
    b"KCT 2 32 s a 33 0\n",
    b"KCT 2 3 s x 33 1\n",
    b"KCT 2 3 x a 33 1\n",
    b"KCT 1 3 s a 33 1\n",
    b"KCT 3 3 s\n",
    b"KCT 3 3 s a 33 1\n",
];

#[test]
fn headers_that_are_none(rt: HostRuntime) {
    for line in NO_HEADERS {
        assert_refused(&rt, *line, 100, ReportFault::BadHeader);
    }
}

#[test]
fn faults_of_tables(rt: HostRuntime) {
    for (text, want) in NO_TABLES {
        assert_refused(&rt, *text, 100, *want);
    }
}

// Asserts that each prefix of a table is refused, for its header if that is not whole.
fn assert_fronts_refused<H: Abort + AllocGlobal>(rt: &H, table: &[u8], header: usize) {
    for count in 0..table.len() {
        let want = if count < header {
            ReportFault::BadHeader
        } else {
            ReportFault::BadEnd
        };
        assert_refused(rt, &table[..count], 100, want);
    }
}

#[test]
fn fronts_of_a_table(rt: HostRuntime) {
    assert_fronts_refused(&rt, TABLE, 10);
    assert_fronts_refused(&rt, ORIGIN, 17);
    let more = b"KCT 1 3 c\nACG 2\nGTA 1\nEND 2 3\n ";
    assert_refused(&rt, more, 100, ReportFault::BadEnd);
    assert_refused(&rt, TABLE, 29, ReportFault::TableTooLong);
}

#[test]
fn rows_of_a_table_one_by_one(rt: HostRuntime) -> Result<(), ReportFault> {
    let mut source = FromBytes::new(ORIGIN);
    let mut reading = TableReading::open(rt.alloc(), &mut source, 100)?;
    let origin = Origin {
        floor: 33,
        reads: 1,
        listed: false,
    };
    assert_same(&rt, "k", &reading.k().get(), &3);
    assert_same(&rt, "both", &reading.both(), &true);
    assert_same(&rt, "origin", &reading.origin(), &Some(origin));
    let mut total = 0u64;
    for _ in 0..9 {
        if let Some(row) = reading.next_row(&mut source)? {
            total = total.saturating_add(row.count);
        }
    }
    assert_same(&rt, "total", &total, &3);
    Ok(())
}

const NO_ORIGIN: &[u8] = b"KCT 1 3 s\nEND 0 0\n";

#[test]
fn headers_of_version_1(rt: HostRuntime) -> Result<(), ReportFault> {
    let mut source = FromBytes::new(NO_ORIGIN);
    let reading = TableReading::open(rt.alloc(), &mut source, 100)?;
    assert_same(&rt, "k", &reading.k().get(), &3);
    assert_same(&rt, "both", &reading.both(), &false);
    assert_same(&rt, "origin", &reading.origin(), &None);
    Ok(())
}

const ACG: Row = Row { word: 6, count: 2 };

const GTA: Row = Row { word: 44, count: 1 };

// Texts with a header, the rows that come before their end or their fault, and how they end.
const TEXTS_OF_ROWS: &[(&[u8], &[Row], Result<Option<Row>, ReportFault>)] = &[
    (NO_ORIGIN, &[], Ok(None)),
    (TABLE, &[ACG, GTA], Ok(None)),
    (ORIGIN, &[ACG, GTA], Ok(None)),
    (
        b"KCT 1 3 c\nACG 2\nAAC 1\nEND 2 3\n",
        &[ACG],
        Err(ReportFault::BadRow(3)),
    ),
    (
        b"KCT 1 3 c\nACG 2\nACG 2\nEND 2 4\n",
        &[ACG],
        Err(ReportFault::BadRow(3)),
    ),
    (
        b"KCT 1 3 s\nACG 2\nGTA 01\n",
        &[ACG],
        Err(ReportFault::BadRow(3)),
    ),
    (
        b"KCT 1 3 s\nACG 2\nGTA 4611686018427387903\n",
        &[ACG],
        Err(ReportFault::BadRow(3)),
    ),
    (
        b"KCT 1 3 c\nACG 2\nGTA 1\nEND 2",
        &[ACG, GTA],
        Err(ReportFault::BadEnd),
    ),
    (
        b"KCT 1 3 c\nACG 2\nGTA 1\n",
        &[ACG, GTA],
        Err(ReportFault::BadEnd),
    ),
    (
        b"KCT 1 3 c\nACG 2\nGTA 1\nEND 3 3\n",
        &[ACG, GTA],
        Err(ReportFault::BadEnd),
    ),
    (
        b"KCT 1 3 c\nACG 2\nGTA 1\nEND 2 4\n",
        &[ACG, GTA],
        Err(ReportFault::BadEnd),
    ),
    (
        b"KCT 1 3 c\nACG 2\nEND 1 2\nGTA 1\n",
        &[ACG],
        Err(ReportFault::BadEnd),
    ),
];

// Asserts that a text gives these rows and then ends like this, however often it is asked, and that all of it was
// taken.
fn assert_rows<H: Abort + AllocGlobal>(
    rt: &H,
    text: &[u8],
    rows: &[Row],
    end: &Result<Option<Row>, ReportFault>,
) -> Result<(), ReportFault> {
    let mut source = FromBytes::new(text);
    let mut reading = TableReading::open(rt.alloc(), &mut source, 100)?;
    for row in rows {
        let next = reading.next_row(&mut source);
        assert_same(rt, text.len(), &next, &Ok(Some(*row)));
    }
    for _ in 0..3 {
        let last = reading.next_row(&mut source);
        assert_same(rt, text.len(), &last, end);
    }
    assert_same(rt, text.len(), &source.as_slice().len(), &0);
    Ok(())
}

#[test]
fn rows_and_then_the_end_or_a_fault(rt: HostRuntime) -> Result<(), ReportFault> {
    for (text, rows, end) in TEXTS_OF_ROWS {
        assert_rows(&rt, *text, *rows, end)?;
    }
    Ok(())
}

// Asserts that the header of a text of at most so many bytes has this fault.
fn assert_header_refused<H: Abort + AllocGlobal>(
    rt: &H,
    text: &[u8],
    limit: u64,
    want: ReportFault,
) {
    let fault = TableReading::open(rt.alloc(), &mut FromBytes::new(text), limit).err();
    assert_same(rt, text.len(), &fault, &Some(want));
}

#[test]
fn headers_that_begin_no_rows(rt: HostRuntime) {
    for line in NO_HEADERS {
        assert_header_refused(&rt, *line, 100, ReportFault::BadHeader);
    }
    for count in 0..10 {
        assert_header_refused(&rt, &TABLE[..count], 100, ReportFault::BadHeader);
    }
    assert_header_refused(&rt, b"KCT 3 3 s\n", 9, ReportFault::TableTooLong);
}

// Lists of words, and these.
const LISTS: &[(&[u8], &[&str])] = &[
    (b"", &[]),
    (b"\n\r\n\n", &[]),
    (b"ACG\ngta\n", &["ACG", "gta"]),
    (b"ACG\r\n\r\n\nGTA\r", &["ACG", "GTA"]),
    (b"ACG", &["ACG"]),
    (b" A C\n\r\r\nT\n", &[" A C", "\r", "T"]),
    (b"A\xffC\n", &["A\u{fffd}C"]),
];

#[test]
fn lists_of_words(rt: HostRuntime) -> Result<(), Fail> {
    let alloc = rt.alloc();
    for (list, want) in LISTS {
        let mut words = strings_of(alloc, &["TTT"])?;
        let outcome = read_words(alloc, &mut FromBytes::new(*list), 100, &mut words);
        assert_same(&rt, "an outcome", &outcome, &Ok(()));
        assert_eq!(rt; words.len(), want.len() + 1);
        for (i, word) in want.iter().enumerate() {
            assert_items(&rt, "a word", words[i + 1].as_bytes(), word.as_bytes());
        }
    }
    let mut words = Vec::new(alloc);
    let outcome = read_words(alloc, &mut FromBytes::new(b"ACG\n"), 3, &mut words);
    assert_same(&rt, "an outcome", &outcome, &Err(ReportFault::TableTooLong));
    Ok(())
}

// These words, as a query takes them.
pub(crate) fn strings_of(alloc: Global, words: &[&str]) -> Result<Vec<String>, AllocError> {
    let mut strings = Vec::new(alloc);
    for word in words {
        strings.push(String::from_str(alloc, word)?)?;
    }
    Ok(strings)
}

// Asserts that a query of these words on the table has this result, and wrote this.
fn assert_answer<H: Abort + AllocGlobal>(
    rt: &H,
    words: &[&str],
    outcome: Result<(), ReportFault>,
    text: &[u8],
) -> Result<(), Fail> {
    let alloc = rt.alloc();
    let tally = table_of(alloc, TABLE)?;
    let asked = strings_of(alloc, words)?;
    let mut sink = ToVec::new(Vec::new(alloc));
    let found = query(&mut sink, &tally, &asked);
    assert_same(rt, "an outcome", &found, &outcome);
    assert_items(rt, "answers", sink.as_slice(), text);
    Ok(())
}

// Asked words, and their lines.
const ANSWERS: &[(&[&str], &[u8])] = &[
    (&["CGT", "aaa"], b"ACG 2\nAAA 0\n"),
    (&["gta", "GTA", "TAC"], b"GTA 1\nGTA 1\nGTA 1\n"),
    (&[], b""),
];

// Asked words, and the number of the first that is none.
const NO_WORDS: &[(&[&str], u64)] = &[(&["ACG", "AC"], 2), (&["ACN", "AC"], 1), (&["ACGT"], 1)];

#[test]
fn queries(rt: HostRuntime) -> Result<(), Fail> {
    for (words, want) in ANSWERS {
        assert_answer(&rt, *words, Ok(()), *want)?;
    }
    for (words, number) in NO_WORDS {
        let refused = Err(ReportFault::BadWord(*number));
        assert_answer(&rt, *words, refused, b"")?;
    }
    Ok(())
}
