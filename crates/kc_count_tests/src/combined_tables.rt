//! Tables that are combined row by row, and the text of the result.
ghost use Rattle.std.specs.Prelude.{◌≡◌, IfOk};
ghost use Rattle.kc_report.specs.Table.{MaySay};

use crate::count_assertions::{assert_items, assert_same};
use crate::refusing_streams::narrow_writer;
use crate::tally_rows::k_of;
use kc_combine::{
    Ahead, CombineFault, Combining, Intersection, KeptTable, LoadedTable, PlacedFault, Sum, Take,
    Totals, Within, combine_tables, combine_texts, judge_texts, write_combined,
};
use kc_io::{FromBytes, Sink, ToVec};
use kc_report::{Header, ReportFault, read_table};
use kc_tally::Tally;
use std::alloc::Global;
use std::process::Abort;
use std::test::Fail;

// The tables of ACGTA, of ACG, and of ACGTA, ACG and ACG, one read each.
const FIRST: &[u8] = b"KCT 2 3 s a 33 1\nACG 1\nCGT 1\nGTA 1\nEND 3 3\n";

const SECOND: &[u8] = b"KCT 2 3 s a 33 1\nACG 1\nEND 1 1\n";

const MERGED: &[u8] = b"KCT 2 3 s a 33 3\nACG 3\nCGT 1\nGTA 1\nEND 3 5\n";

const NOTHING: &[u8] = b"KCT 1 3 s\nEND 0 0\n";

// A word that occurs 2^62 times.
const MANY: &[u8] = b"KCT 1 3 s\nTTT 4611686018427387904\nEND 1 4611686018427387904\n";

// The words that every table has, with their least counts.
const LEAST: Combining = Combining::Intersect(Intersection { take: Take::Least });

// Sources of these texts.
fn sources_of<'a>(alloc: Global, texts: &[&'a [u8]]) -> Result<Vec<FromBytes<'a>>, Fail> {
    let mut sources = Vec::with_capacity(alloc, texts.len())?;
    for text in texts {
        sources.push(FromBytes::new(*text))?;
    }
    Ok(sources)
}

// A way to combine, texts of tables, and what comes of them: the name of the fault, or "none", with the place of its
// table, or else the number of the reads of all tables; then the text, and its totals.
type Row = (
    Combining,
    &'static [&'static [u8]],
    (&'static str, u64),
    &'static [u8],
    (u64, u64),
);

// Tables of longer words, of both strands, of a list, and with another floor.
const LONGER: &[u8] = b"KCT 2 4 s a 33 1\nACGT 1\nEND 1 1\n";

const STRANDS: &[u8] = b"KCT 2 3 c a 33 1\nACG 1\nEND 1 1\n";

const LISTED: &[u8] = b"KCT 2 3 s o 33 1\nACG 1\nEND 1 1\n";

const FLOOR: &[u8] = b"KCT 2 3 s a 40 1\nACG 1\nEND 1 1\n";

// What the first tables have in common, and the same with its greatest count, and what the first one has alone.
const SHARED: &[u8] = b"KCT 1 3 s\nACG 1\nEND 1 1\n";

const GREATEST: &[u8] = b"KCT 1 3 s\nACG 3\nEND 1 3\n";

const ALONE: &[u8] = b"KCT 1 3 s\nCGT 1\nGTA 1\nEND 2 2\n";

const MOST: Combining = Combining::Intersect(Intersection {
    take: Take::Greatest,
});

// A table that is none, one with a word twice, and one with a wrong end; and one of too many reads.
const NO_TABLE: &[u8] = b"ACG 1\n";

const NO_ROW: &[u8] = b"KCT 1 3 s\nACG 1\nACG 1\n";

const SHORT: &[u8] = b"KCT 1 3 s\nACG 1\nEND 1 2\n";

const READS: &[u8] = b"KCT 2 3 s a 33 4611686018427387904\nEND 0 0\n";

const UNLIKE: (&str, u64) = ("unlike", 0);

const LARGE: (&str, u64) = ("too large", 0);

const ROWS: &[Row] = &[
    (
        Combining::Merge,
        &[FIRST, SECOND, SECOND],
        ("none", 3),
        MERGED,
        (3, 5),
    ),
    (
        Combining::Merge,
        &[SECOND, FIRST],
        ("none", 2),
        b"KCT 2 3 s a 33 2\nACG 2\nCGT 1\nGTA 1\nEND 3 4\n",
        (3, 4),
    ),
    // with a table that has no origin the sum has none
    (
        Combining::Merge,
        &[NOTHING, FIRST],
        ("none", 0),
        b"KCT 1 3 s\nACG 1\nCGT 1\nGTA 1\nEND 3 3\n",
        (3, 3),
    ),
    (LEAST, &[FIRST, SECOND], ("none", 0), SHARED, (1, 1)),
    (
        MOST,
        &[SECOND, MERGED, FIRST],
        ("none", 0),
        GREATEST,
        (1, 3),
    ),
    (
        Combining::Subtract,
        &[FIRST, SECOND],
        ("none", 0),
        ALONE,
        (2, 2),
    ),
    (
        Combining::Subtract,
        &[FIRST, FIRST],
        ("none", 0),
        NOTHING,
        (0, 0),
    ),
    (
        Combining::SubtractCounts,
        &[MERGED, FIRST],
        ("none", 0),
        b"KCT 1 3 s\nACG 2\nEND 1 2\n",
        (1, 2),
    ),
    (
        Combining::Filter(Within { least: 2, most: 9 }),
        &[MERGED],
        ("none", 0),
        GREATEST,
        (1, 3),
    ),
    (
        Combining::Merge,
        &[FIRST, NO_TABLE],
        ("bad header", 2),
        b"",
        (0, 0),
    ),
    (
        Combining::Merge,
        &[FIRST, FIRST, SHORT],
        ("bad end", 3),
        b"",
        (0, 0),
    ),
    (
        Combining::Merge,
        &[NO_ROW, FIRST],
        ("bad row 3", 1),
        b"",
        (0, 0),
    ),
    // a count above 2^62, counts that are together, and reads that are
    (Combining::Merge, &[MANY, MANY], LARGE, b"", (0, 0)),
    (Combining::Merge, &[MANY, SECOND], LARGE, b"", (0, 0)),
    (Combining::Merge, &[FIRST, READS], LARGE, b"", (0, 0)),
    (
        Combining::Merge,
        &[FIRST, FIRST, LONGER],
        UNLIKE,
        b"",
        (0, 0),
    ),
    (LEAST, &[FIRST, STRANDS], UNLIKE, b"", (0, 0)),
    (Combining::Subtract, &[LONGER, FIRST], UNLIKE, b"", (0, 0)),
    // the origins of merged tables have to match, those of others need not
    (Combining::Merge, &[FIRST, LISTED], UNLIKE, b"", (0, 0)),
    (Combining::Merge, &[FIRST, FLOOR], UNLIKE, b"", (0, 0)),
    (LEAST, &[FIRST, LISTED], ("none", 0), SHARED, (1, 1)),
    (LEAST, &[FIRST, FLOOR], ("none", 0), SHARED, (1, 1)),
];

// What is written for tables with these texts, and what is returned.
fn combined<W: Sink>(
    alloc: Global,
    combining: Combining,
    texts: &[&[u8]],
    writer: &mut W,
) -> Result<Result<Totals, CombineFault<PlacedFault>>, Fail> {
    let mut sources = sources_of(alloc, texts)?;
    if sources.is_empty() {
        return Err(Fail::from("no table"));
    }
    Ok(combine_texts(alloc, combining, &mut sources, 1000, writer))
}

// The name of a fault, and the place of its table; 0 if it is not about one table.
fn name_of(fault: &CombineFault<PlacedFault>) -> (&'static str, u64) {
    match fault {
        CombineFault::Table(PlacedFault { place, fault }) => match fault {
            ReportFault::BadHeader => ("bad header", *place),
            ReportFault::BadRow(3) => ("bad row 3", *place),
            ReportFault::BadEnd => ("bad end", *place),
            _ => ("table", *place),
        },
        CombineFault::Unlike => ("unlike", 0),
        CombineFault::TooLarge => ("too large", 0),
        CombineFault::Write => ("write", 0),
        CombineFault::Memory => ("memory", 0),
    }
}

// The fault of tables with these texts that are judged first, or "none" and the number of all reads.
fn judged(
    alloc: Global,
    combining: Combining,
    texts: &[&[u8]],
) -> Result<(&'static str, u64), Fail> {
    let mut sources = sources_of(alloc, texts)?;
    if sources.is_empty() {
        return Err(Fail::from("no table"));
    }
    match judge_texts(alloc, combining, &mut sources, 1000) {
        Ok(header) => match header.origin {
            Some(origin) => Ok(("none", origin.reads)),
            None => Ok(("none", 0)),
        },
        Err(fault) => Ok(name_of(&fault)),
    }
}

// Asserts that this was returned and written for the tables of a row.
fn assert_row<H: Abort>(
    rt: &H,
    row: &Row,
    answer: &Result<Totals, CombineFault<PlacedFault>>,
    text: &[u8],
) {
    let (_, _, want, written, (distinct, total)) = row;
    match answer {
        Ok(totals) => {
            let (distinct, total) = (*distinct, *total);
            assert_same(rt, "totals", totals, &Totals { distinct, total });
        }
        Err(fault) => assert_same(rt, "fault", &name_of(fault), want),
    }
    assert_same(rt, want.0, &answer.is_ok(), &(want.0 == "none"));
    assert_items(rt, want.0, text, *written);
}

#[test]
fn tables_that_are_combined(rt: HostRuntime) -> Result<(), Fail> {
    for row in ROWS {
        let (combining, texts, want, ..) = row;
        let name = judged(rt.alloc(), *combining, *texts)?;
        assert_same(&rt, "the first pass", &name, want);
        let mut sink = ToVec::new(Vec::new(rt.alloc()));
        let answer = combined(rt.alloc(), *combining, *texts, &mut sink)?;
        assert_row(&rt, row, &answer, sink.as_slice());
    }
    Ok(())
}

// The tally of the table of this text, of words of three bases.
fn tally_of(alloc: Global, text: &[u8]) -> Result<Tally, Fail>
    ensures { IfOk result (λ tally. tally.k ≡ 3) }
{
    let (tally, _) = read_table(alloc, &mut FromBytes::new(text), 1000)?;
    if tally.k().get() != 3 {
        return Err(Fail::from("no words of three bases"));
    }
    Ok(tally)
}

#[test]
fn a_table_in_memory(rt: HostRuntime) -> Result<(), Fail> {
    let tally = tally_of(rt.alloc(), MERGED)?;
    let Ok(ahead) = Ahead::new(KeptTable::new(&tally)) else {
        return Err(Fail::from("no first row"));
    };
    let header = Header {
        k: k_of(3)?,
        both: false,
        origin: None,
    };
    let mut sink = ToVec::new(Vec::new(rt.alloc()));
    let mut tables = [ahead];
    let Ok(totals) = write_combined(rt.alloc(), &mut tables, &Sum, &header, &mut sink) else {
        return Err(Fail::from("a fault"));
    };
    let want = b"KCT 1 3 s\nACG 3\nCGT 1\nGTA 1\nEND 3 5\n";
    let (distinct, total) = (3, 5);
    assert_same(&rt, "totals", &totals, &Totals { distinct, total });
    assert_items(&rt, "text", sink.as_slice(), want);
    Ok(())
}

// The table of this text, in memory.
fn loaded_table(alloc: Global, text: &[u8]) -> Result<LoadedTable, Fail>
    ensures { IfOk result (λ table. MaySay table.origin) }
{
    let (tally, origin) = read_table(alloc, &mut FromBytes::new(text), 1000)?;
    Ok(LoadedTable { tally, origin })
}

// Asserts the result of a row for its tables in memory, if these are two.
fn assert_loaded<H: Abort + AllocGlobal>(rt: &H, row: &Row) -> Result<(), Fail> {
    let (combining, texts, ..) = row;
    let [one, other] = *texts else {
        return Ok(());
    };
    let tables = [
        loaded_table(rt.alloc(), *one)?,
        loaded_table(rt.alloc(), *other)?,
    ];
    let mut sink = ToVec::new(Vec::new(rt.alloc()));
    let answer = combine_tables(rt.alloc(), *combining, &tables, &mut sink);
    assert_row(rt, row, &answer, sink.as_slice());
    Ok(())
}

#[test]
fn loaded_tables_that_are_combined(rt: HostRuntime) -> Result<(), Fail> {
    for row in ROWS {
        // a text with a fault of its own is no table in memory
        if !row.2.0.starts_with("bad") {
            assert_loaded(&rt, row)?;
        }
    }
    Ok(())
}

#[test]
fn a_combined_table_that_is_not_written(rt: HostRuntime) -> Result<(), Fail> {
    let mut writer = narrow_writer(rt.alloc(), 0, true)?;
    let texts: [&[u8]; 2] = [FIRST, SECOND];
    let name = match combined(rt.alloc(), Combining::Merge, &texts, &mut writer)? {
        Ok(_) => ("none", 0),
        Err(fault) => name_of(&fault),
    };
    assert_same(&rt, "fault", &name, &("write", 0));
    Ok(())
}
