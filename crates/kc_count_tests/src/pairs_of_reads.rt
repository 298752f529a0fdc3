//! Pairs of reads that are selected by the words of both and a table.
ghost use Rattle.std.specs.Prelude.{◌≤◌};
ghost use Rattle.kc_fastx.specs.Parsing.{most_bytes};

use crate::count_assertions::{assert_items, assert_same};
use crate::refusing_streams::{ByteByByte, narrow_writer, read_if_memory};
use crate::report_rows::table_of;
use kc_fastx::FastxFault;
use kc_io::{FromBytes, FromRead, Sink, Source, ToVec};
use kc_select::{
    PairFault, PairRule, PairSelection, Selected, Selection, Selector, Side, Sides,
    select_into_one, select_into_two,
};
use std::alloc::{AllocError, Global};
use std::process::Abort;
use std::test::Fail;

// The table of words of three bases in which ACG and CGT occur twice, and GTA once.
const TABLE: &[u8] = b"KCT 1 3 s\nACG 2\nCGT 2\nGTA 1\nEND 3 5\n";

// Two texts, how many reads of a pair have to be solid, whether the other pairs are selected, how many bytes each
// source may give, and what is returned: the bytes, the reads, those that are kept, their words and the solid ones.
// Then what is written of the first reads, of their mates, and of both to one sink.
#[derive(Clone, Copy)]
struct Row<'a> {
    first: &'a [u8],
    second: &'a [u8],
    asked: PairRule,
    inverted: bool,
    limit: u64,
    answer: Result<[u64; 5], PairFault>,
    firsts: &'a [u8],
    mates: &'a [u8],
    both: &'a [u8],
}

// Four pairs: of the first one both reads are solid, of the next two one read, and of the last one none.
const FIRST: &[u8] = b">a/1\nACGTA\n>b/1\nACG\n>c/1\nAAA\n>d/1\nTTT\n";

const SECOND: &[u8] = b">a/2\nCGT\n>b/2\nAAA\n>c/2\nACG\n>d/2\nAAA\n";

// What is written if one of them has to be solid.
const ANY_FIRSTS: &[u8] = b">a/1\nACGTA\n>b/1\nACG\n>c/1\nAAA\n";

const ANY_MATES: &[u8] = b">a/2\nCGT\n>b/2\nAAA\n>c/2\nACG\n";

const ANY_BOTH: &[u8] = b">a/1\nACGTA\n>a/2\nCGT\n>b/1\nACG\n>b/2\nAAA\n>c/1\nAAA\n>c/2\nACG\n";

const CHOICES: &[Row<'static>] = &[
    Row {
        first: FIRST,
        second: SECOND,
        asked: PairRule::All,
        inverted: false,
        limit: 100,
        answer: Ok([74, 8, 2, 10, 5]),
        firsts: b">a/1\nACGTA\n",
        mates: b">a/2\nCGT\n",
        both: b">a/1\nACGTA\n>a/2\nCGT\n",
    },
    Row {
        first: FIRST,
        second: SECOND,
        asked: PairRule::Any,
        inverted: false,
        limit: 100,
        answer: Ok([74, 8, 6, 10, 5]),
        firsts: ANY_FIRSTS,
        mates: ANY_MATES,
        both: ANY_BOTH,
    },
    // the rule is inverted for pairs, not for their reads
    Row {
        first: FIRST,
        second: SECOND,
        asked: PairRule::All,
        inverted: true,
        limit: 100,
        answer: Ok([74, 8, 6, 10, 5]),
        firsts: b">b/1\nACG\n>c/1\nAAA\n>d/1\nTTT\n",
        mates: b">b/2\nAAA\n>c/2\nACG\n>d/2\nAAA\n",
        both: b">b/1\nACG\n>b/2\nAAA\n>c/1\nAAA\n>c/2\nACG\n>d/1\nTTT\n>d/2\nAAA\n",
    },
    Row {
        first: FIRST,
        second: SECOND,
        asked: PairRule::Any,
        inverted: true,
        limit: 100,
        answer: Ok([74, 8, 2, 10, 5]),
        firsts: b">d/1\nTTT\n",
        mates: b">d/2\nAAA\n",
        both: b">d/1\nTTT\n>d/2\nAAA\n",
    },
    // no pairs, and blank lines alone
    Row {
        first: b"",
        second: b"\n\r\n",
        asked: PairRule::All,
        inverted: true,
        limit: 100,
        answer: Ok([3, 0, 0, 0, 0]),
        firsts: b"",
        mates: b"",
        both: b"",
    },
    // FASTA and FASTQ may be mates, and a read without words is solid
    Row {
        first: b"@a\nAC\nGT\n+\nIIII\n",
        second: b"\n>a\nAC\n",
        asked: PairRule::All,
        inverted: false,
        limit: 100,
        answer: Ok([23, 2, 2, 2, 2]),
        firsts: b"@a\nACGT\n+\nIIII\n",
        mates: b">a\nAC\n",
        both: b"@a\nACGT\n+\nIIII\n>a\nAC\n",
    },
    // titles up to the first blank or tab
    Row {
        first: b">a/1 x\nACG\n",
        second: b">a/2\ty\nCGT\n",
        asked: PairRule::All,
        inverted: false,
        limit: 12,
        answer: Ok([22, 2, 2, 2, 2]),
        firsts: b">a/1 x\nACG\n",
        mates: b">a/2\ty\nCGT\n",
        both: b">a/1 x\nACG\n>a/2\ty\nCGT\n",
    },
];

// One pair, and what is written of it.
const ONE: &[u8] = b">a/1\nACG\n";

const MATE: &[u8] = b">a/2\nCGT\n";

const BOTH: &[u8] = b">a/1\nACG\n>a/2\nCGT\n";

// Two texts with this fault after their first pair, that of `ONE` and `MATE`.
const BEHIND_A_PAIR: &[(&[u8], &[u8], PairFault)] = &[
    // other names, and records after the last pair
    (
        b">a/1\nACG\n>b/1\nACG\n>c/1\nACG\n",
        b">a/2\nCGT\n>c/2\nACG\n",
        PairFault::Unpaired(2),
    ),
    (
        b">a/1\nACG\n>b/1\nACG\n",
        b">a/2\nCGT\n\n",
        PairFault::Unpaired(2),
    ),
    (
        b">a/1\nACG\n",
        b">a/2\nCGT\n>b/2\nACG\n>c/2\nACG\n",
        PairFault::Unpaired(2),
    ),
    // a fault of one side, and of both at one record
    (
        b">a/1\nACG\n>b/1\nA@C\n",
        b">a/2\nCGT\n>b/2\nACG\n",
        PairFault::Reads(Side::First, FastxFault::BadBase(4)),
    ),
    (
        b">a/1\nACG\n>b/1\nACG\n",
        b">a/2\nCGT\n>b/2\nACG\n@C\n",
        PairFault::Reads(Side::Second, FastxFault::BadBase(5)),
    ),
    (
        b">a/1\nACG\n>b/1\nACG\n@C\n",
        b">a/2\nCGT\n>b/2\nA@C\n",
        PairFault::Reads(Side::First, FastxFault::BadBase(5)),
    ),
    // it comes before a missing mate at the same record
    (
        b">a/1\nACG\n>b/1\nACG\n",
        b">a/2\nCGT\n>c/2\nA@C\n",
        PairFault::Reads(Side::Second, FastxFault::BadBase(4)),
    ),
    (
        b">a/1\nACG\n",
        b">a/2\nCGT\n>b/2\nA@C\n",
        PairFault::Reads(Side::Second, FastxFault::BadBase(4)),
    ),
    (
        b">a/1\nACG\n>b/1\nA@C\n",
        b">a/2\nCGT\n",
        PairFault::Reads(Side::First, FastxFault::BadBase(4)),
    ),
    // and after it at a later one
    (
        b">a/1\nACG\n>b/1\nACG\n>c/1\nA@C\n",
        b">a/2\nCGT\n>c/2\nACG\n>d/2\nA@C\n",
        PairFault::Unpaired(2),
    ),
    (
        b">a/1\nACG\n>b/1\nACG\n>c/1\nA@C\n",
        b">a/2\nCGT\n",
        PairFault::Unpaired(2),
    ),
];

// Two texts with this fault in place of their first pair.
const AT_ONCE: &[(&[u8], &[u8], PairFault)] = &[
    (ONE, b"", PairFault::Unpaired(1)),
    (b"\n", MATE, PairFault::Unpaired(1)),
    (
        b"x\n",
        b"x\n",
        PairFault::Reads(Side::First, FastxFault::BadStart(1)),
    ),
    (
        ONE,
        b"\nx\n",
        PairFault::Reads(Side::Second, FastxFault::BadStart(2)),
    ),
    (
        b"",
        b"x\n",
        PairFault::Reads(Side::Second, FastxFault::BadStart(1)),
    ),
    (
        b"@a\nACG\n+\nII",
        MATE,
        PairFault::Reads(Side::First, FastxFault::Truncated(4)),
    ),
    (
        b"\x1f\x8b",
        MATE,
        PairFault::Reads(Side::First, FastxFault::ShortGzip),
    ),
    (
        ONE,
        b"\x1f\x8b",
        PairFault::Reads(Side::Second, FastxFault::ShortGzip),
    ),
    // other titles
    (b">a/1\nACG\n", b">b/2\nCGT\n", PairFault::Unpaired(1)),
    (b">a/2\nACG\n", b">a/1\nCGT\n", PairFault::Unpaired(1)),
    // more than 100 bytes
    (
        LONG,
        MATE,
        PairFault::Reads(Side::First, FastxFault::TooLong),
    ),
    (
        ONE,
        LONG,
        PairFault::Reads(Side::Second, FastxFault::TooLong),
    ),
];

// A text of more than 100 bytes.
const LONG: &[u8] = b">a\nAAAAAAAAAAAAAAAAAAAAAAAAAAAAAAAAAAAAAAAAAAAAAAAAAAAAAAAAAAAA\n\
    >b\nAAAAAAAAAAAAAAAAAAAAAAAAAAAAAAAAAAAAAAAAAAAAAAAAAAAAAAAAAAAA\n";

#[test]
fn pairs_that_are_written(rt: HostRuntime) -> Result<(), Fail> {
    for row in CHOICES {
        assert_row(&rt, row)?;
    }
    Ok(())
}

#[test]
fn faults_of_records(rt: HostRuntime) -> Result<(), Fail> {
    for (first, second, fault) in AT_ONCE {
        assert_row(&rt, &refused_row(*first, *second, *fault))?;
    }
    for (first, second, fault) in BEHIND_A_PAIR {
        let mut row = refused_row(*first, *second, *fault);
        row.firsts = ONE;
        row.mates = MATE;
        row.both = BOTH;
        assert_row(&rt, &row)?;
    }
    Ok(())
}

// The row of two texts of which nothing is written, since their first records have this fault.
fn refused_row<'a>(first: &'a [u8], second: &'a [u8], fault: PairFault) -> Row<'a> {
    Row {
        first,
        second,
        asked: PairRule::Any,
        inverted: false,
        limit: 100,
        answer: Err(fault),
        firsts: b"",
        mates: b"",
        both: b"",
    }
}

// Asserts the results of a row for its texts, if a word is solid from 2 on: with both reads of a pair in one sink, and
// with the reads in two.
fn assert_row<H: Abort + AllocGlobal>(rt: &H, row: &Row<'_>) -> Result<(), Fail> {
    let tally = table_of(rt.alloc(), TABLE)?;
    let reads = Selection::new(2, 66).with_inverted(row.inverted);
    let selector = Selector::new(rt.alloc(), &tally, reads)?;
    let selection = PairSelection::new(&selector, row.asked, row.limit.min(100));
    assert_interleaved(rt, row, &selection);
    assert_apart(rt, row, &selection);
    Ok(())
}

// Asserts what is returned and written if both reads of a pair go to one sink.
fn assert_interleaved<H: Abort + AllocGlobal>(
    rt: &H,
    row: &Row<'_>,
    selection: &PairSelection<'_, '_>,
)
    requires { selection.now.limit ≤ most_bytes }
{
    let mut sources = sources_of(row.first, row.second);
    let mut sink = ToVec::new(Vec::new(rt.alloc()));
    let answer = pairs_into_one(rt.alloc(), &mut sources, &mut sink, selection);
    assert_same(rt, row.first.len(), &answer, &row.answer);
    assert_items(rt, row.first.len(), sink.as_slice(), row.both);
}

// Asserts what is returned and written if they go to two.
fn assert_apart<H: Abort + AllocGlobal>(rt: &H, row: &Row<'_>, selection: &PairSelection<'_, '_>)
    requires { selection.now.limit ≤ most_bytes }
{
    let mut sources = sources_of(row.first, row.second);
    let mut sinks = Sides {
        first: ToVec::new(Vec::new(rt.alloc())),
        second: ToVec::new(Vec::new(rt.alloc())),
    };
    let answer = pairs_into_two(rt.alloc(), &mut sources, &mut sinks, selection);
    assert_same(rt, row.first.len(), &answer, &row.answer);
    assert_items(rt, row.first.len(), sinks.first.as_slice(), row.firsts);
    assert_items(rt, row.first.len(), sinks.second.as_slice(), row.mates);
}

// Sources of both texts.
fn sources_of<'a>(first: &'a [u8], second: &'a [u8]) -> Sides<FromBytes<'a>> {
    Sides {
        first: FromBytes::new(first),
        second: FromBytes::new(second),
    }
}

// The result for pairs that are written to one sink.
fn pairs_into_one<S: Source, W: Sink>(
    alloc: Global,
    sources: &mut Sides<S>,
    sink: &mut W,
    selection: &PairSelection<'_, '_>,
) -> Result<[u64; 5], PairFault>
    requires { selection.now.limit ≤ most_bytes }
{
    let (first, second) = (&mut sources.first, &mut sources.second);
    numbers_of(select_into_one(alloc, first, second, sink, selection))
}

// The result for pairs that are written to two sinks.
fn pairs_into_two<S: Source, W: Sink>(
    alloc: Global,
    sources: &mut Sides<S>,
    sinks: &mut Sides<W>,
    selection: &PairSelection<'_, '_>,
) -> Result<[u64; 5], PairFault>
    requires { selection.now.limit ≤ most_bytes }
{
    let (first, second) = (&mut sources.first, &mut sources.second);
    numbers_of(select_into_two(alloc, first, second, sinks, selection))
}

// The bytes, the reads, those that are kept, their words and the solid ones.
fn numbers_of(answer: Result<Selected, PairFault>) -> Result<[u64; 5], PairFault> {
    let selected = answer?;
    let counts = selected.counts;
    Ok([
        selected.bytes,
        counts.reads,
        counts.kept,
        counts.words,
        counts.solid,
    ])
}

// Two pairs, which are read byte by byte. The second one is known to be whole by the end alone.
const TWO: Sides<&[u8]> = Sides {
    first: b">a/1\nACG\n>b/1\nACG\n",
    second: b">a/2\nCGT\n>b/2\nCGT\n",
};

// Sources of both texts, with so many successful reads of each side.
fn slow_sources(first: usize, second: usize) -> Sides<FromRead<ByteByByte<'static>>> {
    Sides {
        first: FromRead::new(ByteByByte {
            left: TWO.first,
            reads: first,
        }),
        second: FromRead::new(ByteByByte {
            left: TWO.second,
            reads: second,
        }),
    }
}

#[test]
fn failed_reads_of_either_side(rt: HostRuntime) -> Result<(), Fail> {
    let tally = table_of(rt.alloc(), TABLE)?;
    let selector = Selector::new(rt.alloc(), &tally, Selection::new(2, 66))?;
    for reads in 0..=TWO.first.len() {
        assert_read_refused(&rt, &selector, (reads, 100), Side::First);
        assert_read_refused(&rt, &selector, (100, reads), Side::Second);
        assert_read_refused(&rt, &selector, (reads, reads), Side::First);
    }
    Ok(())
}

// Asserts that a read of this side fails, if so many of each side succeed, and that whole pairs were written.
fn assert_read_refused<H: Abort + AllocGlobal>(
    rt: &H,
    selector: &Selector<'_>,
    reads: (usize, usize),
    side: Side,
) {
    let selection = PairSelection::new(selector, PairRule::All, 1 << 36);
    let refused = Err(PairFault::Reads(side, FastxFault::Read));
    let mut sink = ToVec::new(Vec::new(rt.alloc()));
    let mut sources = slow_sources(reads.0, reads.1);
    let answer = pairs_into_one(rt.alloc(), &mut sources, &mut sink, &selection);
    assert_same(rt, reads.0, &answer, &refused);
    assert_whole(rt, (sink.as_slice(), b""), (BOTH, b""));
    let mut sinks = Sides {
        first: ToVec::new(Vec::new(rt.alloc())),
        second: ToVec::new(Vec::new(rt.alloc())),
    };
    let mut sources = slow_sources(reads.0, reads.1);
    let answer = pairs_into_two(rt.alloc(), &mut sources, &mut sinks, &selection);
    assert_same(rt, reads.0, &answer, &refused);
    let written = (sinks.first.as_slice(), sinks.second.as_slice());
    assert_whole(rt, written, (ONE, MATE));
}

// Asserts that these texts of one pair were written, or nothing.
fn assert_whole<H: Abort>(rt: &H, written: (&[u8], &[u8]), texts: (&[u8], &[u8])) {
    if !written.0.is_empty() || !written.1.is_empty() {
        assert_items(rt, "first", written.0, texts.0);
        assert_items(rt, "second", written.1, texts.1);
    }
}

// A writer's room, and whether it flushes.
type Room = (usize, bool);

// A room for all that is written.
const ENOUGH: Room = (100, true);

// What is returned if a read of a pair has to be solid, by whether all was written.
fn answer_if(is_written: bool) -> Result<[u64; 5], PairFault> {
    if is_written {
        Ok([74, 8, 6, 10, 5])
    } else {
        Err(PairFault::Write)
    }
}

// Asserts what a writer with this room takes of both reads of each pair.
fn assert_room<H: Abort + AllocGlobal>(
    rt: &H,
    selector: &Selector<'_>,
    room: Room,
) -> Result<(), AllocError> {
    let selection = PairSelection::new(selector, PairRule::Any, 1 << 36);
    let mut sources = sources_of(FIRST, SECOND);
    let mut sink = narrow_writer(rt.alloc(), room.0, room.1)?;
    let answer = pairs_into_one(rt.alloc(), &mut sources, &mut sink, &selection);
    let taken = sink.into_inner().bytes;
    let count = room.0.min(ANY_BOTH.len());
    let is_written = count == ANY_BOTH.len() && room.1;
    assert_same(rt, room.0, &answer, &answer_if(is_written));
    assert_items(rt, room.0, taken.as_slice(), &ANY_BOTH[..count]);
    Ok(())
}

// The result of a selection of pairs, and what the writer of the first reads and that of their mates took.
type Taken = (Result<[u64; 5], PairFault>, Vec<u8>, Vec<u8>);

// What two writers with these rooms take.
fn take_apart(
    alloc: Global,
    selector: &Selector<'_>,
    first: Room,
    second: Room,
) -> Result<Taken, AllocError> {
    let selection = PairSelection::new(selector, PairRule::Any, 1 << 36);
    let mut sources = sources_of(FIRST, SECOND);
    let mut sinks = Sides {
        first: narrow_writer(alloc, first.0, first.1)?,
        second: narrow_writer(alloc, second.0, second.1)?,
    };
    let answer = pairs_into_two(alloc, &mut sources, &mut sinks, &selection);
    let firsts = sinks.first.into_inner().bytes;
    let mates = sinks.second.into_inner().bytes;
    Ok((answer, firsts, mates))
}

// Asserts that a writer with this room took what it could of its text, and the other one a prefix of its own, which is
// whole if all was written.
fn assert_taken<H: Abort>(
    rt: &H,
    room: Room,
    answer: &Result<[u64; 5], PairFault>,
    narrow: (&[u8], &[u8]),
    other: (&[u8], &[u8]),
) {
    let count = room.0.min(narrow.1.len());
    let is_written = count == narrow.1.len() && room.1;
    assert_same(rt, room.0, answer, &answer_if(is_written));
    assert_items(rt, room.0, narrow.0, &narrow.1[..count]);
    assert_same(rt, room.0, &other.1.starts_with(other.0), &true);
    if is_written {
        assert_items(rt, room.0, other.0, other.1);
    }
}

// Asserts what a writer with this room takes of the first reads, and what it takes of their mates.
fn assert_room_apart<H: Abort + AllocGlobal>(
    rt: &H,
    selector: &Selector<'_>,
    room: Room,
) -> Result<(), AllocError> {
    let (answer, firsts, mates) = take_apart(rt.alloc(), selector, room, ENOUGH)?;
    let first = (firsts.as_slice(), ANY_FIRSTS);
    let second = (mates.as_slice(), ANY_MATES);
    assert_taken(rt, room, &answer, first, second);
    let (answer, firsts, mates) = take_apart(rt.alloc(), selector, ENOUGH, room)?;
    let first = (firsts.as_slice(), ANY_FIRSTS);
    let second = (mates.as_slice(), ANY_MATES);
    assert_taken(rt, room, &answer, second, first);
    Ok(())
}

#[test]
fn writers_without_room(rt: HostRuntime) -> Result<(), Fail> {
    let tally = table_of(rt.alloc(), TABLE)?;
    let selector = Selector::new(rt.alloc(), &tally, Selection::new(2, 66))?;
    for room in 0..=ANY_BOTH.len() {
        assert_room(&rt, &selector, (room, true))?;
        assert_room_apart(&rt, &selector, (room, true))?;
    }
    assert_room(&rt, &selector, (100, false))?;
    assert_room_apart(&rt, &selector, (100, false))?;
    Ok(())
}

// Run with each growth refused in turn: then it ends with that refusal, and nothing or a whole pair was written.
#[test]
fn memory_or_the_pairs(rt: HostRuntime) -> Result<(), AllocError> {
    let tally = read_if_memory(&rt, TABLE)?;
    let selector = Selector::new(rt.alloc(), &tally, Selection::new(2, 66))?;
    let selection = PairSelection::new(&selector, PairRule::All, 1 << 36);
    let mut sources = slow_sources(100, 100);
    let mut sinks = Sides {
        first: narrow_writer(rt.alloc(), 100, true)?,
        second: narrow_writer(rt.alloc(), 100, true)?,
    };
    let answer = pairs_into_two(rt.alloc(), &mut sources, &mut sinks, &selection);
    let firsts = sinks.first.into_inner().bytes;
    let mates = sinks.second.into_inner().bytes;
    if let Err(fault) = answer {
        let is_memory = matches!(fault, PairFault::Reads(_, FastxFault::Memory));
        assert_same(&rt, "memory", &is_memory, &true);
        assert_whole(&rt, (firsts.as_slice(), mates.as_slice()), (ONE, MATE));
        return Err(AllocError);
    }
    assert_same(&rt, "answer", &answer, &Ok([36, 4, 4, 4, 4]));
    assert_items(&rt, "first", firsts.as_slice(), TWO.first);
    assert_items(&rt, "second", mates.as_slice(), TWO.second);
    Ok(())
}
