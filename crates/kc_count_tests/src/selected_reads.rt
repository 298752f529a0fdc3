//! Reads that are selected by their words and a table.
use crate::count_assertions::{assert_items, assert_same};
use crate::refusing_streams::narrow_writer;
use crate::report_rows::table_of;
use kc_fastx::{FastxFault, SeqRead, parse};
use kc_io::{FromBytes, Sink, ToVec};
use kc_select::{SelectFault, Selected, Selection, SelectionCounts, Selector, select};
use kc_tally::Tally;
use std::alloc::{AllocError, Global};
use std::process::Abort;
use std::test::Fail;

// The table of words of three bases in which ACG and CGT occur twice, and GTA once.
const TABLE: &[u8] = b"KCT 1 3 s\nACG 2\nCGT 2\nGTA 1\nEND 3 5\n";

// The same on both strands.
const BOTH: &[u8] = b"KCT 1 3 c\nACG 4\nGTA 1\nEND 2 5\n";

// A selection of this least count, share and floor. A test without it fails.
fn made_selection(least: u64, share: u64, floor: u8) -> Result<Selection, Fail> {
    if share > 100 || floor < 33 || floor > 126 {
        return Err(Fail::from("no selection"));
    }
    Ok(Selection::new(least, share).with_floor(floor))
}

// A table, a read, the least and the greatest count of a solid word, the share, the floor, and whether the read is
// solid.
type Solid = (&'static [u8], &'static [u8], (u64, u64), u64, u8, bool);

const ANY: u64 = u64::MAX;

const SOLID: &[Solid] = &[
    // ACG 2, CGT 2, GTA 1: two of three words are solid at 2, which is 66 of a hundred, and not 67
    (TABLE, b">r\nACGTA\n", (2, ANY), 66, b'!', true),
    (TABLE, b">r\nACGTA\n", (2, ANY), 67, b'!', false),
    (TABLE, b">r\nACGTA\n", (3, ANY), 0, b'!', true),
    (TABLE, b">r\nACGTA\n", (1, 2), 100, b'!', true),
    (TABLE, b">r\nACGTA\n", (1, 1), 100, b'!', false),
    // small letters count, as they do in a count, and a word that isn't in the table has the count 0
    (TABLE, b">r\nacg\n", (2, ANY), 100, b'!', true),
    (TABLE, b">r\nAAA\n", (0, 0), 100, b'!', true),
    (TABLE, b">r\nAAA\n", (1, ANY), 1, b'!', false),
    // TAC is GTA on the other strand: not in the first table, and once in the second
    (TABLE, b">r\nTAC\n", (1, ANY), 100, b'!', false),
    (BOTH, b">r\nTAC\n", (1, ANY), 100, b'!', true),
    // an N breaks words; a read without words has none that isn't solid
    (TABLE, b">r\nACGNTTT\n", (2, ANY), 50, b'!', true),
    (TABLE, b">r\nACNGT\n", (9, ANY), 100, b'!', true),
    // the last base is below the floor, and with it TAC is no word; a quality at the floor passes
    (TABLE, b"@r\nACGTAC\n+\nIIIII!\n", (2, ANY), 66, b'!', false),
    (TABLE, b"@r\nACGTAC\n+\nIIIII!\n", (2, ANY), 66, b'"', true),
    (
        TABLE,
        b"@r\nACGTAC\n+\nIIIII\"\n",
        (2, ANY),
        66,
        b'"',
        false,
    ),
];

#[test]
fn solid_reads(rt: HostRuntime) -> Result<(), Fail> {
    for (table, text, (least, most), share, floor, want) in SOLID {
        let tally = table_of(rt.alloc(), *table)?;
        let selection = made_selection(*least, *share, *floor)?.with_most(*most);
        let Ok(reads) = parse(rt.alloc(), *text) else {
            return Err(Fail::from("no read"));
        };
        for read in &reads {
            assert_solid(&rt, &tally, selection, read, *want)?;
        }
    }
    Ok(())
}

// Asserts whether the read is solid by the table, and that the selection of the others has it if it isn't.
fn assert_solid<H: Abort + AllocGlobal>(
    rt: &H,
    tally: &Tally,
    selection: Selection,
    read: &SeqRead,
    want: bool,
) -> Result<(), AllocError> {
    let selector = Selector::new(rt.alloc(), tally, selection)?;
    assert_same(rt, "k", &selector.k(), &tally.k());
    assert_same(rt, "solid", &selector.is_solid(read), &want);
    assert_same(rt, "selected", &selector.is_selected(read), &want);
    let others = Selector::new(rt.alloc(), tally, selection.with_inverted(true))?;
    assert_same(rt, "others", &others.is_selected(read), &!want);
    Ok(())
}

// The result for one read of three words by a table, and what is written of it.
fn select_one_read(alloc: Global, tally: &Tally) -> Result<(Selected, Vec<u8>), Fail> {
    let selection = Selection::new(2, 100).with_floor(b'#');
    let mut source = FromBytes::new(b">r\nACGTA\n");
    let mut sink = ToVec::new(Vec::new(alloc));
    let selector = Selector::new(alloc, &tally, selection)?;
    let selected = select(alloc, &mut source, 1 << 36, &mut sink, &selector)?;
    Ok((selected, sink.into_inner()))
}

// The result for one read of which not all words are solid.
const ONE_READ: Result<[u64; 5], SelectFault> = Ok([9, 1, 0, 3, 2]);

#[test]
fn one_read_of_three_words(rt: HostRuntime) -> Result<(), Fail> {
    let tally = table_of(rt.alloc(), TABLE)?;
    let (selected, written) = select_one_read(rt.alloc(), &tally)?;
    assert_same(&rt, "numbers", &numbers_of(Ok(selected)), &ONE_READ);
    assert_items(&rt, "written", written.as_slice(), b"");
    Ok(())
}

#[test]
fn a_selection_is_what_it_was_made_of(rt: HostRuntime) -> Result<(), Fail> {
    let usual = Selection::new(7, 100);
    assert_same(&rt, "floor", &usual.floor(), &33);
    assert_same(&rt, "inverted", &usual.is_inverted(), &false);
    assert_same(&rt, "profiled", &usual.is_profiled(), &false);
    assert_same(&rt, "most", &usual.most(), &u64::MAX);
    assert_same(&rt, "most", &usual.with_most(9).most(), &9);
    let selection = usual.with_floor(126).with_inverted(true);
    assert_same(&rt, "least", &selection.least(), &7);
    assert_same(&rt, "share", &selection.share(), &100);
    assert_same(&rt, "floor", &selection.floor(), &126);
    assert_same(&rt, "inverted", &selection.is_inverted(), &true);
    Ok(())
}

#[test]
fn counts_are_added(rt: HostRuntime) -> Result<(), Fail> {
    let one = SelectionCounts {
        reads: 3,
        kept: 2,
        words: 7,
        solid: 4,
    };
    let other = SelectionCounts {
        reads: 1,
        kept: 0,
        words: 20,
        solid: 0,
    };
    let both = one.plus(SelectionCounts::none()).plus(other);
    let want = SelectionCounts {
        reads: 4,
        kept: 2,
        words: 27,
        solid: 4,
    };
    assert_same(&rt, "both", &both, &want);
    Ok(())
}

// The bytes, the reads, those that are kept, their words and the solid ones.
fn numbers_of(answer: Result<Selected, SelectFault>) -> Result<[u64; 5], SelectFault> {
    let selected = answer?;
    let counts = selected.counts;
    Ok([
        selected.bytes,
        counts.reads,
        counts.kept,
        counts.words,
        counts.solid,
    ])
}

// The result of selecting from a text, which may have a fault of the reads.
fn answer_of<W: Sink>(
    alloc: Global,
    selector: &Selector<'_>,
    text: &[u8],
    limit: u64,
    sink: &mut W,
) -> Result<[u64; 5], SelectFault> {
    if limit > 1_000_000 {
        return Err(SelectFault::Write);
    }
    let mut source = FromBytes::new(text);
    numbers_of(select(alloc, &mut source, limit, sink, selector))
}

const FASTA: &[u8] = b"\n>one two\r\nACGTA\n\n>b\nAAA\n>c>c\nac\ngta";

const FASTQ: &[u8] = b"@q x\nACG\nTA\n+q x\nIII@I\n\n@r\nTTT\n+\n!!!\n@\nACGT\n+\n+++~\n";

// A table, the selection by it, a text of at most so many bytes, what is returned, and what is written of it.
type Choice = (
    &'static [u8],
    Wanted,
    &'static [u8],
    u64,
    Result<[u64; 5], SelectFault>,
    &'static [u8],
);

// The reads of which 66 of a hundred words are there twice, the others, or profiles by qualities from this one on.
#[derive(Clone, Copy)]
enum Wanted {
    Solid,
    Others,
    Profiles(u8),
}

const CHOICES: &[Choice] = &[
    (TABLE, Wanted::Solid, b"", 0, Ok([0, 0, 0, 0, 0]), b""),
    (TABLE, Wanted::Solid, b"\n\r\n", 9, Ok([3, 0, 0, 0, 0]), b""),
    // three words of which two are solid, one that isn't, and three of which two are
    (
        TABLE,
        Wanted::Solid,
        FASTA,
        100,
        Ok([36, 3, 2, 7, 4]),
        b">one two\nACGTA\n>c>c\nacgta\n",
    ),
    (
        TABLE,
        Wanted::Others,
        FASTA,
        100,
        Ok([36, 3, 1, 7, 4]),
        b">b\nAAA\n",
    ),
    // a read shorter than a word is kept, and so is one without bases
    (
        TABLE,
        Wanted::Solid,
        b">s\nAC\n>t\n",
        100,
        Ok([9, 2, 2, 0, 0]),
        b">s\nAC\n>t\n\n",
    ),
    (
        TABLE,
        Wanted::Solid,
        FASTQ,
        100,
        Ok([51, 3, 2, 6, 4]),
        b"@q x\nACGTA\n+\nIII@I\n@\nACGT\n+\n+++~\n",
    ),
    (
        TABLE,
        Wanted::Others,
        FASTQ,
        100,
        Ok([51, 3, 1, 6, 4]),
        b"@r\nTTT\n+\n!!!\n",
    ),
    // the reads before a fault are written
    (
        TABLE,
        Wanted::Solid,
        b">a\nACG\n>b\nA@C\n>c\nACG\n",
        100,
        Err(SelectFault::Reads(FastxFault::BadBase(4))),
        b">a\nACG\n",
    ),
    (
        TABLE,
        Wanted::Solid,
        b"@q\nACG\n+\nIII\nxx\n",
        100,
        Err(SelectFault::Reads(FastxFault::BadStart(5))),
        b"@q\nACG\n+\nIII\n",
    ),
    (
        TABLE,
        Wanted::Solid,
        b">a\nACG\n",
        6,
        Err(SelectFault::Reads(FastxFault::TooLong)),
        b"",
    ),
    // ACG and CGT have the same count, and GTA another
    (
        TABLE,
        Wanted::Profiles(b'!'),
        b">r one\nACGTA\n",
        100,
        Ok([13, 1, 1, 3, 3]),
        b"r\t0\t2\t2\nr\t2\t3\t1\n",
    ),
    // words that the table lacks have the count 0
    (
        TABLE,
        Wanted::Profiles(b'!'),
        b">r\tone\nacgttt\n",
        100,
        Ok([14, 1, 1, 4, 4]),
        b"r\t0\t2\t2\nr\t2\t4\t0\n",
    ),
    // no run goes over an N: the words with it have no line
    (
        TABLE,
        Wanted::Profiles(b'!'),
        b">r\nACGNACG\n",
        100,
        Ok([11, 1, 1, 2, 2]),
        b"r\t0\t1\t2\nr\t4\t5\t2\n",
    ),
    // TAC is GTA on the other strand, and CGT is ACG
    (
        BOTH,
        Wanted::Profiles(b'!'),
        b">r\nTACGT\n",
        100,
        Ok([9, 1, 1, 3, 3]),
        b"r\t0\t1\t1\nr\t1\t3\t4\n",
    ),
    // records without words have no lines, and a title may be empty
    (
        TABLE,
        Wanted::Profiles(b'!'),
        b">s\nAC\n>t\n>\nACG\n",
        100,
        Ok([15, 3, 3, 1, 1]),
        b"\t0\t1\t2\n",
    ),
    // a base of a low quality breaks words
    (
        TABLE,
        Wanted::Profiles(b'#'),
        b"@q\nACGTA\n+\nIII!I\n",
        100,
        Ok([17, 1, 1, 1, 1]),
        b"q\t0\t1\t2\n",
    ),
    // the records before a fault are written
    (
        TABLE,
        Wanted::Profiles(b'!'),
        b">a\nACG\n>b\nA@C\n",
        100,
        Err(SelectFault::Reads(FastxFault::BadBase(4))),
        b"a\t0\t1\t2\n",
    ),
];

#[test]
fn reads_that_are_written(rt: HostRuntime) -> Result<(), Fail> {
    for row in CHOICES {
        let tally = table_of(rt.alloc(), row.0)?;
        assert_choice(&rt, &tally, row)?;
    }
    Ok(())
}

// The selection that is wanted.
fn selection_of(wanted: Wanted) -> Result<Selection, Fail> {
    match wanted {
        Wanted::Solid => Ok(Selection::new(2, 66)),
        Wanted::Others => Ok(Selection::new(2, 66).with_inverted(true)),
        Wanted::Profiles(floor) if floor >= 33 && floor <= 126 => {
            Ok(Selection::profiles().with_floor(floor))
        }
        Wanted::Profiles(_) => Err(Fail::from("no selection")),
    }
}

// Asserts what is returned and what is written of the text of a row.
fn assert_choice<H: Abort + AllocGlobal>(rt: &H, tally: &Tally, row: &Choice) -> Result<(), Fail> {
    let (_, wanted, text, limit, want, written) = row;
    let selector = Selector::new(rt.alloc(), tally, selection_of(*wanted)?)?;
    let mut sink = ToVec::new(Vec::new(rt.alloc()));
    let answer = answer_of(rt.alloc(), &selector, *text, *limit, &mut sink);
    assert_same(rt, text.len(), &answer, want);
    assert_items(rt, text.len(), sink.as_slice(), *written);
    Ok(())
}

#[test]
fn a_writer_that_fails(rt: HostRuntime) -> Result<(), Fail> {
    let tally = table_of(rt.alloc(), TABLE)?;
    let selector = Selector::new(rt.alloc(), &tally, Selection::new(2, 66))?;
    let mut sink = narrow_writer(rt.alloc(), 0, true)?;
    let answer = answer_of(rt.alloc(), &selector, FASTA, 100, &mut sink);
    assert_same(&rt, "refused", &answer, &Err(SelectFault::Write));
    Ok(())
}
