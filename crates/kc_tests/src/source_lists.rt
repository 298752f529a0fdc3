//! Lists of sources, and sources and writers that give or take little, or fail.
use crate::written_bytes::{assert_bytes, assert_same};
use kc_fastx::{FastxFault, FromBytes, FromRead, Source};
use kc_tool::{Dump, K, Options, Print, ToVec, ToWrite, ToolFault, count_reads, write_fault};
use std::alloc::{AllocError, Global};
use std::io;
use std::io::{Read, Write};
use std::process::Abort;
use std::sync::Wait;
use std::test::Fail;
use std::thread::Threads;

// A reader of some bytes that gives one byte at a time and fails at its n-th read.
#[derive(Drop)]
pub(crate) struct Slow<'a> {
    pub(crate) left: &'a [u8],
    pub(crate) reads_until_failure: usize,
}

impl Read for Slow<'_> {
    fn read(&mut self, buf: &mut [u8]) -> io::Result<usize> {
        if self.reads_until_failure == 0 {
            return Err(io::Error::from(io::ErrorKind::Other));
        }
        self.reads_until_failure -= 1;
        let [first, rest @ ..] = self.left else {
            return Ok(0);
        };
        if buf.is_empty() {
            return Ok(0);
        }
        buf[0] = *first;
        self.left = rest;
        Ok(1)
    }
}

// A writer that takes some bytes and then fails, or takes none; it may fail to hand on what it took.
#[derive(Drop)]
struct Narrow {
    taken: Vec<u8>,
    room: usize,
    is_silent: bool,
    is_stuck: bool,
}

impl Write for Narrow {
    fn write(&mut self, buf: &[u8]) -> io::Result<usize> {
        if self.room == 0 {
            return if self.is_silent {
                Ok(0)
            } else {
                Err(io::Error::from(io::ErrorKind::Other))
            };
        }
        let count = self.room.min(buf.len());
        match self.taken.extend_from_slice(&buf[..count]) {
            Ok(()) => {
                self.room -= count;
                Ok(count)
            }
            Err(_) => Err(io::Error::from(io::ErrorKind::OutOfMemory)),
        }
    }

    fn flush(&mut self) -> io::Result<()> {
        if self.is_stuck {
            return Err(io::Error::from(io::ErrorKind::Other));
        }
        Ok(())
    }
}

// To write the dump of the words of this length in columns.
fn columns(k: u32) -> Result<Options, Fail> {
    let Some(k) = K::new(k) else {
        return Err(Fail::from("no length of a word"));
    };
    Ok(
        Options::new(k)
            .with_print(Print::Dump)
            .with_dump(Dump::in_columns()),
    )
}

// What a count returned, and what it wrote.
#[derive(Drop)]
pub(crate) struct Counted {
    pub(crate) answer: Result<(), ToolFault>,
    pub(crate) written: Vec<u8>,
}

// Asserts that a count returned this and wrote this. A failure shows the number of its row, its reads or its room.
pub(crate) fn assert_counted<H: Abort>(
    rt: &H,
    number: usize,
    counted: &Counted,
    answer: &Result<(), ToolFault>,
    text: &[u8],
) {
    assert_same(rt, number, &counted.answer, answer);
    assert_bytes(rt, number, counted.written.as_slice(), text);
}

// The fault of a source, by its number.
pub(crate) fn fault_of(source: u64, fault: FastxFault) -> ToolFault {
    ToolFault::Fastx { source, fault }
}

// The bytes of these inputs as sources.
pub(crate) fn sources_of<'a>(
    alloc: Global,
    inputs: &[&'a str],
) -> Result<Vec<FromBytes<'a>>, AllocError> {
    let mut sources = Vec::new(alloc);
    add_sources(&mut sources, inputs)?;
    Ok(sources)
}

// Appends the bytes of these inputs to the sources.
fn add_sources<'a>(sources: &mut Vec<FromBytes<'a>>, inputs: &[&'a str]) -> Result<(), AllocError> {
    for input in inputs {
        sources.push(FromBytes::new(input.as_bytes()))?;
    }
    Ok(())
}

// Counts the words of these sources, if a list is given those of the list.
pub(crate) fn counted_of<H: Threads + Wait + Sync, Q: Source + Drop, R: Source + Drop>(
    rt: &H,
    alloc: Global,
    only: Option<Q>,
    sources: Vec<R>,
    options: &Options,
) -> Counted {
    let mut writer = ToVec::new(Vec::new(alloc));
    let answer = count_reads(rt, alloc, only, sources, options, &mut writer);
    let written = writer.into_inner();
    Counted { answer, written }
}

// Counts the words of these inputs.
fn count<H: Threads + Wait + Sync + AllocGlobal>(
    rt: &H,
    inputs: &[&str],
    options: &Options,
) -> Result<Counted, Fail> {
    let alloc = rt.alloc();
    let sources = sources_of(alloc, inputs)?;
    Ok(counted_of(rt, alloc, None::<FromBytes>, sources, options))
}

// Sources, and the dump of their words.
const SOURCES: &[(&[&str], &str)] = &[
    (&[">a\nAC\n", ">b\nCG\n", ""], "AC 1\nCG 1\n"),
    (&[">a\nAC\n", "@q\nCG\n+\nII\n", ""], "AC 1\nCG 1\n"),
    (&["", ">a\nAC", ">b\nAC\n"], "AC 2\n"),
    (&[], ""),
];

#[test]
fn sources_are_read_in_order(rt: HostRuntime) -> Result<(), Fail> {
    let options = columns(2)?;
    for (row, (inputs, text)) in SOURCES.iter().enumerate() {
        let counted = count(&rt, *inputs, &options)?;
        assert_counted(&rt, row, &counted, &Ok(()), text.as_bytes());
    }
    Ok(())
}

// Sources, and the fault that is reported, with the number of its source.
const FAULTY_SOURCES: &[(&[&str], u64, FastxFault)] = &[
    (&[">a\nAC\n", "ACGT\n", "@\n"], 2, FastxFault::BadStart(1)),
    (&[">a\nA C\n", "ACGT\n", ""], 1, FastxFault::BadBase(2)),
    (
        &[">a\nAC\n", ">b\nAC\n", "\n@q\nA"],
        3,
        FastxFault::Truncated(3),
    ),
];

// The first source with a fault decides, whatever the later ones have.
#[test]
fn the_first_faulty_source_is_told(rt: HostRuntime) -> Result<(), Fail> {
    let options = columns(2)?;
    for (row, (inputs, source, fault)) in FAULTY_SOURCES.iter().enumerate() {
        let counted = count(&rt, *inputs, &options)?;
        let told = Err(fault_of(*source, *fault));
        assert_counted(&rt, row, &counted, &told, b"");
    }
    Ok(())
}

// So many reads that some are cut while others are read, with a rest behind them. They have three, four or five bases
// in turn: `ACG`, `ACGT`, `ACGTT`.
fn many_reads(alloc: Global, count: usize, rest: &str) -> Result<Vec<u8>, AllocError> {
    let mut text = Vec::new(alloc);
    for i in 0..count {
        text.extend_from_slice(b">r\n")?;
        text.extend_from_slice(&b"ACGTT"[..3 + i % 3])?;
        text.push(b'\n')?;
    }
    text.extend_from_slice(rest.as_bytes())?;
    Ok(text)
}

// The dump of 70,000 of them: two thirds have a `CGT`, and one third a `GTT`.
const MANY_WORDS: &[u8] = b"ACG 70000\nCGT 46666\nGTT 23333\n";

// No read is lost or cut twice, and a fault behind them has its line, whatever the threads.
#[test]
fn many_reads_are_cut_while_others_are_read(rt: HostRuntime) -> Result<(), Fail> {
    let alloc = rt.alloc();
    let good = many_reads(alloc, 70_000, "")?;
    let faulty = many_reads(alloc, 70_000, ">r\nA C\n")?;
    let told = Err(fault_of(1, FastxFault::BadBase(140_002)));
    for workers in 1..4 {
        let options = columns(3)?.with_workers(workers);
        let mut sources = Vec::new(alloc);
        sources.push(FromBytes::new(&good))?;
        let counted = counted_of(&rt, alloc, None::<FromBytes>, sources, &options);
        assert_counted(&rt, workers as usize, &counted, &Ok(()), MANY_WORDS);
        let mut sources = Vec::new(alloc);
        sources.push(FromBytes::new(&faulty))?;
        let counted = counted_of(&rt, alloc, None::<FromBytes>, sources, &options);
        assert_counted(&rt, workers as usize, &counted, &told, b"");
    }
    Ok(())
}

// Counts the words of a source that gives one byte at a time and fails at its n-th read.
fn count_slowly<H: Threads + Wait + Sync + AllocGlobal>(
    rt: &H,
    reads_until_failure: usize,
) -> Result<Counted, Fail> {
    let alloc = rt.alloc();
    let options = columns(3)?;
    let mut sources = Vec::new(alloc);
    sources.push(FromRead::new(Slow {
        left: b">r1\nACGTA\n",
        reads_until_failure,
    }))?;
    Ok(counted_of(rt, alloc, None::<FromBytes>, sources, &options))
}

// The dump of `>r1\nACGTA\n`.
const DUMP: &[u8] = b"ACG 1\nCGT 1\nGTA 1\n";

// If a read fails, that is returned, and nothing is written; read byte by byte the result is the same.
#[test]
fn slow_and_failing_sources(rt: HostRuntime) -> Result<(), Fail> {
    let failed = Err(fault_of(1, FastxFault::Read));
    for n in 0..11 {
        assert_counted(&rt, n, &count_slowly(&rt, n)?, &failed, b"");
    }
    assert_counted(&rt, 11, &count_slowly(&rt, 11)?, &Ok(()), DUMP);
    Ok(())
}

// Counts the words of a source into such a writer.
fn count_into<H: Threads + Wait + Sync + AllocGlobal>(
    rt: &H,
    room: usize,
    is_silent: bool,
    is_stuck: bool,
) -> Result<Counted, Fail> {
    let alloc = rt.alloc();
    let options = columns(3)?;
    let mut sources = Vec::new(alloc);
    sources.push(FromBytes::new(b">r1\nACGTA\n"))?;
    let mut writer = ToWrite::new(Narrow {
        taken: Vec::new(alloc),
        room,
        is_silent,
        is_stuck,
    });
    let answer = count_reads(rt, alloc, None::<FromBytes>, sources, &options, &mut writer);
    let written = writer.into_inner().taken;
    Ok(Counted { answer, written })
}

// A writer that fails after n bytes, or takes no more, has exactly the first n bytes of the dump.
#[test]
fn narrow_writers(rt: HostRuntime) -> Result<(), Fail> {
    let failed = Err(ToolFault::Write);
    for is_silent in [false, true] {
        for room in 0..DUMP.len() {
            let counted = count_into(&rt, room, is_silent, false)?;
            assert_counted(&rt, room, &counted, &failed, &DUMP[..room]);
        }
    }
    let counted = count_into(&rt, DUMP.len(), false, false)?;
    assert_counted(&rt, DUMP.len(), &counted, &Ok(()), DUMP);
    // a writer that took all and can't hand it on is a failing one
    let counted = count_into(&rt, 100, false, true)?;
    assert_counted(&rt, 100, &counted, &failed, DUMP);
    Ok(())
}

// Faults of the seventh source, their lines, and how they are displayed.
const SOURCE_FAULTS: &[(FastxFault, &str, &str)] = &[
    (
        FastxFault::BadStart(1),
        "kcount: 1: bad start, source 7, line 1\n",
        "bad start, line 1, source 7",
    ),
    (
        FastxFault::BadBase(22),
        "kcount: 2: bad base, source 7, line 22\n",
        "bad base, line 22, source 7",
    ),
    (
        FastxFault::BadQuality(333),
        "kcount: 3: bad quality, source 7, line 333\n",
        "bad quality, line 333, source 7",
    ),
    (
        FastxFault::LongQuality(4),
        "kcount: 4: long quality, source 7, line 4\n",
        "long quality, line 4, source 7",
    ),
    (
        FastxFault::Truncated(5),
        "kcount: 5: truncated, source 7, line 5\n",
        "truncated, line 5, source 7",
    ),
    (
        FastxFault::TooLong,
        "kcount: 6: too long, source 7\n",
        "too long, source 7",
    ),
    (
        FastxFault::Read,
        "kcount: 7: read failed, source 7\n",
        "read failed, source 7",
    ),
    (
        FastxFault::Memory,
        "kcount: 8: no memory\n",
        "no memory, source 7",
    ),
    (
        FastxFault::BrokenGzip,
        "kcount: 71: broken gzip, source 7\n",
        "broken gzip, source 7",
    ),
    (
        FastxFault::ShortGzip,
        "kcount: 72: gzip cut short, source 7\n",
        "gzip cut short, source 7",
    ),
];

// Each fault of a source has its line.
#[test]
fn lines_of_source_faults(rt: HostRuntime) -> Result<(), Fail> {
    for (fault, line, text) in SOURCE_FAULTS {
        let fault = fault_of(7, *fault);
        let mut writer = ToVec::new(Vec::new(rt.alloc()));
        assert_same(&rt, *line, &write_fault(&mut writer, &fault), &Ok(()));
        assert_bytes(&rt, *line, writer.as_slice(), line.as_bytes());
        let displayed = fault.to_string(rt.alloc())?;
        assert_bytes(&rt, *line, displayed.as_bytes(), text.as_bytes());
    }
    Ok(())
}
