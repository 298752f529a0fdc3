//! Tables and reports over streams that give and take few bytes at a time, and fail.
use crate::count_assertions::{assert_items, assert_same};
use crate::merged_tables::text_of;
use crate::report_rows::{strings_of, table_of};
use kc_io::{FromRead, ToWrite};
use kc_report::{
    Dump, ReportFault, TableReading, query, read_table, write_dump, write_histo, write_stats,
    write_table,
};
use kc_tally::Tally;
use std::alloc::{AllocError, Global};
use std::io;
use std::io::{Read, Write};
use std::process::Abort;
use std::test::Fail;

const TABLE: &[u8] = b"KCT 1 3 c\nACG 2\nGTA 1\nEND 2 3\n";

fn failure() -> io::Error {
    io::Error::from(io::ErrorKind::Other)
}

// A reader that gives one byte at a time, and fails after `reads` reads.
#[derive(Drop)]
pub(crate) struct ByteByByte<'a> {
    pub(crate) left: &'a [u8],
    pub(crate) reads: usize,
}

impl Read for ByteByByte<'_> {
    fn read(&mut self, buf: &mut [u8]) -> io::Result<usize> {
        if self.reads == 0 {
            return Err(failure());
        }
        self.reads -= 1;
        match (self.left, buf) {
            ([first, rest @ ..], [place, ..]) => {
                *place = *first;
                self.left = rest;
                Ok(1)
            }
            _ => Ok(0),
        }
    }
}

// The result of reading a text byte by byte, with so many successful reads.
fn read_slowly(alloc: Global, text: &[u8], reads: usize, limit: u64) -> Result<Tally, ReportFault> {
    if limit > 1000 {
        return Err(ReportFault::TableTooLong);
    }
    let slow = ByteByByte { left: text, reads };
    let (tally, _) = read_table(alloc, &mut FromRead::new(slow), limit)?;
    Ok(tally)
}

// A writer with limited room, which takes at most three bytes at a time and then fails. Its vector has that room.
#[derive(Drop)]
pub(crate) struct Narrow {
    pub(crate) bytes: Vec<u8>,
    room: usize,
    flushes: bool,
}

impl Write for Narrow {
    fn write(&mut self, buf: &[u8]) -> io::Result<usize> {
        let left = self.room.saturating_sub(self.bytes.len());
        let count = buf.len().min(3).min(left);
        if count == 0 {
            return Err(failure());
        }
        match self.bytes.extend_from_slice(&buf[..count]) {
            Ok(()) => Ok(count),
            Err(_) => Err(failure()),
        }
    }

    fn flush(&mut self) -> io::Result<()> {
        if self.flushes { Ok(()) } else { Err(failure()) }
    }
}

#[derive(Clone, Copy, Debug, PartialEq, Eq)]
enum Report {
    Table,
    Dump,
    Histogram,
    Statistics,
    Query,
}

fn write_report(
    alloc: Global,
    writer: &mut ToWrite<Narrow>,
    tally: &Tally,
    report: Report,
    asked: &[String],
) -> Result<(), ReportFault> {
    match report {
        Report::Table => write_table(writer, tally, None),
        Report::Dump => write_dump(writer, tally, &Dump::in_lines()),
        Report::Histogram => write_histo(alloc, writer, tally, 1),
        Report::Statistics => write_stats(writer, tally),
        Report::Query => query(writer, tally, asked),
    }
}

const REPORTS: &[(Report, &[u8])] = &[
    (Report::Table, TABLE),
    (Report::Dump, b">2\nACG\n>1\nGTA\n"),
    (Report::Histogram, b"1 1\n2 1\n"),
    (
        Report::Statistics,
        b"Unique:    1\nDistinct:  2\nTotal:     3\nMax_count: 2\n",
    ),
    (Report::Query, b"ACG 2\nAAA 0\n"),
];

// A narrow writer, if there is memory.
pub(crate) fn narrow_writer(
    alloc: Global,
    room: usize,
    flushes: bool,
) -> Result<ToWrite<Narrow>, AllocError> {
    let bytes = Vec::with_capacity(alloc, 100)?;
    Ok(ToWrite::new(Narrow {
        bytes,
        room,
        flushes,
    }))
}

// The writing of a report: its writer's room, whether the writer flushes, how it ends, and what the writer took.
#[derive(Drop)]
struct Writing<'a> {
    report: Report,
    room: usize,
    flushes: bool,
    outcome: Result<(), ReportFault>,
    taken: &'a [u8],
}

// Asserts that a report is written like this.
fn assert_written<H: Abort + AllocGlobal>(rt: &H, writing: &Writing<'_>) -> Result<(), Fail> {
    let alloc = rt.alloc();
    let (report, room) = (writing.report, writing.room);
    let tally = table_of(alloc, TABLE)?;
    let asked = strings_of(alloc, &["CGT", "aaa"])?;
    let mut sink = narrow_writer(alloc, room, writing.flushes)?;
    let outcome = write_report(alloc, &mut sink, &tally, report, &asked);
    let bytes = sink.into_inner().bytes;
    assert_same(rt, room, &outcome, &writing.outcome);
    assert_items(rt, room, bytes.as_slice(), writing.taken);
    Ok(())
}

#[test]
fn a_writer_without_room_has_a_beginning(rt: HostRuntime) -> Result<(), Fail> {
    for (report, text) in REPORTS {
        for room in 0..=text.len() {
            let outcome = if room < text.len() {
                Err(ReportFault::Write)
            } else {
                Ok(())
            };
            let writing = Writing {
                report: *report,
                room,
                flushes: true,
                outcome,
                taken: &text[..room],
            };
            assert_written(&rt, &writing)?;
        }
    }
    Ok(())
}

#[test]
fn a_failing_flush_has_the_whole_text(rt: HostRuntime) -> Result<(), Fail> {
    for (report, text) in REPORTS {
        let writing = Writing {
            report: *report,
            room: text.len(),
            flushes: false,
            outcome: Err(ReportFault::Write),
            taken: *text,
        };
        assert_written(&rt, &writing)?;
    }
    Ok(())
}

// Asserts that a text that is read byte by byte is refused with this fault.
fn assert_refused<H: Abort + AllocGlobal>(
    rt: &H,
    text: &[u8],
    reads: usize,
    limit: u64,
    want: ReportFault,
) {
    let fault = read_slowly(rt.alloc(), text, reads, limit).err();
    assert_same(rt, text.len(), &fault, &Some(want));
}

#[test]
fn fronts_of_a_table_byte_by_byte(rt: HostRuntime) -> Result<(), ReportFault> {
    for count in 0..TABLE.len() {
        let want = if count < 10 {
            ReportFault::BadHeader
        } else {
            ReportFault::BadEnd
        };
        assert_refused(&rt, &TABLE[..count], usize::MAX, 100, want);
    }
    let tally = read_slowly(rt.alloc(), TABLE, usize::MAX, 30)?;
    assert_same(&rt, "total", &tally.total(), &3);
    assert_same(&rt, "rows", &tally.row_count(), &2);
    let more = b"KCT 1 3 c\nACG 2\nGTA 1\nEND 2 3\n\n";
    assert_refused(&rt, more, usize::MAX, 100, ReportFault::BadEnd);
    Ok(())
}

// Tables, and texts with a fault before their end.
const TEXTS: &[&[u8]] = &[
    TABLE,
    b"KCT 2 3 c\nACG 2\nGTA 1\nEND 2 3\n",
    b"KCT 1 3 c\nGTA 1\nACG 2\nEND 2 3\n",
    b"KCT 1 3 c\nACG 2\nEND 2 3\nGTA 1\n",
];

// The end takes one read more than there are bytes.
#[test]
fn every_failed_read(rt: HostRuntime) -> Result<(), ReportFault> {
    for text in TEXTS {
        for reads in 0..=text.len() {
            assert_refused(&rt, *text, reads, 100, ReportFault::TableRead);
        }
        for limit in 0..text.len() as u64 {
            assert_refused(&rt, *text, usize::MAX, limit, ReportFault::TableTooLong);
        }
    }
    let tally = read_slowly(rt.alloc(), TABLE, TABLE.len() + 1, 100)?;
    assert_same(&rt, "total", &tally.total(), &3);
    Ok(())
}

// How many rows a text gives byte by byte, with so many successful reads, and the fault after them.
fn rows_slowly(
    alloc: Global,
    text: &[u8],
    reads: usize,
    limit: u64,
) -> Result<(u64, Option<ReportFault>), ReportFault> {
    let mut source = FromRead::new(ByteByByte { left: text, reads });
    let mut reading = TableReading::open(alloc, &mut source, limit)?;
    let mut rows = 0u64;
    for _ in 0..9 {
        match reading.next_row(&mut source) {
            Ok(Some(_)) => rows = rows.saturating_add(1),
            Ok(None) => return Ok((rows, None)),
            Err(fault) => {
                let again = reading.next_row(&mut source).err();
                return Ok((rows, again.filter(|it| *it == fault)));
            }
        }
    }
    Ok((rows, None))
}

// A row is given as soon as its line is there.
#[test]
fn rows_byte_by_byte(rt: HostRuntime) -> Result<(), ReportFault> {
    for count in 0..=TABLE.len() {
        let rows = match count {
            0..16 => 0,
            16..22 => 1,
            _ => 2,
        };
        let failed = Some(ReportFault::TableRead);
        let too_long = Some(ReportFault::TableTooLong);
        if count < 10 {
            assert_same(
                &rt,
                count,
                &rows_slowly(rt.alloc(), TABLE, count, 100).err(),
                &failed,
            );
            continue;
        }
        let got = rows_slowly(rt.alloc(), TABLE, count, 100)?;
        assert_same(&rt, count, &got, &(rows, failed));
        if count < TABLE.len() {
            let got = rows_slowly(rt.alloc(), TABLE, usize::MAX, count as u64)?;
            assert_same(&rt, count, &got, &(rows, too_long));
        }
    }
    let got = rows_slowly(rt.alloc(), TABLE, TABLE.len() + 1, 100)?;
    assert_same(&rt, "rows", &got, &(2, None));
    Ok(())
}

// What Python's `gzip.compress(TABLE, 9, mtime=0)` makes.
const GZIPPED: &[u8] = b"\x1f\x8b\x08\x00\x00\x00\x00\x00\x02\x03\xf3v\x0eQ0T0V\
    H\xe6rtvW0\xe2r\x0fqT0\xe4r\xf5sQ0R0\xe6\x02\x00\xa2M<6\x1e\x00\x00\x00";

// The same of a table whose rows are not in order.
const GZIPPED_BAD_ROW: &[u8] = b"\x1f\x8b\x08\x00\x00\x00\x00\x00\x02\x03\xf3v\x0eQ0T0V\
    H\xe6r\x0fqT0\xe4rtvW0\xe2r\xf5sQ0R0\xe6\x02\x00\x96\x9dk\xf9\x1e\x00\x00\x00";

const GZIPS: &[&[u8]] = &[GZIPPED, GZIPPED_BAD_ROW];

// A gzipped table has the rows of its text, and the limit is one of the decompressed bytes.
#[test]
fn gzipped_table_byte_by_byte(rt: HostRuntime) -> Result<(), ReportFault> {
    let tally = read_slowly(rt.alloc(), GZIPPED, usize::MAX, 30)?;
    let text = text_of(rt.alloc(), &tally, None)?;
    assert_items(&rt, "table", text.as_slice(), TABLE);
    for limit in 0..30 {
        assert_refused(&rt, GZIPPED, usize::MAX, limit, ReportFault::TableTooLong);
    }
    assert_refused(&rt, GZIPPED_BAD_ROW, usize::MAX, 30, ReportFault::BadRow(3));
    Ok(())
}

// Gzip that is cut short, or a read that failed, is reported before any fault of the text.
#[test]
fn fronts_of_a_gzipped_table(rt: HostRuntime) -> Result<(), ReportFault> {
    for gzip in GZIPS {
        for count in 2..gzip.len() {
            assert_refused(&rt, &gzip[..count], usize::MAX, 30, ReportFault::ShortGzip);
        }
        for reads in 0..=gzip.len() {
            assert_refused(&rt, *gzip, reads, 30, ReportFault::TableRead);
        }
    }
    let rows = rows_slowly(rt.alloc(), &GZIPPED[..49], usize::MAX, 30)?;
    assert_same(&rt, "rows", &rows, &(2, Some(ReportFault::ShortGzip)));
    Ok(())
}

// These have another checksum, another length, another method, or something after them.
const BROKEN: &[&[u8]] = &[
    b"\x1f\x8b\x08\x00\x00\x00\x00\x00\x02\x03\xf3v\x0eQ0T0V\
        H\xe6rtvW0\xe2r\x0fqT0\xe4r\xf5sQ0R0\xe6\x02\x00\xa3M<6\x1e\x00\x00\x00",
    b"\x1f\x8b\x08\x00\x00\x00\x00\x00\x02\x03\xf3v\x0eQ0T0V\
        H\xe6rtvW0\xe2r\x0fqT0\xe4r\xf5sQ0R0\xe6\x02\x00\xa2M<6\x1f\x00\x00\x00",
    b"\x1f\x8b\x09\x00\x00\x00\x00\x00\x02\x03\xf3v\x0eQ0T0V\
        H\xe6rtvW0\xe2r\x0fqT0\xe4r\xf5sQ0R0\xe6\x02\x00\xa2M<6\x1e\x00\x00\x00",
    b"\x1f\x8b\x08\x00\x00\x00\x00\x00\x02\x03\xf3v\x0eQ0T0V\
        H\xe6rtvW0\xe2r\x0fqT0\xe4r\xf5sQ0R0\xe6\x02\x00\xa2M<6\x1e\x00\x00\x00K",
    b"\x1f\x8b\x08\x00\x00\x00\x00\x00\x02\x03\xf3v\x0eQ0T0V\
        H\xe6r\x0fqT0\xe4rtvW0\xe2r\xf5sQ0R0\xe6\x02\x00\x97\x9dk\xf9\x1e\x00\x00\x00",
];

#[test]
fn broken_gzip_of_a_table(rt: HostRuntime) {
    for gzip in BROKEN {
        assert_refused(&rt, *gzip, usize::MAX, 30, ReportFault::BrokenGzip);
    }
}

// The tally of a table text. Asserts that it is refused only for lack of memory.
pub(crate) fn read_if_memory<H: Abort + AllocGlobal>(
    rt: &H,
    text: &[u8],
) -> Result<Tally, AllocError> {
    match table_of(rt.alloc(), text) {
        Ok(tally) => Ok(tally),
        Err(fault) => {
            assert_same(rt, "fault", &fault, &ReportFault::Memory);
            Err(AllocError)
        }
    }
}

// Run with each growth refused in turn (tests/memory.sh): then it ends with that refusal, and nothing was written.
#[test]
fn memory_or_the_report(rt: HostRuntime) -> Result<(), AllocError> {
    let text = b"KCT 1 2 s\nAA 1\nAC 1\nAG 1\nAT 1\nCA 2\nCC 1\nCG 1\nCT 1\nGA 1\nEND 9 10\n";
    let mut sink = narrow_writer(rt.alloc(), 100, true)?;
    let tally = read_if_memory(&rt, text)?;
    let outcome = write_histo(rt.alloc(), &mut sink, &tally, 20_000);
    let written = sink.into_inner().bytes;
    if let Err(fault) = outcome {
        assert_same(&rt, "fault", &fault, &ReportFault::Memory);
        assert_same(&rt, "written", &written.len(), &0);
        return Err(AllocError);
    }
    assert_items(&rt, "written", written.as_slice(), b"1 8\n2 1\n");
    Ok(())
}
