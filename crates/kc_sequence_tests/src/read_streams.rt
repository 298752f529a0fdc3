//! Streams that give and take bytes slowly, are interrupted, and fail.
use crate::assertions::{assert_items, assert_same};
use kc_gzip::{Intake, TakeFault};
use kc_io::{Failed, FromBytes, FromRead, Sink, Source, ToVec, ToWrite, write_all, write_out};
use std::alloc::Global;
use std::io;
use std::io::{Read, Write};
use std::process::Abort;
use std::test::Fail;

fn error_of(kind: io::ErrorKind) -> io::Error {
    io::Error::from(kind)
}

// A reader that gives one byte at a time, and fails if this many are left. If it is interrupted, it is so before each.
#[derive(Drop)]
pub(crate) struct Slow<'a> {
    left: &'a [u8],
    fails_with: usize,
    is_interrupted: bool,
    is_ready: bool,
}

impl Read for Slow<'_> {
    fn read(&mut self, buf: &mut [u8]) -> io::Result<usize> {
        self.is_ready = !self.is_ready;
        if self.is_interrupted && self.is_ready {
            return Err(error_of(io::ErrorKind::Interrupted));
        }
        if self.left.len() == self.fails_with {
            return Err(error_of(io::ErrorKind::Other));
        }
        match (self.left, buf) {
            ([first, rest @ ..], [place, ..]) => {
                *place = *first;
                self.left = rest;
                Ok(1)
            }
            _ => Ok(0),
        }
    }
}

// A source of such a reader.
pub(crate) fn slow_source(
    bytes: &[u8],
    fails_with: usize,
    is_interrupted: bool,
) -> FromRead<Slow<'_>> {
    FromRead::new(Slow {
        left: bytes,
        fails_with,
        is_interrupted,
        is_ready: false,
    })
}

// A writer that takes at most three bytes at a time, is interrupted before each call, and fails or takes none once it
// has as many as it has room for.
#[derive(Drop)]
struct Narrow {
    bytes: Vec<u8>,
    room: usize,
    is_ready: bool,
    takes_none: bool,
    flushes: bool,
}

impl Write for Narrow {
    fn write(&mut self, buf: &[u8]) -> io::Result<usize> {
        self.is_ready = !self.is_ready;
        if self.is_ready {
            return Err(error_of(io::ErrorKind::Interrupted));
        }
        let left = self.room.saturating_sub(self.bytes.len());
        let count = buf.len().min(3).min(left);
        if count == 0 && !self.takes_none {
            return Err(error_of(io::ErrorKind::Other));
        }
        match self.bytes.extend_from_slice(&buf[..count]) {
            Ok(()) => Ok(count),
            Err(_) => Err(error_of(io::ErrorKind::Other)),
        }
    }

    fn flush(&mut self) -> io::Result<()> {
        self.is_ready = !self.is_ready;
        if self.is_ready {
            return Err(error_of(io::ErrorKind::Interrupted));
        }
        if self.flushes {
            return Ok(());
        }
        Err(error_of(io::ErrorKind::Other))
    }
}

// The bytes that are written and read.
const TEXT: &[u8] = b"ACGTACGT";

// An intake that took all of the text, one byte at a time, up to its end.
fn take_slowly(alloc: Global, fails_with: usize, limit: u64) -> Result<Intake, TakeFault> {
    let mut source = slow_source(TEXT, fails_with, true);
    let mut intake = Intake::new(alloc, limit)?;
    for _ in 0..=TEXT.len() {
        if !intake.fill(&mut source)? {
            return Ok(intake);
        }
    }
    // more came than the text has
    Err(TakeFault::TooLong)
}

// With how many bytes left a read fails, a limit, and the fault.
const REFUSED: &[(usize, u64, TakeFault)] = &[
    (0, 8, TakeFault::Read),
    (1, 8, TakeFault::Read),
    (5, 9, TakeFault::Read),
    (8, 8, TakeFault::Read),
    (0, 7, TakeFault::TooLong),
    (usize::MAX, 7, TakeFault::TooLong),
    (usize::MAX, 0, TakeFault::TooLong),
];

#[test]
fn bytes_taken_one_at_a_time(rt: HostRuntime) -> Result<(), Fail> {
    let intake = take_slowly(rt.alloc(), usize::MAX, 8)?;
    assert_items(&rt, "taken", intake.as_slice(), TEXT);
    for (fails_with, limit, want) in REFUSED {
        let fault = take_slowly(rt.alloc(), *fails_with, *limit).err();
        assert_same(&rt, *fails_with, &fault, &Some(*want));
    }
    Ok(())
}

// Asserts that more comes, and that these bytes are there then.
fn assert_fills<H: Abort, S: Source>(rt: &H, intake: &mut Intake, source: &mut S, bytes: &[u8]) {
    assert_same(rt, "fill", &intake.fill(source), &Ok(true));
    assert_items(rt, "bytes", intake.as_slice(), bytes);
}

// The first call takes two bytes, which show whether the source is gzip.
#[test]
fn bytes_used_as_they_come(rt: HostRuntime) -> Result<(), Fail> {
    let mut source = slow_source(TEXT, usize::MAX, true);
    let mut intake = Intake::new(rt.alloc(), 8)?;
    assert_fills(&rt, &mut intake, &mut source, b"AC");
    assert_fills(&rt, &mut intake, &mut source, b"ACG");
    assert!(rt; intake.as_slice().len() >= 2);
    intake.use_up(2);
    assert_items(&rt, "rest", intake.as_slice(), b"G");
    assert_fills(&rt, &mut intake, &mut source, b"GT");
    assert_same(&rt, "skipped", &intake.skip_rest(&mut source), &Ok(4));
    Ok(())
}

#[test]
fn bytes_of_a_slice(rt: HostRuntime) {
    let mut source = FromBytes::new(b"ACGTA");
    let mut buffer = [0u8; 2];
    assert_same(&rt, "read", &source.read(&mut buffer), &Ok(2));
    assert_items(&rt, "bytes", buffer.as_slice(), b"AC");
    assert_same(&rt, "read", &source.read(&mut []), &Ok(0));
    assert_items(&rt, "left", source.as_slice(), b"GTA");
}

// A writer's room, whether it takes none behind that, whether it flushes, and how the writing of the text ends.
const WRITINGS: &[(usize, bool, bool, Result<(), Failed>)] = &[
    (8, false, true, Ok(())),
    (8, false, false, Err(Failed)),
    (7, false, true, Err(Failed)),
    (7, true, true, Err(Failed)),
    (3, true, true, Err(Failed)),
    (1, false, true, Err(Failed)),
    (0, false, true, Err(Failed)),
    (0, true, true, Err(Failed)),
];

#[test]
fn text_written_three_bytes_at_a_time(rt: HostRuntime) {
    for (room, takes_none, flushes, want) in WRITINGS {
        let mut sink = ToWrite::new(Narrow {
            bytes: Vec::new(rt.alloc()),
            room: *room,
            is_ready: false,
            takes_none: *takes_none,
            flushes: *flushes,
        });
        assert_same(&rt, *room, &write_out(&mut sink, TEXT), want);
        let (front, _) = TEXT.split_at((*room).min(TEXT.len()));
        assert_items(&rt, *room, &sink.into_inner().bytes, front);
    }
}

#[test]
fn text_written_to_a_vector(rt: HostRuntime) -> Result<(), Fail> {
    let mut sink = ToVec::new(b">".to_vec(rt.alloc())?);
    assert_same(&rt, "part", &write_all(&mut sink, b"AC"), &Ok(()));
    assert_same(&rt, "whole", &write_out(&mut sink, b"GT"), &Ok(()));
    assert_same(&rt, "write", &sink.write(b"A"), &Ok(1));
    assert_same(&rt, "flush", &sink.flush(), &Ok(()));
    assert_items(&rt, "bytes", sink.as_slice(), b">ACGTA");
    assert_same(&rt, "length", &sink.into_inner().len(), &6);
    Ok(())
}

// Run with each allocation refused in turn: `rt try --test --fail-alloc N`.
#[test]
fn memory_or_the_bytes(rt: HostRuntime) {
    match take_slowly(rt.alloc(), usize::MAX, 8) {
        Ok(intake) => assert_items(&rt, "taken", intake.as_slice(), TEXT),
        Err(fault) => assert_same(&rt, "fault", &fault, &TakeFault::Memory),
    }
    let mut sink = ToVec::new(Vec::new(rt.alloc()));
    match write_out(&mut sink, b"ACGT") {
        Ok(()) => assert_items(&rt, "written", sink.as_slice(), b"ACGT"),
        Err(Failed) => assert_items(&rt, "refused", sink.as_slice(), b""),
    }
}
