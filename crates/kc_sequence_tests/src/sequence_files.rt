//! Worked rows of both formats, and sources that give their bytes slowly or fail.
use crate::assertions::{assert_items, assert_same};
use crate::read_streams::slow_source;
use kc_fastx::{FastxFault, FromBytes, Reads, SeqRead, Source, parse, read_all};
use std::alloc::{AllocError, Global};
use std::process::Abort;
use std::test::Fail;

// Appends the bases of a read to a text, then its qualities after a blank if it has them, and a bar.
fn push_read(text: &mut Vec<u8>, read: &SeqRead) -> Result<(), AllocError> {
    text.extend_from_slice(read.bases())?;
    if let Some(quals) = read.quals() {
        text.push(b' ')?;
        text.extend_from_slice(quals)?;
    }
    Ok(text.push(b'|')?)
}

// Reads as one text.
fn text_of_reads(alloc: Global, reads: &[SeqRead]) -> Result<Vec<u8>, AllocError> {
    let mut text = Vec::new(alloc);
    for read in reads {
        push_read(&mut text, read)?;
    }
    Ok(text)
}

// Asserts that this was returned: the reads as one text, or the text of the fault.
fn assert_shown<H: AllocGlobal + Abort>(
    rt: &H,
    number: usize,
    answer: &Result<Vec<SeqRead>, FastxFault>,
    want: &[u8],
) -> Result<(), AllocError> {
    let got = match answer {
        Ok(reads) => text_of_reads(rt.alloc(), reads)?,
        Err(fault) => format!(in rt.alloc(); "{fault}")?
            .as_bytes()
            .to_vec(rt.alloc())?,
    };
    assert_items(rt, number, got.as_slice(), want);
    Ok(())
}

// What a reader gives of this source up to its end or a fault.
fn collect_reads<S: Source + Drop>(
    alloc: Global,
    source: S,
    limit: u32,
) -> Result<Vec<SeqRead>, FastxFault> {
    let mut reads = Reads::new(alloc, source, u64::from(limit))?;
    let mut given = Vec::new(alloc);
    for _ in 0..limit {
        match reads.next_read() {
            Ok(Some(read)) => given.push(read)?,
            Ok(None) => return Ok(given),
            Err(fault) => return Err(fault),
        }
    }
    Ok(given)
}

// The reads of these bytes, at most this many, if a read fails with so many left. They come one at a time.
fn read_slowly(
    alloc: Global,
    bytes: &[u8],
    fails_with: usize,
    limit: u32,
) -> Result<Vec<SeqRead>, FastxFault> {
    let mut source = slow_source(bytes, fails_with, false);
    let (reads, _count) = read_all(alloc, &mut source, u64::from(limit))?;
    Ok(reads)
}

// Bytes, and what is returned of them.
type Row = (&'static [u8], &'static [u8]);

// Asserts the results of all rows, at once, read by read and byte by byte.
fn assert_rows<H: AllocGlobal + Abort>(rt: &H, rows: &[Row]) -> Result<(), AllocError> {
    let alloc = rt.alloc();
    for (row, (bytes, want)) in rows.iter().enumerate() {
        assert_shown(rt, row, &parse(alloc, *bytes), *want)?;
        let slowly = read_slowly(alloc, *bytes, usize::MAX, 1 << 20);
        assert_shown(rt, row, &slowly, *want)?;
        let given = collect_reads(alloc, slow_source(*bytes, usize::MAX, false), 1 << 20);
        assert_shown(rt, row, &given, *want)?;
    }
    Ok(())
}

const FASTA_ROWS: &[Row] = &[
    (b">r1\nACGTA\n", b"ACGTA|"),
    (b">a\nAC\nGT\r\n>b\n\n>c\nac", b"ACGT||ac|"),
    (b">r\nACNGT\n", b"ACNGT|"),
    (b"", b""),
    (b"\n\r\n\n", b""),
    (b"\r", b""),
    (b"\n\n>r", b"|"),
    (b"\n>r\r\nA.-*z\r", b"A.-*z|"),
    (b">r\nA@C\n", b"bad base, line 2"),
    (b">r\nAC\r\r\n", b"bad base, line 2"),
    (b">r\nAC\n A\n", b"bad base, line 3"),
    (b"\nACGT\n", b"bad start, line 2"),
];

const FASTQ_ROWS: &[Row] = &[
    (b"@q\nACGT\n+\nII!I\n", b"ACGT II!I|"),
    (b"@q\nAC\nGT\n+q\n@I\nII\n", b"ACGT @III|"),
    (b"@q\r\nAC\r\n+\r\n+~\r\n\r\n", b"AC +~|"),
    (b"@q\n\n+\n\n@r\nAC\n+\nII\n", b" |AC II|"),
    (b"@q\nAC\n+\nI\n\nI\n", b"AC II|"),
    (b"\n@q\n+", b" |"),
    (b"@q\nAC\n+\nIII\n", b"long quality, line 4"),
    (b"@q\nAC\n+\nI\nII\n", b"long quality, line 5"),
    (b"@q\nAC\n+\nII \n", b"bad quality, line 4"),
    (b"@q\nAC\n+\nI \n", b"bad quality, line 4"),
    (b"@q\nAC\n+\nI\x7f\n", b"bad quality, line 4"),
    (b"@q\nACGT\n+\nII", b"truncated, line 4"),
    (b"@q\nACGT\n+\nII\n\n\n", b"truncated, line 6"),
    (b"@q\nAC\n+\n#I\n@r\n", b"truncated, line 5"),
    (b"@q\nAC\n+\nII\nxx\n", b"bad start, line 5"),
    (b"@q\n+\nII\n", b"bad start, line 3"),
    (b"@q\nAC\n@x\n+\nIIII\n", b"bad base, line 3"),
    (b" @q\n", b"bad start, line 1"),
    (b"@q\nAC\n+\nII\n>r\nAC\n", b"bad start, line 5"),
];

#[test]
fn rows_of_both_formats(rt: HostRuntime) -> Result<(), AllocError> {
    assert_rows(&rt, FASTA_ROWS)?;
    assert_rows(&rt, FASTQ_ROWS)
}

const FAULTY: &[u8] = b">r\nA@C\n>s\nAC\n";

// Bytes, with how many left a read fails, a limit, and what is returned of them.
const FAILING: &[(&[u8], usize, u32, &[u8])] = &[
    (b">r1\nACGTA\n", 0, 10, b"read failed"),
    (b">r1\nACGTA\n", 1, 10, b"read failed"),
    (b">r1\nACGTA\n", 9, 10, b"read failed"),
    (b">r1\nACGTA\n", 10, 10, b"read failed"),
    (b">r1\nACGTA\n", 11, 10, b"ACGTA|"),
    (b">r1\nACGTA\n", 11, 9, b"too long"),
    (b"A", 11, 0, b"too long"),
    // a failed read and a passed limit come before a fault of the lines
    (FAULTY, 5, 20, b"read failed"),
    (FAULTY, 20, 9, b"too long"),
    (FAULTY, 20, 20, b"bad base, line 2"),
];

#[test]
fn sources_that_fail_or_are_too_long(rt: HostRuntime) -> Result<(), Fail> {
    for (row, (bytes, fails_with, limit, want)) in FAILING.iter().enumerate() {
        let answer = read_slowly(rt.alloc(), *bytes, *fails_with, *limit);
        assert_shown(&rt, row, &answer, *want)?;
    }
    // a reader reports a fault of the lines at once
    let given = collect_reads(rt.alloc(), slow_source(FAULTY, 5, false), 100);
    Ok(assert_shown(&rt, FAILING.len(), &given, b"bad base, line 2")?)
}

// The output of `gzip -9n` for these bytes: `>r1`, a line feed, `AC`, and a line feed.
const GZIPPED: &[u8] = b"\x1f\x8b\x08\x00\x00\x00\x00\x00\x00\xff\xb3+2\xe4rt\xe6\x02\x00\xc6\xce\
    \xff\x9a\x07\x00\x00\x00";

#[test]
fn gzip_is_decompressed(rt: HostRuntime) -> Result<(), Fail> {
    let alloc = rt.alloc();
    let answer = read_slowly(alloc, GZIPPED, usize::MAX, 7);
    assert_shown(&rt, 7, &answer, b"AC|")?;
    let answer = read_slowly(alloc, GZIPPED, usize::MAX, 6);
    assert_shown(&rt, 6, &answer, b"too long")?;
    for len in 2..GZIPPED.len() {
        let answer = read_slowly(alloc, &GZIPPED[..len], usize::MAX, 100);
        assert_shown(&rt, len, &answer, b"gzip cut short")?;
    }
    let mut longer = GZIPPED.to_vec(alloc)?;
    longer.push(b'>')?;
    let answer = read_slowly(alloc, &longer, usize::MAX, 100);
    Ok(assert_shown(&rt, 0, &answer, b"broken gzip")?)
}

// Reads that are copied into the memory of other ones.
const REFILLED: &[(&[u8], &[u8], &[u8])] = &[
    (b"@q\nACGT\n+\n#$%&\n", b"@q\nTG\n+\nIJ\n", b"TG IJ|"),
    (b"@q\nAC\n+\n#$\n", b"@q\nTGCA\n+\nIJKL\n", b"TGCA IJKL|"),
    (b"@q\nACGT\n+\n#$%&\n", b">r\nTG\n", b"TG|"),
    (b">r\nACGT\n", b"@q\nTG\n+\nIJ\n", b"TG IJ|"),
    (b">r\nAC\n", b">s\n", b"|"),
];

// The last of these reads.
fn last_read(alloc: Global, bytes: &[u8]) -> Result<SeqRead, Fail> {
    let mut reads = parse(alloc, bytes)?;
    match reads.pop() {
        Some(read) => Ok(read),
        None => Err(Fail::from("no read")),
    }
}

#[test]
fn a_read_takes_the_memory_of_another(rt: HostRuntime) -> Result<(), Fail> {
    let alloc = rt.alloc();
    for (row, (old, new, want)) in REFILLED.iter().enumerate() {
        let read = last_read(alloc, *old)?.refill(&last_read(alloc, *new)?)?;
        let mut text = Vec::new(alloc);
        push_read(&mut text, &read)?;
        assert_items(&rt, row, text.as_slice(), *want);
    }
    Ok(())
}

// Run with each allocation refused in turn: `rt try --test --fail-alloc N`.
#[test]
fn memory_or_the_reads(rt: HostRuntime) {
    match read_slowly(
        rt.alloc(),
        b"@q\nAC\nGT\n+q\n@I\nII\n@r\nA\n+\nI\n",
        usize::MAX,
        27,
    ) {
        Ok(reads) => assert_same(&rt, "reads", &reads.len(), &2),
        Err(fault) => assert_same(&rt, "fault", &fault, &FastxFault::Memory),
    }
    match collect_reads(rt.alloc(), FromBytes::new(b">r\nAC\n"), 7) {
        Ok(reads) => assert_same(&rt, "reads", &reads.len(), &1),
        Err(fault) => assert_same(&rt, "fault", &fault, &FastxFault::Memory),
    }
}
