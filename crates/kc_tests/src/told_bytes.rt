//! The bytes of files and of long inputs, as they are reported while a count works, and those of lists, which are not.
use crate::command_lines::words_of;
use crate::progress_line::Heard;
use crate::written_bytes::{assert_bytes, assert_same};
use kc_fastx::FromBytes;
use kc_tool::{NamedFiles, ToWrite, run};
use std::alloc::{AllocError, Allocator, Global};
use std::fs::{Metadata, OpenFile, OpenOptions};
use std::io;
use std::io::{Read, Seek, SeekFrom, Write};
use std::process::Abort;
use std::rt::Files;
use std::sync::Wait;
use std::test::Fail;
use std::thread::Threads;

// A runtime in which there are three files to be read: a short one, a long one, and the list of a count.
#[derive(Drop)]
struct Given<'a, R> {
    rt: &'a R,
    short: &'a [u8],
    long: &'a [u8],
    list: &'a [u8],
}

impl<R: Threads> Threads for Given<'_, R> {}

impl<R: Wait> Wait for Given<'_, R> {}

// The bytes of a file that were not read yet.
#[derive(Drop)]
struct GivenFile<'a> {
    left: &'a [u8],
}

fn unsupported() -> io::Error {
    io::Error::from(io::ErrorKind::Unsupported)
}

impl Read for GivenFile<'_> {
    fn read(&mut self, buf: &mut [u8]) -> io::Result<usize> {
        let count = self.left.len().min(buf.len());
        let (now, later) = self.left.split_at(count);
        buf[..count].copy_from_slice(now);
        self.left = later;
        Ok(count)
    }
}

impl Write for GivenFile<'_> {
    fn write(&mut self, _buf: &[u8]) -> io::Result<usize> {
        Err(unsupported())
    }

    fn flush(&mut self) -> io::Result<()> {
        Err(unsupported())
    }
}

impl Seek for GivenFile<'_> {
    fn seek(&mut self, _to: SeekFrom) -> io::Result<u64> {
        Err(unsupported())
    }
}

impl OpenFile for GivenFile<'_> {
    fn metadata(&self) -> io::Result<Metadata> {
        Err(unsupported())
    }

    fn set_len(&self, _size: u64) -> io::Result<()> {
        Err(unsupported())
    }

    fn sync_all(&self) -> io::Result<()> {
        Err(unsupported())
    }

    fn sync_data(&self) -> io::Result<()> {
        Err(unsupported())
    }
}

impl<'a, R> Files for Given<'a, R> {
    type File = GivenFile<'a>;

    type Dir = GivenFile<'a>;

    fn open_file(&self, _how: &OpenOptions, path: &str) -> io::Result<GivenFile<'a>> {
        match path {
            "short.fa" => Ok(GivenFile { left: self.short }),
            "long.fa" => Ok(GivenFile { left: self.long }),
            "list.fa" => Ok(GivenFile { left: self.list }),
            _ => Err(unsupported()),
        }
    }

    fn open_dir(&self, _path: &str) -> io::Result<GivenFile<'a>> {
        Err(unsupported())
    }

    fn metadata(&self, _path: &str) -> io::Result<Metadata> {
        Err(unsupported())
    }

    fn symlink_metadata(&self, _path: &str) -> io::Result<Metadata> {
        Err(unsupported())
    }

    fn copy(&self, _from: &str, _to: &str) -> io::Result<u64> {
        Err(unsupported())
    }

    fn rename(&self, _from: &str, _to: &str) -> io::Result<()> {
        Err(unsupported())
    }

    fn remove_file(&self, _path: &str) -> io::Result<()> {
        Err(unsupported())
    }

    fn create_dir(&self, _path: &str) -> io::Result<()> {
        Err(unsupported())
    }

    fn remove_dir(&self, _path: &str) -> io::Result<()> {
        Err(unsupported())
    }

    fn remove_dir_all<B: Allocator>(&self, _alloc: B, _path: &str) -> io::Result<()> {
        Err(unsupported())
    }
}

// So many reads of 60 bases, 64 bytes each.
fn reads_of_64(alloc: Global, reads: u32) -> Result<Vec<u8>, AllocError> {
    let mut text = Vec::new(alloc);
    for _ in 0..reads {
        text.extend_from_slice(
            b">r\nAAAAAAAAAAAAAAAAAAAAAAAAAAAAAAAAAAAAAAAAAAAAAAAAAAAAAAAAAAAA\n",
        )?;
    }
    Ok(text)
}

const SHORT: &[u8] = b">r\nCAAA\n>r\nCCC\n";

const LIST: &[u8] = b">w\nCAAA\n";

// The words in which a count is written.
const COUNT: &str = "count -m 4 --print dump --column";

// The options of a count, whether its input is the long text or empty, and what it writes; how many bytes are reported,
// and the most in one call. The short text has 15 bytes, and the long one 1,200 times 64, of which 65,536 are taken at
// once.
type Row = (&'static str, bool, &'static str, u64, u64);

const ROWS: &[Row] = &[
    ("", true, "AAAA 68400\n", 76_800, 65_536),
    (" long.fa", true, "AAAA 68400\n", 76_800, 65_536),
    (
        " short.fa long.fa short.fa",
        false,
        "AAAA 68400\nCAAA 2\n",
        76_830,
        65_536,
    ),
    (
        " --only list.fa short.fa long.fa",
        true,
        "CAAA 1\n",
        76_815,
        65_536,
    ),
    (" --only long.fa short.fa", true, "", 15, 15),
];

// Asserts what the count of a row writes and reports.
fn assert_row<H: Threads + Wait + Abort + Sync + AllocGlobal>(
    rt: &H,
    row: &Row,
    long: &[u8],
) -> Result<(), Fail> {
    let (end, is_long, output, bytes, most) = row;
    let alloc = rt.alloc();
    let given = Given {
        rt,
        short: SHORT,
        long,
        list: LIST,
    };
    let heard = Heard::nothing();
    let mut written = Vec::new(alloc);
    let mut errors = Vec::new(alloc);
    let words = words_of(alloc, format!(in alloc; "{COUNT}{end}")?.as_str())?;
    let input = if *is_long { long } else { b"" };
    run(
        &given,
        alloc,
        &Ok(words),
        &mut NamedFiles::new(&given),
        &mut FromBytes::new(input),
        &mut ToWrite::new(&mut written),
        &mut ToWrite::new(&mut errors),
        &heard,
    );
    assert_bytes(rt, *end, &errors, b"");
    assert_bytes(rt, *end, &written, output.as_bytes());
    assert_same(rt, *end, &heard.bytes(), &(*bytes, *most));
    Ok(())
}

// Each byte of the sources is reported once, as it is taken, and none of the list.
#[test]
fn each_byte_is_told_once(rt: HostRuntime) -> Result<(), Fail> {
    let long = reads_of_64(rt.alloc(), 1_200)?;
    for row in ROWS {
        assert_row(&rt, row, &long)?;
    }
    Ok(())
}
