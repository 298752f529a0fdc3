//! The kinds of files, by their first bytes.

/// A kind of file.
#[derive(Clone, Copy, Debug, PartialEq, Eq)]
pub(crate) enum FileKind {
    /// It has no byte.
    Empty,
    /// Compressed with gzip.
    Gzip,
    /// Compressed with bgzip, as BAM is.
    Bgzip,
    /// Compressed with bzip2.
    Bzip2,
    /// Compressed with xz.
    Xz,
    /// Compressed with zstd.
    Zstd,
    /// CRAM.
    Cram,
    /// Text that begins with a byte order mark.
    Marked,
    /// SAM, or another text of columns.
    Sam,
    /// A table of kcount.
    Table,
    /// A file of Jellyfish.
    Jellyfish,
    /// FASTA or FASTQ.
    Reads,
    /// None of these.
    Unknown,
}

/// The kind of a file with these first bytes.
pub(crate) fn kind_of(bytes: &[u8]) -> FileKind {
    if bytes.is_empty() {
        return FileKind::Empty;
    }
    for (front, kind) in FRONTS {
        if bytes.starts_with(*front) {
            return with_extra_field(*kind, bytes);
        }
    }
    if is_of_jellyfish(bytes) {
        return FileKind::Jellyfish;
    }
    match bytes.first() {
        Some(b'>' | b'@') => FileKind::Reads,
        _ if tabs_of(bytes) > 2 => FileKind::Sam,
        _ => FileKind::Unknown,
    }
}

// The first bytes of some kinds of files.
const FRONTS: &[(&[u8], FileKind)] = &[
    (b"\x1f\x8b", FileKind::Gzip),
    (b"BZh", FileKind::Bzip2),
    (b"\xfd7zXZ", FileKind::Xz),
    (b"\x28\xb5\x2f\xfd", FileKind::Zstd),
    (b"CRAM", FileKind::Cram),
    (b"\xef\xbb\xbf", FileKind::Marked),
    (b"KCT ", FileKind::Table),
    (b"@HD\t", FileKind::Sam),
    (b"@SQ\t", FileKind::Sam),
    (b"@RG\t", FileKind::Sam),
    (b"@PG\t", FileKind::Sam),
];

// A file of gzip that has bgzip's extra field is one of bgzip.
fn with_extra_field(kind: FileKind, bytes: &[u8]) -> FileKind {
    if kind == FileKind::Gzip && bytes.get(3) == Some(&4) && bytes.get(12) == Some(&b'B') {
        FileKind::Bgzip
    } else {
        kind
    }
}

// A file of Jellyfish begins with the length of its header in digits, and the header in JSON.
fn is_of_jellyfish(bytes: &[u8]) -> bool {
    let Some(end) = bytes.iter().position(|byte| !byte.is_ascii_digit()) else {
        return false;
    };
    end > 0 && bytes.get(end) == Some(&b'{')
}

// How many tabs there are before the first line ends.
fn tabs_of(bytes: &[u8]) -> usize {
    let line = bytes.iter().take_while(|byte| **byte != b'\n');
    line.filter(|byte| **byte == b'\t').count()
}
