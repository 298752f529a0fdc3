//! Files that gzip's and zlib's own writers made, and what becomes of them when they are cut or changed.
use crate::assertions::{assert_items, assert_same};
use kc_gzip::{Gunzip, GunzipFault, GzipFault, Intake, TakeFault, crc32, gunzip};
use kc_io::{FromRead, Source};
use std::alloc::Global;
use std::io;
use std::io::Read;
use std::process::Abort;
use std::test::Fail;

// what a file holds, its bytes, and its text
static FILES: [(&str, &[u8], &[u8]); 7] = [
    (
        "a stored block",
        b"\x1f\x8b\x08\x00\x00\x00\x00\x00\x00\xff\x01\x15\x00\xea\xff>r1\x0aACGTACGTACGTACGT\x0a!\
            \xbf\x86\xbe\x15\x00\x00\x00",
        b">r1\x0aACGTACGTACGTACGT\x0a",
    ),
    (
        "a block with the fixed codes",
        b"\x1f\x8b\x08\x00\x00\x00\x00\x00\x00\xff\xb3+2\xe4rtv\x0fA\xc6\x5c\x00!\xbf\x86\xbe\x15\
            \x00\x00\x00",
        b">r1\x0aACGTACGTACGTACGT\x0a",
    ),
    (
        "a block with codes of its own",
        b"\x1f\x8b\x08\x00\x00\x00\x00\x00\x00\xffuM\xb1\x0d\x000\x08\xda\xfd\xa6=\xa0\x09a\xe0\
            \x01.\xe9\xffC\xd1\xbd\x89\x82\x8a\xe2\xb9\xabD\x03\x10\x08\xd8\xc1t\x0d\x04eB\xcd\xd1i+\
            !\x92\xa8sw}U\xa5\xcc\xcc\x8cq\xbc$\x0dM\xb6b\x8d}v\xdd\xffrV\x0fy\xdc$ \x87\x00\x00\x00",
        b">r1\x0aGCTAAAGACAATTACATAACATACACGTCAGCACGAAACTTGTTGGCCCA\x0a>r2\x0aCGTCAGCACGAAACTTGTTG\
            GCCCAGTGTGAATCGCTTAAGGGTTAAGTAAGTGTGATGCATACGCCTTTACTTG\x0a",
    ),
    (
        "Huffman codes alone",
        b"\x1f\x8b\x08\x00\x00\x00\x00\x00\x00\xff\x05\xc1\xb1\x0d\x02\x01\x0c\x04\xc1\xdc\xad|\
            \x04!\x11'Kkm~\x95\xd0\x7f\xc0\xcc\xf7\xf7\x9a\xec\xb5\xb7\xe9uo\xd3Ko\xd3\xcb\xe5\xb6\
            \xf3\x8c\xaa\xaa\xaa\xaa\xaa\xaa\xaa\xce\xf7\xf7\x9e\xf6\xb2\x9bk.\x9bK\xd3\xe6\xb2\xd9\
            \x5c\xda\xcc3\x00\x00\x00|\x00\x00\x00\x00`\xfe\x06\xfclL\x8c\x00\x00\x00",
        b"@r1\x0aACGTTGCATGTCGCATGATGCATGAGAGCT\x0a+\x0aIIIIIIIIIIIIIIIIIIIIIIIIIIIIII\x0a@r2\x0aT\
            TGACCAGTAGACAGATATTAGACACAGATTA\x0a+\x0aFFFFFFFFFFFFF:FFFFFFFFFFFFFFFFFF\x0a",
    ),
    (
        "an empty member",
        b"\x1f\x8b\x08\x00\x00\x00\x00\x00\x00\xff\x03\x00\x00\x00\x00\x00\x00\x00\x00\x00",
        b"",
    ),
    (
        "two members and zeros",
        b"\x1f\x8b\x08\x00\x00\x00\x00\x00\x00\xff\xb3+2\xe4rt\xe6\x02\x00\xc6\xce\xff\x9a\x07\x00\
            \x00\x00\x1f\x8b\x08\x00\x00\x00\x00\x00\x00\xff\xb3+2\xe2r\x0f\xe1\x02\x002LQ\xdc\x07\
            \x00\x00\x00\x00\x00\x00",
        b">r1\x0aAC\x0a>r2\x0aGT\x0a",
    ),
    (
        "all fields of a header",
        b"\x1f\x8b\x08\x1e\x01\x02\x03\x04\x00\x03\x03\x00xyzr.fa\x00note\x00\xc6\xa4\xb3+2\xe4rtv\
            \x0fA\xc6\x5c\x00!\xbf\x86\xbe\x15\x00\x00\x00",
        b">r1\x0aACGTACGTACGTACGT\x0a",
    ),
];

// The example at the front of the library.
#[test]
fn a_file_of_one_member(rt: HostRuntime) -> Result<(), Fail> {
    let alloc = rt.alloc();
    let file =
        b"\x1f\x8b\x08\x00\x00\x00\x00\x00\x00\xff\xb3+2\xe4rt\xe6\x02\x00\xc6\xce\xff\x9a\x07\x00\x00\x00";
    let text = gunzip(alloc, file)?;
    assert_eq!(rt; text.as_slice(), b">r1\nAC\n".as_slice());
    assert_eq!(rt; crc32(&text), 2_600_455_878);
    Ok(())
}

// Reads of four seeds, as zlib at level 9 writes them.
static SAMPLE: &[u8] =
    b"\x1f\x8b\x08\x00\x00\x00\x00\x00\x00\xffU\x919\x12\xc30\x08E{]\x8324Y**3\xcc\x88\x0bp\x12\
        \xdf\xbf\xc8\xff\xc8K\x82eY,\xc3\xfb\xc2\xdb\xfe\x1cU\x15Q\xe1\x95\xe1\x8e\xb3\xc3\x82.\
        \xc2Y\xce\x83gF\x22\x8cC\x1dY\x98G\x8e\xc7\x984\xeb}\xaaN\x99*\xf0\x8dk\xde9\xfd\xa9\xa2\
        \xa7\xed\x8cm\x7f\x8d\xa0\xa1\x1b;{\x06pT\x82\x10\x1c\x88\xc9\x96\x14P\xd0Ij\xccCKF\xf3\
        \x09\x5c]\x8d\xaf\x9dXSEJ\xe4\xc0\xab\xae\x84\xac#\xca\x0c\xfc\xf7\xe0\xe5\x93\x12\x92x'\
        \x1d\x97\xcbv\xc1H\x0f*h-`R\x18\xab\xf0]|\xeb\xdbvG\xa0\xf4\xba\xb3\x9c\xac)\xd6a;]a\xb1\
        \xa2X\xc0\xff\x0c\xf4\xa1\x00l\x1c6\x17\x9as\xc0\xd4\x11\x9c\x86\xf7,8\xf7\xa0\xa0`E\xef\
        \x05>\xda\x1c\xcf\xbf\xf1\x0f\xc85sY\xecI\xfa]3\xbe\xbe\xce\xc3\xdd\x00\x02\x00\x00";

static SAMPLE_TEXT: &[u8] =
    b"@r1\x0aTTTCCTCATGCAATTCAAAACCATGTCCGTAATGTAGGCGAAATAGTAAACCATTTTACG\x0a+\x0aFFFFF:FFFFFF,,F#\
        F,#FF::F::FFFFFFF:FFFF,FFFF:FFFFFFFF,F,F:FFF\x0a@r2\x0aCCCCCTTATAAAAGCTGTTGCACCTAGCCAAGTTC\
        AACGGCAGCTGCAATGGAAATAGGC\x0a+\x0aFF,#FFFFFF,F:F,F::FFFFFF:F:,,,#F##FFF,FFF,,FFFFFF#FF,,FF\
        :FF:\x0a@r3\x0aCCTCGCCCTGAAGCATTGCTTTGTGAAGAGGGACTTCAGCCAATAGACCTGCATACCGGC\x0a+\x0a:FF::F\
        ,,FF:##F,FFFFFF:FF#FFFF#FF,F#:F,FFF:FF#FF,F##,,FF,##F#\x0a@r4\x0aCGGTCGCGTCTAATAATATACATTT\
        GCTTCGTTGACTAGCAACCCAGGGCTATAGCTATT\x0a+\x0a#F#F#F#F#FFFFFFFFFFFFFFF:F::#FF:FFFFFF#F#FF,FF\
        F##,FFFFFFFFFF\x0a";

// C, 32,767 times A, and three bytes from 32,768 back; and the same with one A less, so nothing is that far back.
const FARTHEST: &[u8] =
    b"\x1f\x8b\x08\x00\x00\x00\x00\x00\x00\xffsv\x1c\x05\xa3`\x14\x8c\x82Q0\x0aF\xc1(\x18\x05\xa3`\
        \x14\x8c\x82Q0\x0aF\xc1(\x18\x05\xa3`\x14\x8c\x82Q0\x0aF\xc1(\x18\x05\xa3`\x14\x8c\x82Q0\
        \x0aF\xc1(\x18\x05\xa3`\x14\x8c\x82Q0\x0aF\xc1(\x18\x05\xa3`\x14\x8c\x82Q0\x0aF\xc1(\x18\
        \x05\xa3`\x14\x8c\x82Q0\x0aF\xc1(\x18\x05\xa3`\x14\x8c\x82Q0\x0aF\xc1(\x18\x05\xa3`\x14\
        \x8c\x82Q0\x0aF\xc1(\x18\x05\xa3`\x14\x8c\x82Q0\x0aF\xc1(\x18\x05\xa3`\x14\x8c\x82Q0\x0aF\
        \xc1(\x18\x05\xa3`\x14\x8c\x82Q0\x0aF\xc1(\x18\x05\xa3`\x14\x8c\x82Q0\x0aF\xc1(\x18\x05\
        \xa3`\x14\x8c\x82Q0\x0aF\xc1(\x18\x05\xa3`\x14\x8c\x82Q0\x0aF\xc1(\x18\x05\xa3`\x14\x8c\
        \x82Q0\x0aF\x01\xf0\xfe\x7f\x006\xfd\x1b\xfe\x03\x80\x00\x00";

const TOO_FAR: &[u8] =
    b"\x1f\x8b\x08\x00\x00\x00\x00\x00\x00\xffsv\x1c\x05\xa3`\x14\x8c\x82Q0\x0aF\xc1(\x18\x05\xa3`\
        \x14\x8c\x82Q0\x0aF\xc1(\x18\x05\xa3`\x14\x8c\x82Q0\x0aF\xc1(\x18\x05\xa3`\x14\x8c\x82Q0\
        \x0aF\xc1(\x18\x05\xa3`\x14\x8c\x82Q0\x0aF\xc1(\x18\x05\xa3`\x14\x8c\x82Q0\x0aF\xc1(\x18\
        \x05\xa3`\x14\x8c\x82Q0\x0aF\xc1(\x18\x05\xa3`\x14\x8c\x82Q0\x0aF\xc1(\x18\x05\xa3`\x14\
        \x8c\x82Q0\x0aF\xc1(\x18\x05\xa3`\x14\x8c\x82Q0\x0aF\xc1(\x18\x05\xa3`\x14\x8c\x82Q0\x0aF\
        \xc1(\x18\x05\xa3`\x14\x8c\x82Q0\x0aF\xc1(\x18\x05\xa3`\x14\x8c\x82Q0\x0aF\xc1(\x18\x05\
        \xa3`\x14\x8c\x82Q0\x0aF\xc1(\x18\x05\xa3`\x14\x8c\x82Q0\x0aF\xc1(\x18\x05\xa3`\x14\x8c\
        \x82Q0\x0a\x1c\x1d\x1d\x1d\x1d\x1d\x1d\x1d\x1d\x1d\x1d\x1d\x1d\x1d\x1d\x1d\x1d\x1d\x1d\x1d\
        \x1d\x1d\x1d\x1d\x1d\x1d\x1d\x1d\x1d\x1d\x1d\x1d\x1d\x1d\x1d\x1d\x1d\x1d\x1d\x1d\x1d\x1d\
        \x1d\x1d\x1d\x1d\x1d\x1d\x1d\x1d\x1d\x1d\x1d\x1d\x1d\x1d\x1d\x1d\x1d\x1d\x1d\x1d\x1d\x1d\
        \x1d\x1d\x1d\x1d\x1d\x1d\x1d\x1d\x1d\x1d\x1d\x1d\x1d\x1d\x1d\x1d\x1d\x1d\x1d\x1d\x1d\x1d\
        \x1d\x1d\x1d\x1d\x1d\x1d\x1d\x1d\x1d\x1d\x1d\x1d\x1d\x1d\x1d\x1d\x1d\x1d\x1d\x1d\x1d\x1d\
        \x1d\x1d\x1d\x1d\x1d\x1d\x1d\x1d\x1d\x1d\x1d\x1d\x1d\x1d\x1d\x1d\x1d\x1d\x1d\x1d\x1d\x1d\
        \x1d\x1d\x1d\x1d\x1d\x1d\x1d\x1d\x1d\x1d\x1d\x1d\x1d\x1d\x1d\x1d\x1d\x1d\x1d\x1d\x1d\x1d\
        \x1d\x1d\x1d\x1d\x1d\x1d\x1d\x1d\x1d\x1d\x1d\x1d\x1d\x1d\x1d\x1d\x1d\x1d\x1d\x1d\x1d\x1d\
        \x1d\x1d\x1d\x1d\x1d\x1d\x1d\x1d\x1d\x1d\x1d\x1d\x1d\x1d\x1d\x1d\x1d\x1d\x1d\x1d\x1d\x1d\
        \x1d\x1d\x1d\x1d\x1d\x1d\x1d\x1d\x1d\x1d\x1d\x1d\x1d\x1d\x1d\x1d\x1d\x1d\x1d\x1d\x1d\x1d\
        \x1d\x1d\x1d\x1d\x1d\x1d\x1d\x1d\x1d\x1d\x1d\x1d\x1d\x1d\x1d\x1d\x1d\x1d\x1d\x1d\x1d\x1d\
        \x1d\x1d\x1d\x1d\x1d\x1d\x1d\x1d\x1d\x1d\x1d\x1d\x1d\x1d\x1d\x1d\x1d\x81\xf7\xff\x03\x00d\
        \x1f\xd4\xaa\x02\x80\x00\x00";

// A reader that gives so many bytes at a time, and fails if this many are left.
#[derive(Drop)]
struct Drops<'a> {
    left: &'a [u8],
    most: usize,
    fails_with: usize,
}

impl Read for Drops<'_> {
    fn read(&mut self, buf: &mut [u8]) -> io::Result<usize> {
        if self.left.len() == self.fails_with {
            return Err(io::Error::from(io::ErrorKind::Other));
        }
        let count = self.left.len().min(self.most).min(buf.len());
        let (front, rest) = self.left.split_at(count);
        buf[..count].copy_from_slice(front);
        self.left = rest;
        Ok(count)
    }
}

// A source of such a reader.
fn source_of(left: &[u8], most: usize, fails_with: usize) -> FromRead<Drops<'_>> {
    FromRead::new(Drops {
        left,
        most,
        fails_with,
    })
}

// Appends the bytes of one read, and returns whether there were some.
fn read_some<S: Source>(source: &mut S, text: &mut Vec<u8>) -> Result<bool, Fail> {
    let mut buffer = [0; 100];
    let Ok(count) = source.read(&mut buffer) else {
        return Ok(false);
    };
    text.extend_from_slice(&buffer[..count])?;
    Ok(count > 0)
}

// The text from a source by reads of 100 bytes, and why it fails.
fn gunzip_all(
    alloc: Global,
    source: FromRead<Drops<'_>>,
) -> Result<(Vec<u8>, Option<GunzipFault>), Fail> {
    let mut source = Gunzip::new(alloc, source)?;
    let mut text = Vec::new(alloc);
    for _ in 0..100_000 {
        if !read_some(&mut source, &mut text)? {
            break;
        }
    }
    Ok((text, source.fault()))
}

// Appends what one call takes, and returns whether more may come.
fn take_some<S: Source>(
    intake: &mut Intake,
    source: &mut S,
    text: &mut Vec<u8>,
) -> Result<Result<bool, TakeFault>, Fail> {
    let taken = intake.fill(source);
    if taken == Ok(true) {
        text.extend_from_slice(intake.as_slice())?;
        let count = intake.as_slice().len();
        intake.use_up(count);
    }
    Ok(taken)
}

// What an intake takes of a source, call by call, and why it stops before the end.
fn take_all(
    alloc: Global,
    mut source: FromRead<Drops<'_>>,
    limit: u64,
) -> Result<(Vec<u8>, Option<TakeFault>), Fail> {
    let mut intake = Intake::new(alloc, limit)?;
    let mut text = Vec::new(alloc);
    let mut ended = Ok(true);
    for _ in 0..100_000 {
        ended = take_some(&mut intake, &mut source, &mut text)?;
        if ended != Ok(true) {
            break;
        }
    }
    Ok((text, ended.err()))
}

// Asserts that these bytes have this text, read in parts of this size.
fn assert_text<H: AllocGlobal + Abort>(
    rt: &H,
    name: &str,
    bytes: &[u8],
    most: usize,
    text: &[u8],
) -> Result<(), Fail> {
    let (found, fault) = gunzip_all(rt.alloc(), source_of(bytes, most, usize::MAX))?;
    assert_same(rt, name, &fault, &None);
    assert_items(rt, name, found.as_slice(), text);
    let (found, fault) = take_all(rt.alloc(), source_of(bytes, most, usize::MAX), 1_000)?;
    assert_same(rt, name, &fault, &None);
    assert_items(rt, name, found.as_slice(), text);
    Ok(())
}

// Sources that are no gzip, and have their own bytes.
const OTHERS: &[&[u8]] = &[b"", b"\x1f", b"\x8b\x1f", b"\x1f\x1f\x8b", b"A\n"];

#[test]
fn sources_have_their_texts_in_parts_of_any_size(rt: HostRuntime) -> Result<(), Fail> {
    for most in [1, 3, 1_000] {
        for (name, bytes, text) in FILES.iter() {
            assert_text(&rt, *name, *bytes, most, *text)?;
        }
        for bytes in OTHERS {
            assert_text(&rt, "no gzip", *bytes, most, *bytes)?;
        }
    }
    Ok(())
}

// Asserts why these bytes have no text, and what is taken of it.
fn assert_refused<H: AllocGlobal + Abort>(
    rt: &H,
    bytes: &[u8],
    fails_with: usize,
    fault: (GunzipFault, TakeFault),
) -> Result<(), Fail> {
    let (unzipped, taken) = fault;
    let (found, why) = gunzip_all(rt.alloc(), source_of(bytes, 1, fails_with))?;
    assert_same(rt, bytes.len(), &why, &Some(unzipped));
    assert_same(rt, bytes.len(), &SAMPLE_TEXT.starts_with(&found), &true);
    let (found, why) = take_all(rt.alloc(), source_of(bytes, 1, fails_with), 1_000)?;
    assert_same(rt, bytes.len(), &why, &Some(taken));
    assert_same(rt, bytes.len(), &SAMPLE_TEXT.starts_with(&found), &true);
    Ok(())
}

#[test]
fn a_source_that_is_cut_short_or_broken_or_fails(rt: HostRuntime) -> Result<(), Fail> {
    let short = (GunzipFault::Gzip(GzipFault::Short), TakeFault::Short);
    for end in 2..SAMPLE.len() {
        assert_refused(&rt, &SAMPLE[..end], usize::MAX, short)?;
    }
    for fails_with in [0, 12, SAMPLE.len()] {
        assert_refused(
            &rt,
            SAMPLE,
            fails_with,
            (GunzipFault::Read, TakeFault::Read),
        )?;
    }
    // the text is all there; its checksum is wrong
    let mut bytes = SAMPLE.to_vec(rt.alloc())?;
    let place = bytes.len() - 5;
    bytes[place] ^= 1;
    let broken = (GunzipFault::Gzip(GzipFault::Broken), TakeFault::Broken);
    assert_refused(&rt, &bytes, usize::MAX, broken)
}

// Bytes, how many they have when they are decompressed, their checksum, and why there are no more.
const FAR: &[(&[u8], usize, u32, Option<GunzipFault>)] = &[
    (FARTHEST, 32_771, 4_263_247_158, None),
    (
        TOO_FAR,
        32_767,
        1_100_036_102,
        Some(GunzipFault::Gzip(GzipFault::Broken)),
    ),
];

#[test]
fn copies_reach_back_as_far_as_the_window(rt: HostRuntime) -> Result<(), Fail> {
    for (bytes, len, sum, want) in FAR {
        let (text, fault) = gunzip_all(rt.alloc(), source_of(*bytes, 100, usize::MAX))?;
        assert_same(&rt, *len, &fault, want);
        assert_same(&rt, *len, &text.len(), len);
        assert_same(&rt, *len, &crc32(&text), sum);
    }
    Ok(())
}

// The sample's text has 512 bytes.
#[test]
fn an_intake_takes_as_many_bytes_as_its_limit(rt: HostRuntime) -> Result<(), Fail> {
    for bytes in [SAMPLE, SAMPLE_TEXT] {
        let (_, fault) = take_all(rt.alloc(), source_of(bytes, 100, usize::MAX), 512)?;
        assert_same(&rt, 512, &fault, &None);
        let (_, fault) = take_all(rt.alloc(), source_of(bytes, 100, usize::MAX), 511)?;
        assert_same(&rt, 511, &fault, &Some(TakeFault::TooLong));
    }
    Ok(())
}
