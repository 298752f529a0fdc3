//! Lists of words to look up, one a line.
ghost use Rattle.std.specs.Prelude.{◌≡◌, ◌<◌, ◌∷◌, ◌++◌, length, map, string_bytes, IfErr, OnOk};
ghost use Rattle.std.specs.Str.Lines.{strip_carriage_return};
ghost use Rattle.kc_fastx.specs.Lines.{lines};
ghost use Rattle.kc_gzip.specs.Intakes.{Ended, Filled, FillingFails};
ghost use Rattle.kc_report.specs.WordList.{GivesWords, RefusesWords, words_in};

use crate::report_faults::ReportFault;
use kc_gzip::{Intake, TakeFault};
use kc_io::Source;
use memchr::memchr;
use std::alloc::{AllocError, Global};

/// Takes all bytes of the source, a list of words, and appends these in order: its lines, without blank ones. A line
/// ends with a line feed, before which there may be a carriage return. What is no UTF-8 in a line is replaced by
/// U+FFFD, which no k-mer has. Gzip is decompressed: then the text and the limit are those of the decompressed bytes.
///
/// # Errors
/// `TableTooLong` if the text is longer than `limit` bytes, `TableRead` if the source failed, `BrokenGzip` if its gzip
/// is broken, and `ShortGzip` if that is cut short, whichever came first. `Memory` if a growth was refused.
pub fn read_words<R: Source>(
    alloc: Global,
    reader: &mut R,
    limit: u64,
    words: &mut Vec<String>,
) -> Result<(), ReportFault>
    ensures words { OnOk result (GivesWords (R.seen reader.old) (R.seen reader.new) limit
        (map string_bytes words.old.items) (map string_bytes words.new.items)) }
    ensures fault { IfErr result (RefusesWords (R.seen reader.old) (R.seen reader.new) limit) }
{
    let mut intake = Intake::new(alloc, limit)?;
    take_text(reader, &mut intake)?;
    Ok(push_words(alloc, intake.as_slice(), words)?)
}

// Takes all that the source has left.
fn take_text<R: Source>(reader: &mut R, intake: &mut Intake) -> Result<(), TakeFault>
    ensures filled { OnOk result (Filled (R.seen reader.old) (R.seen reader.new) intake.old intake.new) }
    ensures ended { OnOk result (Ended intake.new) }
    ensures fault { IfErr result (FillingFails (R.seen reader.old) (R.seen reader.new) intake.old) }
{
    'filling: loop {
        if !intake.fill(reader)? {
            return Ok(());
        }
    }
}

// Appends the words of a list with this text.
fn push_words(alloc: Global, text: &[u8], words: &mut Vec<String>) -> Result<(), AllocError>
    ensures { OnOk result (map string_bytes words.new.items ≡ map string_bytes words.old.items ++ words_in text.now) }
{
    let mut rest = text;
    'lines: while !rest.is_empty() {
        let (line, behind) = cut_line(rest);
        if !line.is_empty() {
            words.push(String::from_utf8_lossy(alloc, line)?)?;
        }
        rest = behind;
    }
    Ok(())
}

// The first line of a text, without its line end, and the text after it. Condition: there are bytes.
fn cut_line(text: &[u8]) -> (&[u8], &[u8])
    requires { 0 < length text.now }
    ensures lines { lines text.now ≡ result.0.now ∷ lines result.1.now }
    ensures shorter { length result.1.now < length text.now }
{
    let mut rest: &[u8] = &[];
    let line = match memchr(b'\n', text) {
        Some(end) => {
            rest = &text[end + 1..];
            &text[..end]
        }
        None => text,
    };
    (without_return(line), rest)
}

// The line without one carriage return at its end, which belongs to the line end.
fn without_return(line: &[u8]) -> &[u8]
    ensures { result.now ≡ strip_carriage_return line.now }
{
    match line {
        [front @ .., b'\r'] => front,
        _ => line,
    }
}
