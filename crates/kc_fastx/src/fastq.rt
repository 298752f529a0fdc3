//! Sanger FASTQ records: a title, sequence lines, a line that begins with `+`, and quality lines.
ghost use Rattle.std.specs.Prelude.{◌≡◌, ◌≤◌, [], length, vec_capacity, true, Err, IfOk, IfErr, OnOk, IfSome, IfNone};
ghost use Rattle.std.specs.List.{list_all};
ghost use Rattle.kc_fastx.specs.Reads.{is_quality_byte};
ghost use Rattle.kc_fastx.specs.Lines.{line_count, next_begins_with, skip_blanks, Passes};
ghost use Rattle.kc_fastx.specs.Records.{FirstFault};
ghost use Rattle.kc_fastx.specs.Fastq.{IsFastqRecord, FastqFails, BeginsWithQuality, QualityFails, at_sign};
ghost use Rattle.kc_fastx.specs.Parsing.{IsFastq};
ghost use Rattle.kc_fastx.specs.Faults.{UnlessMemory};

use crate::read_faults::FastxFault;
use crate::reads::SeqRead;
use crate::records::take_sequence;
use crate::text_lines::LineCursor;
use memchr::memchr;
use std::alloc::Global;

// The reads of the lines that are left.
pub(crate) fn parse_fastq(
    alloc: Global,
    lines: &mut LineCursor<'_>,
) -> Result<Vec<SeqRead>, FastxFault>
    ensures ok { IfOk result (λ reads. IsFastq lines.old.left reads.items) }
    ensures err { let Fails = FastqFails (line_count lines.old) in
        IfErr result (UnlessMemory (FirstFault IsFastqRecord Fails lines.old.left)) }
{
    let mut reads = Vec::new(alloc);
    lines.pass_blanks();
    'records: while let Some(read) = next_fastq(alloc, lines)? {
        reads.push(read)?;
        lines.pass_blanks();
    }
    Ok(reads)
}

// The next record, None if no line is left. Condition: a line that is left isn't blank.
pub(crate) fn next_fastq(
    alloc: Global,
    lines: &mut LineCursor<'_>,
) -> Result<Option<SeqRead>, FastxFault>
    requires { skip_blanks lines.old.left ≡ lines.old.left }
    ensures some { IfOk result (λ next. IfSome next (λ read. IsFastqRecord lines.old.left read lines.new.left)) }
    ensures none { IfOk result (λ next. IfNone next (lines.old.left ≡ [])) }
    ensures counted { OnOk result (line_count lines.new ≡ line_count lines.old) }
    ensures passes { OnOk result (Passes lines.old lines.new) }
    ensures err { IfErr result (UnlessMemory (FastqFails (line_count lines.old) lines.old.left)) }
    ensures memory { result ≡ Err FastxFault.Memory → next_begins_with at_sign lines.old.left ≡ true }
{
    let Some(title) = lines.next_line() else {
        return Ok(None);
    };
    if title.first() != Some(&b'@') {
        return Err(FastxFault::BadStart(lines.taken));
    }
    let room = memchr(b'+', lines.left).unwrap_or(lines.left.len());
    let bases = take_sequence(Vec::with_capacity(alloc, room)?, lines, b'+')?;
    let Some(_plus) = lines.next_line() else {
        return Err(FastxFault::Truncated(lines.taken));
    };
    let room = bases.len().min(lines.left.len());
    let quals = take_quality(Vec::with_capacity(alloc, room)?, lines, bases.len())?;
    Ok(Some(SeqRead {
        bases,
        quals: Some(quals),
    }))
}

// Takes quality lines while they are shorter than `need` together, and joins them in `quals`, which is empty and has
// room for at most as many bytes as are left or needed.
fn take_quality(
    mut quals: Vec<u8>,
    lines: &mut LineCursor<'_>,
    need: usize,
) -> Result<Vec<u8>, FastxFault>
    requires empty { quals.items ≡ [] }
    requires room { vec_capacity quals ≤ length lines.old.bytes }
    requires most { vec_capacity quals ≤ need }
    ensures ok { IfOk result (λ quals. BeginsWithQuality need lines.old.left quals.items lines.new.left) }
    ensures counted { OnOk result (line_count lines.new ≡ line_count lines.old) }
    ensures passes { OnOk result (Passes lines.old lines.new) }
    ensures err { IfErr result (UnlessMemory (QualityFails (line_count lines.old) need lines.old.left)) }
{
    'lines: while quals.len() < need {
        let Some(line) = lines.next_line() else {
            return Err(FastxFault::Truncated(lines.taken));
        };
        if !are_quality_bytes(line) {
            return Err(FastxFault::BadQuality(lines.taken));
        }
        if line.len() > need - quals.len() {
            return Err(FastxFault::LongQuality(lines.taken));
        }
        quals.extend_from_slice(line)?;
    }
    Ok(quals)
}

// Whether all these bytes are qualities. Each is looked at, so the loop has no early exit.
pub(crate) fn are_quality_bytes(bytes: &[u8]) -> bool
    ensures { result ≡ list_all is_quality_byte bytes.now }
{
    let mut all = true;
    for byte in bytes {
        all &= (*byte >= 33) & (*byte <= 126);
    }
    all
}
