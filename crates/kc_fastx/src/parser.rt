//! From bytes, or from a source of them, to reads.
ghost use Rattle.std.specs.Prelude.{◌≤◌, length, IfOk, IfErr};
ghost use Rattle.kc_fastx.specs.Reads.{base_count};
ghost use Rattle.kc_fastx.specs.Parsing.{HasReads, HasFault, most_bytes, GivesReads, RefusesFor};
ghost use Rattle.kc_fastx.specs.Faults.{UnlessMemory};

use crate::fasta::parse_fasta;
use crate::fastq::parse_fastq;
use crate::read_faults::FastxFault;
use crate::reads::SeqRead;
use crate::record_reader::Reading;
use crate::text_lines::LineCursor;
use kc_io::Source;
use std::alloc::Global;

/// The reads of FASTA or FASTQ bytes: the first line that isn't blank decides between the formats.
///
/// # Errors
/// The first fault of the bytes, with its line, or `Memory` if a growth was refused.
pub fn parse(alloc: Global, bytes: &[u8]) -> Result<Vec<SeqRead>, FastxFault>
    ensures reads { IfOk result (λ reads. HasReads bytes.now reads.items) }
    ensures fault { IfErr result (UnlessMemory (HasFault bytes.now)) }
    ensures bases { IfOk result (λ reads. base_count reads.items ≤ length bytes.now) }
{
    let mut lines = LineCursor {
        left: bytes,
        taken: 0,
    };
    lines.pass_blanks();
    if lines.left.first() == Some(&b'>') {
        parse_fasta(alloc, &mut lines)
    } else {
        parse_fastq(alloc, &mut lines)
    }
}

/// Takes all bytes of the source, and returns what `parse` returns for them, with their number. It reads at most `limit
/// + 1` times, and never into an empty slice. It keeps only a block of the bytes and one record.
///
/// # Errors
/// `TooLong` if the source gave more than `limit` bytes, and `Read` if it failed, whichever came first; these come
/// before any fault of the lines, after which the source is read to its end. Otherwise the first fault of the bytes,
/// with its line. `Memory` if a growth was refused.
pub fn read_all<R: Source>(
    alloc: Global,
    reader: &mut R,
    limit: u64,
) -> Result<(Vec<SeqRead>, u64), FastxFault>
    requires { limit ≤ most_bytes }
    ensures reads { let Gives = GivesReads (R.seen reader.old) (R.seen reader.new) limit in
        IfOk result (λ answer. Gives answer.0.items answer.1) }
    ensures fault { IfErr result (RefusesFor (R.seen reader.old) (R.seen reader.new) limit) }
    ensures bases { IfOk result (λ answer. base_count answer.0.items ≤ answer.1) }
{
    let mut reading = Reading::new(alloc, limit)?;
    let mut reads = Vec::new(alloc);
    'reads: loop {
        match reading.next_read(alloc, reader) {
            Ok(Some(read)) => reads.push(read)?,
            Ok(None) => return Ok((reads, reading.byte_count())),
            Err(fault) => return Err(reading.settle(reader, fault)),
        }
    }
}
