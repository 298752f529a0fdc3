//! FASTA records: a line that begins with `>`, and the sequence lines after it.
ghost use Rattle.std.specs.Prelude.{◌≡◌, true, [], Err, IfOk, IfErr, OnOk, IfSome, IfNone};
ghost use Rattle.kc_fastx.specs.Lines.{line_count, ends_or_begins_with, Passes};
ghost use Rattle.kc_fastx.specs.Records.{Records, FirstFault};
ghost use Rattle.kc_fastx.specs.Fasta.{IsFastaRecord, FastaFails, greater_than};
ghost use Rattle.kc_fastx.specs.Faults.{UnlessMemory};

use crate::read_faults::FastxFault;
use crate::reads::SeqRead;
use crate::records::take_sequence;
use crate::text_lines::LineCursor;
use memchr::memchr;
use std::alloc::Global;

// The reads of the lines that are left, of which the first begins with `>`.
pub(crate) fn parse_fasta(
    alloc: Global,
    lines: &mut LineCursor<'_>,
) -> Result<Vec<SeqRead>, FastxFault>
    requires { ends_or_begins_with greater_than lines.old.left ≡ true }
    ensures ok { IfOk result (λ reads. Records IsFastaRecord lines.old.left reads.items []) }
    ensures err { let Fails = FastaFails (line_count lines.old) in
        IfErr result (UnlessMemory (FirstFault IsFastaRecord Fails lines.old.left)) }
{
    let mut reads = Vec::new(alloc);
    'records: while let Some(read) = next_fasta(alloc, lines)? {
        reads.push(read)?;
    }
    Ok(reads)
}

// The next record, None if no line is left. Condition: a line that is left begins with `>`.
pub(crate) fn next_fasta(
    alloc: Global,
    lines: &mut LineCursor<'_>,
) -> Result<Option<SeqRead>, FastxFault>
    requires { ends_or_begins_with greater_than lines.old.left ≡ true }
    ensures some { IfOk result (λ next. IfSome next (λ read. IsFastaRecord lines.old.left read lines.new.left)) }
    ensures none { IfOk result (λ next. IfNone next (lines.old.left ≡ [])) }
    ensures counted { OnOk result (line_count lines.new ≡ line_count lines.old) }
    ensures passes { OnOk result (Passes lines.old lines.new) }
    ensures err { IfErr result (UnlessMemory (FastaFails (line_count lines.old) lines.old.left)) }
    ensures memory { result ≡ Err FastxFault.Memory → ¬ (lines.old.left ≡ []) }
{
    let Some(_title) = lines.next_line() else {
        return Ok(None);
    };
    let room = memchr(b'>', lines.left).unwrap_or(lines.left.len());
    let bases = take_sequence(Vec::with_capacity(alloc, room)?, lines, b'>')?;
    Ok(Some(SeqRead { bases, quals: None }))
}
