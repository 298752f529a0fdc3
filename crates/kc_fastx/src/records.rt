//! The common part of the records of both formats: their sequence lines.
ghost use Rattle.std.specs.Prelude.{◌≡◌, ◌<◌, ◌≤◌, true, [], length, vec_capacity, IfOk, IfErr, OnOk};
ghost use Rattle.std.specs.List.{list_all};
ghost use Rattle.kc_fastx.specs.Reads.{is_sequence_byte};
ghost use Rattle.kc_fastx.specs.Lines.{line_count, ends_or_begins_with, Passes, IsNotAmong};
ghost use Rattle.kc_fastx.specs.Records.{BeginsWithSequence, SequenceFails};
ghost use Rattle.kc_fastx.specs.Faults.{UnlessMemory};

use crate::read_faults::FastxFault;
use crate::text_lines::LineCursor;

// Takes the sequence lines up to the end or the next line that begins with `stop`, and joins them in `bases`, which is
// empty and has room for at most as many bytes as are left before the next `stop`. No sequence byte is `stop`, so this
// room is enough for a good sequence. Condition: `stop` is above the bytes that end lines.
pub(crate) fn take_sequence(
    mut bases: Vec<u8>,
    lines: &mut LineCursor<'_>,
    stop: u8,
) -> Result<Vec<u8>, FastxFault>
    requires stop { 13 < stop }
    requires empty { bases.items ≡ [] }
    requires room { vec_capacity bases ≤ length lines.old.bytes }
    requires front { IsNotAmong stop lines.old.bytes (vec_capacity bases) }
    ensures ok { IfOk result (λ bases. BeginsWithSequence stop lines.old.left bases.items lines.new.left) }
    ensures ends { OnOk result (ends_or_begins_with stop lines.new.left ≡ true) }
    ensures counted { OnOk result (line_count lines.new ≡ line_count lines.old) }
    ensures passes { OnOk result (Passes lines.old lines.new) }
    ensures err { IfErr result (UnlessMemory (SequenceFails (line_count lines.old) stop lines.old.left)) }
{
    'lines: while lines.left.first() != Some(&stop) {
        let Some(line) = lines.next_line() else {
            return Ok(bases);
        };
        if !are_sequence_bytes(line) {
            return Err(FastxFault::BadBase(lines.taken));
        }
        bases.extend_from_slice(line)?;
    }
    Ok(bases)
}

// Whether a sequence may have all these bytes. Every byte is looked at, so the loop has no early exit.
pub(crate) fn are_sequence_bytes(bytes: &[u8]) -> bool
    ensures { result ≡ list_all is_sequence_byte bytes.now }
{
    let mut all = true;
    for byte in bytes {
        let byte = *byte;
        all &= (byte >= b'A') & (byte <= b'Z')
            | (byte >= b'a') & (byte <= b'z')
            | (byte == b'.')
            | (byte == b'-')
            | (byte == b'*');
    }
    all
}
