//! The line with the numbers of the reads that a selection judged.
ghost use Rattle.std.specs.Prelude.{◌≡◌, ◌≤◌, ◌+◌, ◌++◌, [], codes, decimal, length};
ghost use Rattle.kc_io.specs.Sinks.{Writes};
ghost use Rattle.kc_tool.specs.Selections.{counts_line};

use kc_io::{Failed, Sink, write_out};
use kc_report::Block;
use kc_select::SelectionCounts;

/// Writes the line of these counts. It takes no memory.
///
/// # Errors
/// The writer failed or took no byte. A beginning of the line was written.
pub(crate) fn write_counts<W: Sink>(writer: &mut W, counts: &SelectionCounts) -> Result<(), Failed>
    ensures { Writes (W.seen writer.old) (W.seen writer.new) result (counts_line counts.now) }
{
    let mut line = Block::new();
    push_counts(&mut line, counts);
    write_out(writer, line.as_slice())
}

// Puts the line of these counts into an empty block.
fn push_counts(line: &mut Block, counts: &SelectionCounts)
    requires { line.old ≡ [] }
    ensures { line.new ≡ counts_line counts.now }
{
    line.push(b"kcount: ");
    push_told(line, counts.reads, b" reads, ");
    push_told(line, counts.kept, b" kept, ");
    push_told(line, counts.words, b" k-mers, ");
    push_told(line, counts.solid, b" solid\n");
}

// Appends a number and what is counted to the line.
fn push_told(line: &mut Block, number: u64, what: &[u8])
    requires room { length line.old ≤ 400 }
    requires brief { length what.now ≤ 20 }
    ensures pushed { line.new ≡ line.old ++ (decimal number ++ what.now) }
    ensures short { length line.new ≤ length line.old + 100 }
{
    line.push_number(number);
    line.push(what);
}
