//! The numbers of two compared tables as a text.
ghost use Rattle.std.specs.Prelude.{◌≡◌, ◌≤◌, ◌+◌, ◌++◌, [], length};
ghost use Rattle.kc_io.specs.Sinks.{Writes};
ghost use Rattle.kc_report.specs.Statistics.{named_line};
ghost use Rattle.kc_combine.specs.Compared.{comparison_text};

use crate::comparison::Comparison;
use kc_io::{Block, Failed, Sink, write_out};

/// Writes the numbers of two compared tables, one a line. It takes no memory.
///
/// # Errors
/// `Failed` if the writer failed or took no byte. It took a beginning of the text.
pub fn write_comparison<W: Sink>(writer: &mut W, comparison: &Comparison) -> Result<(), Failed>
    ensures { Writes (W.seen writer.old) (W.seen writer.new) result (comparison_text comparison.now) }
{
    let mut block = Block::new();
    push_lines(&mut block, comparison);
    write_out(writer, block.as_slice())
}

// Appends the eight lines to a block without bytes, which they fit.
fn push_lines(block: &mut Block, comparison: &Comparison)
    requires { block.old ≡ [] }
    ensures { block.new ≡ comparison_text comparison.now }
{
    let Comparison {
        reads_distinct,
        assembly_distinct,
        shared_distinct,
        assembly_total,
        assembly_only_distinct,
        assembly_only_total,
        solid_distinct,
        solid_shared,
    } = *comparison;
    push_line(block, b"Reads_distinct:         ", reads_distinct);
    push_line(block, b"Assembly_distinct:      ", assembly_distinct);
    push_line(block, b"Shared_distinct:        ", shared_distinct);
    push_line(block, b"Assembly_total:         ", assembly_total);
    push_line(block, b"Assembly_only_distinct: ", assembly_only_distinct);
    push_line(block, b"Assembly_only_total:    ", assembly_only_total);
    push_line(block, b"Solid_distinct:         ", solid_distinct);
    push_line(block, b"Solid_shared:           ", solid_shared);
}

// Appends one of the eight lines to the block: its name and its number.
fn push_line(block: &mut Block, name: &[u8], number: u64)
    requires room { length block.old ≤ 400 }
    requires brief { length name.now ≤ 24 }
    ensures pushed { block.new ≡ block.old ++ named_line name.now number }
    ensures short { length block.new ≤ length block.old + 45 }
{
    block.push(name);
    block.push_number(number);
    block.push(b"\n");
}
