//! The table text of a tally, which contains all of it.
ghost use Rattle.std.specs.Prelude.{◌≡◌, ◌+◌, ◌≤◌, ◌++◌, length, option_map, IfSome, IfErr};
ghost use Rattle.kc_io.specs.Sinks.{Writes};
ghost use Rattle.kc_report.specs.declared.report_faults.ReportFault.TheVariants.{Write};
ghost use Rattle.kc_report.specs.Table.{IsOrigin, end_line, ended, table_text};

use crate::dump::Dump;
use crate::header::Header;
use crate::origin::Origin;
use crate::report_faults::ReportFault;
use crate::row_pieces::hand_over_in_parallel;
use crate::table_header::push_header;
use crate::table_writing::TableWriting;
use kc_io::{BLOCK_SIZE, Block, Failed, NUMBER_SIZE, Sink, write_all, write_out};
use kc_tally::Tally;
use std::alloc::Global;
use std::thread::Threads;

// The most bytes of an end line, with its line end.
pub(crate) const END_SIZE: usize = 4 + NUMBER_SIZE + 1 + NUMBER_SIZE + 1;

/// Writes the table text of a tally, from which `read_table` makes the same tally and the same origin again: version 2
/// if an origin is given, otherwise version 1. It takes no memory. Conditions: the floor is 33 to 126, and the reads
/// are at most 2^62.
///
/// # Errors
/// `Write` if the writer failed or took no byte. It took a beginning of the text.
pub fn write_table<W: Sink>(
    writer: &mut W,
    tally: &Tally,
    origin: Option<&Origin>,
) -> Result<(), ReportFault>
    requires { IfSome origin (λ origin. IsOrigin origin.now) }
    ensures written { Writes (W.seen writer.old) (W.seen writer.new) result
        (table_text tally.now (option_map (λ said. said.now) origin.entry)) }
    ensures fault { IfErr result (λ fault. fault ≡ Write) }
{
    Ok(table_by_blocks(writer, tally, origin.copied())?)
}

/// Writes the table text of a tally as `write_table` does. So many threads make the texts of neighbouring rows in
/// parallel, each at most 8 MB at a time, while this thread writes the texts that they made before. If memory for that
/// is refused, the text is made without it. Conditions: those of `write_table`.
///
/// # Errors
/// `Write` if the writer failed or took no byte. It took a beginning of the text.
pub fn write_table_in_parallel<W: Sink, H: Threads + Sync>(
    rt: &H,
    alloc: Global,
    threads: u32,
    writer: &mut W,
    tally: &Tally,
    origin: Option<&Origin>,
) -> Result<(), ReportFault>
    requires { IfSome origin (λ origin. IsOrigin origin.now) }
    ensures written { Writes (W.seen writer.old) (W.seen writer.new) result
        (table_text tally.now (option_map (λ said. said.now) origin.entry)) }
    ensures fault { IfErr result (λ fault. fault ≡ Write) }
{
    if threads < 2 {
        return write_table(writer, tally, origin);
    }
    Ok(table_by_pieces(rt, alloc, threads, writer, tally, origin.copied())?)
}

// Writes the table text of a tally, a block at a time.
fn table_by_blocks<W: Sink>(
    writer: &mut W,
    tally: &Tally,
    origin: Option<Origin>,
) -> Result<(), Failed>
    requires { IfSome origin IsOrigin }
    ensures { Writes (W.seen writer.old) (W.seen writer.new) result (table_text tally.now origin) }
{
    let mut writing = TableWriting::begin(&Header {
        k: tally.k(),
        both: tally.both(),
        origin,
    });
    'rows: for row in tally.rows() {
        writing.put(writer, row)?;
    }
    writing.end(writer)
}

// Writes the table text of a tally with the text of its rows made by so many threads. Condition: at least one.
fn table_by_pieces<W: Sink, H: Threads + Sync>(
    rt: &H,
    alloc: Global,
    threads: u32,
    writer: &mut W,
    tally: &Tally,
    origin: Option<Origin>,
) -> Result<(), Failed>
    requires { 1 ≤ threads }
    ensures { Writes (W.seen writer.old) (W.seen writer.new) result (table_text tally.now origin) }
{
    let (distinct, total) = (tally.row_count(), tally.total());
    let mut block = Block::new();
    push_header(&mut block, tally.k(), tally.both(), origin);
    write_all(writer, block.as_slice())?;
    hand_over_in_parallel(rt, alloc, threads, writer, tally, &Dump::in_columns())?;
    block.clear();
    push_end(&mut block, distinct, total);
    write_out(writer, block.as_slice())
}

// Appends the end line of a table with so many rows and this sum of their counts to the block.
pub(crate) fn push_end(block: &mut Block, distinct: u64, total: u64)
    requires room { length block.old + END_SIZE ≤ BLOCK_SIZE }
    ensures { block.new ≡ block.old ++ ended (end_line distinct total) }
{
    block.push(b"END ");
    block.push_number(distinct);
    block.push(b" ");
    block.push_number(total);
    block.push(b"\n");
}
