//! The statistics of a tally as a text.
ghost use Rattle.std.specs.Prelude.{◌≡◌, ◌≤◌, ◌+◌, ◌++◌, length, IfErr};
ghost use Rattle.kc_io.specs.Sinks.{Writes};
ghost use Rattle.kc_tally.specs.Histogram.{counts_of};
ghost use Rattle.kc_tally.specs.Statistics.{greatest_of, statistics_of};
ghost use Rattle.kc_report.specs.declared.report_faults.ReportFault.TheVariants.{Write};
ghost use Rattle.kc_report.specs.Statistics.{named_line, statistics_lines, statistics_text};

use crate::report_faults::ReportFault;
use kc_io::{Block, Sink, write_out};
use kc_tally::{Statistics, Tally};

/// Writes the statistics of a tally: how many words occur once, how many occur, the sum of their counts, and the
/// greatest count. It takes no memory.
///
/// # Errors
/// `Write` if the writer failed or took no byte. It took a beginning of the text.
pub fn write_stats<W: Sink>(writer: &mut W, tally: &Tally) -> Result<(), ReportFault>
    ensures written { Writes (W.seen writer.old) (W.seen writer.new) result (statistics_text tally.now.rows) }
    ensures fault { IfErr result (λ fault. fault ≡ Write) }
{
    write_stats_of(writer, &statistics_of(tally))
}

/// Writes these statistics, as `write_stats` writes those of a tally. It takes no memory.
///
/// # Errors
/// `Write` if the writer failed or took no byte. It took a beginning of the text.
pub fn write_stats_of<W: Sink>(writer: &mut W, statistics: &Statistics) -> Result<(), ReportFault>
    ensures written { Writes (W.seen writer.old) (W.seen writer.new) result (statistics_lines statistics.now) }
    ensures fault { IfErr result (λ fault. fault ≡ Write) }
{
    let block = lines_of(statistics);
    Ok(write_out(writer, block.as_slice())?)
}

// The statistics of a tally.
fn statistics_of(tally: &Tally) -> Statistics
    ensures { result ≡ statistics_of tally.now.rows }
{
    Statistics {
        unique: tally.bin(1),
        distinct: tally.row_count(),
        total: tally.total(),
        greatest: greatest_count(tally),
    }
}

// The four lines of the statistics, which fit one block.
fn lines_of(statistics: &Statistics) -> Block
    ensures { result ≡ statistics_lines statistics.now }
{
    let mut block = Block::new();
    push_line(&mut block, b"Unique:    ", statistics.unique);
    push_line(&mut block, b"Distinct:  ", statistics.distinct);
    push_line(&mut block, b"Total:     ", statistics.total);
    push_line(&mut block, b"Max_count: ", statistics.greatest);
    block
}

// Appends one of the four lines to the block: its name and its number.
fn push_line(block: &mut Block, name: &[u8], number: u64)
    requires room { length block.old ≤ 100 }
    requires brief { length name.now ≤ 11 }
    ensures pushed { block.new ≡ block.old ++ named_line name.now number }
    ensures short { length block.new ≤ length block.old + 32 }
{
    block.push(name);
    block.push_number(number);
    block.push(b"\n");
}

// The greatest count, 0 if there is no row.
fn greatest_count(tally: &Tally) -> u64
    ensures { result ≡ greatest_of (counts_of tally.now.rows) }
{
    let mut greatest: u64 = 0;
    for row in tally.rows() {
        greatest = greatest.max(row.count);
    }
    greatest
}
