//! The dump of a table text, written while the text is read.
ghost use Rattle.std.specs.Prelude.{IfOk, IfErr};
ghost use Rattle.kc_report.specs.DumpedText.{DumpsNot, DumpsTable};
ghost use Rattle.kc_report.specs.Faults.{UnlessWrite};
ghost use Rattle.kc_report.specs.TableReading.{RefusesTable};

use crate::dump::{Dump, put_row};
use crate::report_faults::ReportFault;
use crate::table_reading::TableReading;
use kc_io::{Block, Sink, Source, write_out};
use std::alloc::Global;

/// Takes all bytes of the source, a table text, and writes the dump of its table, as `write_dump` writes that of a
/// tally. Rows are written as they come. It keeps one block of the dump, one block and one line of the text, and what
/// the decompression of gzip keeps.
///
/// # Errors
/// Those of `read_table`: after a bad header nothing was written, and after another fault of the table the writer took
/// the dump of the rows before it but for at most `BLOCK_SIZE` bytes at its end. `Write` if the writer failed or took
/// no byte; it took a beginning of the dump.
pub fn write_dump_of_text<S: Source, W: Sink>(
    alloc: Global,
    source: &mut S,
    limit: u64,
    dump: &Dump,
    writer: &mut W,
) -> Result<(), ReportFault>
    ensures written { IfOk result (λ done. DumpsTable (S.seen source.old) (S.seen source.new) limit dump.now
        (W.seen writer.old) (W.seen writer.new)) }
    ensures stopped { IfErr result (DumpsNot (S.seen source.old) (S.seen source.new) limit dump.now
        (W.seen writer.old) (W.seen writer.new)) }
    ensures fault { IfErr result (UnlessWrite (RefusesTable (S.seen source.old) (S.seen source.new) limit)) }
{
    let mut reading = TableReading::open(alloc, source, limit)?;
    let k = reading.k();
    let mut block = Block::new();
    'rows: while let Some(row) = reading.next_row(source)? {
        put_row(writer, &mut block, k, dump, row)?;
    }
    Ok(write_out(writer, block.as_slice())?)
}
