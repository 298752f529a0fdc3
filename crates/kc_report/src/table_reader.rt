//! Reading table texts: from bytes to their tally.
ghost use Rattle.std.specs.Prelude.{◌≤◌, ◌^◌, IfOk, IfErr};
ghost use Rattle.kc_report.specs.Table.{MaySay};
ghost use Rattle.kc_report.specs.TableReading.{GivesTable, RefusesTable};

use crate::origin::Origin;
use crate::report_faults::ReportFault;
use crate::table_reading::TableReading;
use kc_io::Source;
use kc_tally::{GrowingRows, Tally};
use std::alloc::Global;

/// Takes all bytes of the source, a table text, and returns its tally, and what it was counted from if the text has
/// that. Gzip is decompressed: then the text and the limit are those of the decompressed bytes. It keeps the rows, one
/// block and one line of the text, and what the decompression keeps. Condition: the limit is at most 2^42.
///
/// # Errors
/// `TableTooLong` if the text is longer than `limit` bytes, `TableRead` if the source failed, `BrokenGzip` if its gzip
/// is broken, and `ShortGzip` if that is cut short, whichever came first; these come before any fault of the text,
/// after which the source is read to its end. Otherwise the first fault of the bytes: `BadHeader`, `BadRow` with its
/// line or `BadEnd`. `Memory` if a growth was refused.
pub fn read_table<R: Source>(
    alloc: Global,
    reader: &mut R,
    limit: u64,
) -> Result<(Tally, Option<Origin>), ReportFault>
    requires { limit ≤ 2 ^ 42 }
    ensures table { IfOk result (λ table. GivesTable (R.seen reader.old) (R.seen reader.new) limit (table.0, table.1)) }
    ensures origin { IfOk result (λ table. MaySay table.1) }
    ensures fault { IfErr result (RefusesTable (R.seen reader.old) (R.seen reader.new) limit) }
{
    let mut reading = TableReading::open(alloc, reader, limit)?;
    let mut rows = GrowingRows::new(alloc);
    'rows: loop {
        let Some(row) = reading.next_row(reader)? else {
            let tally = rows.into_tally(reading.k(), reading.both())?;
            return Ok((tally, reading.origin()));
        };
        rows.push(row)?;
    }
}
