//! Tables in memory that are combined.
ghost use Rattle.std.specs.Prelude.{◌≡◌, ◌^◌, ◌≤◌, All, IfErr, IfOk, length, map};
ghost use Rattle.kc_report.specs.Table.{MaySay};
ghost use Rattle.kc_combine.specs.CombinedTexts.{CombinesTables, HasHeaderOf, header_seen};
ghost use Rattle.kc_combine.specs.JudgedTexts.{FitsInto, total_of_all};
ghost use Rattle.kc_combine.specs.LoadedTables.{AreBegun, CombinesNoTables, HaveNoHeader, table_seen};

use crate::ahead::Ahead;
use crate::combined_headers::combined_header;
use crate::combined_texts::header_fault;
use crate::combining::Combining;
use crate::judged_texts::with_total;
use crate::kept_table::KeptTable;
use crate::placed_fault::PlacedFault;
use crate::written_tables::{CombineFault, Totals, write_combined};
use kc_io::Sink;
use kc_report::{Header, Origin};
use kc_tally::Tally;
use std::alloc::{AllocError, Global};

/// A table in memory, and what it was counted from.
#[derive(Drop)]
pub struct LoadedTable {
    /// The words and their counts.
    pub tally: Tally,
    /// What it was counted from, if that is known.
    pub origin: Option<Origin>,
}

/// Writes the table text of the combination of these tables. The rows of the result are written as they come, and none
/// is kept. Conditions: there is at least one table, and each origin is one that a header can have.
///
/// # Errors
/// `Unlike` if the tables can't be combined, and `TooLarge` if the reads of merged tables, or their counts, are
/// together above 2^62; then nothing was written. `TooLarge` if a count of another combination, or the sum of its
/// counts, is above 2^62, and `Write` if the writer failed or took no byte; then it took a beginning of the text.
/// `Memory` if a growth was refused; nothing was written.
pub fn combine_tables<W: Sink>(
    alloc: Global,
    combining: Combining,
    tables: &[LoadedTable],
    writer: &mut W,
) -> Result<Totals, CombineFault<PlacedFault>>
    requires some { 1 ≤ length tables.now }
    requires said { All (λ table. MaySay table.origin) tables.now }
    ensures combined { IfOk result (CombinesTables combining (map table_seen tables.now) (W.seen writer.old)
        (W.seen writer.new)) }
    ensures few { IfOk result (λ totals. FitsInto combining (total_of_all (map table_seen tables.now))) }
    ensures most { IfOk result (λ totals. totals.total ≤ 2 ^ 62) }
    ensures fault { IfErr result (CombinesNoTables combining (map table_seen tables.now) (W.seen writer.old)
        (W.seen writer.new)) }
{
    let header = header_of_loaded(alloc, combining, tables)?;
    let mut aheads = begin_each(alloc, tables)?;
    write_combined(alloc, &mut aheads, &combining, &header, writer)
}

// The header of the combination of these tables.
pub(crate) fn header_of_loaded(
    alloc: Global,
    combining: Combining,
    tables: &[LoadedTable],
) -> Result<Header, CombineFault<PlacedFault>>
    requires some { 1 ≤ length tables.now }
    requires said { All (λ table. MaySay table.origin) tables.now }
    ensures header { IfOk result (HasHeaderOf combining (map header_seen (map table_seen tables.now))) }
    ensures few { IfOk result (λ header. FitsInto combining (total_of_all (map table_seen tables.now))) }
    ensures fault { IfErr result (HaveNoHeader combining (map table_seen tables.now)) }
{
    let mut headers = Vec::with_capacity(alloc, tables.len())?;
    let mut total: u64 = 0;
    'tables: for table in tables {
        headers.push_reserved(Header {
            k: table.tally.k(),
            both: table.tally.both(),
            origin: table.origin,
        });
        total = total.saturating_add(table.tally.total());
    }
    match combined_header(combining, &headers) {
        Ok(header) => with_total(combining, header, total),
        Err(fault) => Err(header_fault(fault)),
    }
}

// Each of these tables, with its first row already read.
pub(crate) fn begin_each<'a>(
    alloc: Global,
    tables: &'a [LoadedTable],
) -> Result<Vec<Ahead<KeptTable<'a>>>, AllocError>
    ensures { IfOk result (λ aheads. AreBegun (map table_seen tables.now) aheads.items) }
{
    let mut aheads = Vec::with_capacity(alloc, tables.len())?;
    'tables: for table in tables {
        let Ok(ahead) = Ahead::new(KeptTable::new(&table.tally)) else {
            unreachable!()
        };
        aheads.push_reserved(ahead);
    }
    Ok(aheads)
}
