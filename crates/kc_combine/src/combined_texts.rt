//! Table texts that are combined, each read from its source.
ghost use Rattle.std.specs.Prelude.{◌≡◌, ◌^◌, ◌≤◌, [], All, IfErr, IfOk, length, map};
ghost use Rattle.std.specs.Vec.{vec_capacity};
ghost use Rattle.kc_report.specs.Table.{MaySay};
ghost use Rattle.kc_combine.specs.CombinedTexts.{AreJoined, AreOpened, CombinesNot, CombinesTexts, FailsOne};
ghost use Rattle.kc_combine.specs.CombinedTexts.{HasHeaderOf};
ghost use Rattle.kc_combine.specs.CombinedTexts.{HasNoHeaderOf, header_fault, header_of, source_of};

use crate::ahead::Ahead;
use crate::combined_headers::combined_header;
use crate::combining::Combining;
use crate::open_table::OpenTable;
use crate::opening::Opening;
use crate::placed_fault::PlacedFault;
use crate::written_tables::{CombineFault, Totals, write_combined};
use kc_io::{Sink, Source};
use kc_report::{Header, ReportFault};
use std::alloc::{AllocError, Global};
use std::mem;

/// Reads the table texts of these sources side by side, at most `limit` bytes of each, and writes the table text of
/// their combination. It keeps what a `TableReading` keeps of each table, and only its next row. The sources keep their
/// order. Condition: there is at least one source.
///
/// # Errors
/// `Table` with the fault of a table, and its place. `Unlike` if the tables can't be combined. `TooLarge` if the reads
/// of merged tables are together above 2^62, or a count, or the sum of the counts. `Write` if the writer failed or took
/// no byte. `Memory` if a growth was refused. Nothing is written before the headers and first rows of all tables are
/// read; after that the writer may have taken a beginning of the text.
pub fn combine_texts<S: Source + Drop, W: Sink>(
    alloc: Global,
    combining: Combining,
    sources: &mut Vec<S>,
    limit: u64,
    writer: &mut W,
) -> Result<Totals, CombineFault<PlacedFault>>
    requires { 1 ≤ length sources.old.items }
    ensures combined { IfOk result (CombinesTexts combining limit (map S.seen sources.old.items)
        (map S.seen sources.new.items) (W.seen writer.old) (W.seen writer.new)) }
    ensures fault { IfErr result (CombinesNot S.seen combining limit sources.old.items sources.new.items
        (W.seen writer.old) (W.seen writer.new)) }
    ensures most { IfOk result (λ totals. totals.total ≤ 2 ^ 62) }
    ensures long { length sources.new.items ≡ length sources.old.items }
{
    let openings = open_each(alloc, sources, limit)?;
    let header = header_of_all(alloc, combining, &openings)?;
    let (count, room) = (sources.len(), Vec::with_capacity(alloc, sources.len())?);
    let left = mem::replace(sources, Vec::with_capacity(alloc, count)?);
    let mut aheads = with_sources(room, left, openings, limit);
    let written = write_combined(alloc, &mut aheads, &combining, &header, writer);
    put_back(sources, aheads);
    written
}

// Reads the header and the first row of each table.
pub(crate) fn open_each<S: Source>(
    alloc: Global,
    sources: &mut [S],
    limit: u64,
) -> Result<Vec<Opening>, CombineFault<PlacedFault>>
    ensures opened { IfOk result (λ openings.
        AreOpened S.seen limit sources.old sources.new openings.items) }
    ensures fault { IfErr result (FailsOne S.seen limit sources.old sources.new) }
    ensures long { length sources.new ≡ length sources.old }
{
    let mut openings = Vec::with_capacity(alloc, sources.len())?;
    'sources: for i in 0..sources.len() {
        match Opening::of(alloc, &mut sources[i], limit) {
            Ok(opening) => openings.push_reserved(opening),
            Err(fault) => {
                let place = i as u64 + 1;
                return Err(CombineFault::Table(PlacedFault { place, fault }));
            }
        }
    }
    Ok(openings)
}

// The header of the combination of these tables.
pub(crate) fn header_of_all(
    alloc: Global,
    combining: Combining,
    openings: &[Opening],
) -> Result<Header, CombineFault<PlacedFault>>
    requires some { 1 ≤ length openings.now }
    requires said { All (λ opening. MaySay opening.reading.origin) openings.now }
    ensures header { IfOk result (HasHeaderOf combining (map header_of openings.now)) }
    ensures fault { IfErr result (HasNoHeaderOf combining (map header_of openings.now)) }
{
    let mut headers = Vec::with_capacity(alloc, openings.len())?;
    'openings: for opening in openings {
        headers.push_reserved(opening.header());
    }
    match combined_header(combining, &headers) {
        Ok(header) => Ok(header),
        Err(fault) => Err(header_fault(fault)),
    }
}

/// Why tables can't be combined.
pub(crate) fn header_fault(fault: ReportFault) -> CombineFault<PlacedFault>
    ensures { result ≡ header_fault fault }
{
    match fault {
        ReportFault::TooLarge => CombineFault::TooLarge,
        _ => CombineFault::Unlike,
    }
}

// The tables with their sources. Conditions: there is a source for each table, and room for all.
pub(crate) fn with_sources<S: Source + Drop>(
    mut room: Vec<Ahead<OpenTable<S>>>,
    sources: Vec<S>,
    openings: Vec<Opening>,
    limit: u64,
) -> Vec<Ahead<OpenTable<S>>>
    requires empty { room.items ≡ [] }
    requires long { length openings.items ≡ length sources.items }
    requires room { length sources.items ≤ vec_capacity room }
    ensures { AreJoined limit 1 sources.items openings.items result.items }
{
    let mut openings = openings.into_iter();
    'sources: for source in sources {
        let Some(opening) = openings.next() else {
            unreachable!()
        };
        let place = room.len() as u64 + 1;
        room.push_reserved(opening.with_source(source, limit, place));
    }
    room
}

// Puts the sources of the tables back, in order. Condition: there is room.
pub(crate) fn put_back<S: Source + Drop>(sources: &mut Vec<S>, aheads: Vec<Ahead<OpenTable<S>>>)
    requires empty { sources.old.items ≡ [] }
    requires room { length aheads.items ≤ vec_capacity sources.old }
    ensures { sources.new.items ≡ map source_of aheads.items }
{
    'tables: for ahead in aheads {
        sources.push_reserved(ahead.reading.source);
    }
}
