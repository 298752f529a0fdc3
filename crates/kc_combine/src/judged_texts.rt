//! Table texts that are read to their ends before they are combined, so that faults come before anything is written.
ghost use Rattle.std.specs.Prelude.{◌≡◌, ◌≤◌, IfErr, IfOk, length};
ghost use Rattle.kc_combine.specs.declared.written_tables.CombineFault.TheVariants.{TooLarge};
ghost use Rattle.kc_report.specs.TableReading.{RefusesTable};
ghost use Rattle.kc_combine.specs.JudgedTexts.{CanCombine, FitsInto, IsJudged, JudgesNot};

use crate::combined_headers::combined_header;
use crate::combined_texts::header_fault;
use crate::combining::Combining;
use crate::counts_of_word::MAX_COUNT;
use crate::open_table::header_of;
use crate::placed_fault::PlacedFault;
use crate::written_tables::CombineFault;
use kc_io::Source;
use kc_report::{Header, ReportFault, TableReading};
use std::alloc::Global;

/// What is kept of a table text that was read.
pub(crate) struct JudgedText {
    header: Header,
    // the sum of the counts
    total: u64,
}

/// Reads the table texts of these sources to their ends, one after another, at most `limit` bytes of each, and returns
/// the header of their combination. No rows are kept. Condition: there is at least one source.
///
/// # Errors
/// `Table` with the first fault of the first table that has one, and its place; the sources after it are unchanged.
/// `Unlike` if the tables can't be combined. `TooLarge` if the reads of merged tables are together above 2^62, or the
/// sum of their counts. `Memory` if a growth was refused.
pub fn judge_texts<S: Source>(
    alloc: Global,
    combining: Combining,
    sources: &mut [S],
    limit: u64,
) -> Result<Header, CombineFault<PlacedFault>>
    requires { 1 ≤ length sources.old }
    ensures judged { IfOk result (CanCombine S.seen combining limit sources.old sources.new) }
    ensures fault { IfErr result (JudgesNot S.seen combining limit sources.old sources.new) }
    ensures long { length sources.new ≡ length sources.old }
{
    let mut headers = Vec::with_capacity(alloc, sources.len())?;
    let mut total: u64 = 0;
    'sources: for i in 0..sources.len() {
        match judge_text(alloc, &mut sources[i], limit) {
            Ok(judged) => {
                let JudgedText {
                    header,
                    total: more,
                } = judged;
                headers.push_reserved(header);
                total = total.saturating_add(more);
            }
            Err(fault) => {
                let place = i as u64 + 1;
                return Err(CombineFault::Table(PlacedFault { place, fault }));
            }
        }
    }
    match combined_header(combining, &headers) {
        Ok(header) => with_total(combining, header, total),
        Err(fault) => Err(header_fault(fault)),
    }
}

// Reads a table text to its end.
fn judge_text<S: Source>(
    alloc: Global,
    source: &mut S,
    limit: u64,
) -> Result<JudgedText, ReportFault>
    ensures judged { IfOk result (IsJudged (S.seen source.old) (S.seen source.new) limit) }
    ensures fault { IfErr result (RefusesTable (S.seen source.old) (S.seen source.new) limit) }
{
    let mut reading = TableReading::open(alloc, source, limit)?;
    let mut total = 0;
    'rows: while let Some(row) = reading.next_row(source)? {
        total += row.count;
    }
    Ok(JudgedText {
        header: header_of(&reading),
        total,
    })
}

/// The header, unless tables with this sum of their counts are to be merged and it is above 2^62.
pub(crate) fn with_total(
    combining: Combining,
    header: Header,
    total: u64,
) -> Result<Header, CombineFault<PlacedFault>>
    ensures header { IfOk result (λ same. same ≡ header) }
    ensures few { IfOk result (λ same. FitsInto combining total) }
    ensures fault { IfErr result (λ fault. (fault ≡ TooLarge) × (¬ FitsInto combining total)) }
{
    match combining {
        Combining::Merge if total > MAX_COUNT => Err(CombineFault::TooLarge),
        _ => Ok(header),
    }
}
