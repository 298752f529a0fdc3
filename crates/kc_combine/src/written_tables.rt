//! The table text of a combination of tables, written row by row.
ghost use Rattle.std.specs.Prelude.{◌≡◌, ◌^◌, ◌<◌, ◌≤◌, List, ℕ, None, IfOk, IfErr, IfSome, length};
ghost use Rattle.kc_io.specs.Sinks.{Written};
ghost use Rattle.kc_tally.specs.declared.row.Row.{Row};
ghost use Rattle.kc_report.specs.declared.header.Header.{Header};
ghost use Rattle.kc_report.specs.Table.{IsOrigin};
ghost use Rattle.kc_report.specs.RowsWritten.{HasPutRows};
ghost use Rattle.kc_combine.specs.Aheads.{HaveLength, heads_of, least_from, whences_of};
ghost use Rattle.kc_combine.specs.declared.written_tables.CombineFault.TheVariants.{Memory};
ghost use Rattle.kc_combine.specs.Walks.{GoesOn, IsWalking, left_from};
ghost use Rattle.kc_combine.specs.WrittenTables.{FailsToWrite, HasWrittenTable, PutsNext, StandAtStart, StopsBehind};

use crate::ahead::Ahead;
use crate::combined_rows::{WalkFault, next_row};
use crate::combines::Combines;
use crate::counts_of_word::MAX_COUNT;
use crate::gives_rows::GivesRows;
use kc_io::Sink;
use kc_report::{Header, TableWriting};
use kc_tally::Row;
use std::alloc::{AllocError, AllocFailed, Global};

/// How many rows a table has, and the sum of their counts.
#[derive(Clone, Copy, Debug, PartialEq, Eq)]
pub struct Totals {
    /// How many rows there are.
    pub distinct: u64,
    /// The sum of their counts.
    pub total: u64,
}

/// Why the table text of a combination was not written whole.
#[derive(Drop)]
pub enum CombineFault<F> {
    /// A table has this fault.
    Table(F),
    /// The tables can't be combined.
    Unlike,
    /// The count of a word, or the sum of the counts, is above 2^62.
    TooLarge,
    /// The writer failed, or took no byte.
    Write,
    /// Memory was refused.
    Memory,
}

impl<F: Drop> From<AllocError> for CombineFault<F> {
    ghost from_gives = { λ _ fault. fault ≡ Memory };

    fn from(_error: AllocError) -> CombineFault<F> {
        CombineFault::Memory
    }
}

impl<T: Drop, F: Drop> From<AllocFailed<T>> for CombineFault<F> {
    ghost from_gives = { λ _ fault. fault ≡ Memory };

    fn from(_error: AllocFailed<T>) -> CombineFault<F> {
        CombineFault::Memory
    }
}

/// Writes the table text of the combination of the tables, under this header. Rows are written as they come, and none
/// is kept. Conditions: the floor of an origin is 33 to 126, and its reads are at most 2^62; the words of each table
/// have the length in the header. The contract covers tables from which no row was taken before.
///
/// # Errors
/// `Memory` if memory for a count of each table was refused; then nothing was written. `Table` if a table has a fault,
/// and `TooLarge` if the count of the next word, or the sum of the counts with it, is above 2^62: the writer took a
/// beginning of the header and of the rows before. `Write` if the writer failed or took no byte; it took a beginning of
/// the text.
pub fn write_combined<R: GivesRows + Drop, C: Combines, W: Sink>(
    alloc: Global,
    aheads: &mut [Ahead<R>],
    combines: &C,
    header: &Header,
    writer: &mut W,
) -> Result<Totals, CombineFault<R::Fault>>
    requires origin { IfSome header.now.origin IsOrigin }
    requires words { HaveLength R.whence header.now.k aheads.old }
    ensures written { StandAtStart R.gave R.gave_all aheads.old → IfOk result (HasWrittenTable R.gave_all
        (C.rule combines.now) header.now (W.seen writer.old) (W.seen writer.new) aheads.new) }
    ensures fault { StandAtStart R.gave R.gave_all aheads.old → IfErr result (FailsToWrite R.gave R.gave_all R.fails
        (C.rule combines.now) header.now (W.seen writer.old) (W.seen writer.new) aheads.new) }
    ensures most { IfOk result (λ totals. totals.total ≤ 2 ^ 62) }
    ensures same { whences_of R.whence aheads.new ≡ whences_of R.whence aheads.old }
{
    let Ok(mut counts) = zero_counts(alloc, aheads.len()) else {
        return Err(CombineFault::Memory);
    };
    write_rows(aheads, combines, &mut counts, header, writer)
}

// A place for a count of each table.
pub(crate) fn zero_counts(alloc: Global, tables: usize) -> Result<Vec<u64>, AllocError>
    ensures { IfOk result (λ counts. length counts.items ≡ tables) }
{
    vec![in alloc; 0; tables]
}

// Writes the table text as `write_combined` does, with a place for a count of each table.
fn write_rows<R: GivesRows + Drop, C: Combines, W: Sink>(
    aheads: &mut [Ahead<R>],
    combines: &C,
    counts: &mut [u64],
    header: &Header,
    writer: &mut W,
) -> Result<Totals, CombineFault<R::Fault>>
    requires alike { length counts.old ≡ length aheads.old }
    requires origin { IfSome header.now.origin IsOrigin }
    requires words { HaveLength R.whence header.now.k aheads.old }
    ensures written { StandAtStart R.gave R.gave_all aheads.old → IfOk result (HasWrittenTable R.gave_all
        (C.rule combines.now) header.now (W.seen writer.old) (W.seen writer.new) aheads.new) }
    ensures fault { StandAtStart R.gave R.gave_all aheads.old → IfErr result (FailsToWrite R.gave R.gave_all R.fails
        (C.rule combines.now) header.now (W.seen writer.old) (W.seen writer.new) aheads.new) }
    ensures most { IfOk result (λ totals. totals.total ≤ 2 ^ 62) }
    ensures same { whences_of R.whence aheads.new ≡ whences_of R.whence aheads.old }
{
    let mut writing = TableWriting::begin(header);
    'rows: while let Some(_row) = put_next(aheads, combines, counts, &mut writing, writer)? {}
    let totals = Totals {
        distinct: writing.distinct(),
        total: writing.total(),
    };
    match writing.end(writer) {
        Ok(()) => Ok(totals),
        Err(_) => Err(CombineFault::Write),
    }
}

// Appends the next row of the combination to those that were put, if one comes.
fn put_next<R: GivesRows + Drop, C: Combines, W: Sink>(
    aheads: &mut [Ahead<R>],
    combines: &C,
    counts: &mut [u64],
    writing: &mut TableWriting,
    writer: &mut W,
) -> Result<Option<Row>, CombineFault<R::Fault>>
    requires alike { length counts.old ≡ length aheads.old }
    requires words { HaveLength R.whence writing.old.k aheads.old }
    ensures put { (start : Written) (header : Header) (rows : List Row)
        → HasPutRows start (W.seen writer.old) header rows writing.old
        → IfOk result (PutsNext start (W.seen writer.new) header rows writing.new) }
    ensures goes { (bound : ℕ) (tables : List (List Row)) (rows : List Row)
        → IsWalking R.gave R.gave_all (C.rule combines.now) bound tables aheads.old rows
        → IfOk result (GoesOn R.gave R.gave_all (C.rule combines.now) aheads.new rows) }
    ensures stops { (start : Written) (header : Header) (bound : ℕ) (tables : List (List Row)) (rows : List Row)
        → HasPutRows start (W.seen writer.old) header rows writing.old
        → IsWalking R.gave R.gave_all (C.rule combines.now) bound tables aheads.old rows
        → IfErr result (StopsBehind R.gave R.gave_all R.fails (C.rule combines.now) header start (W.seen writer.new)
        aheads.new rows) }
    ensures fewer { IfOk result (λ next. IfSome next (λ row. left_from (least_from None (heads_of aheads.new))
        < left_from (least_from None (heads_of aheads.old)))) }
    ensures same { whences_of R.whence aheads.new ≡ whences_of R.whence aheads.old }
    ensures long { length aheads.new ≡ length aheads.old }
    ensures alike { length counts.new ≡ length counts.old }
{
    let next = match next_row(aheads, combines, counts) {
        Ok(next) => next,
        Err(WalkFault::Table(fault)) => return Err(CombineFault::Table(fault)),
        Err(WalkFault::TooLarge) => return Err(CombineFault::TooLarge),
    };
    let Some(row) = next else {
        return Ok(None);
    };
    if row.count > MAX_COUNT - writing.total() {
        return Err(CombineFault::TooLarge);
    }
    match writing.put(writer, row) {
        Ok(()) => Ok(Some(row)),
        Err(_) => Err(CombineFault::Write),
    }
}
