//! Reading a table text row by row; the reader keeps a block and a line of it.
ghost use Rattle.std.specs.Prelude.{◌≡◌, ◌↔◌, ℕ, List, [], ◌++◌, ◌≤◌, false, length, drop, None, Some, Ok, Err};
ghost use Rattle.std.specs.Prelude.{IsTrue, IfSome, IfNone, IfOk, IfErr};
ghost use Rattle.kc_io.specs.Sources.{Seen};
ghost use Rattle.kc_gzip.specs.Intakes.{FillingFails, Skips};
ghost use Rattle.kc_tally.specs.declared.row.Row.{Row};
ghost use Rattle.kc_report.specs.declared.report_faults.ReportFault.TheVariants.{Memory};
ghost use Rattle.kc_report.specs.Dumping.{row_in_columns};
ghost use Rattle.kc_report.specs.Lines.{EndsWithBlock};
ghost use Rattle.kc_report.specs.TableReading.{BeginsWith, HasLine, RefusesTable};
ghost use Rattle.kc_report.specs.RowByRow.{HasGivenRows, KeepsFew, HasSameHeader, RefusesHeader, GivesRow, UsesRow};
ghost use Rattle.kc_report.specs.RowByRow.{BeginsWithNoRow, ComesNext, ReadsRow, Stays};

use crate::origin::Origin;
use crate::report_faults::ReportFault;
use crate::table_header::header_of;
use crate::table_lines::first_line;
use crate::table_rows::TableRows;
use kc_gzip::{Intake, TakeFault};
use kc_io::{Block, Source};
use kc_kmer::K;
use kc_tally::Row;
use std::alloc::Global;
use std::marker::Model;

/// A reader of a table text, which gives its rows one after another and leaves the source with its caller. Gzip is
/// decompressed: the text is that of the decompressed bytes. The reader keeps one block and one line of these, what the
/// decompression keeps, and only numbers of the rows.
///
/// Contracts are about the rows that were given so far: after `open`, `HasGivenRows` holds with none; `next_row` adds
/// the row that it gives; and if it returns `None`, the text of the source is the table text of these rows. Each call
/// is handed the same source, and nobody else takes bytes from it meanwhile.
///
/// ```ignore
/// let mut reading = TableReading::open(alloc, &mut source, limit)?;
/// while let Some(row) = reading.next_row(&mut source)? {
///     total += row.count;
/// }
/// ```
#[derive(Drop)]
pub struct TableReading {
    rows: TableRows,
    origin: Option<Origin>,
    // None after the end of the table or a fault
    intake: Option<Intake>,
    failed: Option<ReportFault>,
}

impl Model for TableReading {
    ghost use Rattle.std.specs.Prelude.{◌≡◌, None, IfSome};
    ghost use Rattle.kc_report.specs.Lines.{EndsWithBlock};
    ghost use Rattle.kc_report.specs.RowByRow.{TableStand};

    ghost Value = { TableStand };

    ghost view = { λ r. record { read = r.rows; origin = r.origin; unread = r.intake; failed = r.failed } };

    ghost invariant = { λ r. IfSome r.intake (λ unread. EndsWithBlock unread.bytes)
        × IfSome r.failed (λ fault. r.intake ≡ None) };
}

impl TableReading {
    /// Takes the header of a table text. The source may give at most `limit` bytes, here and for the rows; for gzip
    /// these are the decompressed ones.
    ///
    /// # Errors
    /// `BadHeader` if the first line is no header; then all bytes were taken. `TableTooLong` if the text is longer than
    /// `limit` bytes, `TableRead` if the source failed, `BrokenGzip` if its gzip is broken, and `ShortGzip` if that is
    /// cut short, whichever came first; these come before `BadHeader`. `Memory` if a growth was refused.
    pub fn open<S: Source>(
        alloc: Global,
        source: &mut S,
        limit: u64,
    ) -> Result<TableReading, ReportFault>
        ensures given { IfOk result (HasGivenRows (S.seen source.old) (S.seen source.new) limit []) }
        ensures few { IfOk result KeepsFew }
        ensures refused { IfErr result (RefusesHeader (S.seen source.old) (S.seen source.new) limit) }
        ensures fault { IfErr result (RefusesTable (S.seen source.old) (S.seen source.new) limit) }
    {
        let mut scratch = Block::new();
        let mut intake = Intake::new(alloc, limit)?;
        let Some(count) = first_line(source, &mut intake)? else {
            return Err(ReportFault::BadHeader);
        };
        let Some((k, both, origin)) = header_of(&mut scratch, &intake.as_slice()[..count]) else {
            intake.skip_rest(source)?;
            return Err(ReportFault::BadHeader);
        };
        intake.use_up(count);
        Ok(TableReading {
            rows: TableRows::new(k, both),
            origin,
            intake: Some(intake),
            failed: None,
        })
    }

    /// The length of the words.
    pub fn k(&self) -> K
        ensures { result ≡ self.now.read.k }
    {
        self.rows.k()
    }

    /// Whether both strands were counted.
    pub fn both(&self) -> bool
        ensures { result ≡ self.now.read.both }
    {
        self.rows.both()
    }

    /// What the table was counted from, if its header has that.
    pub fn origin(&self) -> Option<Origin>
        ensures { result ≡ self.now.origin }
    {
        self.origin
    }

    /// The next row, or none if the text has ended: all bytes of the source were taken, and they are the table text of
    /// the rows that were given. From then on the result is none, and nothing more is taken.
    ///
    /// # Errors
    /// `TableTooLong` if the text is longer than the limit, `TableRead` if the source failed, `BrokenGzip` if its gzip
    /// is broken, and `ShortGzip` if that is cut short, whichever came first; these come before any fault of the text,
    /// after which the source is read to its end. Otherwise the first fault of the bytes: `BadRow` with its line, or
    /// `BadEnd`. `Memory` if a growth was refused. None of these comes while there is a row in the bytes that were
    /// taken. The fault is kept: from then on the result is the same, nothing is taken from the source, and the reader
    /// is unchanged.
    #[inline(always)]
    pub fn next_row<S: Source>(&mut self, source: &mut S) -> Result<Option<Row>, ReportFault>
        ensures given { (start : Seen) (limit : ℕ) (rows : List Row)
            → HasGivenRows start (S.seen source.old) limit rows self.old
            → GivesRow start (S.seen source.new) limit rows self.new result }
        ensures fault { (start : Seen) (limit : ℕ) (rows : List Row)
            → HasGivenRows start (S.seen source.old) limit rows self.old
            → IfErr result (RefusesTable start (S.seen source.new) limit) }
        ensures header { HasSameHeader self.old self.new }
        ensures few { KeepsFew self.new }
        ensures at_hand { IfOk result (λ next. IfSome next (λ row. IfSome self.old.unread (λ unread.
            HasLine unread.bytes → S.seen source.new ≡ S.seen source.old))) }
        ensures at_once { IfSome self.old.unread (λ unread. (row : Row)
            → ComesNext self.old.read row → BeginsWith unread.bytes (row_in_columns self.old.read.k false row)
            → result ≡ Ok (Some row)) }
        ensures memory { result ≡ Err Memory → self.old.failed ≡ None
            → IfSome self.old.unread (λ unread. BeginsWithNoRow self.old.read unread.bytes) }
        ensures comes { ReadsRow self.old.read self.new.read result }
        ensures over { IfOk result (λ next. IfNone next ((self.new.unread ≡ None) × (self.new.failed ≡ None))) }
        ensures kept { IfErr result (λ fault. (self.new.unread ≡ None) × (self.new.failed ≡ Some fault)) }
        ensures ended { self.old.unread ≡ None → self.old.failed ≡ None → result ≡ Ok None }
        ensures again { IfSome self.old.failed (λ fault. result ≡ Err fault) }
        ensures unchanged { self.old.unread ≡ None → self.new ≡ self.old }
        ensures untaken { self.old.unread ≡ None → S.seen source.new ≡ S.seen source.old }
    {
        match self.row_at_hand() {
            Some(row) => Ok(Some(row)),
            None => self.row_of_source(source),
        }
    }

    // The row at the front of the bytes that are there, if it may come next.
    #[inline(always)]
    fn row_at_hand(&mut self) -> Option<Row>
        ensures some { IfSome result (UsesRow self.old self.new) }
        ensures none { IfNone result (self.new ≡ self.old) }
        ensures no_row { IfNone result (IfSome self.old.unread (λ unread.
            BeginsWithNoRow self.old.read unread.bytes)) }
        ensures few { KeepsFew self.new }
    {
        let Some(intake) = &mut self.intake else {
            return None;
        };
        let Some((row, size)) = self.rows.next_row(intake.as_slice()) else {
            return None;
        };
        intake.use_up(size);
        self.rows.push(row);
        Some(row)
    }

    // The next row, for which a line is taken; a fault is kept.
    fn row_of_source<S: Source>(&mut self, source: &mut S) -> Result<Option<Row>, ReportFault>
        ensures given { (start : Seen) (limit : ℕ) (rows : List Row)
            → HasGivenRows start (S.seen source.old) limit rows self.old
            → GivesRow start (S.seen source.new) limit rows self.new result }
        ensures header { HasSameHeader self.old self.new }
        ensures few { KeepsFew self.new }
        ensures at_hand { IfOk result (λ next. IfSome next (λ row. IfSome self.old.unread (λ unread.
            HasLine unread.bytes → S.seen source.new ≡ S.seen source.old))) }
        ensures memory { result ≡ Err Memory → self.old.failed ≡ None
            → IfSome self.old.unread (λ unread. BeginsWithNoRow self.old.read unread.bytes) }
        ensures comes { ReadsRow self.old.read self.new.read result }
        ensures over { IfOk result (λ next. IfNone next ((self.new.unread ≡ None) × (self.new.failed ≡ None))) }
        ensures kept { IfErr result (λ fault. (self.new.unread ≡ None) × (self.new.failed ≡ Some fault)) }
        ensures ended { self.old.unread ≡ None → self.old.failed ≡ None → result ≡ Ok None }
        ensures again { IfSome self.old.failed (λ fault. result ≡ Err fault) }
        ensures unchanged { self.old.unread ≡ None → self.new ≡ self.old }
        ensures untaken { self.old.unread ≡ None → S.seen source.new ≡ S.seen source.old }
    {
        if let Some(fault) = self.failed {
            return Err(fault);
        }
        let Some(intake) = self.intake.take() else {
            return Ok(None);
        };
        match self.row_of_line(source, intake) {
            Ok(next) => Ok(next),
            Err(fault) => {
                self.failed = Some(fault);
                Err(fault)
            }
        }
    }

    // The next row, which has to be the first line of the bytes, or none if that is the end line.
    fn row_of_line<S: Source>(
        &mut self,
        source: &mut S,
        mut unread: Intake,
    ) -> Result<Option<Row>, ReportFault>
        requires few { EndsWithBlock unread.bytes }
        requires out { self.old.unread ≡ None }
        requires unfailed { self.old.failed ≡ None }
        ensures given { (start : Seen) (limit : ℕ) (rows : List Row)
            → HasGivenRows start (S.seen source.old) limit rows (record self.old { unread = Some unread })
            → GivesRow start (S.seen source.new) limit rows self.new result }
        ensures stays { Stays self.old self.new result }
        ensures comes { ReadsRow self.old.read self.new.read result }
        ensures at_hand { IfOk result (λ next. IfSome next (λ row.
            HasLine unread.bytes → S.seen source.new ≡ S.seen source.old)) }
        ensures memory { result ≡ Err Memory → BeginsWithNoRow self.old.read unread.bytes }
    {
        let Some(count) = first_line(source, &mut unread)? else {
            return Err(ReportFault::BadEnd);
        };
        let line = &unread.as_slice()[..count];
        if line.starts_with(b"END") {
            let is_end = self.rows.is_end(line);
            if !is_last(source, unread, count)? || !is_end {
                return Err(ReportFault::BadEnd);
            }
            return Ok(None);
        }
        let Some((row, size)) = self.rows.next_row(line) else {
            unread.skip_rest(source)?;
            return Err(ReportFault::BadRow(self.rows.next_line_number()));
        };
        unread.use_up(size);
        self.rows.push(row);
        self.intake = Some(unread);
        Ok(Some(row))
    }
}

// Takes all that comes from the source, and returns whether the first `count` unread bytes are the last of all.
fn is_last<R: Source>(reader: &mut R, intake: Intake, count: usize) -> Result<bool, TakeFault>
    requires { count ≤ length intake.bytes }
    ensures last { IfOk result (λ last. (many : ℕ)
        × (skips : Skips (R.seen reader.old) (R.seen reader.new) intake (Ok many))
        × (IsTrue last ↔ (drop count intake.bytes ++ skips.0 ≡ []))) }
    ensures fault { IfErr result (FillingFails (R.seen reader.old) (R.seen reader.new) intake) }
{
    let behind = intake.as_slice().len() - count;
    let more = intake.skip_rest(reader)?;
    Ok(behind == 0 && more == 0)
}
