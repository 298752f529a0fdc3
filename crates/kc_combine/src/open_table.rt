//! A table text with its source, which gives its rows.
ghost use Rattle.std.specs.Prelude.{◌≡◌, IfOk, IfErr};
ghost use Rattle.kc_report.specs.TableReading.{RefusesTable};
ghost use Rattle.kc_combine.specs.OpenTables.{IsOpened};

use crate::ahead::Ahead;
use crate::begun::Begun;
use crate::gives_rows::GivesRows;
use crate::opening::Opening;
use crate::placed_fault::PlacedFault;
use kc_io::Source;
use kc_report::{Header, ReportFault, TableReading};
use kc_tally::Row;
use std::alloc::Global;

impl Opening {
    /// Reads the header and the first row of a table text of at most `limit` bytes.
    ///
    /// # Errors
    /// Those of `read_table`.
    pub fn of<S: Source>(alloc: Global, source: &mut S, limit: u64) -> Result<Opening, ReportFault>
        ensures begun { IfOk result (IsOpened (S.seen source.old) (S.seen source.new) limit) }
        ensures fault { IfErr result (RefusesTable (S.seen source.old) (S.seen source.new) limit) }
    {
        let begun = Begun::at(source);
        let mut reading = TableReading::open(alloc, source, limit)?;
        // for the proof: words of k bases are below 2^62
        let _bases = reading.k().get();
        let head = reading.next_row(source)?;
        Ok(Opening {
            reading,
            begun,
            head,
        })
    }

    /// The header.
    pub fn header(&self) -> Header
        ensures k { result.k ≡ self.now.reading.read.k }
        ensures both { result.both ≡ self.now.reading.read.both }
        ensures origin { result.origin ≡ self.now.reading.origin }
    {
        header_of(&self.reading)
    }

    /// The table with its source and its place among the tables, from 1. It gives its rows.
    pub fn with_source<S: Source + Drop>(
        self,
        source: S,
        limit: u64,
        place: u64,
    ) -> Ahead<OpenTable<S>>
        ensures reading { result.reading.reading ≡ self.reading }
        ensures source { result.reading.source ≡ source }
        ensures limit { result.reading.limit ≡ limit }
        ensures place { result.reading.place ≡ place }
        ensures begun { result.reading.begun ≡ self.begun }
        ensures head { result.head ≡ self.head }
    {
        let Opening {
            reading,
            begun,
            head,
        } = self;
        let reading = OpenTable {
            reading,
            source,
            limit,
            place,
            begun,
        };
        Ahead { reading, head }
    }
}

/// The header of a table text that is read.
pub(crate) fn header_of(reading: &TableReading) -> Header
    ensures k { result.k ≡ reading.now.read.k }
    ensures both { result.both ≡ reading.now.read.both }
    ensures origin { result.origin ≡ reading.now.origin }
{
    Header {
        k: reading.k(),
        both: reading.both(),
        origin: reading.origin(),
    }
}

/// A table text and its source.
///
/// ```ignore
/// while let Some(row) = table.next()? {
///     total += row.count;
/// }
/// ```
#[derive(Drop)]
pub struct OpenTable<S: Source + Drop> {
    /// The reader of the text.
    pub reading: TableReading,
    /// Its source.
    pub source: S,
    /// How many bytes the source may give.
    pub limit: u64,
    /// Which of the tables it is, from 1.
    pub place: u64,
    /// The view of the source before the header.
    pub begun: Begun,
}

impl<S: Source + Drop> GivesRows for OpenTable<S> {
    type Fault = PlacedFault;

    ghost use Rattle.kc_combine.specs.OpenTables.{Fails, Gave, GaveAll};
    ghost use Rattle.kc_combine.specs.OpenTables.{ordered_rows, whence_of, whole_rows};
    ghost use Rattle.kc_combine.specs.Whences.{low_of};

    ghost gave = { Gave S.seen };

    ghost gave_all = { GaveAll S.seen };

    ghost fails = { Fails S.seen };

    ghost whence = { whence_of };

    ghost low = { λ t. low_of t.reading.read.last };

    ghost ordered = { λ t rows given. ordered_rows given };

    ghost whole = { λ t rows all. whole_rows t.reading all };

    fn next(&mut self) -> Result<Option<Row>, PlacedFault> {
        // for the proof: words of k bases are below 2^62
        let _bases = self.reading.k().get();
        match self.reading.next_row(&mut self.source) {
            Ok(next) => Ok(next),
            Err(fault) => Err(PlacedFault {
                place: self.place,
                fault,
            }),
        }
    }
}
