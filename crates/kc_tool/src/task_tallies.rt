//! What is taken from the files of a task: the reads after a list, or tables.
ghost use Rattle.std.specs.Prelude.{◌≡◌, ◌≤◌, All, IfErr, IfOk, drop, length, map, string_bytes};
ghost use Rattle.kc_combine.specs.CombinedTexts.{GiveTables};
ghost use Rattle.kc_combine.specs.LoadedTables.{table_seen};
ghost use Rattle.kc_report.specs.Table.{MaySay};
ghost use Rattle.kc_report.specs.TableReading.{GivesTable};
ghost use Rattle.kc_tool.specs.GivenSources.{Keeps, KeepsFiles, listed_in, seen_in};
ghost use Rattle.kc_tool.specs.Reports.{ReportsCount};
ghost use Rattle.kc_tool.specs.Commands.{
  AreAllWords,
  TellCountsOf,
  TellFirstFault,
  TellNoTable,
  TellOneTableOf,
  TellsNoTable,
  TellsNoWords,
  most_table_bytes,
};

use crate::count_progress::Progress;
use crate::counted_sources::{Means, read_list};
use crate::given_sources::{GivenSources, ReadsSource};
use crate::reports::report_given;
use crate::told::CountedWords;
use crate::tool_faults::{ToolFault, table_fault};
use kc_combine::LoadedTable;
use kc_command::Options;
use kc_io::{Sink, Source};
use kc_report::{Origin, TableNumbers, read_asked, read_numbers, read_table, read_words};
use kc_tally::Tally;
use std::alloc::{AllocError, Global};
use std::sync::Wait;
use std::thread::Threads;

/// The greatest number of bytes of a table.
pub(crate) const MAX_TABLE_BYTES: u64 = 1 << 42;

/// Counts those words that occur in the reads of the first file, in the reads of the sources, and writes the report
/// that the options ask for, as `report_given` does. The progress is reported. Condition: only the first file comes
/// before the sources.
///
/// # Errors
/// The fault of the list; the sources are unchanged, and nothing was written. Those of `report_given`.
pub(crate) fn report_listed<
    H: Threads + Wait + Sync,
    R: Source,
    F: Source,
    W: Sink,
    P: Progress + Sync,
>(
    means: &Means<'_, H, P>,
    options: &Options,
    sources: &mut GivenSources<'_, '_, '_, R, F>,
    writer: &mut W,
) -> Result<CountedWords, ToolFault>
    requires own { sources.old.own ≡ 1 }
    requires some { 1 ≤ length sources.old.files.now }
    ensures done { let Reports = ReportsCount (listed_in R.seen F.seen sources.old) in
        Reports (listed_in R.seen F.seen sources.new) options.now (W.seen writer.old) (W.seen writer.new) result }
    ensures kept { KeepsFiles R.seen F.seen sources.old sources.new }
{
    let rule = options.rule();
    let files = &mut *sources.files;
    let list = read_list(means.alloc, &mut files[0].source, &rule)?;
    report_given(means, options, Some(list), sources, writer)
}

/// The tables of all sources. Each is read whole before a byte of the next one is.
///
/// # Errors
/// The first fault of the first table that has one; the sources after it are unchanged. `Memory` if there was no memory
/// for so many tables; no source was read.
pub(crate) fn tables_of<R: Source, F: Source>(
    alloc: Global,
    sources: &mut GivenSources<'_, '_, '_, R, F>,
) -> Result<Vec<LoadedTable>, ToolFault>
    ensures tables { IfOk result (λ tables. GiveTables most_table_bytes (seen_in R.seen F.seen sources.old)
        (seen_in R.seen F.seen sources.new) (map table_seen tables.items)) }
    ensures origins { IfOk result (λ tables. All (λ table. MaySay table.origin) tables.items) }
    ensures some { IfOk result (λ tables. 1 ≤ length tables.items) }
    ensures fault { IfErr result (TellFirstFault (seen_in R.seen F.seen sources.old)
        (seen_in R.seen F.seen sources.new)) }
    ensures kept { Keeps R.seen F.seen sources.old sources.new }
{
    let mut tables = Vec::with_capacity(alloc, sources.count())?;
    for i in 0..sources.count() {
        let place = i as u64 + 1;
        let (tally, origin) = sources.read(i, &TableReader { alloc, place }, &mut ())?;
        tables.push_reserved(LoadedTable { tally, origin });
    }
    Ok(tables)
}

/// The numbers of the table of the only source, with a place for each count up to this one. No rows are kept.
/// Conditions: there is one source, and the count is at most 10,000,000.
///
/// # Errors
/// The fault of the table.
pub(crate) fn numbers_of<R: Source, F: Source>(
    alloc: Global,
    sources: &mut GivenSources<'_, '_, '_, R, F>,
    high: u64,
) -> Result<TableNumbers, ToolFault>
    requires one { length (seen_in R.seen F.seen sources.old) ≡ 1 }
    requires most { high ≤ 10000000 }
    ensures numbers { IfOk result (TellOneTableOf high (seen_in R.seen F.seen sources.old)
        (seen_in R.seen F.seen sources.new)) }
    ensures fault { IfErr result (TellNoTable (seen_in R.seen F.seen sources.old) (seen_in R.seen F.seen sources.new)) }
    ensures kept { Keeps R.seen F.seen sources.old sources.new }
{
    sources.read(0, &NumbersReader { alloc, high }, &mut ())
}

// Reads the numbers of the table of one source up to this count, with this memory.
#[derive(Drop)]
struct NumbersReader {
    alloc: Global,
    high: u64,
}

impl ReadsSource<()> for NumbersReader {
    type Gives = TableNumbers;

    ghost use Rattle.std.specs.Prelude.{◌≤◌};
    ghost use Rattle.kc_tool.specs.Commands.{TellsNumbersOrNot};

    ghost can_read = { λ reader state. reader.high ≤ 10000000 };

    ghost reads = { λ reader old new state after result. TellsNumbersOrNot reader.high old new result };

    fn read_source<R: Source>(
        &self,
        source: &mut R,
        _state: &mut (),
    ) -> Result<TableNumbers, ToolFault> {
        match read_numbers(self.alloc, source, MAX_TABLE_BYTES, self.high) {
            Ok(numbers) => Ok(numbers),
            Err(why) => Err(table_fault(1, why)),
        }
    }
}

/// These words, followed by those of the list that this source gives.
///
/// # Errors
/// The fault of the list. `Memory` if there was no memory for the words.
pub(crate) fn all_words<R: Source>(
    alloc: Global,
    words: &Vec<String>,
    list: &mut R,
) -> Result<Vec<String>, ToolFault>
    ensures all { IfOk result (AreAllWords words.now (R.seen list.old) (R.seen list.new)) }
    ensures fault { IfErr result (TellsNoWords (R.seen list.old) (R.seen list.new)) }
{
    let mut all = copies(alloc, words)?;
    match read_words(alloc, list, MAX_TABLE_BYTES, &mut all) {
        Ok(()) => Ok(all),
        Err(why) => Err(table_fault(0, why)),
    }
}

// Copies of the words.
fn copies(alloc: Global, words: &[String]) -> Result<Vec<String>, AllocError>
    ensures { IfOk result (λ copies. map string_bytes copies.items ≡ map string_bytes words.now) }
{
    let mut copies = Vec::with_capacity(alloc, words.len())?;
    for word in words {
        copies.push(String::from_str(alloc, word.as_str())?)?;
    }
    Ok(copies)
}

/// The rows of these words in the table of the only source. No other rows are kept. Condition: there is one source.
///
/// # Errors
/// The fault of the table.
pub(crate) fn asked_rows<R: Source, F: Source>(
    alloc: Global,
    sources: &mut GivenSources<'_, '_, '_, R, F>,
    words: &[String],
) -> Result<Tally, ToolFault>
    requires { length (seen_in R.seen F.seen sources.old) ≡ 1 }
    ensures counts { IfOk result (TellCountsOf (map string_bytes words.now) (seen_in R.seen F.seen sources.old)
        (seen_in R.seen F.seen sources.new)) }
    ensures fault { IfErr result (TellNoTable (seen_in R.seen F.seen sources.old) (seen_in R.seen F.seen sources.new)) }
    ensures kept { Keeps R.seen F.seen sources.old sources.new }
{
    sources.read(0, &AskedReader { alloc, words }, &mut ())
}

// Reads the rows of these words in the table of one source, with this memory.
#[derive(Drop)]
struct AskedReader<'a> {
    alloc: Global,
    words: &'a [String],
}

impl ReadsSource<()> for AskedReader<'_> {
    type Gives = Tally;

    ghost use Rattle.std.specs.Prelude.{⊤, map, string_bytes};
    ghost use Rattle.kc_tool.specs.Commands.{TellsCountsOrNot};

    ghost can_read = { λ reader state. ⊤ };

    ghost reads = { λ reader old new state after result.
        TellsCountsOrNot (map string_bytes reader.words.now) old new result };

    fn read_source<R: Source>(&self, source: &mut R, _state: &mut ()) -> Result<Tally, ToolFault> {
        match read_asked(self.alloc, source, MAX_TABLE_BYTES, self.words) {
            Ok(few) => Ok(few),
            Err(why) => Err(table_fault(1, why)),
        }
    }
}

// Reads the table of one source, with this memory. It is table number `place`, from 1.
#[derive(Drop)]
struct TableReader {
    alloc: Global,
    place: u64,
}

impl ReadsSource<()> for TableReader {
    type Gives = (Tally, Option<Origin>);

    ghost use Rattle.kc_tool.specs.Commands.{TellsOrNot};
    ghost use Rattle.std.specs.Prelude.{⊤};

    ghost can_read = { λ reader state. ⊤ };

    ghost reads = { λ reader old new state after result. TellsOrNot reader.place old new result };

    fn read_source<R: Source>(
        &self,
        source: &mut R,
        _state: &mut (),
    ) -> Result<(Tally, Option<Origin>), ToolFault> {
        table_from(self.alloc, source, self.place)
    }
}

// The table in the text of this source; it is table number `place`, from 1.
pub(crate) fn table_from<R: Source>(
    alloc: Global,
    source: &mut R,
    place: u64,
) -> Result<(Tally, Option<Origin>), ToolFault>
    ensures table { let Gives = GivesTable (R.seen source.old) (R.seen source.new) most_table_bytes in
        IfOk result (λ table. Gives (table.0, table.1)) }
    ensures origin { IfOk result (λ table. MaySay table.1) }
    ensures fault { IfErr result (TellsNoTable place (R.seen source.old) (R.seen source.new)) }
{
    match read_table(alloc, source, MAX_TABLE_BYTES) {
        Ok(table) => Ok(table),
        Err(why) => Err(table_fault(place, why)),
    }
}
