//! Reports on a tally: which one is written, and from sources of reads to the report on their tally.
ghost use Rattle.std.specs.Prelude.{◌≡◌, ◌≢◌, OnOk, IfErr, IfOk, IfSome, IsErrOf, map, option_map};
ghost use Rattle.kc_tool.specs.GivenSources.{Keeps, seen_in};
ghost use Rattle.kc_tool.specs.Commands.{sources_from};
ghost use Rattle.kc_tool.specs.NamedSources.{names_of, seen_of};
ghost use Rattle.kc_tool.specs.Reports.{BeginsReport, IsWritable, LeavesUnwritten, WritesReport, WritesText, done_of};
ghost use Rattle.kc_tool.specs.Told.{reads_of};
ghost use Rattle.kc_tool.specs.Reports.{ReportsSources, report_of, report_text};
ghost use Rattle.kc_tool.specs.Tallies.{GivesListOf, IsListUnder, ListFailsIn, given, words_of};
ghost use Rattle.kc_report.specs.Table.{MaySay};
ghost use Rattle.kc_command.specs.Settings.{rule_of};

use crate::count_progress::{NoProgress, Progress, Stage};
use crate::counted_sources::{Means, count_given, read_list, reader_lacks_memory};
use crate::given_sources::GivenSources;
use crate::named_sources::NamedSource;
use crate::reported::Reported;
use crate::told::CountedWords;
use crate::tool_faults::ToolFault;
use kc_command::{Options, Print};
use kc_gather::Numbers;
use kc_io::{FromBytes, Sink, Source};
use kc_report::{
    Dump, Origin, write_dump_in_parallel, write_histo, write_stats, write_table_in_parallel,
};
use kc_tally::Tally;
use kc_word::Only;
use std::alloc::{AllocError, Global};
use std::sync::Wait;
use std::thread::Threads;

/// The greatest count with a bin of its own: a histogram up to it needs only the bins of the stripes.
const MAX_BIN: u64 = 10_000;

/// A report on a tally: which one, the form of a dump, and the greatest count with a line of its own in a histogram.
#[derive(Clone, Copy, Debug, PartialEq, Eq)]
pub(crate) struct Report {
    /// Which report it is.
    pub print: Print,
    /// The form of a dump.
    pub dump: Dump,
    /// The greatest count with a line of its own in a histogram.
    pub high: u64,
}

/// The threads that make the text of a report, started by the runtime.
#[derive(Drop)]
pub(crate) struct Crew<'a, H: Threads> {
    /// The runtime.
    pub rt: &'a H,
    /// How many there are.
    pub threads: u32,
}

/// Reads all sources in order, counts their words, and writes the report that the options ask for. If `only` is given,
/// it is read before the sources, and only words count that occur in its reads, under the rule of the options. Nothing
/// is written before all was read and counted. The sources have at most 2^36 bytes together, and so has `only`.
///
/// # Errors
/// `Fastx` with the fault of `only`, and number 0; the sources are unchanged. Otherwise with the fault of the first
/// source that has one, and its number from 1. The same if a growth was refused while one of them was read. `Run` if
/// the counting was refused, and `Memory` if a growth was refused elsewhere. After all these nothing was written.
/// `Write` if the writer failed or took no byte; a beginning of the report was written.
pub fn count_reads<H: Threads + Wait + Sync, Q: Source + Drop, R: Source + Drop, W: Sink>(
    rt: &H,
    alloc: Global,
    only: Option<Q>,
    sources: Vec<R>,
    options: &Options,
    writer: &mut W,
) -> Result<(), ToolFault>
    ensures written { let Writes = WritesReport (given (option_map Q.seen only) (map R.seen sources.items)) in
        OnOk result (Writes options.now (W.seen writer.old) (W.seen writer.new)) }
    ensures begun { IsErrOf result ToolFault.Write
        → BeginsReport (given (option_map Q.seen only) (map R.seen sources.items)) options.now
        (W.seen writer.old) (W.seen writer.new) }
    ensures refused { let Leaves = LeavesUnwritten (given (option_map Q.seen only) (map R.seen sources.items)) in
        IfErr result (λ fault. fault ≢ ToolFault.Write
        → Leaves options.now (W.seen writer.old) (W.seen writer.new) fault) }
{
    let list = list_of(alloc, only, options)?;
    let mut sources = unnamed_sources(alloc, sources)?;
    let means = Means {
        rt,
        alloc,
        progress: &NoProgress,
    };
    without_counts(report_sources(&means, options, list, &mut sources, writer))
}

// The result of a count, without how much was counted.
fn without_counts(counted: Result<CountedWords, ToolFault>) -> Result<(), ToolFault>
    ensures { result ≡ done_of counted }
{
    match counted {
        Ok(_) => Ok(()),
        Err(fault) => Err(fault),
    }
}

// The list of the words that occur in the reads of this source, if there is one.
fn list_of<Q: Source + Drop>(
    alloc: Global,
    only: Option<Q>,
    options: &Options,
) -> Result<Option<Only>, ToolFault>
    ensures list { IfOk result (GivesListOf (rule_of options.now) (option_map Q.seen only)) }
    ensures fault { IfErr result (ListFailsIn (option_map Q.seen only)) }
{
    let Some(mut source) = only else {
        return Ok(None);
    };
    let list = read_list(alloc, &mut source, &options.rule())?;
    Ok(Some(list))
}

// The sources, without names.
fn unnamed_sources<R: Source + Drop>(
    alloc: Global,
    sources: Vec<R>,
) -> Result<Vec<NamedSource<'static, R>>, AllocError>
    ensures { IfOk result (λ named. seen_of R.seen named.items ≡ map R.seen sources.items) }
{
    let mut named = Vec::with_capacity(alloc, sources.len())?;
    for source in sources {
        named.push(NamedSource { name: "", source })?;
    }
    Ok(named)
}

/// The report that the options ask for.
pub(crate) fn report_of(options: &Options) -> Report
    ensures asked { result ≡ report_of options.now }
    ensures writable { IsWritable result }
{
    Report {
        print: options.print(),
        dump: options.dump(),
        high: options.high(),
    }
}

// What `report_given` does, for the reads of these sources alone, which may be none.
fn report_sources<H: Threads + Wait + Sync, R: Source, W: Sink, P: Progress + Sync>(
    means: &Means<'_, H, P>,
    options: &Options,
    list: Option<Only>,
    sources: &mut [NamedSource<'_, R>],
    writer: &mut W,
) -> Result<CountedWords, ToolFault>
    requires { IfSome list (IsListUnder (rule_of options.now)) }
    ensures { ReportsSources (seen_of R.seen sources.old) (seen_of R.seen sources.new) (words_of list)
        options.now (W.seen writer.old) (W.seen writer.new) result }
{
    let is_empty = sources.is_empty();
    let mut nothing = FromBytes::new(b"");
    let reported = report_files(means, options, list, sources, &mut nothing, writer);
    if !is_empty {
        return reported;
    }
    // for the proof: no read of it failed
    let _rest = nothing.as_slice();
    let fault = match reported {
        Ok(words) => return Ok(words),
        Err(fault) => fault,
    };
    // no bytes have no fault, so their reader can only have lacked memory
    if reader_lacks_memory(&fault) {
        return Err(ToolFault::Memory);
    }
    Err(fault)
}

// What `report_given` does, for these files or, if there are none, for this input.
fn report_files<H: Threads + Wait + Sync, R: Source, F: Source, W: Sink, P: Progress + Sync>(
    means: &Means<'_, H, P>,
    options: &Options,
    list: Option<Only>,
    files: &mut [NamedSource<'_, F>],
    input: &mut R,
    writer: &mut W,
) -> Result<CountedWords, ToolFault>
    requires { IfSome list (IsListUnder (rule_of options.now)) }
    ensures done { let Reports = ReportsSources (sources_from (R.seen input.old) (seen_of F.seen files.old)) in
        Reports (sources_from (R.seen input.new) (seen_of F.seen files.new)) (words_of list)
        options.now (W.seen writer.old) (W.seen writer.new) result }
    ensures names { names_of files.new ≡ names_of files.old }
{
    let mut sources = GivenSources {
        files,
        input,
        own: 0,
    };
    report_given(means, options, list, &mut sources, writer)
}

/// Counts words as `count_given` does, writes the report that the options ask for, and returns how many were counted.
/// Only what the report needs of the tally is gathered. The progress is reported, and when the writing begins.
///
/// # Errors
/// Those of `count_given`; nothing was written. Those of `write_report`.
pub(crate) fn report_given<
    H: Threads + Wait + Sync,
    R: Source,
    F: Source,
    W: Sink,
    P: Progress + Sync,
>(
    means: &Means<'_, H, P>,
    options: &Options,
    list: Option<Only>,
    sources: &mut GivenSources<'_, '_, '_, R, F>,
    writer: &mut W,
) -> Result<CountedWords, ToolFault>
    requires { IfSome list (IsListUnder (rule_of options.now)) }
    ensures done { let Reports = ReportsSources (seen_in R.seen F.seen sources.old) in
        Reports (seen_in R.seen F.seen sources.new) (words_of list)
        options.now (W.seen writer.old) (W.seen writer.new) result }
    ensures kept { Keeps R.seen F.seen sources.old sources.new }
{
    match options.print() {
        Print::Histo if options.high() <= MAX_BIN => {
            report_as::<Numbers, H, R, F, W, P>(means, options, list, sources, writer)
        }
        Print::Stats => report_as::<Numbers, H, R, F, W, P>(means, options, list, sources, writer),
        _ => report_as::<Tally, H, R, F, W, P>(means, options, list, sources, writer),
    }
}

// What `report_given` does, by a summary of this kind. Additional condition: it is enough for the report.
fn report_as<
    S: Reported + Drop,
    H: Threads + Wait + Sync,
    R: Source,
    F: Source,
    W: Sink,
    P: Progress + Sync,
>(
    means: &Means<'_, H, P>,
    options: &Options,
    list: Option<Only>,
    sources: &mut GivenSources<'_, '_, '_, R, F>,
    writer: &mut W,
) -> Result<CountedWords, ToolFault>
    requires list { IfSome list (IsListUnder (rule_of options.now)) }
    requires enough { S.suits (report_of options.now) }
    ensures done { let Reports = ReportsSources (seen_in R.seen F.seen sources.old) in
        Reports (seen_in R.seen F.seen sources.new) (words_of list)
        options.now (W.seen writer.old) (W.seen writer.new) result }
    ensures kept { Keeps R.seen F.seen sources.old sources.new }
{
    let (summary, origin) = count_given::<S, H, R, F, P>(means, options, list, sources)?;
    means.progress.begins(Stage::Text);
    let threads = options.workers();
    let crew = Crew {
        rt: means.rt,
        threads,
    };
    let report = report_of(options);
    summary.write(&crew, means.alloc, writer, origin, report)?;
    Ok(summary.words(reads_of(&origin)))
}

// How many reads a table was counted from, if that is known.
fn reads_of(origin: &Option<Origin>) -> Option<u64>
    ensures { result ≡ reads_of origin.now }
{
    match origin {
        Some(origin) => Some(origin.reads),
        None => None,
    }
}

/// Writes a report on a tally; a table has what it was counted from, if that is known. Conditions: the highest count of
/// a histogram is 1 to 10,000,000, and the origin is one that a header can have.
///
/// # Errors
/// `Write` if the writer failed or took no byte; a beginning of the text was written. `Memory` if a growth was refused;
/// nothing was written.
pub(crate) fn write_report<H: Threads + Sync, W: Sink>(
    crew: &Crew<'_, H>,
    alloc: Global,
    writer: &mut W,
    tally: &Tally,
    origin: Option<Origin>,
    report: Report,
) -> Result<(), ToolFault>
    requires writable { IsWritable report }
    requires origin { MaySay origin }
    ensures { WritesText (report_text report (tally.now, origin)) (W.seen writer.old) (W.seen writer.new) result }
{
    let Crew { rt, threads } = *crew;
    match report.print {
        Print::Table => {
            write_table_in_parallel(rt, alloc, threads, writer, tally, origin.as_ref())?
        }
        Print::Dump => write_dump_in_parallel(rt, alloc, threads, writer, tally, &report.dump)?,
        Print::Histo => write_histo(alloc, writer, tally, report.high)?,
        Print::Stats => write_stats(writer, tally)?,
    }
    Ok(())
}
