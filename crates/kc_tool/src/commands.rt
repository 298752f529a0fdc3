//! The commands: each opens its files, does its task, and writes its text.
ghost use Rattle.std.specs.Prelude.{◌≡◌, ◌≤◌, ◌⊎◌, length, option_map};
ghost use Rattle.clap.specs.Words.{found_of, rows_of};
ghost use Rattle.kc_tool.specs.GivenSources.{Keeps, KeepsFiles, listed_in, seen_in};
ghost use Rattle.kc_tool.specs.NamedSources.{names_of, seen_of};
ghost use Rattle.kc_io.specs.Sources.{Seen};
ghost use Rattle.kc_select.specs.Pairs.{each};
ghost use Rattle.kc_tool.specs.Commands.{
  Derives,
  Does,
  DoesApart,
  DoesByTally,
  DoesTaskApart,
  DoesTaskInto,
  EndsSo,
  GoTogether,
  HasFilesFor,
  HasWritableReport,
  KeepsInput,
  LacksOutput,
  QueriesBy,
  SelectsBy,
  SelectsPairsInto,
  TakesSources,
  WritesTwo,
  given_listed,
  given_of,
  own_of,
  second_of,
  sources_in,
  told_of,
  told_of_count,
  verb_named,
};
ghost use Rattle.kc_tool.specs.Files.{HasNoOutput, HasNotBoth};
ghost use Rattle.kc_combine.specs.Derivations.{HasHigh, TakesTables};
ghost use Rattle.kc_tool.specs.Reports.{HasLines};
ghost use Rattle.kc_tool.specs.Tallies.{given};

use crate::count_progress::{Progress, Stage};
use crate::counted_sources::Means;
use crate::files::{FileSource, NamedFiles, open_files, size_behind, take_sources};
use crate::given_sources::GivenSources;
use crate::named_sources::NamedSource;
use crate::outputs::{close_both, close_output, open_both, open_output};
use crate::paired_sources::{Pairing, select_pairs};
use crate::pairs_writers::{Apart, Interleaved};
use crate::reports::report_given;
use crate::selected_sources::select_given;
use crate::table_reports::TableReport;
use crate::task_plans::plan_of;
use crate::task_tallies::{
    all_words, asked_rows, numbers_of, report_listed, table_from, tables_of,
};
use crate::told::{CountedWords, Told, told_of_totals};
use crate::tool_faults::{ToolFault, combine_fault};
use crate::two_passes::derive_files;
use clap::ArgMatches;
use kc_combine::{Derived, derive_from_tables};
use kc_command::command::{
    COMPARE, COUNT, DUMP, FILTER, HISTO, INTERSECT, MERGE, PROFILE, QUERY, SELECT, STATS, SUBTRACT,
};
use kc_command::{Options, text_of};
use kc_io::{Sink, Source};
use kc_report::query;
use kc_select::{Selection, SelectionCounts, Sides};
use std::rt::Files;
use std::sync::Wait;
use std::thread::Threads;

/// The commands of `kcount`.
#[derive(Clone, Copy, Debug, PartialEq, Eq)]
pub(crate) enum Verb {
    /// Counts words.
    Count,
    /// Writes the dump of a table.
    Dump,
    /// Writes the histogram of a table.
    Histo,
    /// Writes the statistics of a table.
    Stats,
    /// Writes the counts of words from a table.
    Query,
    /// Writes the sum of tables.
    Merge,
    /// Writes the words that every table has.
    Intersect,
    /// Writes what is left of the first table without the others.
    Subtract,
    /// Writes the words of a table whose counts are within bounds.
    Filter,
    /// Compares a table of reads with one of an assembly.
    Compare,
    /// Writes the reads that a table selects.
    Select,
    /// Writes the counts of the words along each read.
    Profile,
}

/// The command with this name.
pub(crate) fn verb_named(name: &str) -> Option<Verb>
    ensures { result ≡ verb_named name.now }
{
    match name {
        COUNT => Some(Verb::Count),
        DUMP => Some(Verb::Dump),
        HISTO => Some(Verb::Histo),
        STATS => Some(Verb::Stats),
        QUERY => Some(Verb::Query),
        MERGE => Some(Verb::Merge),
        INTERSECT => Some(Verb::Intersect),
        SUBTRACT => Some(Verb::Subtract),
        FILTER => Some(Verb::Filter),
        COMPARE => Some(Verb::Compare),
        SELECT => Some(Verb::Select),
        PROFILE => Some(Verb::Profile),
        _ => None,
    }
}

/// The task of a command.
#[derive(Drop)]
pub(crate) enum Task {
    /// Counts the words of sequence reads, and writes a report on them.
    Count(Options),
    /// Counts those words that occur in the reads of a list, which is the first file, and writes a report on them.
    CountListed(Options),
    /// Reads a table, and writes a histogram or statistics of it.
    Report(TableReport),
    /// Reads a table, and writes the counts of these words.
    Query(Vec<String>),
    /// Reads a table, and writes the counts of these words, and then of those of a list, which is the first file.
    QueryListed(Vec<String>),
    /// Reads tables, and writes what is derived from them.
    Derive(Derived),
    /// Reads tables from regular files, each of which is opened twice, and writes what is derived from them.
    DeriveFiles(Derived),
    /// Reads a table, which is the first file, and writes the reads of the others that it selects, or their profiles;
    /// the flag is whether to print the numbers of the reads.
    Select(Selection, bool),
    /// Reads a table, which is the first file, and writes the pairs of reads of the two others that it selects.
    SelectPairs(Pairing),
}

/// Runs a command with its options: opens its files, takes its tally, and writes its text. Files are opened in order
/// before anything is read, then the file for the output, and at the end all are closed. A text takes the place of the
/// file that is named for it once it is whole, and two texts do so together. The progress of a count is reported. It
/// returns what there is to report of what was done. Condition: the options don't conflict.
///
/// # Errors
/// `BadOption` with the first option with a value outside its limits, before any file is requested. `OpenFailed` with
/// the first file that can't be opened, or with that of the output if no text can be put in its place; nothing was read
/// then. The fault of the sources or of the words. After all these nothing was written. `Write` if the writer failed or
/// took no byte, or if the text can't be put in the place of the file. Then the given output has a beginning of the
/// text, and a file for the output is unchanged.
pub(crate) fn run_command<
    H: Threads + Wait + Sync,
    S: Files,
    R: Source,
    W: Sink,
    P: Progress + Sync,
>(
    means: &Means<'_, H, P>,
    verb: Verb,
    matches: &ArgMatches<'_>,
    files: &mut NamedFiles<'_, S>,
    input: &mut R,
    output: &mut W,
) -> Result<Told, ToolFault>
    requires { GoTogether verb (rows_of (found_of matches.now)) }
    ensures { EndsSo verb (rows_of (found_of matches.now))
        (record { input = R.seen input.old; output = W.seen output.old; asked = files.old })
        (record { input = R.seen input.new; output = W.seen output.new; asked = files.new }) result }
{
    let alloc = means.alloc;
    let plan = plan_of(alloc, verb, matches, files)?;
    let mut sources = open_files(alloc, files, &plan.names)?;
    if sources.len() <= own_file_count(&plan.task) {
        means.progress.input_is_read();
    }
    means
        .progress
        .sources_have(size_behind(&sources, own_file_count(&plan.task)));
    let Some(name) = text_of(matches, "output") else {
        let outcome = answer(means, &plan.task, &mut sources, input, output);
        take_sources(files, sources);
        return outcome;
    };
    match second_output(verb, matches) {
        None => answer_into(means, &plan.task, files, sources, input, name),
        Some(other) => {
            let names = Sides {
                first: name,
                second: other,
            };
            answer_apart(means, &plan.task, files, sources, &names)
        }
    }
}

// The second output of a command, which only a selection can have.
fn second_output<'a>(verb: Verb, matches: &ArgMatches<'a>) -> Option<&'a str>
    ensures { option_map (λ name. name.now) result ≡ second_of verb (rows_of (found_of matches.now)) }
{
    match verb {
        Verb::Select => text_of(matches, "output2"),
        _ => None,
    }
}

// Does a task with files that were opened, or with the given input if no source is a file, and gives the files back.
// Its text goes to the file with this name. Conditions: the task has its files, and the highest count of a histogram is
// 1 to 10,000,000.
fn answer_into<H: Threads + Wait + Sync, S: Files, R: Source, P: Progress + Sync>(
    means: &Means<'_, H, P>,
    task: &Task,
    files: &mut NamedFiles<'_, S>,
    sources: Vec<NamedSource<'_, FileSource<S::File>>>,
    input: &mut R,
    name: &str,
) -> Result<Told, ToolFault>
    requires files { HasFilesFor task.now (seen_of (λ s. s) sources.items) }
    requires writable { HasWritableReport task.now }
    ensures { DoesTaskInto name.now sources.entry.items task.now (R.seen input.old) (R.seen input.new)
        files.old files.new result
        ⊎ LacksOutput (λ tried fault. HasNoOutput name.now tried fault) sources.entry.items
        (R.seen input.old) (R.seen input.new) files.old files.new result }
{
    let mut sources = sources;
    let mut output = match open_output(means.alloc, files, name) {
        Ok(output) => output,
        Err(fault) => {
            take_sources(files, sources);
            return Err(fault);
        }
    };
    means.progress.text_goes_to_file();
    let sink = &mut output.file.sink;
    let work = answer(means, task, &mut sources, input, sink);
    take_sources(files, sources);
    close_output(files, output, work)
}

// Does a task that writes two texts, with files that were opened, and gives the files back. The texts go to the files
// with these names, both or none. Conditions: the task is such a one, and has its files.
fn answer_apart<H: Threads, S: Files, P: Progress>(
    means: &Means<'_, H, P>,
    task: &Task,
    files: &mut NamedFiles<'_, S>,
    sources: Vec<NamedSource<'_, FileSource<S::File>>>,
    names: &Sides<&str>,
) -> Result<Told, ToolFault>
    requires two { WritesTwo task.now }
    requires files { HasFilesFor task.now (seen_of (λ s. s) sources.items) }
    ensures { (input : Seen) → DoesTaskApart names.now.first.now names.now.second.now sources.entry.items task.now
        input input files.old files.new result
        ⊎ LacksOutput (λ tried fault. HasNotBoth names.now.first.now names.now.second.now tried fault)
        sources.entry.items input input files.old files.new result }
{
    let mut sources = sources;
    let mut outputs = match open_both(means.alloc, files, names) {
        Ok(outputs) => outputs,
        Err(fault) => {
            take_sources(files, sources);
            return Err(fault);
        }
    };
    means.progress.text_goes_to_file();
    let work = write_apart(means, task, &mut sources, &mut outputs.sinks);
    take_sources(files, sources);
    close_both(files, outputs, work)
}

// Does a task that writes two texts, with its files, which keep their names. Conditions: the task is such a one, and
// has its files.
fn write_apart<H: Threads, F: Source, W: Sink, P: Progress>(
    means: &Means<'_, H, P>,
    task: &Task,
    files: &mut Vec<NamedSource<'_, F>>,
    outputs: &mut Sides<W>,
) -> Result<Told, ToolFault>
    requires two { WritesTwo task.now }
    requires files { HasFilesFor task.now (seen_of F.seen files.old.items) }
    ensures done { (input : Seen) → DoesApart task.now (given_of task.now input (seen_of F.seen files.old.items))
        (given_of task.now input (seen_of F.seen files.new.items)) (each W.seen outputs.old) (each W.seen outputs.new)
        result }
    ensures names { names_of files.new.items ≡ names_of files.old.items }
{
    let Task::SelectPairs(pairing) = task else {
        unreachable!()
    };
    let selected = select_pairs(means, &Apart, pairing, files, outputs);
    told_of_selection(selected, pairing.selection, pairing.tells)
}

// Does a task with its files, which keep their names: it takes its tally or reads, and writes its text. The progress of
// a count is reported.
fn answer<H: Threads + Wait + Sync, R: Source, F: Source + Drop, W: Sink, P: Progress + Sync>(
    means: &Means<'_, H, P>,
    task: &Task,
    files: &mut Vec<NamedSource<'_, F>>,
    input: &mut R,
    output: &mut W,
) -> Result<Told, ToolFault>
    requires files { HasFilesFor task.now (seen_of F.seen files.old.items) }
    requires writable { HasWritableReport task.now }
    ensures done { Does task.now
        (record {
          given = given_of task.now (R.seen input.old) (seen_of F.seen files.old.items);
          output = W.seen output.old;
        })
        (record {
          given = given_of task.now (R.seen input.new) (seen_of F.seen files.new.items);
          output = W.seen output.new;
        })
        result }
    ensures input { KeepsInput (sources_in task.now (seen_of F.seen files.old.items)) (R.seen input.old)
        (R.seen input.new) }
    ensures names { names_of files.new.items ≡ names_of files.old.items }
{
    match task {
        Task::DeriveFiles(derived) => derive_files(means, *derived, files, output),
        Task::SelectPairs(pairing) => pair_by_table(means, pairing, files, output),
        _ => answer_of_sources(means, task, files, input, output),
    }
}

// The same if the task takes its sources one after another. Condition: it does.
fn answer_of_sources<H: Threads + Wait + Sync, R: Source, F: Source, W: Sink, P: Progress + Sync>(
    means: &Means<'_, H, P>,
    task: &Task,
    files: &mut [NamedSource<'_, F>],
    input: &mut R,
    output: &mut W,
) -> Result<Told, ToolFault>
    requires sources { TakesSources task.now }
    requires files { HasFilesFor task.now (seen_of F.seen files.old) }
    requires writable { HasWritableReport task.now }
    ensures done { Does task.now
        (record { given = given_of task.now (R.seen input.old) (seen_of F.seen files.old); output = W.seen output.old })
        (record { given = given_of task.now (R.seen input.new) (seen_of F.seen files.new); output = W.seen output.new })
        result }
    ensures input { KeepsInput (sources_in task.now (seen_of F.seen files.old)) (R.seen input.old) (R.seen input.new) }
    ensures names { names_of files.new ≡ names_of files.old }
{
    let own = own_file_count(task);
    let mut sources = GivenSources { files, input, own };
    match task {
        Task::Count(options) => count_words(means, options, &mut sources, output),
        Task::CountListed(options) => count_listed(means, options, &mut sources, output),
        Task::Report(report) => report_table(means, *report, &mut sources, output),
        Task::Query(words) => query_table(means, words, &mut sources, output),
        Task::QueryListed(words) => query_listed(means, words, &mut sources, output),
        Task::Derive(derived) => write_derived(means, *derived, &mut sources, output),
        Task::Select(selection, tells) => {
            select_by_table(means, *selection, *tells, &mut sources, output)
        }
        Task::DeriveFiles(_) | Task::SelectPairs(_) => unreachable!(),
    }
}

// How many of a task's files come before its sources: its list, or the table of a selection.
fn own_file_count(task: &Task) -> usize
    ensures { result ≡ own_of task.now }
{
    match task {
        Task::CountListed(_) | Task::QueryListed(_) | Task::Select(_, _) | Task::SelectPairs(_) =>
            1,
        _ => 0,
    }
}

// Counts the words of the sources, and writes the report on them.
fn count_words<H: Threads + Wait + Sync, R: Source, F: Source, W: Sink, P: Progress + Sync>(
    means: &Means<'_, H, P>,
    options: &Options,
    sources: &mut GivenSources<'_, '_, '_, R, F>,
    output: &mut W,
) -> Result<Told, ToolFault>
    ensures done { DoesByTally (Task.Count options.now)
        (record { given = given None (seen_in R.seen F.seen sources.old); output = W.seen output.old })
        (record { given = given None (seen_in R.seen F.seen sources.new); output = W.seen output.new })
        result }
    ensures kept { Keeps R.seen F.seen sources.old sources.new }
{
    told_of_count(report_given(means, options, None, sources, output))
}

// Counts those words of the sources that occur in the first file, and writes the report on them. Condition: only the
// first file comes before the sources.
fn count_listed<H: Threads + Wait + Sync, R: Source, F: Source, W: Sink, P: Progress + Sync>(
    means: &Means<'_, H, P>,
    options: &Options,
    sources: &mut GivenSources<'_, '_, '_, R, F>,
    output: &mut W,
) -> Result<Told, ToolFault>
    requires own { sources.old.own ≡ 1 }
    requires some { 1 ≤ length sources.old.files.now }
    ensures done { DoesByTally (Task.CountListed options.now)
        (record { given = listed_in R.seen F.seen sources.old; output = W.seen output.old })
        (record { given = listed_in R.seen F.seen sources.new; output = W.seen output.new })
        result }
    ensures kept { KeepsFiles R.seen F.seen sources.old sources.new }
{
    told_of_count(report_listed(means, options, sources, output))
}

// What there is to report of a count.
fn told_of_count(counted: Result<CountedWords, ToolFault>) -> Result<Told, ToolFault>
    ensures { result ≡ told_of_count counted }
{
    match counted {
        Ok(words) => Ok(Told::Counted(words)),
        Err(fault) => Err(fault),
    }
}

// Reads the table of the only source, and writes a histogram or statistics of it. No rows are kept. Conditions: there
// is one source, and the highest count of a histogram is 1 to 10,000,000.
fn report_table<H: Threads, R: Source, F: Source, W: Sink, P: Progress>(
    means: &Means<'_, H, P>,
    report: TableReport,
    sources: &mut GivenSources<'_, '_, '_, R, F>,
    output: &mut W,
) -> Result<Told, ToolFault>
    requires one { length (seen_in R.seen F.seen sources.old) ≡ 1 }
    requires writable { HasLines report }
    ensures done { DoesByTally (Task.Report report)
        (record { given = given None (seen_in R.seen F.seen sources.old); output = W.seen output.old })
        (record { given = given None (seen_in R.seen F.seen sources.new); output = W.seen output.new })
        result }
    ensures kept { Keeps R.seen F.seen sources.old sources.new }
{
    means.progress.begins(Stage::Tables);
    let numbers = numbers_of(means.alloc, sources, report.high())?;
    means.progress.begins(Stage::Text);
    report.write(&numbers, output)?;
    Ok(Told::Nothing)
}

// Reads the table of the only source, and writes the counts of these words. No rows of others are kept.
fn query_table<H: Threads, R: Source, F: Source, W: Sink, P: Progress>(
    means: &Means<'_, H, P>,
    words: &Vec<String>,
    sources: &mut GivenSources<'_, '_, '_, R, F>,
    output: &mut W,
) -> Result<Told, ToolFault>
    requires { length (seen_in R.seen F.seen sources.old) ≡ 1 }
    ensures done { DoesByTally (Task.Query words.now)
        (record { given = given None (seen_in R.seen F.seen sources.old); output = W.seen output.old })
        (record { given = given None (seen_in R.seen F.seen sources.new); output = W.seen output.new })
        result }
    ensures kept { Keeps R.seen F.seen sources.old sources.new }
{
    means.progress.begins(Stage::Tables);
    let few = asked_rows(means.alloc, sources, words)?;
    means.progress.begins(Stage::Text);
    query(output, &few, words)?;
    Ok(Told::Nothing)
}

// Reads the list of words, which is the first file, and the table of the only source, and writes the counts of these
// words of the command line, and then of those of the list. Condition: the list and the source are two files.
fn query_listed<H: Threads, R: Source, F: Source, W: Sink, P: Progress>(
    means: &Means<'_, H, P>,
    words: &Vec<String>,
    sources: &mut GivenSources<'_, '_, '_, R, F>,
    output: &mut W,
) -> Result<Told, ToolFault>
    requires own { sources.old.own ≡ 1 }
    requires two { length sources.old.files.now ≡ 2 }
    ensures done { QueriesBy words.now
        (record { given = listed_in R.seen F.seen sources.old; output = W.seen output.old })
        (record { given = listed_in R.seen F.seen sources.new; output = W.seen output.new })
        result }
    ensures kept { KeepsFiles R.seen F.seen sources.old sources.new }
{
    let files = &mut *sources.files;
    let all = all_words(means.alloc, words, &mut files[0].source)?;
    query_table(means, &all, sources, output)
}

// Reads the tables of the sources, and writes what is derived from them. Conditions: there are as many sources as are
// needed, and the highest count of a spectrum is 1 to 10,000,000.
fn write_derived<H: Threads, R: Source, F: Source, W: Sink, P: Progress>(
    means: &Means<'_, H, P>,
    derived: Derived,
    sources: &mut GivenSources<'_, '_, '_, R, F>,
    output: &mut W,
) -> Result<Told, ToolFault>
    requires count { TakesTables derived (length (seen_in R.seen F.seen sources.old)) }
    requires high { HasHigh derived }
    ensures done { Derives derived (seen_in R.seen F.seen sources.old) (seen_in R.seen F.seen sources.new)
        (W.seen output.old) (W.seen output.new) result }
    ensures kept { Keeps R.seen F.seen sources.old sources.new }
{
    means.progress.begins(Stage::Tables);
    let tables = tables_of(means.alloc, sources)?;
    means.progress.begins(Stage::Text);
    match derive_from_tables(means.alloc, derived, &tables, output) {
        Ok(totals) => Ok(told_of_totals(totals)),
        Err(fault) => Err(combine_fault(fault)),
    }
}

// Reads the table of the first file, and writes the reads of the sources that it selects, or their profiles. It returns
// the numbers of the reads, and whether they are asked for. Condition: only the first file comes before the sources.
fn select_by_table<H: Threads, R: Source, F: Source, W: Sink, P: Progress>(
    means: &Means<'_, H, P>,
    selection: Selection,
    tells: bool,
    sources: &mut GivenSources<'_, '_, '_, R, F>,
    output: &mut W,
) -> Result<Told, ToolFault>
    requires own { sources.old.own ≡ 1 }
    requires some { 1 ≤ length sources.old.files.now }
    ensures done { SelectsBy selection tells
        (record { given = listed_in R.seen F.seen sources.old; output = W.seen output.old })
        (record { given = listed_in R.seen F.seen sources.new; output = W.seen output.new })
        result }
    ensures kept { KeepsFiles R.seen F.seen sources.old sources.new }
{
    let files = &mut *sources.files;
    means.progress.begins(Stage::Tables);
    let (tally, _origin) = table_from(means.alloc, &mut files[0].source, 1)?;
    means.progress.begins(stage_of(selection));
    let selected = select_given(means.alloc, sources, &tally, selection, output);
    told_of_selection(selected, selection, tells)
}

// Reads the table of the first file, and writes the pairs of reads of the two others that it selects, the reads of each
// pair one after the other. Condition: there are three files.
fn pair_by_table<H: Threads, F: Source, W: Sink, P: Progress>(
    means: &Means<'_, H, P>,
    pairing: &Pairing,
    files: &mut Vec<NamedSource<'_, F>>,
    output: &mut W,
) -> Result<Told, ToolFault>
    requires { length files.old.items ≡ 3 }
    ensures done { (input : Seen) → SelectsPairsInto pairing.now
        (record { given = given_listed input (seen_of F.seen files.old.items); output = W.seen output.old })
        (record { given = given_listed input (seen_of F.seen files.new.items); output = W.seen output.new })
        result }
    ensures names { names_of files.new.items ≡ names_of files.old.items }
{
    let selected = select_pairs(means, &Interleaved, pairing, files, output);
    told_of_selection(selected, pairing.selection, pairing.tells)
}

// What is shown during a selection.
fn stage_of(selection: Selection) -> Stage {
    if selection.is_profiled() {
        Stage::Profile
    } else {
        Stage::Selection
    }
}

// What there is to report of a selection.
fn told_of_selection(
    selected: Result<SelectionCounts, ToolFault>,
    selection: Selection,
    tells: bool,
) -> Result<Told, ToolFault>
    ensures { result ≡ told_of selection tells selected }
{
    match selected {
        Ok(counts) if selection.is_profiled() => Ok(Told::Profiled(counts)),
        Ok(counts) => Ok(Told::Selected(counts, tells)),
        Err(fault) => Err(fault),
    }
}
