//! What a command does: its task, and whether the files that it reads are opened once or, for two passes, twice.
ghost use Rattle.std.specs.Prelude.{◌≡◌, [], ◌∷◌, ◌++◌, map, string_bytes};
ghost use Rattle.std.specs.Prelude.{unwrap_or};
ghost use Rattle.std.specs.Prelude.{IfErr, IfOk, None};
ghost use Rattle.clap.specs.Words.{all_of, found_of, rows_of};
ghost use Rattle.kc_tool.specs.Commands.{
  AsksForTask,
  AsksForText,
  GoTogether,
  HasFilesFor,
  HasWritableReport,
  IsRefusedOption,
  OpensOnce,
  files_of,
  first_refused,
  opened_by,
};
ghost use Rattle.kc_combine.specs.Derivations.{HasHigh};

use crate::commands::{Task, Verb};
use crate::files::NamedFiles;
use crate::given_options::{
    compare_options, dump_options, filter_options, high_of, intersect_options, options,
    profile_options, select_options,
};
use crate::paired_sources::Pairing;
use crate::table_reports::TableReport;
use crate::tool_faults::ToolFault;
use clap::ArgMatches;
use kc_combine::{Combining, Derived};
use kc_command::{SelectOptions, has_flag, subtract_options, text_of};
use std::alloc::{AllocError, Global};
use std::rt::Files;

/// What a command does: its task, and the names of the files that are opened for it, in order.
#[derive(Drop)]
pub(crate) struct Plan<'a> {
    /// Its task.
    pub(crate) task: Task,
    /// The names of the files.
    pub(crate) names: Vec<&'a str>,
}

/// What a command does with these options. Tables from which a text is derived are read twice if all are regular files.
/// Condition: the options don't conflict.
pub(crate) fn plan_of<'a, S: Files>(
    alloc: Global,
    verb: Verb,
    matches: &ArgMatches<'a>,
    files: &NamedFiles<'_, S>,
) -> Result<Plan<'a>, ToolFault>
    requires { GoTogether verb (rows_of (found_of matches.now)) }
    ensures asked { IfOk result (λ plan. AsksForTask verb (rows_of (found_of matches.now)) plan.task) }
    ensures writable { IfOk result (λ plan. HasWritableReport plan.task) }
    ensures lawful { IfOk result (λ plan. first_refused verb (rows_of (found_of matches.now)) ≡ None) }
    ensures names { IfOk result (λ plan. map (λ name. name.now) plan.names.items
        ≡ opened_by plan.task (files_of verb (rows_of (found_of matches.now)))) }
    ensures files { IfOk result (λ plan. HasFilesFor plan.task plan.names.items) }
    ensures refused { IfErr result (IsRefusedOption verb (rows_of (found_of matches.now))) }
{
    let task = task_of(alloc, verb, matches)?;
    let names = file_names(alloc, verb, matches)?;
    match task {
        Task::Derive(derived) if files.are_regular(&names) => Ok(Plan {
            task: Task::DeriveFiles(derived),
            names: twice(alloc, &names)?,
        }),
        task => Ok(Plan { task, names }),
    }
}

// The names, followed by all of them again.
fn twice<'a>(alloc: Global, names: &[&'a str]) -> Result<Vec<&'a str>, AllocError>
    ensures { IfOk result (λ both. map (λ name. name.now) both.items
        ≡ map (λ name. name.now) names.now ++ map (λ name. name.now) names.now) }
{
    let mut both = Vec::with_capacity(alloc, names.len())?;
    both.extend_from_slice(names)?;
    both.extend_from_slice(names)?;
    Ok(both)
}

// The task of a command with these options.
fn task_of(alloc: Global, verb: Verb, matches: &ArgMatches<'_>) -> Result<Task, ToolFault>
    ensures asked { IfOk result (AsksForTask verb (rows_of (found_of matches.now))) }
    ensures writable { IfOk result HasWritableReport }
    ensures lawful { IfOk result (λ task. first_refused verb (rows_of (found_of matches.now)) ≡ None) }
    ensures once { IfOk result OpensOnce }
    ensures refused { IfErr result (IsRefusedOption verb (rows_of (found_of matches.now))) }
{
    match verb {
        Verb::Count => {
            let options = options(alloc, matches)?;
            match text_of(matches, "only") {
                None => Ok(Task::Count(options)),
                Some(_) => Ok(Task::CountListed(options)),
            }
        }
        Verb::Dump => Ok(Task::Derive(Derived::Dump(dump_options(matches)?))),
        Verb::Histo => Ok(Task::Report(TableReport::Histogram(high_of(matches)?))),
        Verb::Stats => Ok(Task::Report(TableReport::Statistics)),
        Verb::Query => {
            let words = owned_texts(alloc, &texts_of(alloc, matches, "word")?)?;
            match text_of(matches, "file") {
                None => Ok(Task::Query(words)),
                Some(_) => Ok(Task::QueryListed(words)),
            }
        }
        Verb::Merge => Ok(Task::Derive(Derived::Table(Combining::Merge))),
        Verb::Intersect => Ok(Task::Derive(Derived::Table(intersect_options(matches)?))),
        Verb::Subtract => Ok(Task::Derive(Derived::Table(subtract_options(matches)))),
        Verb::Filter => Ok(Task::Derive(Derived::Table(filter_options(matches)?))),
        Verb::Compare => Ok(Task::Derive(compared(matches)?)),
        Verb::Select => selection_task(matches),
        Verb::Profile => Ok(Task::Select(profile_options(matches)?, false)),
    }
}

// What a comparison with these options derives from its tables.
fn compared(matches: &ArgMatches<'_>) -> Result<Derived, ToolFault>
    ensures asked { IfOk result (AsksForText Verb.Compare (rows_of (found_of matches.now))) }
    ensures high { IfOk result HasHigh }
    ensures lawful { IfOk result (λ derived. first_refused Verb.Compare (rows_of (found_of matches.now)) ≡ None) }
    ensures refused { IfErr result (IsRefusedOption Verb.Compare (rows_of (found_of matches.now))) }
{
    let asked = compare_options(matches)?;
    match asked.spectrum {
        None => Ok(Derived::Comparison(asked.solid)),
        Some(high) => Ok(Derived::Spectrum(high)),
    }
}

// The task of a selection with these options.
fn selection_task(matches: &ArgMatches<'_>) -> Result<Task, ToolFault>
    ensures asked { IfOk result (AsksForTask Verb.Select (rows_of (found_of matches.now))) }
    ensures writable { IfOk result HasWritableReport }
    ensures lawful { IfOk result (λ task. first_refused Verb.Select (rows_of (found_of matches.now)) ≡ None) }
    ensures once { IfOk result OpensOnce }
    ensures refused { IfErr result (IsRefusedOption Verb.Select (rows_of (found_of matches.now))) }
{
    let SelectOptions { selection, pairs } = select_options(matches)?;
    let tells = has_flag(matches, "stats");
    match pairs {
        None => Ok(Task::Select(selection, tells)),
        Some(asked) => Ok(Task::SelectPairs(Pairing {
            selection,
            asked,
            tells,
        })),
    }
}

// The names of the files that a command reads: for a count, its list and all files; for a query, its list and its
// table; for a selection and a profile, their table and all files; for a sum, an intersection, a difference and a
// comparison, all tables; and for any other command, the first file.
fn file_names<'a>(
    alloc: Global,
    verb: Verb,
    matches: &ArgMatches<'a>,
) -> Result<Vec<&'a str>, AllocError>
    ensures { IfOk result (λ names. map (λ name. name.now) names.items
        ≡ files_of verb (rows_of (found_of matches.now))) }
{
    match verb {
        Verb::Count => {
            let files = texts_of(alloc, matches, "file")?;
            match text_of(matches, "only") {
                None => Ok(files),
                Some(list) => names_with_first(alloc, list, &files),
            }
        }
        Verb::Query => {
            let table = text_of(matches, "table").unwrap_or("");
            match text_of(matches, "file") {
                None => names_with_first(alloc, table, &[]),
                Some(list) => names_with_first(alloc, list, &[table]),
            }
        }
        Verb::Select | Verb::Profile => {
            let files = texts_of(alloc, matches, "file")?;
            names_with_first(alloc, text_of(matches, "table").unwrap_or(""), &files)
        }
        Verb::Merge | Verb::Intersect | Verb::Subtract => {
            let others = texts_of(alloc, matches, "second")?;
            names_with_first(alloc, text_of(matches, "first").unwrap_or(""), &others)
        }
        Verb::Compare => {
            let assembly = text_of(matches, "second").unwrap_or("");
            names_with_first(alloc, text_of(matches, "first").unwrap_or(""), &[assembly])
        }
        _ => {
            let mut names = texts_of(alloc, matches, "file")?;
            names.truncate(1);
            Ok(names)
        }
    }
}

// The name, followed by the others.
fn names_with_first<'a>(
    alloc: Global,
    first: &'a str,
    others: &[&'a str],
) -> Result<Vec<&'a str>, AllocError>
    ensures { IfOk result (λ names. map (λ name. name.now) names.items
        ≡ first.entry.now ∷ map (λ name. name.now) others.now) }
{
    let mut names = Vec::with_capacity(alloc, others.len())?;
    names.push(first)?;
    names.extend_from_slice(others)?;
    Ok(names)
}

// The texts that were given under a name.
fn texts_of<'a>(
    alloc: Global,
    matches: &ArgMatches<'a>,
    name: &str,
) -> Result<Vec<&'a str>, AllocError>
    ensures { IfOk result (λ texts. map (λ text. text.now) texts.items
        ≡ unwrap_or (all_of name.now (rows_of (found_of matches.now))) []) }
{
    match matches.get_strs(name) {
        Some(texts) => texts.iter().copied().collect(alloc),
        None => Ok(Vec::new(alloc)),
    }
}

// The texts, each on its own.
fn owned_texts(alloc: Global, texts: &[&str]) -> Result<Vec<String>, AllocError>
    ensures { IfOk result (λ strings. map string_bytes strings.items ≡ map (λ text. text.now) texts.now) }
{
    let mut strings = Vec::with_capacity(alloc, texts.len())?;
    for text in texts {
        strings.push(String::from_str(alloc, *text)?)?;
    }
    Ok(strings)
}
