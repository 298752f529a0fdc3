//! The command line, as `clap` reads it.
ghost use Rattle.std.specs.Prelude.{◌≡◌, IfOk, IsOkAnd};
ghost use Rattle.clap.specs.Words.{AddsSubcommand, app_of, new_app, shape_of};
ghost use Rattle.kc_command.specs.Command.{
  bare_app,
  compare_shape,
  count_shape,
  dump_shape,
  filter_shape,
  histo_shape,
  intersect_shape,
  kcount_app,
  merge_shape,
  profile_shape,
  query_shape,
  select_shape,
  stats_shape,
  subtract_shape,
};

use crate::command_arguments::{
    assembly, file, files, first, output, reads, second, table, with_short, words,
};
use crate::help;
use crate::option_table::{
    BATCH, CANONICAL, COLUMN, COUNTS, EXPLAIN, FILE, HIGH, INVERT, KEEP, LOWER_COUNT, MATRIX,
    MAX_COUNT, MER_LEN, MIN_COUNT, MIN_QUAL_CHAR, MIN_SHARE, ONLY, OUTPUT2, PAIRS, PRINT, SIZE,
    SOLID, STATS as SELECTION_STATS, STRIPES, TAB, TAKE, THREADS, UPPER_COUNT,
};
use clap::Command;
use std::alloc::{AllocError, Global};

/// The name of the command that counts.
pub const COUNT: &str = "count";

/// The name of the command that writes the words of a table.
pub const DUMP: &str = "dump";

/// The name of the command that writes how many words of a table have which count.
pub const HISTO: &str = "histo";

/// The name of the command that writes four numbers about the words of a table.
pub const STATS: &str = "stats";

/// The name of the command that looks words up in a table.
pub const QUERY: &str = "query";

/// The name of the command that writes the sum of tables.
pub const MERGE: &str = "merge";

/// The name of the command that writes the words that all tables have.
pub const INTERSECT: &str = "intersect";

/// The name of the command that subtracts tables from a table.
pub const SUBTRACT: &str = "subtract";

/// The name of the command that writes the words of a table with counts within bounds.
pub const FILTER: &str = "filter";

/// The name of the command that compares a table of reads with a table of an assembly.
pub const COMPARE: &str = "compare";

/// The name of the command that writes the reads that a table selects.
pub const SELECT: &str = "select";

/// The name of the command that writes the counts along reads.
pub const PROFILE: &str = "profile";

/// The command line of `kcount`. Options take texts, which are checked after the command line has been read.
pub fn command<'a>(alloc: Global) -> Result<Command<'a>, AllocError>
    ensures { IfOk result (λ command. app_of command ≡ kcount_app) }
{
    let command = with_command(Ok(without_commands(alloc)), count_command(alloc));
    let command = with_command(command, dump_command(alloc));
    let command = with_command(command, histo_command(alloc));
    let command = with_command(command, stats_command(alloc));
    let command = with_command(command, query_command(alloc));
    let command = with_command(command, merge_command(alloc));
    let command = with_command(command, intersect_command(alloc));
    let command = with_command(command, subtract_command(alloc));
    let command = with_command(command, filter_command(alloc));
    let command = with_command(command, compare_command(alloc));
    let command = with_command(command, select_command(alloc));
    with_command(command, profile_command(alloc))
}

// The command with one more command, if there is memory for both.
fn with_command<'a>(
    command: Result<Command<'a>, AllocError>,
    more: Result<Command<'a>, AllocError>,
) -> Result<Command<'a>, AllocError>
    ensures { IfOk result (λ both. IsOkAnd command.entry (λ one. IsOkAnd more.entry (λ sub.
        AddsSubcommand one sub both))) }
{
    command?.subcommand(more?)
}

// `kcount` without its commands, of which it requires one.
fn without_commands<'a>(alloc: Global) -> Command<'a>
    ensures { app_of result ≡ bare_app }
{
    command_with_help(alloc, "kcount", help::KCOUNT, help::AFTER_KCOUNT)
        .version("0.1.0")
        .subcommand_required(true)
}

// The command that counts.
fn count_command<'a>(alloc: Global) -> Result<Command<'a>, AllocError>
    ensures { IfOk result (λ command. shape_of command ≡ count_shape) }
{
    let arguments = vec![in alloc;
        with_short(MER_LEN.arg(alloc), 'm'),
        with_short(SIZE.arg(alloc), 's'),
        with_short(THREADS.arg(alloc), 't'),
        with_short(CANONICAL.arg(alloc), 'C'),
        output(alloc),
        MIN_QUAL_CHAR.arg(alloc),
        STRIPES.arg(alloc),
        BATCH.arg(alloc),
        PRINT.arg(alloc),
        COLUMN.arg(alloc),
        TAB.arg(alloc),
        LOWER_COUNT.arg(alloc),
        UPPER_COUNT.arg(alloc),
        HIGH.arg(alloc),
        ONLY.arg(alloc),
        EXPLAIN.arg(alloc),
        files(alloc),
    ]?;
    command_with_help(alloc, COUNT, help::COUNT, help::AFTER_COUNT).args(arguments)
}

// The command that writes the words of a table.
fn dump_command<'a>(alloc: Global) -> Result<Command<'a>, AllocError>
    ensures { IfOk result (λ command. shape_of command ≡ dump_shape) }
{
    let arguments = vec![in alloc;
        with_short(COLUMN.arg(alloc), 'c'),
        with_short(TAB.arg(alloc), 't'),
        with_short(LOWER_COUNT.arg(alloc), 'L'),
        with_short(UPPER_COUNT.arg(alloc), 'U'),
        output(alloc),
        EXPLAIN.arg(alloc),
        file(alloc),
    ]?;
    command_with_help(alloc, DUMP, help::DUMP, help::AFTER_DUMP).args(arguments)
}

// The command that writes how many words of a table have which count.
fn histo_command<'a>(alloc: Global) -> Result<Command<'a>, AllocError>
    ensures { IfOk result (λ command. shape_of command ≡ histo_shape) }
{
    let arguments = vec![in alloc;
        HIGH.arg(alloc),
        output(alloc),
        EXPLAIN.arg(alloc),
        file(alloc),
    ]?;
    command_with_help(alloc, HISTO, help::HISTO, help::AFTER_HISTO).args(arguments)
}

// The command that writes four numbers about the words of a table.
fn stats_command<'a>(alloc: Global) -> Result<Command<'a>, AllocError>
    ensures { IfOk result (λ command. shape_of command ≡ stats_shape) }
{
    let arguments = vec![in alloc; output(alloc), EXPLAIN.arg(alloc), file(alloc)]?;
    command_with_help(alloc, STATS, help::STATS, help::AFTER_STATS).args(arguments)
}

// The command that looks words up in a table.
fn query_command<'a>(alloc: Global) -> Result<Command<'a>, AllocError>
    ensures { IfOk result (λ command. shape_of command ≡ query_shape) }
{
    let arguments = vec![in alloc;
        FILE.arg(alloc),
        output(alloc),
        EXPLAIN.arg(alloc),
        table(alloc),
        words(alloc),
    ]?;
    command_with_help(alloc, QUERY, help::QUERY, help::AFTER_QUERY).args(arguments)
}

// The command that writes the sum of tables.
fn merge_command<'a>(alloc: Global) -> Result<Command<'a>, AllocError>
    ensures { IfOk result (λ command. shape_of command ≡ merge_shape) }
{
    let arguments = vec![in alloc;
        output(alloc),
        EXPLAIN.arg(alloc),
        first(alloc),
        second(alloc),
    ]?;
    command_with_help(alloc, MERGE, help::MERGE, help::AFTER_MERGE).args(arguments)
}

// The command that writes the words that all tables have.
fn intersect_command<'a>(alloc: Global) -> Result<Command<'a>, AllocError>
    ensures { IfOk result (λ command. shape_of command ≡ intersect_shape) }
{
    let arguments = vec![in alloc;
        TAKE.arg(alloc),
        output(alloc),
        EXPLAIN.arg(alloc),
        first(alloc),
        second(alloc),
    ]?;
    command_with_help(alloc, INTERSECT, help::INTERSECT, help::AFTER_INTERSECT).args(arguments)
}

// The command that subtracts tables from a table.
fn subtract_command<'a>(alloc: Global) -> Result<Command<'a>, AllocError>
    ensures { IfOk result (λ command. shape_of command ≡ subtract_shape) }
{
    let arguments = vec![in alloc;
        COUNTS.arg(alloc),
        output(alloc),
        EXPLAIN.arg(alloc),
        first(alloc),
        second(alloc),
    ]?;
    command_with_help(alloc, SUBTRACT, help::SUBTRACT, help::AFTER_SUBTRACT).args(arguments)
}

// The command that writes the words of a table with counts within bounds.
fn filter_command<'a>(alloc: Global) -> Result<Command<'a>, AllocError>
    ensures { IfOk result (λ command. shape_of command ≡ filter_shape) }
{
    let arguments = vec![in alloc;
        with_short(LOWER_COUNT.arg(alloc), 'L'),
        with_short(UPPER_COUNT.arg(alloc), 'U'),
        output(alloc),
        EXPLAIN.arg(alloc),
        file(alloc),
    ]?;
    command_with_help(alloc, FILTER, help::FILTER, help::AFTER_FILTER).args(arguments)
}

// The command that compares a table of reads with a table of an assembly.
fn compare_command<'a>(alloc: Global) -> Result<Command<'a>, AllocError>
    ensures { IfOk result (λ command. shape_of command ≡ compare_shape) }
{
    let arguments = vec![in alloc;
        SOLID.arg(alloc),
        MATRIX.arg(alloc),
        HIGH.arg(alloc),
        output(alloc),
        EXPLAIN.arg(alloc),
        reads(alloc),
        assembly(alloc),
    ]?;
    command_with_help(alloc, COMPARE, help::COMPARE, help::AFTER_COMPARE).args(arguments)
}

// The command that writes the reads that a table selects.
fn select_command<'a>(alloc: Global) -> Result<Command<'a>, AllocError>
    ensures { IfOk result (λ command. shape_of command ≡ select_shape) }
{
    let arguments = vec![in alloc;
        MIN_COUNT.arg(alloc),
        MAX_COUNT.arg(alloc),
        MIN_SHARE.arg(alloc),
        MIN_QUAL_CHAR.arg(alloc),
        INVERT.arg(alloc),
        PAIRS.arg(alloc),
        KEEP.arg(alloc),
        SELECTION_STATS.arg(alloc),
        output(alloc),
        OUTPUT2.arg(alloc),
        EXPLAIN.arg(alloc),
        table(alloc),
        files(alloc),
    ]?;
    command_with_help(alloc, SELECT, help::SELECT, help::AFTER_SELECT).args(arguments)
}

// The command that writes the counts of the words along reads.
fn profile_command<'a>(alloc: Global) -> Result<Command<'a>, AllocError>
    ensures { IfOk result (λ command. shape_of command ≡ profile_shape) }
{
    let arguments = vec![in alloc;
        MIN_QUAL_CHAR.arg(alloc),
        output(alloc),
        EXPLAIN.arg(alloc),
        table(alloc),
        files(alloc),
    ]?;
    command_with_help(alloc, PROFILE, help::PROFILE, help::AFTER_PROFILE).args(arguments)
}

// A command without arguments, with the texts at the top and at the end of its help.
fn command_with_help<'a>(alloc: Global, name: &'a str, top: &'a str, end: &'a str) -> Command<'a>
    ensures { app_of result ≡ new_app name.entry.now }
{
    Command::new(alloc, name).about(top).after_help(end)
}
