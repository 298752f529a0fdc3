//! The arguments of the commands that are no options, each as `clap` reads it, with its help; and the other forms of an
//! option.
ghost use Rattle.std.specs.Prelude.{◌≡◌, false};
ghost use Rattle.clap.specs.Words.{rule_of};
ghost use Rattle.kc_command.specs.Command.{
  assembly_argument,
  file_argument,
  files_argument,
  first_argument,
  one_argument,
  reads_argument,
  required,
  second_argument,
  several_arguments,
  table_argument,
  words_argument,
};
ghost use Rattle.kc_command.specs.Options.{output_option, with_short};

use crate::option_table::OUTPUT;
use clap::{Arg, ArgAction};
use std::alloc::Global;

/// `-o`, `--output`: the file to write to.
pub(crate) fn output<'a>(alloc: Global) -> Arg<'a>
    ensures rule { rule_of result ≡ output_option }
    ensures own { result.global ≡ false }
{
    with_short(OUTPUT.arg(alloc), 'o')
}

/// FILE, any number of times: the files of reads.
pub(crate) fn files<'a>(alloc: Global) -> Arg<'a>
    ensures rule { rule_of result ≡ files_argument }
    ensures own { result.global ≡ false }
{
    let help = "FASTA or FASTQ files [default: standard input]";
    several_arguments(alloc, "file", "FILE", help)
}

/// FILE, at most once: the table.
pub(crate) fn file<'a>(alloc: Global) -> Arg<'a>
    ensures rule { rule_of result ≡ file_argument }
    ensures own { result.global ≡ false }
{
    let help = "Table that `kcount count` wrote [default: standard input]";
    one_argument(alloc, "file", "FILE", help)
}

/// TABLE, required: the table of a query, a selection or a profile.
pub(crate) fn table<'a>(alloc: Global) -> Arg<'a>
    ensures rule { rule_of result ≡ table_argument }
    ensures own { result.global ≡ false }
{
    let help = "Table that `kcount count` wrote";
    as_required(one_argument(alloc, "table", "TABLE", help))
}

/// FIRST, required: the first of several tables.
pub(crate) fn first<'a>(alloc: Global) -> Arg<'a>
    ensures rule { rule_of result ≡ first_argument }
    ensures own { result.global ≡ false }
{
    let help = "Table of k-mers, as `kcount count` writes it";
    as_required(one_argument(alloc, "first", "FIRST", help))
}

/// SECOND, at least once: the other tables. `has_too_many_tables` returns whether there are more than 63.
pub(crate) fn second<'a>(alloc: Global) -> Arg<'a>
    ensures rule { rule_of result ≡ second_argument }
    ensures own { result.global ≡ false }
{
    let help = "Other such tables, 1 to 63";
    as_required(several_arguments(alloc, "second", "SECOND", help))
}

/// READS, required: the table of reads of a comparison.
pub(crate) fn reads<'a>(alloc: Global) -> Arg<'a>
    ensures rule { rule_of result ≡ reads_argument }
    ensures own { result.global ≡ false }
{
    let help = "Table of reads, as `kcount count` writes it";
    as_required(one_argument(alloc, "first", "READS", help))
}

/// ASSEMBLY, required: the table of the assembly of a comparison.
pub(crate) fn assembly<'a>(alloc: Global) -> Arg<'a>
    ensures rule { rule_of result ≡ assembly_argument }
    ensures own { result.global ≡ false }
{
    let help = "Table of an assembly";
    as_required(one_argument(alloc, "second", "ASSEMBLY", help))
}

/// WORD, any number of times: the k-mers of a query. `has_no_words` returns whether there is neither one nor `--file`.
pub(crate) fn words<'a>(alloc: Global) -> Arg<'a>
    ensures rule { rule_of result ≡ words_argument }
    ensures own { result.global ≡ false }
{
    let help = "K-mers of the table's length, of the letters ACGT or acgt";
    several_arguments(alloc, "word", "WORD", help)
}

/// The option, also with a short name.
pub(crate) fn with_short(option: Arg<'_>, letter: char) -> Arg<'_>
    ensures rule { rule_of result ≡ with_short letter (rule_of option.entry) }
    ensures own { result.global ≡ option.entry.global }
{
    option.short(letter)
}

// An argument that is given at most once, called `value` in the help.
fn one_argument<'a>(alloc: Global, name: &'a str, value: &'a str, help: &'a str) -> Arg<'a>
    ensures rule { rule_of result ≡ one_argument name.entry.now }
    ensures own { result.global ≡ false }
{
    Arg::new(alloc, name).value_name(value).help(help)
}

// An argument that is given any number of times, called `value` in the help.
fn several_arguments<'a>(alloc: Global, name: &'a str, value: &'a str, help: &'a str) -> Arg<'a>
    ensures rule { rule_of result ≡ several_arguments name.entry.now }
    ensures own { result.global ≡ false }
{
    Arg::new(alloc, name)
        .value_name(value)
        .action(ArgAction::Append)
        .help(help)
}

// The argument, as a required one.
fn as_required(argument: Arg<'_>) -> Arg<'_>
    ensures rule { rule_of result ≡ required (rule_of argument.entry) }
    ensures own { result.global ≡ argument.entry.global }
{
    argument.required(true)
}
