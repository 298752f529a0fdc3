//! Why arguments conflict, and tips for options of Jellyfish that have another name here, or are not needed.
use crate::commands::Verb;
use kc_command::PairsRefusal;
use std::alloc::{AllocError, Global};

/// The text of a refusal by `clap`, with a tip of our own if we know the option: it replaces the tip of `clap`, which
/// takes an unknown option for a value.
pub(crate) fn with_tip(
    alloc: Global,
    text: String,
    arguments: &[String],
) -> Result<String, AllocError> {
    let command = match arguments.get(1) {
        Some(name) => name.as_str(),
        None => "",
    };
    let Some((first, rest)) = text.as_str().split_once('\n') else {
        return Ok(text);
    };
    let Some(tip) = tip_of(command, quoted_in(first)) else {
        return Ok(text);
    };
    let mut told = String::from_str(alloc, first)?;
    told.push_str("\n\n  tip: ")?;
    told.push_str(tip)?;
    told.push_str("\n")?;
    told.push_str(without_tip(rest))?;
    Ok(told)
}

// The text between the first two quotation marks.
fn quoted_in(line: &str) -> &str {
    match line.split('\'').nth(1) {
        Some(quoted) => quoted,
        None => "",
    }
}

// The text after the tip, if there is one.
fn without_tip(rest: &str) -> &str {
    let Some(tip) = rest.strip_prefix("\n  tip: ") else {
        return rest;
    };
    match tip.split_once('\n') {
        Some((_, behind)) => behind,
        None => "",
    }
}

// The tip for an argument of a command.
fn tip_of(command: &str, argument: &str) -> Option<&'static str> {
    for tip in TIPS {
        let (of, name, text) = *tip;
        if of.as_bytes() == command.as_bytes() && name.as_bytes() == argument.as_bytes() {
            return Some(text);
        }
    }
    None
}

/// Why the arguments of a command conflict.
#[derive(Clone, Copy, Debug, PartialEq, Eq)]
pub(crate) enum Conflict {
    /// Options of a selection conflict.
    Pairs(PairsRefusal),
    /// More than 64 tables are given.
    TooManyTables,
    /// A query has no words.
    NoWords,
}

/// The text of a refusal of arguments that conflict, in the form of those of `clap`.
pub(crate) fn conflict_text(
    alloc: Global,
    verb: Verb,
    conflict: Conflict,
) -> Result<String, AllocError> {
    let reason = match conflict {
        Conflict::Pairs(refusal) => refusal_reason(refusal),
        Conflict::TooManyTables => "at most 64 tables can be combined",
        Conflict::NoWords => "a query needs a WORD, or a list of words: --file <WORDS>",
    };
    let mut text = String::from_str(alloc, "error: ")?;
    text.push_str(reason)?;
    text.push_str("\n\nUsage: kcount ")?;
    text.push_str(usage_of(verb))?;
    text.push_str("\n\nFor more information, try '--help'.\n")?;
    Ok(text)
}

// How a command with arguments that can conflict is used.
fn usage_of(verb: Verb) -> &'static str {
    match verb {
        Verb::Merge => "merge [OPTIONS] <FIRST> <SECOND>...",
        Verb::Intersect => "intersect [OPTIONS] <FIRST> <SECOND>...",
        Verb::Subtract => "subtract [OPTIONS] <FIRST> <SECOND>...",
        Verb::Query => "query [OPTIONS] <TABLE> [WORD]...",
        _ => "select [OPTIONS] <TABLE> [FILE]...",
    }
}

// Why options conflict.
fn refusal_reason(refusal: PairsRefusal) -> &'static str {
    match refusal {
        PairsRefusal::KeepAlone => "the argument '--keep <WHICH>' cannot be used without '--pairs'",
        PairsRefusal::Output2Alone => {
            "the argument '--output2 <FILE>' cannot be used without '--pairs'"
        }
        PairsRefusal::NotTwoFiles => {
            "the argument '--pairs' requires two files behind <TABLE>, FIRST and SECOND"
        }
        PairsRefusal::NoOutput => {
            "the argument '--output2 <FILE>' cannot be used without '--output <FILE>'"
        }
        PairsRefusal::NoOutput2 => {
            "with '--pairs' the argument '--output <FILE>' cannot be used without '--output2 <FILE>'"
        }
        PairsRefusal::OneOutput => {
            "the arguments '--output <FILE>' and '--output2 <FILE>' cannot name the same file"
        }
    }
}

const LISTED: &str = "the files are named on the command line, and programs write into a pipe";

const LEAST: &str = "there is no Bloom filter: leave k-mers that occur once out by dump -L 2";

const LINES: &str = "lines of counts that no k-mer has are left out, and the first count is 1";

const HEADER: &str = "the first line of a table says how it was counted: head -n 1 TABLE";

// The commands and options of Jellyfish that may be missed, and the tip for each.
const TIPS: &[(&str, &str, &str)] = &[
    ("count", "-k", "the length of the k-mers is -m"),
    ("count", "-Q", "Jellyfish's -Q is --min-qual-char"),
    (
        "count",
        "-L",
        "Jellyfish's -L is --lower-count, for --print dump",
    ),
    (
        "count",
        "-U",
        "Jellyfish's -U is --upper-count, for --print dump",
    ),
    ("count", "--if", "Jellyfish's --if is --only"),
    ("count", "--text", "a table is always text"),
    (
        "count",
        "-c",
        "counts up to 2^62 are exact, and have no length",
    ),
    ("count", "-p", "hash tables grow as they must"),
    ("count", "--disk", "hash tables grow as they must"),
    ("count", "-F", "files are read one after the other"),
    ("count", "-g", LISTED),
    ("count", "-G", LISTED),
    (
        "count",
        "--sam",
        "SAM, BAM and CRAM go through samtools fastq",
    ),
    ("count", "--bc", LEAST),
    ("count", "--bf-size", LEAST),
    ("histo", "-t", "a histogram takes one thread"),
    ("histo", "-l", LINES),
    ("histo", "-i", LINES),
    ("histo", "-f", LINES),
    (
        "stats",
        "-L",
        "statistics are those of all k-mers of the table",
    ),
    (
        "stats",
        "-U",
        "statistics are those of all k-mers of the table",
    ),
    (
        "query",
        "-s",
        "the k-mers are given on the command line, for instance by xargs",
    ),
    (
        "query",
        "-i",
        "the k-mers are given on the command line, for instance by xargs",
    ),
    ("query", "-l", "a table is always read whole"),
    ("query", "-L", "a table is always read whole"),
    (
        "merge",
        "-L",
        "Jellyfish's merge -L is kcount filter -L on the sum",
    ),
    (
        "merge",
        "-U",
        "Jellyfish's merge -U is kcount filter -U on the sum",
    ),
    ("info", "info", HEADER),
    ("mem", "mem", "-s is for speed alone: the hash tables grow"),
    ("bc", "bc", LEAST),
];
