//! The options of `select`, and which of them conflict.
ghost use Rattle.std.specs.Prelude.{◌≡◌, option_map};
ghost use Rattle.clap.specs.Words.{found_of, rows_of};
ghost use Rattle.kc_command.specs.Arguments.{
  has_pairs,
  is_given,
  pairs_refusal,
  refusal_of_outputs,
  refusal_of_pairs,
  refusal_of_reads,
};

use crate::option_table::{KEEP, OUTPUT, OUTPUT2, PAIRS};
use crate::settings_of_options::{text_of, value_count};
use clap::ArgMatches;
use kc_select::{PairRule, Selection};

/// What the options of `select` ask for.
#[derive(Clone, Copy, Debug)]
pub struct SelectOptions {
    /// Which reads are solid, and whether the others are selected.
    pub selection: Selection,
    /// How many reads of a pair have to be solid, if pairs are asked for.
    pub pairs: Option<PairRule>,
}

/// Why options of `select` conflict.
#[derive(Clone, Copy, Debug, PartialEq, Eq)]
pub enum PairsRefusal {
    /// `--keep` was given without `--pairs`.
    KeepAlone,
    /// `--output2` was given without `--pairs`.
    Output2Alone,
    /// `--pairs` was given without exactly two files after the table.
    NotTwoFiles,
    /// `--output2` was given without `--output`.
    NoOutput,
    /// `--pairs` was given with `--output` and without `--output2`.
    NoOutput2,
    /// `--output` and `--output2` name the same file.
    OneOutput,
}

/// Why the options of `select` conflict, if they do. It takes no memory.
pub fn pairs_refusal(matches: &ArgMatches<'_>) -> Option<PairsRefusal>
    ensures { result ≡ pairs_refusal (rows_of (found_of matches.now)) }
{
    if has_pairs(matches) {
        refusal_of_pairs(matches)
    } else {
        refusal_of_reads(matches)
    }
}

/// Whether pairs are asked for.
pub(crate) fn has_pairs(matches: &ArgMatches<'_>) -> bool
    ensures { result ≡ has_pairs (rows_of (found_of matches.now)) }
{
    match text_of(matches, PAIRS.name) {
        Some(text) => text == "true",
        None => false,
    }
}

// Why options conflict if pairs are asked for.
fn refusal_of_pairs(matches: &ArgMatches<'_>) -> Option<PairsRefusal>
    ensures { result ≡ refusal_of_pairs (rows_of (found_of matches.now)) }
{
    if value_count(matches, "file") == 2 {
        refusal_of_outputs(
            text_of(matches, OUTPUT.name),
            text_of(matches, OUTPUT2.name),
        )
    } else {
        Some(PairsRefusal::NotTwoFiles)
    }
}

// Why the outputs of pairs conflict, by which of them are given.
fn refusal_of_outputs(first: Option<&str>, second: Option<&str>) -> Option<PairsRefusal>
    ensures { result ≡ refusal_of_outputs
        (option_map (λ text. text.now) first.entry) (option_map (λ text. text.now) second.entry) }
{
    match (first, second) {
        (Some(_), None) => Some(PairsRefusal::NoOutput2),
        (None, Some(_)) => Some(PairsRefusal::NoOutput),
        (Some(first), Some(second)) if first == second => Some(PairsRefusal::OneOutput),
        _ => None,
    }
}

// Why options conflict if no pairs are asked for.
fn refusal_of_reads(matches: &ArgMatches<'_>) -> Option<PairsRefusal>
    ensures { result ≡ refusal_of_reads (rows_of (found_of matches.now)) }
{
    if is_given(matches, KEEP.name) {
        Some(PairsRefusal::KeepAlone)
    } else if is_given(matches, OUTPUT2.name) {
        Some(PairsRefusal::Output2Alone)
    } else {
        None
    }
}

// Whether an option has a value.
fn is_given(matches: &ArgMatches<'_>, name: &str) -> bool
    ensures { result ≡ is_given name.now (rows_of (found_of matches.now)) }
{
    text_of(matches, name).is_some()
}
