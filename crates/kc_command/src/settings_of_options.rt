//! What the options of a command line ask for.
ghost use Rattle.std.specs.Prelude.{MatchResult, IfSome, IfOk, Some, None, false, option_map, ◌≡◌, ◌≤◌, ◌^◌};
ghost use Rattle.std.specs.Prelude.{[], length, unwrap_or};
ghost use Rattle.clap.specs.Words.{all_of, first_of, found_of, rows_of};
ghost use Rattle.kc_command.specs.Arguments.{
  AsksFor,
  AsksForCounting,
  AsksForDump,
  AsksForPairs,
  AsksForProfile,
  AsksForSelection,
  IsFlag,
  first_bad,
  first_bad_of_counting,
  first_bad_of_dump,
  first_bad_of_histo,
  first_bad_of_profile,
  first_bad_of_select,
};
ghost use Rattle.kc_command.specs.Options.{
  IsValueOf,
  as_stripes,
  floor_of,
  high_of,
  keep_of,
  mer_len_of,
  pair_rule_named,
  print_of,
  quality_byte,
  report_named,
  size_of,
  stripes_of,
  threads_of,
};
ghost use Rattle.kc_command.specs.Numbers.{number_between};

use crate::numbers::{number_between, scaled_between};
use crate::option_name::OptionName;
use crate::option_table::{
    BATCH, CANONICAL, COLUMN, HIGH, INVERT, KEEP, LOWER_COUNT, MAX_COUNT, MER_LEN, MIN_COUNT,
    MIN_QUAL_CHAR, MIN_SHARE, PRINT, SIZE, STRIPES, TAB, THREADS, UPPER_COUNT,
};
use crate::pair_options::{SelectOptions, has_pairs};
use crate::settings::{FLOOR, Options, Print};
use clap::ArgMatches;
use kc_kmer::K;
use kc_report::Dump;
use kc_select::{PairRule, Selection};
use std::alloc::Global;

/// What the options of `count` ask for.
///
/// # Errors
/// The first option, in the order of the help, with a value outside its limits, even if the option has no effect. A
/// missing `--mer-len` is such an option.
pub fn options(_alloc: Global, matches: &ArgMatches<'_>) -> Result<Options, OptionName>
    ensures first_bad { MatchResult result (λ o. first_bad (rows_of (found_of matches.now)) ≡ None)
        (λ name. first_bad (rows_of (found_of matches.now)) ≡ Some name) }
    ensures asked { IfOk result (AsksFor (rows_of (found_of matches.now))) }
{
    let options = counting_options(matches)?;
    let print = print(matches)?;
    let dump = dump_options(matches)?;
    let high = high_of(matches)?;
    Ok(options.with_print(print).with_dump(dump).with_high(high))
}

/// What the options of `dump` ask for. `count` has them, too. It takes no memory.
///
/// # Errors
/// The first of `--lower-count` and `--upper-count` with a value that is not 0 to 2^62.
pub fn dump_options(matches: &ArgMatches<'_>) -> Result<Dump, OptionName>
    ensures first_bad { MatchResult result (λ d. first_bad_of_dump (rows_of (found_of matches.now)) ≡ None)
        (λ name. first_bad_of_dump (rows_of (found_of matches.now)) ≡ Some name) }
    ensures asked { IfOk result (AsksForDump (rows_of (found_of matches.now))) }
    ensures limits { IfOk result (λ dump. (dump.lower ≤ 2 ^ 62) × (dump.upper ≤ 2 ^ 62)) }
{
    let lower = LOWER_COUNT.number(matches)?;
    let upper = UPPER_COUNT.number(matches)?;
    Ok(Dump {
        column: has_flag(matches, COLUMN.name),
        tab: has_flag(matches, TAB.name),
        lower,
        upper,
    })
}

/// What the options of `select` ask for. It takes no memory.
///
/// # Errors
/// The first of `--min-count`, `--max-count`, `--min-share`, `--min-qual-char` and `--keep` with a value outside its
/// limits, even if the option has no effect.
pub fn select_options(matches: &ArgMatches<'_>) -> Result<SelectOptions, OptionName>
    ensures first_bad { MatchResult result (λ s. first_bad_of_select (rows_of (found_of matches.now)) ≡ None)
        (λ name. first_bad_of_select (rows_of (found_of matches.now)) ≡ Some name) }
    ensures asked { IfOk result (λ asked. AsksForSelection (rows_of (found_of matches.now)) asked.selection) }
    ensures pairs { IfOk result (λ asked. AsksForPairs (rows_of (found_of matches.now)) asked.pairs) }
{
    let least = MIN_COUNT.number(matches)?;
    let most = MAX_COUNT.number(matches)?;
    let share = MIN_SHARE.number(matches)?;
    let floor = min_qual_char(matches)?;
    let asked = keep(matches)?;
    let selection = Selection::new(least, share)
        .with_most(most)
        .with_floor(floor)
        .with_inverted(has_flag(matches, INVERT.name));
    let pairs = if has_pairs(matches) {
        Some(asked)
    } else {
        None
    };
    Ok(SelectOptions { selection, pairs })
}

/// What the options of `profile` ask for. It takes no memory.
///
/// # Errors
/// `--min-qual-char` if its value is outside its limits.
pub fn profile_options(matches: &ArgMatches<'_>) -> Result<Selection, OptionName>
    ensures first_bad { MatchResult result (λ s. first_bad_of_profile (rows_of (found_of matches.now)) ≡ None)
        (λ name. first_bad_of_profile (rows_of (found_of matches.now)) ≡ Some name) }
    ensures asked { IfOk result (AsksForProfile (rows_of (found_of matches.now))) }
{
    let floor = min_qual_char(matches)?;
    Ok(Selection::profiles().with_floor(floor))
}

/// The greatest count with a line of its own in a histogram, as `--high` of `histo` and of `count` asks for. It takes
/// no memory.
///
/// # Errors
/// `--high` if its value is not 1 to 10,000,000.
pub fn high_of(matches: &ArgMatches<'_>) -> Result<u64, OptionName>
    ensures first_bad { MatchResult result (λ h. first_bad_of_histo (rows_of (found_of matches.now)) ≡ None)
        (λ name. first_bad_of_histo (rows_of (found_of matches.now)) ≡ Some name) }
    ensures asked { IfOk result (λ high. high_of (rows_of (found_of matches.now)) ≡ Some high) }
    ensures limits { IfOk result (λ high. (1 ≤ high) × (high ≤ 10000000)) }
{
    HIGH.number(matches)
}

// What the options of `count` ask for, with the default report.
fn counting_options(matches: &ArgMatches<'_>) -> Result<Options, OptionName>
    ensures first_bad { MatchResult result (λ o. first_bad_of_counting (rows_of (found_of matches.now)) ≡ None)
        (λ name. first_bad_of_counting (rows_of (found_of matches.now)) ≡ Some name) }
    ensures asked { IfOk result (AsksForCounting (rows_of (found_of matches.now))) }
{
    let k = mer_len(matches)?;
    let size = size(matches)?;
    let workers = threads(matches)?;
    let floor = min_qual_char(matches)?;
    let stripes = stripes(matches)?;
    let batch = BATCH.number(matches)?;
    Ok(
        Options::new(k)
            .with_size(size)
            .with_workers(workers)
            .with_both(has_flag(matches, CANONICAL.name))
            .with_floor(floor)
            .with_stripes(stripes)
            .with_batch(batch),
    )
}

// The length of the words.
fn mer_len(matches: &ArgMatches<'_>) -> Result<K, OptionName>
    ensures { IsValueOf OptionName.MerLen (mer_len_of (rows_of (found_of matches.now))) result }
{
    let k = text_of(matches, MER_LEN.name).and_then(length);
    k.ok_or(OptionName::MerLen)
}

// The length in a text.
fn length(text: &str) -> Option<K>
    ensures { result ≡ number_between 1 31 text.now }
{
    let number = number_between(text.as_bytes(), 1, 31)?;
    K::new(number as u32)
}

// The slots with which the hash tables begin.
fn size(matches: &ArgMatches<'_>) -> Result<u64, OptionName>
    ensures value { IsValueOf OptionName.Size (size_of (rows_of (found_of matches.now))) result }
    ensures limits { IfOk result (λ size. (1 ≤ size) × (size ≤ 2 ^ 40)) }
{
    let size = match text_of(matches, SIZE.option.name) {
        None => Some(SIZE.default),
        Some(text) => scaled_between(text.as_bytes(), SIZE.least, SIZE.most),
    };
    size.ok_or(OptionName::Size)
}

// The threads.
fn threads(matches: &ArgMatches<'_>) -> Result<u32, OptionName>
    ensures value { IsValueOf OptionName.Threads (threads_of (rows_of (found_of matches.now))) result }
    ensures limits { IfOk result (λ threads. (1 ≤ threads) × (threads ≤ 64)) }
{
    let threads = THREADS.number(matches)?;
    Ok(threads as u32)
}

// The floor of qualities.
fn min_qual_char(matches: &ArgMatches<'_>) -> Result<u8, OptionName>
    ensures value { IsValueOf OptionName.MinQualChar (floor_of (rows_of (found_of matches.now))) result }
    ensures limits { IfOk result (λ floor. (33 ≤ floor) × (floor ≤ 126)) }
{
    let floor = match text_of(matches, MIN_QUAL_CHAR.name) {
        None => Some(FLOOR),
        Some(text) => quality_byte(text.as_bytes()),
    };
    floor.ok_or(OptionName::MinQualChar)
}

// The byte of a text of one byte, if it is a quality.
fn quality_byte(text: &[u8]) -> Option<u8>
    ensures value { result ≡ quality_byte text.now }
    ensures limits { IfSome result (λ floor. (33 ≤ floor) × (floor ≤ 126)) }
{
    match text {
        [byte @ 33..=126] => Some(*byte),
        _ => None,
    }
}

// How many reads of a pair have to be solid.
fn keep(matches: &ArgMatches<'_>) -> Result<PairRule, OptionName>
    ensures { IsValueOf OptionName.Keep (keep_of (rows_of (found_of matches.now))) result }
{
    let asked = match text_of(matches, KEEP.name) {
        None => Some(PairRule::All),
        Some(text) => pair_rule_named(text),
    };
    asked.ok_or(OptionName::Keep)
}

// The rule of pairs with this name.
fn pair_rule_named(text: &str) -> Option<PairRule>
    ensures { result ≡ pair_rule_named text.now }
{
    match text {
        "both" => Some(PairRule::All),
        "any" => Some(PairRule::Any),
        _ => None,
    }
}

// The stripes, before they are lowered to the number of words.
fn stripes(matches: &ArgMatches<'_>) -> Result<u32, OptionName>
    ensures { IsValueOf OptionName.Stripes (stripes_of (rows_of (found_of matches.now))) result }
{
    let stripes = STRIPES.number(matches)?;
    as_stripes(stripes).ok_or(OptionName::Stripes)
}

// The number, if it is a power of two up to 64.
fn as_stripes(number: u64) -> Option<u32>
    ensures { result ≡ as_stripes number }
{
    match number {
        1 | 2 | 4 | 8 | 16 | 32 | 64 => Some(number as u32),
        _ => None,
    }
}

// The report that is written.
fn print(matches: &ArgMatches<'_>) -> Result<Print, OptionName>
    ensures { IsValueOf OptionName.Print (print_of (rows_of (found_of matches.now))) result }
{
    let print = match text_of(matches, PRINT.name) {
        None => Some(Print::Table),
        Some(text) => report_named(text),
    };
    print.ok_or(OptionName::Print)
}

// The report with this name.
fn report_named(text: &str) -> Option<Print>
    ensures { result ≡ report_named text.now }
{
    match text {
        "table" => Some(Print::Table),
        "dump" => Some(Print::Dump),
        "histo" => Some(Print::Histo),
        "stats" => Some(Print::Stats),
        _ => None,
    }
}

/// The text of an option, if it was given.
pub fn text_of<'a>(matches: &ArgMatches<'a>, name: &str) -> Option<&'a str>
    ensures { option_map (λ text. text.now) result ≡ first_of name.now (rows_of (found_of matches.now)) }
{
    matches.get_str(name)
}

/// How many values an argument has.
pub(crate) fn value_count(matches: &ArgMatches<'_>, name: &str) -> usize
    ensures { result ≡ length (unwrap_or (all_of name.now (rows_of (found_of matches.now))) []) }
{
    match matches.get_strs(name) {
        Some(values) => values.len(),
        None => 0,
    }
}

/// Whether a flag was given. It takes no memory.
pub fn has_flag(matches: &ArgMatches<'_>, name: &str) -> bool
    ensures { IsFlag (rows_of (found_of matches.now)) name.now result }
{
    matches.get_flag(name)
}
