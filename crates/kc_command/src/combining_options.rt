//! What the options of the commands that combine tables ask for.
ghost use Rattle.std.specs.Prelude.{MatchResult, IfOk, Some, None, ◌≡◌};
ghost use Rattle.clap.specs.Words.{found_of, rows_of};
ghost use Rattle.kc_command.specs.Arguments.{
  AsksForFilter,
  AsksForIntersection,
  AsksForSubtraction,
  first_bad_of_dump,
  first_bad_of_intersect,
  has_too_many_tables,
};
ghost use Rattle.kc_command.specs.Options.{IsValueOf, take_named, take_of};

use crate::option_name::OptionName;
use crate::option_table::{COUNTS, LOWER_COUNT, TAKE, UPPER_COUNT};
use crate::settings_of_options::{has_flag, text_of, value_count};
use clap::ArgMatches;
use kc_combine::{Combining, Intersection, Take, Within};

/// The greatest number of tables besides the first one.
const MAX_OTHER_TABLES: usize = 63;

/// What the options of `intersect` ask for. It takes no memory.
///
/// # Errors
/// `--take` if its value is not `min`, `max`, `sum` or `first`.
pub fn intersect_options(matches: &ArgMatches<'_>) -> Result<Combining, OptionName>
    ensures first_bad { MatchResult result (λ c. first_bad_of_intersect (rows_of (found_of matches.now)) ≡ None)
        (λ name. first_bad_of_intersect (rows_of (found_of matches.now)) ≡ Some name) }
    ensures asked { IfOk result (AsksForIntersection (rows_of (found_of matches.now))) }
{
    let take = take(matches)?;
    Ok(Combining::Intersect(Intersection { take }))
}

/// What the options of `subtract` ask for. It takes no memory.
pub fn subtract_options(matches: &ArgMatches<'_>) -> Combining
    ensures { AsksForSubtraction (rows_of (found_of matches.now)) result }
{
    if has_flag(matches, COUNTS.name) {
        Combining::SubtractCounts
    } else {
        Combining::Subtract
    }
}

/// What the options of `filter` ask for. It takes no memory.
///
/// # Errors
/// The first of `--lower-count` and `--upper-count` with a value that is not 0 to 2^62.
pub fn filter_options(matches: &ArgMatches<'_>) -> Result<Combining, OptionName>
    ensures first_bad { MatchResult result (λ c. first_bad_of_dump (rows_of (found_of matches.now)) ≡ None)
        (λ name. first_bad_of_dump (rows_of (found_of matches.now)) ≡ Some name) }
    ensures asked { IfOk result (AsksForFilter (rows_of (found_of matches.now))) }
{
    let least = LOWER_COUNT.number(matches)?;
    let most = UPPER_COUNT.number(matches)?;
    Ok(Combining::Filter(Within { least, most }))
}

/// Whether `merge`, `intersect` or `subtract` is given more than 64 tables. It takes no memory.
pub fn has_too_many_tables(matches: &ArgMatches<'_>) -> bool
    ensures { result ≡ has_too_many_tables (rows_of (found_of matches.now)) }
{
    value_count(matches, "second") > MAX_OTHER_TABLES
}

// The count that an intersection gives a word.
fn take(matches: &ArgMatches<'_>) -> Result<Take, OptionName>
    ensures { IsValueOf OptionName.Take (take_of (rows_of (found_of matches.now))) result }
{
    let asked = match text_of(matches, TAKE.name) {
        None => Some(Take::Least),
        Some(text) => take_named(text),
    };
    asked.ok_or(OptionName::Take)
}

// The count with this name.
fn take_named(text: &str) -> Option<Take>
    ensures { result ≡ take_named text.now }
{
    match text {
        "min" => Some(Take::Least),
        "max" => Some(Take::Greatest),
        "sum" => Some(Take::Sum),
        "first" => Some(Take::First),
        _ => None,
    }
}
