//! What the options of `compare` ask for.
ghost use Rattle.std.specs.Prelude.{MatchResult, IfOk, IfSome, Some, None, ◌≡◌, ◌≤◌, ◌^◌};
ghost use Rattle.clap.specs.Words.{found_of, rows_of};
ghost use Rattle.kc_command.specs.Arguments.{AsksForComparison, first_bad_of_compare};

use crate::option_name::OptionName;
use crate::option_table::{HIGH, MATRIX, SOLID};
use crate::settings_of_options::has_flag;
use clap::ArgMatches;

/// What the options of `compare` ask for.
#[derive(Clone, Copy, Debug, PartialEq, Eq)]
pub struct CompareOptions {
    /// The least count of a solid word of the reads.
    pub solid: u64,
    /// The greatest count of the reads with lines of its own in the matrix, if that is asked for.
    pub spectrum: Option<u64>,
}

/// What the options of `compare` ask for. It takes no memory.
///
/// # Errors
/// The first of `--solid`, if its value is not 0 to 2^62, and `--high`, if its value is not 1 to 10,000,000, even if
/// the option has no effect.
pub fn compare_options(matches: &ArgMatches<'_>) -> Result<CompareOptions, OptionName>
    ensures first_bad { MatchResult result (λ c. first_bad_of_compare (rows_of (found_of matches.now)) ≡ None)
        (λ name. first_bad_of_compare (rows_of (found_of matches.now)) ≡ Some name) }
    ensures asked { IfOk result (AsksForComparison (rows_of (found_of matches.now))) }
    ensures limits { IfOk result (λ asked. (asked.solid ≤ 2 ^ 62)
        × IfSome asked.spectrum (λ high. (1 ≤ high) × (high ≤ 10000000))) }
{
    let solid = SOLID.number(matches)?;
    let high = HIGH.number(matches)?;
    let spectrum = if has_flag(matches, MATRIX.name) {
        Some(high)
    } else {
        None
    };
    Ok(CompareOptions { solid, spectrum })
}
