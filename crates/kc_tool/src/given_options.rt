//! What the options of a command line ask for; an option that is refused is a fault of the program.
ghost use Rattle.std.specs.Prelude.{MatchResult, IfOk, IfSome, Some, None, ◌≡◌, ◌≤◌, ◌^◌};
ghost use Rattle.clap.specs.Words.{found_of, rows_of};
ghost use Rattle.kc_command.specs.Arguments.{
  AsksFor,
  AsksForComparison,
  AsksForDump,
  AsksForFilter,
  AsksForIntersection,
  AsksForPairs,
  AsksForProfile,
  AsksForSelection,
  first_bad,
  first_bad_of_compare,
  first_bad_of_dump,
  first_bad_of_histo,
  first_bad_of_intersect,
  first_bad_of_profile,
  first_bad_of_select,
};
ghost use Rattle.kc_command.specs.Options.{high_of};
ghost use Rattle.kc_command.specs.declared.option_name.OptionName.{OptionName};

use crate::tool_faults::ToolFault;
use clap::ArgMatches;
use kc_combine::Combining;
use kc_command::{CompareOptions, Options, SelectOptions};
use kc_report::Dump;
use kc_select::Selection;
use std::alloc::Global;

/// What the options of `count` ask for.
///
/// # Errors
/// `BadOption` with the first option, in the order of the help, with a value outside its limits, even if the option has
/// no effect. A missing `--mer-len` is such an option.
pub fn options(alloc: Global, matches: &ArgMatches<'_>) -> Result<Options, ToolFault>
    ensures first_bad { MatchResult result (λ o. first_bad (rows_of (found_of matches.now)) ≡ None)
        (λ fault. (name : OptionName) × (first_bad (rows_of (found_of matches.now)) ≡ Some name)
        × (fault ≡ ToolFault.BadOption name)) }
    ensures asked { IfOk result (AsksFor (rows_of (found_of matches.now))) }
{
    Ok(kc_command::options(alloc, matches)?)
}

/// What the options of `dump` ask for. `count` has them, too. It takes no memory.
///
/// # Errors
/// `BadOption` with the first of `--lower-count` and `--upper-count` with a value that is not 0 to 2^62.
pub fn dump_options(matches: &ArgMatches<'_>) -> Result<Dump, ToolFault>
    ensures first_bad { MatchResult result (λ d. first_bad_of_dump (rows_of (found_of matches.now)) ≡ None)
        (λ fault. (name : OptionName) × (first_bad_of_dump (rows_of (found_of matches.now)) ≡ Some name)
        × (fault ≡ ToolFault.BadOption name)) }
    ensures asked { IfOk result (AsksForDump (rows_of (found_of matches.now))) }
    ensures limits { IfOk result (λ dump. (dump.lower ≤ 2 ^ 62) × (dump.upper ≤ 2 ^ 62)) }
{
    Ok(kc_command::dump_options(matches)?)
}

/// The greatest count with a line of its own in a histogram, as `--high` of `histo` and of `count` asks for. It takes
/// no memory.
///
/// # Errors
/// `BadOption` with `--high` if its value is not 1 to 10,000,000.
pub fn high_of(matches: &ArgMatches<'_>) -> Result<u64, ToolFault>
    ensures first_bad { MatchResult result (λ h. first_bad_of_histo (rows_of (found_of matches.now)) ≡ None)
        (λ fault. (name : OptionName) × (first_bad_of_histo (rows_of (found_of matches.now)) ≡ Some name)
        × (fault ≡ ToolFault.BadOption name)) }
    ensures asked { IfOk result (λ high. high_of (rows_of (found_of matches.now)) ≡ Some high) }
    ensures limits { IfOk result (λ high. (1 ≤ high) × (high ≤ 10000000)) }
{
    Ok(kc_command::high_of(matches)?)
}

/// What the options of `select` ask for. It takes no memory.
///
/// # Errors
/// `BadOption` with the first of `--min-count`, `--max-count`, `--min-share`, `--min-qual-char` and `--keep` with a
/// value outside its limits, even if the option has no effect.
pub fn select_options(matches: &ArgMatches<'_>) -> Result<SelectOptions, ToolFault>
    ensures first_bad { MatchResult result (λ s. first_bad_of_select (rows_of (found_of matches.now)) ≡ None)
        (λ fault. (name : OptionName) × (first_bad_of_select (rows_of (found_of matches.now)) ≡ Some name)
        × (fault ≡ ToolFault.BadOption name)) }
    ensures asked { IfOk result (λ asked. AsksForSelection (rows_of (found_of matches.now)) asked.selection) }
    ensures pairs { IfOk result (λ asked. AsksForPairs (rows_of (found_of matches.now)) asked.pairs) }
{
    Ok(kc_command::select_options(matches)?)
}

/// What the options of `profile` ask for. It takes no memory.
///
/// # Errors
/// `BadOption` with `--min-qual-char` if its value is no character from ! to ~.
pub fn profile_options(matches: &ArgMatches<'_>) -> Result<Selection, ToolFault>
    ensures first_bad { MatchResult result (λ s. first_bad_of_profile (rows_of (found_of matches.now)) ≡ None)
        (λ fault. (name : OptionName) × (first_bad_of_profile (rows_of (found_of matches.now)) ≡ Some name)
        × (fault ≡ ToolFault.BadOption name)) }
    ensures asked { IfOk result (AsksForProfile (rows_of (found_of matches.now))) }
{
    Ok(kc_command::profile_options(matches)?)
}

/// What the options of `intersect` ask for. It takes no memory.
///
/// # Errors
/// `BadOption` with `--take` if its value is not `min`, `max`, `sum` or `first`.
pub(crate) fn intersect_options(matches: &ArgMatches<'_>) -> Result<Combining, ToolFault>
    ensures first_bad { MatchResult result (λ c. first_bad_of_intersect (rows_of (found_of matches.now)) ≡ None)
        (λ fault. (name : OptionName) × (first_bad_of_intersect (rows_of (found_of matches.now)) ≡ Some name)
        × (fault ≡ ToolFault.BadOption name)) }
    ensures asked { IfOk result (AsksForIntersection (rows_of (found_of matches.now))) }
{
    Ok(kc_command::intersect_options(matches)?)
}

/// What the options of `filter` ask for. It takes no memory.
///
/// # Errors
/// `BadOption` with the first of `--lower-count` and `--upper-count` with a value that is not 0 to 2^62.
pub(crate) fn filter_options(matches: &ArgMatches<'_>) -> Result<Combining, ToolFault>
    ensures first_bad { MatchResult result (λ c. first_bad_of_dump (rows_of (found_of matches.now)) ≡ None)
        (λ fault. (name : OptionName) × (first_bad_of_dump (rows_of (found_of matches.now)) ≡ Some name)
        × (fault ≡ ToolFault.BadOption name)) }
    ensures asked { IfOk result (AsksForFilter (rows_of (found_of matches.now))) }
{
    Ok(kc_command::filter_options(matches)?)
}

/// What the options of `compare` ask for. It takes no memory.
///
/// # Errors
/// `BadOption` with the first of `--solid` and `--high` with a value outside its limits, even if the option has no
/// effect.
pub(crate) fn compare_options(matches: &ArgMatches<'_>) -> Result<CompareOptions, ToolFault>
    ensures first_bad { MatchResult result (λ c. first_bad_of_compare (rows_of (found_of matches.now)) ≡ None)
        (λ fault. (name : OptionName) × (first_bad_of_compare (rows_of (found_of matches.now)) ≡ Some name)
        × (fault ≡ ToolFault.BadOption name)) }
    ensures asked { IfOk result (AsksForComparison (rows_of (found_of matches.now))) }
    ensures limits { IfOk result (λ asked. IfSome asked.spectrum (λ high. (1 ≤ high) × (high ≤ 10000000))) }
{
    Ok(kc_command::compare_options(matches)?)
}
