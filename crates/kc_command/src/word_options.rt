//! Where `query` finds the k-mers that it looks up.
ghost use Rattle.std.specs.Prelude.{◌≡◌};
ghost use Rattle.clap.specs.Words.{found_of, rows_of};
ghost use Rattle.kc_command.specs.Arguments.{has_no_words};

use crate::option_table::FILE;
use crate::settings_of_options::text_of;
use clap::ArgMatches;

/// Whether `query` is given no k-mers: neither a WORD nor `--file`. It takes no memory.
pub fn has_no_words(matches: &ArgMatches<'_>) -> bool
    ensures { result ≡ has_no_words (rows_of (found_of matches.now)) }
{
    text_of(matches, "word").is_none() && text_of(matches, FILE.name).is_none()
}
