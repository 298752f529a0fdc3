//! The command line of `kcount`: its commands and options, and what they ask for.
//!
//! `command::command` makes the command line that `clap` reads, with the text of its help; the module `command` has the
//! names of its commands. From what `clap` found, `options` makes the `Options` of a count, `dump_options` the form of
//! a dump, `high_of` the highest count of a histogram, `intersect_options`, `subtract_options` and `filter_options` how
//! tables are combined, `compare_options` what is compared, `select_options` the rule of a selection, and
//! `profile_options` that of a profile; `text_of` returns the text of an option, and `has_flag` whether a flag was
//! given. The first option with a value outside its limits is returned as its `OptionName`, `pairs_refusal` returns why
//! options of `select` conflict, `has_too_many_tables` whether more tables are named than can be combined, and
//! `has_no_words` whether no k-mers are given to look up. `command_laws` has worked command lines.
//!
//! ```ignore
//! let options = Options::new(k).with_print(Print::Dump).with_dump(Dump::in_columns());
//! ```
#![tactic(auto)]

mod combining_options;
pub mod command;
mod command_arguments;
pub mod command_laws;
mod comparison_options;
mod help;
mod numbers;
mod option_kinds;
mod option_name;
mod option_table;
mod pair_options;
mod settings;
mod settings_of_options;
mod word_options;

pub use combining_options::{
    filter_options, has_too_many_tables, intersect_options, subtract_options,
};
pub use comparison_options::{CompareOptions, compare_options};
pub use option_name::OptionName;
pub use pair_options::{PairsRefusal, SelectOptions, pairs_refusal};
pub use settings::{Options, Print};
pub use settings_of_options::{
    dump_options, has_flag, high_of, options, profile_options, select_options, text_of,
};
pub use word_options::has_no_words;
