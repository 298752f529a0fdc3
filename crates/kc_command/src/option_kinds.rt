//! The kinds of options: what describes an option, how it becomes one of `clap`, and the number that it asks for.
ghost use Rattle.std.specs.Prelude.{IfOk, false, ◌≡◌, ◌≤◌};
ghost use Rattle.clap.specs.Words.{first_of, found_of, rows_of, rule_of};
ghost use Rattle.kc_command.specs.Numbers.{number_between};
ghost use Rattle.kc_command.specs.Options.{IsValueOf, flag_option, or_default, value_option};

use crate::numbers::number_between;
use crate::option_name::OptionName;
use crate::settings_of_options::text_of;
use clap::{Arg, ArgAction, ArgMatches};
use std::alloc::Global;

/// An option without a value.
#[derive(Clone, Copy)]
pub(crate) struct FlagOption {
    /// Its long name.
    pub(crate) name: &'static str,
    /// Its help.
    pub(crate) help: &'static str,
}

/// An option whose value may be any text.
#[derive(Clone, Copy)]
pub(crate) struct TextOption {
    /// Its long name.
    pub(crate) name: &'static str,
    /// The name of its value in the help.
    pub(crate) value: &'static str,
    /// Its help.
    pub(crate) help: &'static str,
}

/// An option whose value can be refused.
#[derive(Clone, Copy)]
pub(crate) struct CheckedOption {
    /// The option in a refusal.
    pub(crate) refused_as: OptionName,
    /// Its long name.
    pub(crate) name: &'static str,
    /// The name of its value in the help.
    pub(crate) value: &'static str,
    /// Its help, with its range and its default.
    pub(crate) help: &'static str,
    /// Its range in words, for explanations.
    pub(crate) range: &'static str,
}

/// An option whose value is a number.
#[derive(Clone, Copy)]
pub(crate) struct NumberOption {
    /// The option.
    pub(crate) option: CheckedOption,
    /// The number if it is not given.
    pub(crate) default: u64,
    /// The least number.
    pub(crate) least: u64,
    /// The greatest number.
    pub(crate) most: u64,
}

impl FlagOption {
    /// The option, as `clap` reads it.
    pub(crate) fn arg<'a>(&self, alloc: Global) -> Arg<'a>
        ensures rule { rule_of result ≡ flag_option self.now.name.now }
        ensures own { result.global ≡ false }
    {
        Arg::new(alloc, self.name)
            .long(self.name)
            .action(ArgAction::SetTrue)
            .help(self.help)
    }
}

impl TextOption {
    /// The option, as `clap` reads it.
    pub(crate) fn arg<'a>(&self, alloc: Global) -> Arg<'a>
        ensures rule { rule_of result ≡ value_option self.now.name.now }
        ensures own { result.global ≡ false }
    {
        Arg::new(alloc, self.name)
            .long(self.name)
            .value_name(self.value)
            .help(self.help)
    }
}

impl CheckedOption {
    /// The option, as `clap` reads it. It takes any text, which is checked later.
    pub(crate) fn arg<'a>(&self, alloc: Global) -> Arg<'a>
        ensures rule { rule_of result ≡ value_option self.now.name.now }
        ensures own { result.global ≡ false }
    {
        let option = TextOption {
            name: self.name,
            value: self.value,
            help: self.help,
        };
        option.arg(alloc)
    }
}

impl NumberOption {
    /// The option, as `clap` reads it. It takes any text, which is checked later.
    pub(crate) fn arg<'a>(&self, alloc: Global) -> Arg<'a>
        ensures rule { rule_of result ≡ value_option self.now.option.name.now }
        ensures own { result.global ≡ false }
    {
        self.option.arg(alloc)
    }

    /// The number that the option asks for, if it is within its limits; if it is not given, its default. Conditions:
    /// its default is within its limits.
    pub(crate) fn number(&self, matches: &ArgMatches<'_>) -> Result<u64, OptionName>
        requires low { self.now.least ≤ self.now.default }
        requires high { self.now.default ≤ self.now.most }
        ensures value { IsValueOf self.now.option.refused_as (or_default self.now.default
            (number_between self.now.least self.now.most)
            (first_of self.now.option.name.now (rows_of (found_of matches.now)))) result }
        ensures limits { IfOk result (λ number. (self.now.least ≤ number) × (number ≤ self.now.most)) }
    {
        let number = match text_of(matches, self.option.name) {
            None => Some(self.default),
            Some(text) => number_between(text.as_bytes(), self.least, self.most),
        };
        number.ok_or(self.option.refused_as)
    }
}
