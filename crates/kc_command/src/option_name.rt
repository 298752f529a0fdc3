//! The names of the options whose values are checked.
ghost use Rattle.std.specs.Prelude.{◌≡◌};
ghost use Rattle.kc_command.specs.Options.{option_name};

use crate::option_kinds::CheckedOption;
use crate::option_table::{
    BATCH, HIGH, KEEP, LOWER_COUNT, MAX_COUNT, MER_LEN, MIN_COUNT, MIN_QUAL_CHAR, MIN_SHARE, PRINT,
    SIZE, SOLID, STRIPES, TAKE, THREADS, UPPER_COUNT,
};

/// An option of the command line whose value can be refused.
#[derive(Clone, Copy, Debug, PartialEq, Eq)]
pub enum OptionName {
    /// `--mer-len`
    MerLen,
    /// `--size`
    Size,
    /// `--threads`
    Threads,
    /// `--min-count`
    MinCount,
    /// `--max-count`
    MaxCount,
    /// `--min-share`
    MinShare,
    /// `--min-qual-char`
    MinQualChar,
    /// `--keep`
    Keep,
    /// `--take`
    Take,
    /// `--stripes`
    Stripes,
    /// `--batch`
    Batch,
    /// `--print`
    Print,
    /// `--lower-count`
    LowerCount,
    /// `--upper-count`
    UpperCount,
    /// `--high`
    High,
    /// `--solid`
    Solid,
}

impl OptionName {
    /// The long name, without the two dashes.
    pub fn name(self) -> &'static str
        ensures { result.now ≡ option_name self }
    {
        self.option().name
    }

    /// Which values the option may have, in words, as `a number from 1 to 64`.
    pub fn range(self) -> &'static str {
        self.option().range
    }

    // The option.
    fn option(self) -> CheckedOption
        ensures option { result.refused_as ≡ self }
        ensures name { result.name.now ≡ option_name self }
    {
        match self {
            OptionName::MerLen => MER_LEN,
            OptionName::Size => SIZE.option,
            OptionName::Threads => THREADS.option,
            OptionName::MinCount => MIN_COUNT.option,
            OptionName::MaxCount => MAX_COUNT.option,
            OptionName::MinShare => MIN_SHARE.option,
            OptionName::MinQualChar => MIN_QUAL_CHAR,
            OptionName::Keep => KEEP,
            OptionName::Take => TAKE,
            OptionName::Stripes => STRIPES.option,
            OptionName::Batch => BATCH.option,
            OptionName::Print => PRINT,
            OptionName::LowerCount => LOWER_COUNT.option,
            OptionName::UpperCount => UPPER_COUNT.option,
            OptionName::High => HIGH.option,
            OptionName::Solid => SOLID.option,
        }
    }
}
