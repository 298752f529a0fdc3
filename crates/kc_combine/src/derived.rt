//! What commands derive from tables.
ghost use Rattle.std.specs.Prelude.{◌≡◌, MatchResult, None, Ok, Err};
ghost use Rattle.kc_combine.specs.Derivations.{combining_of};
ghost use Rattle.kc_combine.specs.declared.written_tables.CombineFault.TheVariants.{Write};

use crate::combining::Combining;
use crate::placed_fault::PlacedFault;
use crate::visited_texts::OF_SAME_WORDS;
use crate::written_tables::{CombineFault, Totals};
use kc_io::Failed;
use kc_report::Dump;

/// What a command derives from tables.
#[derive(Clone, Copy, Debug, PartialEq, Eq)]
pub enum Derived {
    /// The table of a combination.
    Table(Combining),
    /// The numbers of two compared tables. A word of the first one is solid if its count is at least this.
    Comparison(u64),
    /// The spectrum of copy numbers of two tables, with a line for each count in the first one up to this.
    Spectrum(u64),
    /// The dump of a table.
    Dump(Dump),
}

impl Derived {
    /// The combination as for which the tables have to match.
    pub fn combining(self) -> Combining
        ensures { result ≡ combining_of self }
    {
        match self {
            Derived::Table(combining) => combining,
            Derived::Comparison(_) | Derived::Spectrum(_) | Derived::Dump(_) => OF_SAME_WORDS,
        }
    }
}

/// What comes of a text without totals.
pub(crate) fn written(
    outcome: Result<(), Failed>,
) -> Result<Option<Totals>, CombineFault<PlacedFault>>
    ensures { MatchResult outcome (λ done. result ≡ Ok None) (λ failed. result ≡ Err Write) }
{
    match outcome {
        Ok(()) => Ok(None),
        Err(Failed) => Err(CombineFault::Write),
    }
}
