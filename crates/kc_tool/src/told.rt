//! What a command that succeeded reports.
ghost use Rattle.std.specs.Prelude.{◌≡◌};
ghost use Rattle.kc_tool.specs.Told.{asked_counts, counted_in, counted_with, told_of_totals};

use kc_combine::Totals;
use kc_select::SelectionCounts;
use kc_tally::Tally;

/// How many k-mers were counted, in how many reads.
#[derive(Clone, Copy, Debug)]
pub(crate) struct CountedWords {
    /// How many reads there were, if the line has that.
    pub reads: Option<u64>,
    /// How many k-mers were counted.
    pub total: u64,
    /// How many of them are distinct.
    pub distinct: u64,
}

/// What a command that succeeded reports.
#[derive(Clone, Copy, Debug)]
pub(crate) enum Told {
    /// Nothing, for help and for a command that reads a table.
    Nothing,
    /// For a count, and for tables that were combined.
    Counted(CountedWords),
    /// For a selection, with whether `--stats` asks for its counts.
    Selected(SelectionCounts, bool),
    /// For profiles: how many reads there are, and how many k-mers they have.
    Profiled(SelectionCounts),
}

impl CountedWords {
    /// How many k-mers a tally has, with the number of reads.
    pub fn of(tally: &Tally, reads: Option<u64>) -> CountedWords
        ensures { result ≡ counted_with reads tally.now }
    {
        CountedWords {
            reads,
            total: tally.total(),
            distinct: tally.row_count(),
        }
    }

    /// How many k-mers a combination of tables has.
    pub fn of_totals(totals: Totals) -> CountedWords
        ensures { result ≡ counted_in totals }
    {
        CountedWords {
            reads: None,
            total: totals.total,
            distinct: totals.distinct,
        }
    }
}

/// What there is to report of a text that was derived from tables: how much a table has, and nothing of another text.
pub(crate) fn told_of_totals(totals: Option<Totals>) -> Told
    ensures { result ≡ told_of_totals totals }
{
    match totals {
        Some(totals) => Told::Counted(CountedWords::of_totals(totals)),
        None => Told::Nothing,
    }
}

/// The counts of a selection, if they are asked for.
pub(crate) fn asked_counts(told: &Told) -> Option<SelectionCounts>
    ensures { result ≡ asked_counts told.now }
{
    match told {
        Told::Selected(counts, true) => Some(*counts),
        _ => None,
    }
}
