//! The words of several tables, visited one after another.
ghost use Rattle.std.specs.Prelude.{◌≡◌, [], IfErr, List, OnOk, length};
ghost use Rattle.kc_tally.specs.declared.row.Row.{Row};
ghost use Rattle.kc_combine.specs.Aheads.{FailsAt, whences_of};
ghost use Rattle.kc_combine.specs.Walks.{HaveVisited};
ghost use Rattle.kc_combine.specs.WrittenTables.{StandAtStart};

use crate::ahead::Ahead;
use crate::aheads::{least_word, take_word};
use crate::gives_rows::GivesRows;
use crate::visits_words::VisitsWords;

/// Visits each word of the tables, in order, with its counts in them. No rows are kept. `counts` has room for a count
/// of each table. The contract covers tables from which no row was taken before.
///
/// # Errors
/// The fault of a table: that of the first table that has one after the word.
pub(crate) fn visit_words<R: GivesRows + Drop, V: VisitsWords>(
    aheads: &mut [Ahead<R>],
    counts: &mut [u64],
    visitor: &mut V,
) -> Result<(), R::Fault>
    requires { length counts.old ≡ length aheads.old }
    ensures visited { StandAtStart R.gave R.gave_all aheads.old → V.visited visitor.old []
        → OnOk result (HaveVisited R.gave_all R.whence (V.visited visitor.new) aheads.old aheads.new) }
    ensures fault { StandAtStart R.gave R.gave_all aheads.old
        → IfErr result (λ fault. (tables : List (List Row)) × FailsAt R.fails aheads.new tables fault) }
    ensures setting { V.setting visitor.new ≡ V.setting visitor.old }
    ensures same { whences_of R.whence aheads.new ≡ whences_of R.whence aheads.old }
    ensures long { length aheads.new ≡ length aheads.old }
    ensures alike { length counts.new ≡ length counts.old }
{
    'words: while let Some(word) = least_word(aheads) {
        take_word(aheads, word, counts)?;
        visitor.visit(counts);
    }
    Ok(())
}
