//! Several tables, combined word by word.
ghost use Rattle.std.specs.Prelude.{◌≡◌, ◌^◌, ◌<◌, ◌≤◌, ◌++◌, ◌∷◌, [], List, ℕ, None, Some, IfOk, IfErr};
ghost use Rattle.std.specs.Prelude.{IfSome, IfNone, length};
ghost use Rattle.kc_tally.specs.declared.row.Row.{Row};
ghost use Rattle.kc_combine.specs.Aheads.{HaveLength, heads_of, least_from, whences_of};
ghost use Rattle.kc_combine.specs.Walks.{GoesOn, IsWalking, StopsAt, left_from};

use crate::ahead::Ahead;
use crate::aheads::{least_word, take_word};
use crate::combines::Combines;
use crate::gives_rows::GivesRows;
use kc_tally::Row;

/// Why several tables together can give no row.
pub enum WalkFault<F> {
    /// A table has this fault.
    Table(F),
    /// The count of a word is above 2^62.
    TooLarge,
}

/// The next row of the combination of the tables, or none if no word is left. `counts` has room for a count of each
/// table.
///
/// # Errors
/// `Table` if a table has a fault, that of the first table that has one after the word; `TooLarge` if the rule's count
/// of the next word is above 2^62.
pub fn next_row<R: GivesRows + Drop, C: Combines>(
    aheads: &mut [Ahead<R>],
    combines: &C,
    counts: &mut [u64],
) -> Result<Option<Row>, WalkFault<R::Fault>>
    requires { length counts.old ≡ length aheads.old }
    ensures goes { (bound : ℕ) (tables : List (List Row)) (rows : List Row)
        → IsWalking R.gave R.gave_all (C.rule combines.now) bound tables aheads.old rows
        → IfOk result (GoesOn R.gave R.gave_all (C.rule combines.now) aheads.new rows) }
    ensures stops { (bound : ℕ) (tables : List (List Row)) (rows : List Row)
        → IsWalking R.gave R.gave_all (C.rule combines.now) bound tables aheads.old rows
        → IfErr result (StopsAt R.gave R.gave_all R.fails (C.rule combines.now) aheads.new rows) }
    ensures word { (k : ℕ) → HaveLength R.whence k aheads.old
        → IfOk result (λ next. IfSome next (λ row. row.word < 4 ^ k)) }
    ensures count { IfOk result (λ next. IfSome next (λ row. (1 ≤ row.count) × (row.count ≤ 2 ^ 62))) }
    ensures fewer { IfOk result (λ next. IfSome next (λ row. left_from (least_from None (heads_of aheads.new))
        < left_from (least_from None (heads_of aheads.old)))) }
    ensures same { whences_of R.whence aheads.new ≡ whences_of R.whence aheads.old }
    ensures long { length aheads.new ≡ length aheads.old }
    ensures alike { length counts.new ≡ length counts.old }
{
    'words: while let Some(word) = least_word(aheads) {
        if let Err(fault) = take_word(aheads, word, counts) {
            return Err(WalkFault::Table(fault));
        }
        let Some(count) = combines.count(counts) else {
            return Err(WalkFault::TooLarge);
        };
        if count > 0 {
            return Ok(Some(Row { word, count }));
        }
    }
    Ok(None)
}
