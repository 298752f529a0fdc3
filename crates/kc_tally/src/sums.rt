//! The rows of the sum of two tallies.
ghost use Rattle.std.specs.Prelude.{◌≡◌, ◌+◌, ◌≤◌, ◌^◌, IfOk, IfSome, IfNone, None, length};
ghost use Rattle.kc_tally.specs.Tally.{AreRows, total_of};
ghost use Rattle.kc_tally.specs.Sum.{IsSum, TakesCount, TakesSum};
ghost use Rattle.kc_tally.specs.Sum as summing;

use crate::growing_rows::GrowingRows;
use crate::row::Row;
use crate::rows::Rows;
use crate::tally::Tally;
use std::alloc::{AllocError, Global};

// The rows of the sum. It goes over both tallies once, in the order of words.
pub(crate) fn summed_rows(
    alloc: Global,
    first: &Tally,
    second: &Tally,
) -> Result<GrowingRows, AllocError>
    requires k { first.now.k ≡ second.now.k }
    requires both { first.now.both ≡ second.now.both }
    requires small { total_of first.now.rows + total_of second.now.rows ≤ 2 ^ 62 }
    ensures sum { IfOk result (λ sums. IsSum first.now.k first.now.rows second.now.rows sums) }
    ensures lawful { IfOk result (λ sums. AreRows first.now.k first.now.both sums) }
{
    // words of k bases are below 2^62
    let _bases = first.k().get();
    let mut sums = GrowingRows::new(alloc);
    let (mut firsts, mut seconds) = (first.rows(), second.rows());
    'words: while let Some(row) = take_sum(&mut firsts, &mut seconds) {
        sums.push(row)?;
    }
    Ok(sums)
}

// The sum of the rows of the lesser of the next words, which are used up.
#[inline(always)]
fn take_sum(firsts: &mut Rows<'_>, seconds: &mut Rows<'_>) -> Option<Row>
    requires { total_of firsts.old + total_of seconds.old ≤ 2 ^ 62 }
    ensures some { IfSome result (TakesSum firsts.old firsts.new seconds.old seconds.new) }
    ensures none { IfNone result
        (summing.lesser (summing.first_word firsts.old) (summing.first_word seconds.old) ≡ None) }
{
    // in nearly all cases both rows are there
    match firsts.take_sum(seconds) {
        Some(row) => Some(row),
        None => take_counts(firsts, seconds),
    }
}

// The same, if a part has to be begun first, or no row is left.
#[inline(always)]
fn take_counts(firsts: &mut Rows<'_>, seconds: &mut Rows<'_>) -> Option<Row>
    requires { total_of firsts.old + total_of seconds.old ≤ 2 ^ 62 }
    ensures some { IfSome result (TakesSum firsts.old firsts.new seconds.old seconds.new) }
    ensures none { IfNone result
        (summing.lesser (summing.first_word firsts.old) (summing.first_word seconds.old) ≡ None) }
{
    let Some(word) = lesser_word(first_word(firsts), first_word(seconds)) else {
        return None;
    };
    let count = take_count(firsts, word) + take_count(seconds, word);
    Some(Row { word, count })
}

// The word of the next row.
#[inline(always)]
fn first_word(rows: &Rows<'_>) -> Option<u64>
    ensures { result ≡ summing.first_word rows.now }
{
    match rows.second_walk().next() {
        Some(row) => Some(row.word),
        None => None,
    }
}

// The lesser of two words, if there are two.
#[inline(always)]
fn lesser_word(word: Option<u64>, other: Option<u64>) -> Option<u64>
    ensures { result ≡ summing.lesser word other }
{
    match (word, other) {
        (None, other) => other,
        (Some(word), None) => Some(word),
        (Some(word), Some(other)) => Some(word.min(other)),
    }
}

// The count of the next row, which is used up, if that row has the word; otherwise 0.
#[inline(always)]
fn take_count(rows: &mut Rows<'_>, word: u64) -> u64
    ensures { TakesCount rows.old rows.new word result }
{
    let mut later = rows.second_walk();
    let Some(row) = later.next() else {
        return 0;
    };
    if row.word != word {
        return 0;
    }
    *rows = later;
    row.count
}
