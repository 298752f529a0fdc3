//! Tables that are read row by row, each with its next row already read.
ghost use Rattle.std.specs.Prelude.{◌≡◌, ◌≢◌, ◌+◌, ◌^◌, ◌<◌, ◌≤◌, ◌++◌, ◌∷◌, [], List, ℕ, None, Some};
ghost use Rattle.std.specs.Prelude.{IfErr, IfNone, IfOk, IfSome, OnOk, length, map};
ghost use Rattle.kc_tally.specs.declared.row.Row.{Row};
ghost use Rattle.kc_combine.specs.Combined.{TakesRow, TakeRows};
ghost use Rattle.kc_combine.specs.Aheads.{BeginAt, BeginsAt, FailsAt, HasTaken, HaveTaken, count_at, heads_of};
ghost use Rattle.kc_combine.specs.Aheads.{least_from, whences_of, word_of};
ghost use Rattle.kc_tally.specs.Sum.{lesser};

use crate::ahead::Ahead;
use crate::gives_rows::GivesRows;
use kc_tally::Row;

impl<R: GivesRows + Drop> Ahead<R> {
    /// Reads the first row.
    ///
    /// # Errors
    /// The fault in place of the first row.
    pub fn new(reading: R) -> Result<Ahead<R>, R::Fault>
        ensures taken { R.gave reading []
            → IfOk result (λ ahead. HasTaken R.gave R.gave_all ahead.reading ahead.head []) }
        ensures same { IfOk result (λ ahead. R.whence ahead.reading ≡ R.whence reading) }
        ensures fault { R.gave reading [] → IfErr result (λ fault. (after : R) × R.fails after [] fault) }
    {
        let mut reading = reading;
        let head = reading.next()?;
        Ok(Ahead { reading, head })
    }

    /// The word of the next row.
    pub fn word(&self) -> Option<u64>
        ensures { result ≡ word_of self.now.head }
    {
        match self.head {
            Some(row) => Some(row.word),
            None => None,
        }
    }

    /// Takes the next row if it has this word, and returns its count; otherwise 0.
    ///
    /// # Errors
    /// The fault after that row.
    pub fn take(&mut self, word: u64) -> Result<u64, R::Fault>
        ensures count { IfOk result (λ count. count ≡ count_at word self.old.head) }
        ensures rises { BeginsAt word self.old.head → OnOk result (BeginsAt (word + 1) self.new.head) }
        ensures taken { (rows : List Row) → HasTaken R.gave R.gave_all self.old.reading self.old.head rows
            → IfOk result (λ count. (after : List Row) × TakesRow rows after word count
            × HasTaken R.gave R.gave_all self.new.reading self.new.head after) }
        ensures fault { (rows : List Row) → HasTaken R.gave R.gave_all self.old.reading self.old.head rows
            → IfErr result (λ fault. (row : Row) × R.fails self.new.reading (rows ++ row ∷ []) fault) }
        ensures same { R.whence self.new.reading ≡ R.whence self.old.reading }
    {
        let Some(row) = self.head else {
            return Ok(0);
        };
        if row.word != word {
            return Ok(0);
        }
        self.head = self.reading.next()?;
        Ok(row.count)
    }
}

// The least word of the next rows, if a row is left.
pub(crate) fn least_word<R: GivesRows + Drop>(aheads: &[Ahead<R>]) -> Option<u64>
    ensures { result ≡ least_from None (heads_of aheads.now) }
{
    let mut least = None;
    'tables: for ahead in aheads {
        least = lesser_word(least, ahead.word());
    }
    least
}

// The lesser of two words, if there are two.
fn lesser_word(word: Option<u64>, other: Option<u64>) -> Option<u64>
    ensures { result ≡ lesser word other }
{
    match (word, other) {
        (None, other) => other,
        (Some(word), None) => Some(word),
        (Some(word), Some(other)) => Some(word.min(other)),
    }
}

// Takes the rows of this word from all tables, and puts their counts into `counts`, in the order of the tables: 0 for a
// table that lacks it.
//
// The fault is that of the first table that has one.
pub(crate) fn take_word<R: GivesRows + Drop>(
    aheads: &mut [Ahead<R>],
    word: u64,
    counts: &mut [u64],
) -> Result<(), R::Fault>
    requires { length counts.old ≡ length aheads.old }
    ensures long { length aheads.new ≡ length aheads.old }
    ensures alike { length counts.new ≡ length counts.old }
    ensures counts { OnOk result (counts.new ≡ map (count_at word) (heads_of aheads.old)) }
    ensures rise { BeginAt word (heads_of aheads.old) → OnOk result (BeginAt (word + 1) (heads_of aheads.new)) }
    ensures taken { (tables : List (List Row)) → HaveTaken R.gave R.gave_all aheads.old tables
        → OnOk result ((after : List (List Row)) × TakeRows tables after word counts.new
        × HaveTaken R.gave R.gave_all aheads.new after) }
    ensures fault { (tables : List (List Row)) → HaveTaken R.gave R.gave_all aheads.old tables
        → IfErr result (FailsAt R.fails aheads.new tables) }
    ensures same { whences_of R.whence aheads.new ≡ whences_of R.whence aheads.old }
{
    'tables: for i in 0..aheads.len() {
        counts[i] = aheads[i].take(word)?;
    }
    Ok(())
}
