//! What gives the rows of a table, one after another.
ghost use Rattle.std.specs.Prelude.{◌≡◌, ◌+◌, ◌^◌, ◌<◌, ◌≤◌, ◌++◌, ◌∷◌, [], List, ℕ, IfOk, IfErr, IfSome, IfNone};
ghost use Rattle.kc_tally.specs.declared.row.Row.{Row};

use kc_tally::Row;

/// What gives the rows of a table, one after another, in the order of their words.
pub trait GivesRows {
    /// Why no row can be given.
    type Fault;

    ghost use Rattle.std.specs.Prelude.{◌≡◌, ◌+◌, ◌^◌, ◌<◌, ◌≤◌, List, ℕ};
    ghost use Rattle.kc_tally.specs.declared.row.Row.{Row};
    ghost use Rattle.kc_tally.specs.Tally.{AreOrderedRows};
    ghost use Rattle.kc_combine.specs.Whences.{Whence};

    // these rows were given so far
    ghost gave: { Self → List Row → Type 0 };

    // they are all, and no more come
    ghost gave_all: { Self → List Row → Type 0 };

    // after these rows this fault came
    ghost fails: { Self → List Row → Self.Fault → Type 0 };

    // no word below this comes next
    ghost low: { Self → ℕ };

    // what stays the same while rows are given
    ghost whence: { Self → Whence };

    /// The next row, or none if all were given.
    ///
    /// # Errors
    /// The fault of the table.
    fn next(&mut self) -> Result<Option<Row>, Self::Fault>
        ensures row { (rows : List Row) → gave self.old rows
            → IfOk result (λ next. IfSome next (λ row. gave self.new (rows ++ row ∷ []))) }
        ensures end { (rows : List Row) → gave self.old rows
            → IfOk result (λ next. IfNone next (gave_all self.new rows)) }
        ensures rises { IfOk result (λ next. IfSome next (λ row. (low self.old ≤ row.word) × (row.word < 2 ^ 62)
            × (low self.new ≡ row.word + 1))) }
        ensures word { IfOk result (λ next. IfSome next (λ row. row.word < 4 ^ (whence self.old).k)) }
        ensures count { IfOk result (λ next. IfSome next (λ row. (1 ≤ row.count) × (row.count ≤ 2 ^ 62))) }
        ensures fault { (rows : List Row) → gave self.old rows → IfErr result (fails self.new rows) }
        ensures same { whence self.new ≡ whence self.old }
        ensures forward { low self.old ≤ low self.new };

    // the rows that were given have words of this length, in ascending order
    ghost ordered: { (reading : Self) (rows : List Row) → gave reading rows
        → AreOrderedRows (4 ^ (whence reading).k) rows };

    // so do all of them
    ghost whole: { (reading : Self) (rows : List Row) → gave_all reading rows
        → AreOrderedRows (4 ^ (whence reading).k) rows };
}
