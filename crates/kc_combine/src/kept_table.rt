//! A table in memory, which gives its rows.
ghost use Rattle.std.specs.Prelude.{◌≡◌, []};
ghost use Rattle.kc_combine.specs.KeptTables.{HasGiven};

use crate::gives_rows::GivesRows;
use crate::placed_fault::PlacedFault;
use kc_tally::{Row, Rows, Tally};
use std::marker::Model;

/// A table in memory, and the rows of it that are still to come.
///
/// ```ignore
/// let mut table = KeptTable::new(&tally);
/// while let Some(row) = table.next()? {
///     total += row.count;
/// }
/// ```
#[derive(Drop)]
pub struct KeptTable<'a> {
    table: &'a Tally,
    // the rows still to come, and the word of the last one that was given
    rows: Rows<'a>,
    last: Option<u64>,
}

impl<'a> Model for KeptTable<'a> {
    ghost use Rattle.kc_combine.specs.KeptTables.{KeptStand, IsKept};

    ghost Value = { KeptStand };

    ghost view = { λ t. record { table = t.table.now; rest = t.rows; last = t.last } };

    ghost invariant = { λ t. IsKept (record { table = t.table.now; rest = t.rows; last = t.last }) };
}

impl<'a> KeptTable<'a> {
    /// All rows of this table.
    pub fn new(table: &'a Tally) -> KeptTable<'a>
        ensures given { HasGiven result [] }
        ensures table { result.table ≡ table.now }
    {
        KeptTable {
            table,
            rows: table.rows(),
            last: None,
        }
    }
}

impl<'a> GivesRows for KeptTable<'a> {
    type Fault = PlacedFault;

    ghost use Rattle.kc_combine.specs.KeptTables.{HasGiven, HasGivenAll, whence_of_table};
    ghost use Rattle.kc_combine.specs.Whences.{low_of};

    ghost gave = { λ t rows. HasGiven t rows };

    ghost gave_all = { λ t rows. HasGivenAll t rows };

    ghost fails = { λ t rows fault. ⊥ };

    ghost whence = { λ t. whence_of_table t.table };

    ghost low = { λ t. low_of t.last };

    ghost ordered = { λ t rows given. given.ordered };

    ghost whole = { λ t rows all. all.ordered };

    fn next(&mut self) -> Result<Option<Row>, PlacedFault> {
        // for the proof: words of k bases are below 2^62
        let _bases = self.table.k().get();
        let Some(row) = self.rows.next() else {
            return Ok(None);
        };
        self.last = Some(row.word);
        Ok(Some(row))
    }
}
