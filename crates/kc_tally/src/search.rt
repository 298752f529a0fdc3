//! The search for a word in ascending rows.
ghost use Rattle.std.specs.Prelude.{◌≡◌, map};
ghost use Rattle.std.specs.List.Sorted.{IsStrictlyIncreasing};
ghost use Rattle.kc_tally.specs.Tally.{count_of};

use crate::row::Row;

// The count of a word in ascending rows, 0 if it has no row.
pub(crate) fn count_in(rows: &[Row], word: u64) -> u64
    requires { IsStrictlyIncreasing (map (λ row. row.word) rows.now) }
    ensures { result ≡ count_of rows.now word }
{
    match rows.binary_search_by_key(&word, |row| row.word) {
        Ok(index) => rows[index].count,
        Err(_) => 0,
    }
}
