//! A table that is read row by row, with its next row already read.
ghost use Rattle.std.specs.Prelude.{◌^◌, ◌<◌, IfSome};
ghost use Rattle.std.proofs.Props.{props};

use crate::gives_rows::GivesRows;
use kc_tally::Row;

/// A table, and its next row.
#[derive(Drop)]
pub struct Ahead<R: GivesRows + Drop> {
    /// What gives its rows.
    pub reading: R,
    /// The next row, or none if all were taken.
    pub head: Option<Row>,
    // words ascend, and are below 2^62 and of the length of the table's words
    ghost behind: { IfSome head (λ row. row.word < R.low reading) } by { Prim.hlevel props },
    ghost small: { IfSome head (λ row. row.word < 2 ^ 62) } by { Prim.hlevel props },
    ghost fits: { IfSome head (λ row. row.word < 4 ^ (R.whence reading).k) } by { Prim.hlevel props },
}
