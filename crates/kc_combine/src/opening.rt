//! A table text whose header and first row were read.
ghost use Rattle.std.specs.Prelude.{◌^◌, ◌<◌, IfSome};
ghost use Rattle.std.proofs.Props.{props};
ghost use Rattle.kc_combine.specs.Whences.{low_of};

use crate::begun::Begun;
use kc_report::TableReading;
use kc_tally::Row;

/// A table text whose header and first row were read. The caller has its source.
///
/// ```ignore
/// let opening = Opening::of(alloc, &mut source, limit)?;
/// let mut ahead = opening.with_source(source, limit, 1);
/// ```
#[derive(Drop)]
pub struct Opening {
    /// The reader of the text.
    pub reading: TableReading,
    /// The view of the source before the header.
    pub begun: Begun,
    /// The first row, or none if the table has no rows.
    pub head: Option<Row>,
    // its word is below those to come, below 2^62, and has the length of the words of the table
    ghost behind: { IfSome head (λ row. row.word < low_of reading.read.last) } by { Prim.hlevel props },
    ghost small: { IfSome head (λ row. row.word < 2 ^ 62) } by { Prim.hlevel props },
    ghost fits: { IfSome head (λ row. row.word < 4 ^ reading.read.k) } by { Prim.hlevel props },
}
