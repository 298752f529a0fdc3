//! Rows of a tally that come one by one, in the order of their words, and are packed meanwhile.
ghost use Rattle.std.specs.Prelude.{◌≡◌, ◌-◌, ◌^◌, ◌<◌, ◌≤◌, ◌++◌, [], ◌∷◌, IfOk, OnOk, OnErr, length, slice_get};
ghost use Rattle.std.specs.Vec.{vec_capacity};
ghost use Rattle.kc_tally.specs.Tally.{AreRows};

use crate::packed_rows::{PART_ROWS, PackedRows};
use crate::row::Row;
use crate::tally::{Tally, row_count};
use kc_kmer::K;
use std::alloc::{AllocError, Global};
use std::marker::Model;

/// Rows that grow at their end. Their view is the list of them. All but the last ones are packed, so they take half the
/// memory of rows.
#[derive(Drop)]
pub struct GrowingRows {
    alloc: Global,
    packed: Vec<PackedRows>,
    // the rows after the packed ones: at most as many as a part has, and at least one if any row is packed
    rows: Vec<Row>,
}

impl Model for GrowingRows {
    ghost use Rattle.std.specs.Prelude.{List, ◌++◌, ◌≤◌};
    ghost use Rattle.std.specs.List.{flat_map};
    ghost use Rattle.std.specs.Vec.{vec_capacity};
    ghost use Rattle.kc_tally.specs.Packing.{AreGrowing};
    ghost use Rattle.kc_tally.specs.declared.row.Row.{Row};

    ghost Value = { List Row };

    ghost view = { λ g. flat_map (λ part. part) g.packed.items ++ g.rows.items };

    ghost invariant = { λ g. AreGrowing g.packed.items g.rows.items × (vec_capacity g.rows ≤ 65536) };
}

impl GrowingRows {
    /// No rows yet.
    pub fn new(alloc: Global) -> GrowingRows
        ensures { result ≡ [] }
    {
        GrowingRows {
            alloc,
            packed: Vec::new(alloc),
            rows: Vec::new(alloc),
        }
    }

    /// Appends a row to the others. If memory is refused they are unchanged. Conditions: its word is below 2^62, and
    /// its count at least 1.
    pub fn push(&mut self, row: Row) -> Result<(), AllocError>
        requires word { row.word < 2 ^ 62 }
        requires present { 1 ≤ row.count }
        ensures more { OnOk result (self.new ≡ self.old ++ row ∷ []) }
        ensures kept { OnErr result (self.new ≡ self.old) }
    {
        if self.rows.len() < PART_ROWS {
            make_room(&mut self.rows)?;
            self.rows.push_reserved(row);
            return Ok(());
        }
        let mut rows = Vec::with_capacity(self.alloc, PART_ROWS)?;
        let part = PackedRows::of_rows(self.alloc, &self.rows)?;
        self.packed.push(part)?;
        rows.push_reserved(row);
        self.rows = rows;
        Ok(())
    }

    /// The last row.
    #[inline(always)]
    pub fn last(&self) -> Option<Row>
        ensures { result ≡ slice_get self.now (length self.now - 1) }
    {
        match self.rows.last() {
            Some(row) => Some(*row),
            None => None,
        }
    }

    /// How many rows there are. Condition: at most 2^62.
    pub fn len(&self) -> u64
        requires { length self.now ≤ 2 ^ 62 }
        ensures { result ≡ length self.now }
    {
        row_count(&self.packed) + self.rows.len() as u64
    }

    /// The tally of these rows. Condition: they are such as `Tally::of_rows` accepts.
    pub fn into_tally(self, k: K, both: bool) -> Result<Tally, AllocError>
        requires { AreRows k both self }
        ensures { IfOk result (λ tally. tally ≡ record { k = k; both = both; rows = self }) }
    {
        let GrowingRows {
            alloc,
            mut packed,
            rows,
        } = self;
        packed.push(PackedRows::of_rows(alloc, &rows)?)?;
        drop(rows);
        Tally::of_packed(alloc, k, both, packed)
    }
}

// Makes room for one more row, if there is none: for as many again, but for at most as many as a part has.
#[inline(always)]
fn make_room(rows: &mut Vec<Row>) -> Result<(), AllocError>
    requires fewer { length rows.old.items < PART_ROWS }
    requires bounded { vec_capacity rows.old ≤ PART_ROWS }
    ensures unchanged { rows.new.items ≡ rows.old.items }
    ensures room { OnOk result (length rows.new.items < vec_capacity rows.new) }
    ensures bounded { vec_capacity rows.new ≤ PART_ROWS }
{
    let len = rows.len();
    if len < rows.capacity() {
        return Ok(());
    }
    rows.reserve_exact(len.max(4).min(PART_ROWS - len))
}
