//! The parts of a tally, with each row in one number of 64 bits.
ghost use Rattle.std.specs.Prelude.{◌≡◌, ◌+◌, ◌-◌, ◌^◌, ◌<◌, ◌≤◌, All, IfOk, length, map, slice_index};
ghost use Rattle.std.specs.List.{flat_map};
ghost use Rattle.std.specs.List.Sorted.{IsStrictlyIncreasing};
ghost use Rattle.std.specs.Vec.{vec_capacity};
ghost use Rattle.kc_tally.specs.Tally.{count_of};
ghost use Rattle.kc_tally.specs.Searching.{last_word};
ghost use Rattle.kc_tally.specs.Packing.{packed_row, large_rows, ArePacked, IsTight, rows_of};

use crate::layout::Layout;
use crate::part_rows::PartRows;
use crate::row::Row;
use crate::search::count_in;
use std::alloc::{AllocError, Global};
use std::marker::Model;

/// The greatest number of rows of a part. The fewer there are, the nearer are their words, and the more counts fit
/// beside them.
pub(crate) const PART_ROWS: usize = 1 << 16;

/// The rows of one part, each in one number of 64 bits. A row with a count that does not fit is also in a second list,
/// in the order of the rows.
#[derive(Drop)]
pub struct PackedRows {
    layout: Layout,
    packed: Vec<u64>,
    large: Vec<Row>,
}

impl Model for PackedRows {
    ghost use Rattle.std.specs.Prelude.{List};
    ghost use Rattle.kc_tally.specs.Packing.{ArePacked, rows_of};
    ghost use Rattle.kc_tally.specs.declared.row.Row.{Row};

    ghost Value = { List Row };

    ghost view = { λ p. rows_of p.layout p.packed.items p.large.items };

    ghost invariant = { λ p. ArePacked p.layout p.packed.items p.large.items };
}

impl PackedRows {
    /// These rows packed. Conditions: their words are below 2^62, and each count is at least 1.
    pub fn of_rows(alloc: Global, rows: &[Row]) -> Result<PackedRows, AllocError>
        requires words { All (λ row. row.word < 2 ^ 62) rows.now }
        requires present { All (λ row. 1 ≤ row.count) rows.now }
        ensures { IfOk result (λ packed. packed ≡ rows.now) }
    {
        let layout = layout_for(rows);
        let packed = packed_words(alloc, layout, rows)?;
        let large = large_rows(alloc, layout, rows)?;
        Ok(PackedRows {
            layout,
            packed,
            large,
        })
    }

    /// The rows in these numbers, and the large ones among them. Condition: `packed` has rows in this layout, and
    /// `large` those of them with counts that don't fit, in order.
    pub(crate) fn of_words(layout: Layout, packed: Vec<u64>, large: Vec<Row>) -> PackedRows
        requires { ArePacked layout packed.items large.items }
        ensures { result ≡ rows_of layout packed.items large.items }
    {
        PackedRows {
            layout,
            packed,
            large,
        }
    }

    /// How many rows there are.
    pub(crate) fn len(&self) -> usize
        ensures { result ≡ length self.now }
    {
        self.packed.len()
    }

    /// The rows, one after another.
    #[inline(always)]
    pub fn rows(&self) -> PartRows<'_>
        ensures { result ≡ self.now }
    {
        PartRows::new(self.layout, &self.packed, &self.large)
    }

    /// The word of the last row, 0 if there is none.
    pub(crate) fn last_word(&self) -> u64
        ensures { result ≡ last_word self.now }
    {
        match self.packed.last() {
            Some(packed) => self.layout.word(*packed),
            None => 0,
        }
    }

    /// The count of a word, 0 if it has no row. Condition: the words ascend.
    pub(crate) fn count_of(&self, word: u64) -> u64
        requires { IsStrictlyIncreasing (map (λ row. row.word) self.now) }
        ensures { result ≡ count_of self.now word }
    {
        let layout = self.layout;
        match self
            .packed
            .binary_search_by_key(&word, |packed| layout.word(*packed))
        {
            Ok(index) => self.count_at(index, word),
            Err(_) => 0,
        }
    }

    // The count of the word, whose row is the one at the index. Condition: the words ascend.
    fn count_at(&self, index: usize, word: u64) -> u64
        requires within { index < length self.now }
        requires rising { IsStrictlyIncreasing (map (λ row. row.word) self.now) }
        requires here { slice_index (map (λ row. row.word) self.now) index ≡ word }
        ensures { result ≡ count_of self.now word }
    {
        let count = self.layout.count(self.packed[index]);
        if count == 0 {
            return count_in(&self.large, word);
        }
        count
    }
}

/// The rows, packed in parts. They are packed from the last one on, so their memory is freed step by step. Conditions:
/// the words are below 2^62, and each count is at least 1.
pub(crate) fn packed_parts(alloc: Global, mut rows: Vec<Row>) -> Result<Vec<PackedRows>, AllocError>
    requires words { All (λ row. row.word < 2 ^ 62) rows.items }
    requires present { All (λ row. 1 ≤ row.count) rows.items }
    ensures { IfOk result (λ packed. flat_map (λ part. part) packed.items ≡ rows.items) }
{
    let mut packed = Vec::new(alloc);
    'parts: while !rows.is_empty() {
        let at = rows.len().saturating_sub(PART_ROWS);
        packed.push(PackedRows::of_rows(alloc, &rows[at..])?)?;
        rows.truncate(at);
        rows.shrink_to_fit();
    }
    packed.reverse();
    Ok(packed)
}

// The layout for these rows.
fn layout_for(rows: &[Row]) -> Layout
    requires { All (λ row. row.word < 2 ^ 62) rows.now }
    ensures least { All (λ row. result.least ≤ row.word) rows.now }
    ensures room { All (λ row. row.word < result.least + 2 ^ (64 - result.low)) rows.now }
    ensures tight { 1 ≤ length rows.now → IsTight rows.now result }
{
    let mut least = (1u64 << 62) - 1;
    let mut greatest = 0u64;
    for row in rows {
        least = row.word.min(least);
        greatest = row.word.max(greatest);
    }
    Layout::between(least.min(greatest), greatest)
}

// The rows in one number each, with room for these alone.
fn packed_words(alloc: Global, layout: Layout, rows: &[Row]) -> Result<Vec<u64>, AllocError>
    requires least { All (λ row. layout.least ≤ row.word) rows.now }
    requires room { All (λ row. row.word < layout.least + 2 ^ (64 - layout.low)) rows.now }
    ensures all { IfOk result (λ packed. packed.items ≡ map (packed_row layout) rows.now) }
    ensures bounded { IfOk result (λ packed. vec_capacity packed ≤ length rows.now) }
{
    let mut packed = Vec::with_capacity(alloc, rows.len())?;
    for row in rows {
        packed.push_reserved(layout.pack(*row));
    }
    Ok(packed)
}

// The rows with counts that do not fit, with room for these alone.
fn large_rows(alloc: Global, layout: Layout, rows: &[Row]) -> Result<Vec<Row>, AllocError>
    ensures all { IfOk result (λ large. large.items ≡ large_rows layout rows.now) }
    ensures bounded { IfOk result (λ large. vec_capacity large ≤ length (large_rows layout rows.now)) }
{
    let mut large = Vec::with_capacity(alloc, large_count(layout, rows))?;
    for row in rows {
        if layout.is_large(*row) {
            large.push_reserved(*row);
        }
    }
    Ok(large)
}

// How many rows have a count that does not fit.
fn large_count(layout: Layout, rows: &[Row]) -> usize
    ensures { result ≡ length (large_rows layout rows.now) }
{
    let mut count = 0;
    for row in rows {
        if layout.is_large(*row) {
            count += 1;
        }
    }
    count
}
