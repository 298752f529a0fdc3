//! Histograms: how many words have which count.
ghost use Rattle.std.specs.Prelude.{◌≡◌, ◌+◌, ◌%◌, ◌^◌, ◌<◌, ◌≤◌, ℕ, [], length, All, IfOk};
ghost use Rattle.std.specs.List.{flat_map};
ghost use Rattle.kc_tally.specs.Histogram.{last_bin, bin_of, bins_of, bin_at, counted_in, raised};
ghost use Rattle.kc_tally.specs.Histogram.{joined_bins, counts_of};
ghost use Rattle.kc_tally.specs.Tally.{total_of};

use crate::packed_rows::PackedRows;
use crate::row::Row;
use crate::rows::Rows;
use kc_lemmas::zeros;
use std::alloc::{AllocError, Global};
use std::marker::Model;

// The number of bins, and of the last one.
const LAST_BIN: u64 = 10_001;

/// The sizes of the bins 1 to 10,001. A count from 1 to 10,000 has a bin of its own, and all greater ones share the
/// last.
#[derive(Drop)]
pub struct Histogram {
    bins: Vec<u64>,
}

impl Model for Histogram {
    ghost use Rattle.std.specs.Prelude.{◌≡◌, List, ℕ, length};
    ghost use Rattle.kc_tally.specs.Histogram.{last_bin};

    ghost Value = { List ℕ };

    ghost view = { λ h. h.bins.items };

    ghost invariant = { λ h. length h.bins.items ≡ last_bin };
}

impl Histogram {
    /// The histogram of no words. This takes its memory.
    pub fn new(alloc: Global) -> Result<Histogram, AllocError>
        ensures { IfOk result (λ bins. bins ≡ bins_of []) }
    {
        let bins = zeros(alloc, LAST_BIN as usize)?;
        Ok(Histogram { bins })
    }

    /// The histogram whose bins 1 to 10,001 have these sizes. Condition: there is a size for each.
    pub fn of_sizes(sizes: Vec<u64>) -> Histogram
        requires { length sizes.items ≡ last_bin }
        ensures { result ≡ sizes.items }
    {
        Histogram { bins: sizes }
    }

    /// The histogram of the counts of these rows.
    pub fn of_rows(alloc: Global, rows: &[Row]) -> Result<Histogram, AllocError>
        ensures { IfOk result (λ bins. bins ≡ bins_of (counts_of rows.now)) }
    {
        let mut histogram = Histogram::new(alloc)?;
        histogram.count_all(rows);
        Ok(histogram)
    }

    /// The histogram of the counts of the rows of all packed parts, and the sum of these counts. Conditions: the number
    /// of rows fits, and so does the sum.
    pub(crate) fn of_packed(
        alloc: Global,
        parts: &[PackedRows],
    ) -> Result<(Histogram, u64), AllocError>
        requires rows { length (flat_map (λ part. part) parts.now) < 2 ^ 64 }
        requires total { total_of (flat_map (λ part. part) parts.now) < 2 ^ 64 }
        ensures bins { IfOk result (λ pair. pair.0 ≡ bins_of (counts_of (flat_map (λ part. part) parts.now))) }
        ensures total { IfOk result (λ pair. pair.1 ≡ total_of (flat_map (λ part. part) parts.now)) }
    {
        let mut histogram = Histogram::new(alloc)?;
        let mut total = 0;
        for row in Rows::new(parts) {
            total += row.count;
            histogram.count_in(row.count);
        }
        Ok((histogram, total))
    }

    /// The sizes of the bins, from bin 1 on.
    pub fn sizes(&self) -> &[u64]
        ensures { result.now ≡ self.now }
    {
        &self.bins
    }

    /// How many words have a count in the bin. Condition: the bin is 1 to 10,001.
    pub fn bin(&self, bin: u64) -> u64
        requires some { 1 ≤ bin }
        requires within { bin ≤ last_bin }
        ensures { result ≡ bin_at self.now bin }
    {
        self.bins[(bin - 1) as usize]
    }

    /// One word's count went from `count` to `count + 1`: the word moves from its bin, if it was in one, to the bin of
    /// `count + 1`. Conditions: there is a word in the bin that it leaves, and the size of the other one fits.
    pub fn raise(&mut self, count: u64)
        requires some { 1 ≤ count → 1 ≤ bin_at self.old (bin_of count) }
        requires fits { bin_at self.old (bin_of (count + 1)) + 1 < 2 ^ 64 }
        ensures { self.new ≡ raised self.old count }
    {
        if count >= LAST_BIN {
            // the word stays in the last bin
            return;
        }
        if count > 0 {
            self.bins[count as usize - 1] -= 1;
        }
        self.bins[count as usize] += 1;
    }

    /// Adds the sizes of another histogram, bin by bin. Condition: the sums fit.
    pub fn add(&mut self, other: &Histogram)
        requires { All (λ size. size < 2 ^ 64) (joined_bins self.old other.now) }
        ensures { self.new ≡ joined_bins self.old other.now }
    {
        for i in 0..LAST_BIN as usize {
            self.bins[i] += other.bins[i];
        }
    }

    // Adds the words of these rows, and returns the sum of their counts, which wraps if it does not fit.
    fn count_all(&mut self, rows: &[Row]) -> u64
        requires long { length self.old ≡ last_bin }
        requires fits { All (λ size. size + length rows.now < 2 ^ 64) self.old }
        ensures bins { self.new ≡ joined_bins self.old (bins_of (counts_of rows.now)) }
        ensures total { result ≡ total_of rows.now % 2 ^ 64 }
    {
        let mut total: u64 = 0;
        for row in rows {
            total = total.wrapping_add(row.count);
            self.count_in(row.count);
        }
        total
    }

    // Adds a word with this count to its bin. A word with count 0 has none.
    fn count_in(&mut self, count: u64)
        requires { bin_at self.old (bin_of count) + 1 < 2 ^ 64 }
        ensures { self.new ≡ counted_in self.old count }
    {
        if count > 0 {
            self.bins[count.min(LAST_BIN) as usize - 1] += 1;
        }
    }
}
