//! How rows are packed into numbers of 64 bits: a row's word in the high bits, and its count in those that are left, if
//! it fits.
ghost use Rattle.std.specs.Prelude.{◌≡◌, ◌+◌, ◌-◌, ◌%◌, ◌^◌, ◌<◌, ◌≤◌, max, if◌then◌else◌};
ghost use Rattle.kc_tally.specs.Packing.{is_large, is_apart, packed_row, word_in, first_count, unpacked};

use crate::row::Row;
use std::marker::Model;

/// What packed rows have in common: the least of their words, and how many low bits of 64 their counts have. The other
/// bits are a row's word minus the least one. So the rows of one part, with words near each other, leave more bits to
/// their counts than the length of the words does.
#[derive(Clone, Copy)]
pub(crate) struct Layout {
    least: u64,
    low: u32,
}

impl Model for Layout {
    ghost use Rattle.std.specs.Prelude.{◌+◌, ◌-◌, ◌^◌, ◌<◌, ◌≤◌};
    ghost use Rattle.kc_tally.specs.Packing.{LayoutSeen};

    ghost Value = { LayoutSeen };

    ghost view = { λ l. record { least = l.least; low = l.low } };

    ghost invariant = { λ l. (l.low < 64) × (l.least + 2 ^ (64 - l.low) ≤ 2 ^ 64) };

    ghost inverse = { λ seen. record { least = seen.least; low = seen.low } };
}

impl Layout {
    /// The layout for words from the least to the greatest one, which leaves all other bits to their counts.
    pub(crate) fn between(least: u64, greatest: u64) -> Layout
        requires order { least ≤ greatest }
        requires small { greatest < 2 ^ 62 }
        ensures least { result.least ≡ least }
        ensures room { greatest < least + 2 ^ (64 - result.low) }
        ensures most { 2 ^ (63 - result.low) ≤ max (greatest - least) 1 }
    {
        let highest = (greatest - least).max(1).ilog2();
        Layout {
            least,
            low: 63 - highest,
        }
    }

    /// The layout for the 2^width words from the least one on. Conditions: the width is 1 to 62, and the words are
    /// below 2^63.
    pub(crate) fn of_width(least: u64, width: u32) -> Layout
        requires some { 1 ≤ width }
        requires most { width ≤ 62 }
        requires small { least + 2 ^ width ≤ 2 ^ 63 }
        ensures least { result.least ≡ least }
        ensures low { result.low ≡ 64 - width }
    {
        Layout {
            least,
            low: 64 - width,
        }
    }

    /// The row in one number, with 0 for a count that does not fit. Condition: the layout has room for its word.
    #[inline(always)]
    pub(crate) fn pack(self, row: Row) -> u64
        requires least { self.least ≤ row.word }
        requires room { row.word < self.least + 2 ^ (64 - self.low) }
        ensures { result ≡ packed_row self row }
    {
        ((row.word - self.least) << self.low) + self.small_count(row)
    }

    // The row's count if it fits, otherwise 0.
    #[inline(always)]
    fn small_count(self, row: Row) -> u64
        ensures value { result ≡ (if is_large self row then 0 else row.count) }
        ensures fits { result < 2 ^ self.low }
    {
        if self.is_large(row) { 0 } else { row.count }
    }

    /// Whether the row's count does not fit.
    #[inline(always)]
    pub(crate) fn is_large(self, row: Row) -> bool
        ensures { result ≡ is_large self row }
    {
        row.count >= 1 << self.low
    }

    /// The word of a packed row.
    #[inline(always)]
    pub(crate) fn word(self, packed: u64) -> u64
        ensures { result ≡ word_in self packed }
    {
        self.least + (packed >> self.low)
    }

    /// The count of a packed row, 0 if it does not fit.
    #[inline(always)]
    pub(crate) fn count(self, packed: u64) -> u64
        ensures { result ≡ packed % 2 ^ self.low }
    {
        packed & ((1 << self.low) - 1)
    }

    /// Whether the count of a packed row does not fit, so it is in the list of large ones.
    #[inline(always)]
    pub(crate) fn is_apart(self, packed: u64) -> bool
        ensures { result ≡ is_apart self packed }
    {
        self.count(packed) == 0
    }

    /// The row that a packed number represents. `large` has the large rows from this one on.
    #[inline(always)]
    pub(crate) fn row(self, packed: u64, large: &[Row]) -> Row
        ensures { result ≡ unpacked self packed large.now }
    {
        let (word, count) = (self.word(packed), self.count(packed));
        if count == 0 {
            let count = first_count(large);
            return Row { word, count };
        }
        Row { word, count }
    }
}

// The count of the first of the large rows, 0 if there is none.
#[inline(always)]
fn first_count(large: &[Row]) -> u64
    ensures { result ≡ first_count large.now }
{
    match large.first() {
        Some(row) => row.count,
        None => 0,
    }
}
