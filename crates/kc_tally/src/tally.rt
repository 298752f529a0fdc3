//! A tally: the words that occur, in ascending order, each with its count.
ghost use Rattle.std.specs.Prelude.{◌≡◌, ◌+◌, ◌≤◌, ◌^◌, All, IfOk, length};
ghost use Rattle.std.specs.List.{flat_map};
ghost use Rattle.kc_tally.specs.Tally.{AreRows, count_of, total_of};
ghost use Rattle.kc_tally.specs.Histogram.{last_bin, bin_count, bins_of, counts_of};
ghost use Rattle.kc_tally.specs.Sum.{IsSumOf};

use crate::histogram::Histogram;
use crate::packed_rows::{PackedRows, packed_parts};
use crate::row::Row;
use crate::rows::Rows;
use crate::sums::summed_rows;
use kc_kmer::K;
use std::alloc::{AllocError, Global};
use std::marker::Model;

/// The tally of some reads: the words that occur in them, in ascending order, each with its count, and what follows
/// from them: the histogram and the total of the counts.
#[derive(Drop)]
pub struct Tally {
    k: K,
    both: bool,
    // the rows, part after part: no part is empty
    parts: Vec<PackedRows>,
    histogram: Histogram,
    total: u64,
}

impl Model for Tally {
    ghost use Rattle.kc_tally.specs.Tally.{TallySeen};

    ghost Value = { TallySeen };

    ghost use Rattle.std.specs.Prelude.{◌≡◌, ◌≤◌, All, length};
    ghost use Rattle.std.specs.List.{flat_map};
    ghost use Rattle.kc_tally.specs.Tally.{AreRows, total_of};
    ghost use Rattle.kc_tally.specs.Histogram.{bins_of, counts_of};

    ghost view = { λ t. record { k = t.k; both = t.both; rows = flat_map (λ part. part) t.parts.items } };

    ghost invariant = { λ t. AreRows t.k t.both (flat_map (λ part. part) t.parts.items)
        × (t.histogram ≡ bins_of (counts_of (flat_map (λ part. part) t.parts.items)))
        × (t.total ≡ total_of (flat_map (λ part. part) t.parts.items))
        × All (λ part. 1 ≤ length part) t.parts.items };
}

impl Tally {
    /// The tally of these rows. Condition: their words ascend, each word is below 4^k and, if both strands count, its
    /// own canonical form, each count is at least 1, and the counts add up to at most 2^62. The rows take half the
    /// memory here, or little more if counts are large, and the given ones are freed step by step.
    pub fn of_rows(alloc: Global, k: K, both: bool, rows: Vec<Row>) -> Result<Tally, AllocError>
        requires { AreRows k both rows.items }
        ensures { IfOk result (λ tally. tally ≡ record { k = k; both = both; rows = rows.items }) }
    {
        // words of k bases are below 2^62
        let _bases = k.get();
        let parts = packed_parts(alloc, rows)?;
        Tally::of_packed(alloc, k, both, parts)
    }

    /// The tally of the rows of all packed parts, part after part; a part may be empty. No row is copied. Condition:
    /// all rows together are such as `of_rows` accepts.
    pub fn of_packed(
        alloc: Global,
        k: K,
        both: bool,
        parts: Vec<PackedRows>,
    ) -> Result<Tally, AllocError>
        requires { AreRows k both (flat_map (λ part. part) parts.items) }
        ensures { IfOk result (λ tally. tally
            ≡ record { k = k; both = both; rows = flat_map (λ part. part) parts.items }) }
    {
        let (histogram, total) = Histogram::of_packed(alloc, &parts)?;
        Ok(Tally {
            k,
            both,
            parts: without_empty(parts),
            histogram,
            total,
        })
    }

    /// The sum of two tallies: each word that has a row in either, with the sum of its counts. Conditions: the words
    /// have the same length, both tallies count both strands or neither does, and the totals add up to at most 2^62.
    pub fn sum(alloc: Global, first: &Tally, second: &Tally) -> Result<Tally, AllocError>
        requires k { first.now.k ≡ second.now.k }
        requires both { first.now.both ≡ second.now.both }
        requires small { total_of first.now.rows + total_of second.now.rows ≤ 2 ^ 62 }
        ensures { IfOk result (IsSumOf first.now second.now) }
    {
        summed_rows(alloc, first, second)?.into_tally(first.k, first.both)
    }

    /// The length of the words.
    pub fn k(&self) -> K
        ensures { result ≡ self.now.k }
    {
        self.k
    }

    /// Whether both strands were counted.
    pub fn both(&self) -> bool
        ensures { result ≡ self.now.both }
    {
        self.both
    }

    /// The rows, one after another.
    pub fn rows(&self) -> Rows<'_>
        ensures rows { result ≡ self.now.rows }
        ensures lawful { AreRows self.now.k self.now.both self.now.rows }
    {
        Rows::new(&self.parts)
    }

    /// How many rows there are.
    pub fn row_count(&self) -> u64
        ensures value { result ≡ length self.now.rows }
        ensures lawful { AreRows self.now.k self.now.both self.now.rows }
    {
        row_count(&self.parts)
    }

    /// The count of a word, 0 if it has no row.
    pub fn count_of(&self, word: u64) -> u64
        ensures { result ≡ count_of self.now.rows word }
    {
        // the first part that does not end before the word
        let index = self.parts.partition_point(|part| part.last_word() < word);
        if index < self.parts.len() {
            self.parts[index].count_of(word)
        } else {
            0
        }
    }

    /// How many words have which count.
    pub fn histogram(&self) -> &Histogram
        ensures { result.now ≡ bins_of (counts_of self.now.rows) }
    {
        &self.histogram
    }

    /// How many words have a count in the bin: a count from 1 to 10,000 has a bin of its own, and all greater ones are
    /// in bin 10,001. Condition: the bin is 1 to 10,001.
    pub fn bin(&self, bin: u64) -> u64
        requires some { 1 ≤ bin }
        requires within { bin ≤ last_bin }
        ensures { result ≡ bin_count self.now.rows bin }
    {
        self.histogram.bin(bin)
    }

    /// The sum of the counts.
    pub fn total(&self) -> u64
        ensures value { result ≡ total_of self.now.rows }
        ensures most { result ≤ 2 ^ 62 }
    {
        self.total
    }
}

// The parts that have rows.
fn without_empty(mut parts: Vec<PackedRows>) -> Vec<PackedRows>
    ensures same { flat_map (λ part. part) result.items ≡ flat_map (λ part. part) parts.items }
    ensures some { All (λ part. 1 ≤ length part) result.items }
{
    parts.retain(|part| part.len() > 0);
    parts
}

// How many rows the parts have.
pub(crate) fn row_count(parts: &[PackedRows]) -> u64
    requires { length (flat_map (λ part. part) parts.now) ≤ 2 ^ 62 }
    ensures { result ≡ length (flat_map (λ part. part) parts.now) }
{
    let mut count = 0;
    for part in parts {
        count += part.len() as u64;
    }
    count
}
