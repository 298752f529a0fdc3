//! A table of counts with the histogram and the sum of its counts. Keys are counted one after another, each with a
//! single look at the table. If it refuses one, those before it are taken back.
ghost use Rattle.std.specs.Prelude.{◌≡◌, ℕ, ◌+◌, ◌<◌, ◌≤◌, ◌^◌, ◌==◌, length, take, slice_index, count_by, All};
ghost use Rattle.std.specs.Prelude.{IfErr, IfOk, OnOk, OnErr};
ghost use Rattle.kc_table.specs.Counts.{count_at};
ghost use Rattle.kc_tally.specs.Histogram.{last_bin, bin_at};
ghost use Rattle.kc_booking.specs.Counted.{IsCounted, KeepsLimits, SomeMayBeFull, all_added};

use crate::at_least::AtLeast;
use kc_table::{Counts, TableFault};
use kc_tally::Histogram;
use std::alloc::{AllocError, Global};
use std::marker::Model;

/// A table, how many of its counts are at least so great, and their sum, which is at most 2^62.
#[derive(Drop)]
pub(crate) struct CountedTable<C: Counts> {
    pub(crate) table: C,
    pub(crate) at_least: AtLeast,
    // the sum of the counts
    pub(crate) total: u64,
}

impl<C: Counts> Model for CountedTable<C> {
    ghost use Rattle.kc_booking.specs.AtLeast.{bins_from};
    ghost use Rattle.kc_booking.specs.Counted.{TableSeen, IsTold};

    ghost Value = { TableSeen C };

    ghost view = { λ t. record { table = t.table; bins = bins_from t.at_least; total = t.total } };

    ghost invariant = { λ t. IsTold (C.bits t.table) (C.counts t.table) t.at_least t.total };
}

// The table's fault for a key, and how many keys before it were counted.
#[derive(Drop)]
struct Refusal {
    counted: usize,
    fault: TableFault,
}

impl<C: Counts> CountedTable<C> {
    /// Counts the keys, all or none: the count of each grows by how often it occurs among them. They are counted one
    /// after another. The table's first fault is returned, and then each count is as before.
    pub fn count_all(&mut self, keys: &[u64]) -> Result<(), TableFault>
        requires in_range { All (λ key. key < 2 ^ C.bits self.old.table) keys.now }
        requires room { self.old.total + length keys.now ≤ 2 ^ 62 }
        ensures counts { OnOk result ((q : ℕ) → count_at (C.counts self.new.table) q
            ≡ count_at (C.counts self.old.table) q + count_by (λ key. key == q) keys.now) }
        ensures total { OnOk result (self.new.total ≡ self.old.total + length keys.now) }
        ensures counted { IsCounted (C.bits self.new.table) (C.counts self.new.table) self.new.bins self.new.total }
        ensures same_counts { OnErr result
            ((q : ℕ) → count_at (C.counts self.new.table) q ≡ count_at (C.counts self.old.table) q) }
        ensures same_bins { OnErr result (self.new.bins ≡ self.old.bins) }
        ensures same_total { OnErr result (self.new.total ≡ self.old.total) }
        ensures full { result ≡ Err TableFault.Full
            → SomeMayBeFull (C.may_be_full self.old.table) (C.counts self.old.table) keys.now }
        ensures limits { KeepsLimits C.bits C.may_be_full self.old.table self.new.table }
    {
        // for the proof: facts about the counts before
        let _total = self.total;
        let Err(refusal) = self.count_front(keys) else {
            return Ok(());
        };
        self.take_back(&keys[..refusal.counted]);
        Err(refusal.fault)
    }

    // Counts the keys, one after another, up to the first that the table refuses.
    fn count_front(&mut self, keys: &[u64]) -> Result<(), Refusal>
        requires in_range { All (λ key. key < 2 ^ C.bits self.old.table) keys.now }
        requires room { self.old.total + length keys.now ≤ 2 ^ 62 }
        ensures all { OnOk result (C.counts self.new.table ≡ all_added (C.counts self.old.table) keys.now) }
        ensures total { OnOk result (self.new.total ≡ self.old.total + length keys.now) }
        ensures within { IfErr result (λ refusal. refusal.counted < length keys.now) }
        ensures front { IfErr result (λ refusal.
            C.counts self.new.table ≡ all_added (C.counts self.old.table) (take refusal.counted keys.now)) }
        ensures full { IfErr result (λ refusal. refusal.fault ≡ TableFault.Full
            → C.may_be_full self.old.table (C.counts self.new.table) (slice_index keys.now refusal.counted)) }
        ensures counted { IsCounted (C.bits self.new.table) (C.counts self.new.table) self.new.bins self.new.total }
        ensures limits { KeepsLimits C.bits C.may_be_full self.old.table self.new.table }
    {
        for i in 0..keys.len() {
            match self.table.count(keys[i]) {
                Ok(count) => self.at_least.raise(count),
                Err(fault) => return Err(Refusal { counted: i, fault }),
            }
            self.total += 1;
        }
        Ok(())
    }

    // Decreases the count of each key, as often as it occurs among the keys. It takes no memory. Condition: each was
    // counted that often.
    fn take_back(&mut self, keys: &[u64])
        requires in_range { All (λ key. key < 2 ^ C.bits self.old.table) keys.now }
        requires there { (q : ℕ) → count_by (λ key. key == q) keys.now ≤ count_at (C.counts self.old.table) q }
        ensures counts { (q : ℕ) → count_at (C.counts self.new.table) q + count_by (λ key. key == q) keys.now
            ≡ count_at (C.counts self.old.table) q }
        ensures counted { IsCounted (C.bits self.new.table) (C.counts self.new.table) self.new.bins self.new.total }
        ensures limits { KeepsLimits C.bits C.may_be_full self.old.table self.new.table }
    {
        for key in keys {
            self.at_least.lower(self.table.get(*key));
            self.table.uncount(*key);
            self.total -= 1;
        }
    }

    /// How many keys have a count in the bin. Condition: the bin is 1 to 10,001.
    pub fn bin(&self, bin: u64) -> u64
        requires some { 1 ≤ bin }
        requires within { bin ≤ last_bin }
        ensures { result ≡ bin_at self.now.bins bin }
    {
        self.at_least.bin(bin)
    }

    /// The histogram of the counts.
    pub fn histogram(&self, alloc: Global) -> Result<Histogram, AllocError>
        ensures { IfOk result (λ bins. bins ≡ self.now.bins) }
    {
        self.at_least.histogram(alloc)
    }
}
