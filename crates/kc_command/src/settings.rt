//! What the options of a count ask for.
ghost use Rattle.std.specs.Prelude.{◌≡◌, ◌≤◌, ◌^◌};
ghost use Rattle.kc_command.specs.Settings.{AreStripes, defaults, lowered, rule_of};

use crate::option_table::{BATCH, HIGH, SIZE, STRIPES, THREADS};
use kc_kmer::{K, Rule};
use kc_report::Dump;
use std::marker::Model;

/// The least quality byte, which every quality passes.
pub(crate) const FLOOR: u8 = b'!';

/// Which report a count writes.
#[derive(Clone, Copy, Debug, PartialEq, Eq)]
pub enum Print {
    /// The table text, from which the tally can be read again.
    Table,
    /// The words with their counts.
    Dump,
    /// How many words have which count.
    Histo,
    /// Four numbers about all words.
    Stats,
}

/// How to count, and what to write.
#[derive(Clone, Copy, Debug, PartialEq, Eq)]
pub struct Options {
    k: K,
    size: u64,
    workers: u32,
    both: bool,
    floor: u8,
    stripes: u32,
    batch: u64,
    print: Print,
    dump: Dump,
    high: u64,
}

impl Model for Options {
    ghost use Rattle.kc_command.specs.Settings.{Settings, IsWithinLimits};

    ghost Value = { Settings };

    ghost view = { λ o. record {
      k = o.k;
      size = o.size;
      workers = o.workers;
      both = o.both;
      floor = o.floor;
      stripes = o.stripes;
      batch = o.batch;
      print = o.print;
      dump = o.dump;
      high = o.high;
    } };

    ghost invariant = { λ o. IsWithinLimits (record {
      k = o.k;
      size = o.size;
      workers = o.workers;
      both = o.both;
      floor = o.floor;
      stripes = o.stripes;
      batch = o.batch;
      print = o.print;
      dump = o.dump;
      high = o.high;
    }) };

    ghost inverse = { λ s. record {
      k = s.k;
      size = s.size;
      workers = s.workers;
      both = s.both;
      floor = s.floor;
      stripes = s.stripes;
      batch = s.batch;
      print = s.print;
      dump = s.dump;
      high = s.high;
    } };
}

impl Options {
    /// Counts the words of length `k` on one strand, of bases of every quality, with one thread, and writes their
    /// table. The hash tables begin with 1,000,000 slots in 16 stripes, or in as many as there are words if there are
    /// fewer. A batch has 65,536 positions. A dump would print all rows in lines, a histogram would go up to 10,000.
    pub fn new(k: K) -> Options
        ensures { result ≡ defaults k }
    {
        Options {
            k,
            size: SIZE.default,
            workers: THREADS.default as u32,
            both: false,
            floor: FLOOR,
            stripes: lowered_stripes(k, STRIPES.default as u32),
            batch: BATCH.default,
            print: Print::Table,
            dump: Dump::in_lines(),
            high: HIGH.default,
        }
    }

    /// These settings, with `size` slots at the start of the hash tables, over all stripes. Condition: it is 1 to 2^40.
    pub fn with_size(self, size: u64) -> Options
        requires low { 1 ≤ size }
        requires high { size ≤ 2 ^ 40 }
        ensures { result ≡ record self { size = size } }
    {
        let options = self;
        Options { size, ..options }
    }

    /// These settings, for a count by `workers` threads. Condition: there are 1 to 64.
    pub fn with_workers(self, workers: u32) -> Options
        requires low { 1 ≤ workers }
        requires high { workers ≤ 64 }
        ensures { result ≡ record self { workers = workers } }
    {
        let options = self;
        Options { workers, ..options }
    }

    /// These settings; if `both`, each word counts under its canonical form, on both strands.
    pub fn with_both(self, both: bool) -> Options
        ensures { result ≡ record self { both = both } }
    {
        let options = self;
        Options { both, ..options }
    }

    /// These settings, for words of bases whose quality byte is at least `floor`. Condition: it is 33 to 126.
    pub fn with_floor(self, floor: u8) -> Options
        requires low { 33 ≤ floor }
        requires high { floor ≤ 126 }
        ensures { result ≡ record self { floor = floor } }
    {
        let options = self;
        Options { floor, ..options }
    }

    /// These settings, with so many stripes, or with as many as there are words if there are fewer. Condition:
    /// `stripes` is 1, 2, 4, 8, 16, 32 or 64.
    pub fn with_stripes(self, stripes: u32) -> Options
        requires { AreStripes stripes }
        ensures { result ≡ record self { stripes = lowered self.k stripes } }
    {
        let options = self;
        Options {
            stripes: lowered_stripes(options.k, stripes),
            ..options
        }
    }

    /// These settings, with batches of `batch` positions. Condition: it is 1 to 2^36.
    pub fn with_batch(self, batch: u64) -> Options
        requires low { 1 ≤ batch }
        requires high { batch ≤ 2 ^ 36 }
        ensures { result ≡ record self { batch = batch } }
    {
        let options = self;
        Options { batch, ..options }
    }

    /// These settings, with this report.
    pub fn with_print(self, print: Print) -> Options
        ensures { result ≡ record self { print = print } }
    {
        let options = self;
        Options { print, ..options }
    }

    /// These settings, with this form of a dump, if one is printed. Condition: its bounds are at most 2^62.
    pub fn with_dump(self, dump: Dump) -> Options
        requires lower { dump.lower ≤ 2 ^ 62 }
        requires upper { dump.upper ≤ 2 ^ 62 }
        ensures { result ≡ record self { dump = dump } }
    {
        let options = self;
        Options { dump, ..options }
    }

    /// These settings; a histogram, if one is printed, has its last line but one for `high`. Condition: it is 1 to
    /// 10,000,000.
    pub fn with_high(self, high: u64) -> Options
        requires low { 1 ≤ high }
        requires most { high ≤ 10000000 }
        ensures { result ≡ record self { high = high } }
    {
        let options = self;
        Options { high, ..options }
    }

    /// The rule by which words count.
    pub fn rule(&self) -> Rule
        ensures { result ≡ rule_of self.now }
    {
        Rule::new(self.k, self.both, self.floor)
    }

    /// The number of slots with which the hash tables begin, over all stripes.
    pub fn size(&self) -> u64
        ensures value { result ≡ self.now.size }
        ensures some { 1 ≤ self.now.size }
        ensures at_most { self.now.size ≤ 2 ^ 40 }
    {
        self.size
    }

    /// The number of threads.
    pub fn workers(&self) -> u32
        ensures value { result ≡ self.now.workers }
        ensures some { 1 ≤ self.now.workers }
        ensures at_most { self.now.workers ≤ 64 }
    {
        self.workers
    }

    /// The number of stripes, at most as many as there are words.
    pub fn stripes(&self) -> u32
        ensures value { result ≡ self.now.stripes }
        ensures allowed { AreStripes self.now.stripes }
        ensures few { self.now.stripes ≤ 4 ^ self.now.k }
    {
        self.stripes
    }

    /// The positions of a batch.
    pub fn batch(&self) -> u64
        ensures value { result ≡ self.now.batch }
        ensures some { 1 ≤ self.now.batch }
        ensures at_most { self.now.batch ≤ 2 ^ 36 }
    {
        self.batch
    }

    /// The report that is written.
    pub fn print(&self) -> Print
        ensures { result ≡ self.now.print }
    {
        self.print
    }

    /// The form of the dump, if one is written.
    pub fn dump(&self) -> Dump
        ensures value { result ≡ self.now.dump }
        ensures lower { self.now.dump.lower ≤ 2 ^ 62 }
        ensures upper { self.now.dump.upper ≤ 2 ^ 62 }
    {
        self.dump
    }

    /// The greatest count with a line of its own in the histogram, if one is written.
    pub fn high(&self) -> u64
        ensures value { result ≡ self.now.high }
        ensures some { 1 ≤ self.now.high }
        ensures at_most { self.now.high ≤ 10000000 }
    {
        self.high
    }
}

// The number of stripes, or the number of words if that is lower.
fn lowered_stripes(k: K, stripes: u32) -> u32
    ensures { result ≡ lowered k stripes }
{
    let words = 1u64 << (2 * k.get());
    u64::from(stripes).min(words) as u32
}
