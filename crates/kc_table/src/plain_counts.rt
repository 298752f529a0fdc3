//! The finite map as a `BTreeMap`, for comparison with the hash table.
ghost use Rattle.std.specs.Prelude.{◌≡◌, ◌+◌, ◌<◌, ◌≤◌, ◌^◌, IfOk, filter, fold, max, nat_lt};
ghost use Rattle.std.specs.Ordering.{nat_cmp};
ghost use Rattle.std.specs.BTreeMap.{IsOrdered, values};
ghost use Rattle.std.specs.FinMap as map;
ghost use Rattle.kc_table.specs.Counts.{IsStored, count_at, added};
ghost use Rattle.kc_table.specs.PlainCounts.{Plain};
ghost use Rattle.kc_table.specs.Sizes.{most_bits, most_parts, count_bits};

use crate::counts::Counts;
use crate::table_fault::TableFault;
use std::alloc::{AllocError, Global};
use std::collections::BTreeMap;
use std::marker::Model;

/// The map as a `BTreeMap`, which is never full.
#[derive(Drop)]
pub struct PlainCounts {
    bits: u32,
    map: BTreeMap<u64, u64>,
}

impl Model for PlainCounts {
    ghost use Rattle.std.specs.Prelude.{◌<◌, ◌^◌, ◌≤◌, ℕ};
    ghost use Rattle.kc_table.specs.Counts.{IsWithin};
    ghost use Rattle.kc_table.specs.PlainCounts.{Plain, plain_code};
    ghost use Rattle.kc_table.specs.Sizes.{most_bits};
    ghost use Rattle.std.specs.FinMap.{from_entries};

    ghost Value = { Plain };

    ghost coded = { plain_code };

    ghost view = { λ p. record { bits = p.bits; counts = from_entries p.map.entries } };

    ghost invariant = { λ p. (p.bits ≤ most_bits) × IsWithin p.bits (from_entries p.map.entries) };
}

impl PlainCounts {
    /// An empty map for keys of this number of bits.
    pub fn new(alloc: Global, bits: u32) -> Self
        requires { bits ≤ most_bits }
        ensures { result ≡ record { bits = bits; counts = map.empty } }
    {
        PlainCounts {
            bits,
            map: BTreeMap::new(alloc),
        }
    }

    // Whether the key is stored.
    pub(crate) fn is_stored(&self, key: u64) -> bool
        ensures { result ≡ map.contains_key self.now.counts key }
    {
        self.map.contains_key(&key)
    }

    // Adds one to the count of a stored key and returns the new count.
    pub(crate) fn increment(&mut self, key: u64) -> u64
        requires stored { IsStored self.old.counts key }
        requires room { count_at self.old.counts key < 2 ^ count_bits }
        ensures told { result ≡ count_at self.old.counts key + 1 }
        ensures counted { self.new.counts ≡ added self.old.counts key }
        ensures same_bits { self.new.bits ≡ self.old.bits }
    {
        match self.map.get_mut(&key) {
            Some(count) => {
                *count += 1;
                *count
            }
            None => unreachable!(),
        }
    }
}

impl Counts for PlainCounts {
    ghost bits = { λ p. p.bits };

    ghost counts = { λ p. p.counts };

    ghost may_be_full = { λ _ _ _. ⊥ };

    ghost slots = { λ _. 0 };

    ghost part = { λ _ _. 0 };

    fn key_bits(&self) -> u32 {
        self.bits
    }

    fn ready(&mut self, key: u64) -> Result<(), TableFault> {
        if self.map.contains_key(&key) {
            return Ok(());
        }
        let Ok(_) = self.map.insert(key, 0) else {
            return Err(TableFault::Memory);
        };
        Ok(())
    }

    fn count(&mut self, key: u64) -> Result<u64, TableFault> {
        self.ready(key)?;
        Ok(self.increment(key))
    }

    fn uncount(&mut self, key: u64) {
        match self.map.get_mut(&key) {
            Some(count) => *count -= 1,
            None => unreachable!(),
        }
    }

    /// The map is no array.
    fn slots(&self) -> u64 {
        0
    }

    fn add(&mut self, key: u64) {
        self.increment(key);
    }

    fn get(&self, key: u64) -> u64 {
        self.map.get(&key).copied().unwrap_or(0)
    }

    /// The map is one part, whatever the key.
    fn part_of(&self, _key: u64) -> u32 {
        0
    }

    fn rows(&self, alloc: Global) -> Result<Vec<(u64, u64)>, AllocError> {
        counted_entries(alloc, &self.map)
    }

    fn greatest(&self) -> u64 {
        greatest_value(&self.map)
    }
}

// The entries with a count of at least 1, in the order of the keys.
fn counted_entries(alloc: Global, map: &BTreeMap<u64, u64>) -> Result<Vec<(u64, u64)>, AllocError>
    ensures entries { IfOk result (λ v. v.items ≡ filter (λ e. nat_lt 0 e.1) map.now.entries) }
    ensures ordered { IsOrdered nat_cmp map.now }
{
    map.iter()
        .filter(|(_, count)| **count > 0)
        .map(|(key, count)| (*key, *count))
        .collect(alloc)
}

// The greatest of the values, 0 if there is none.
fn greatest_value(map: &BTreeMap<u64, u64>) -> u64
    ensures greatest { result ≡ fold max 0 (values map.now) }
    ensures ordered { IsOrdered nat_cmp map.now }
{
    let mut greatest = 0;
    for value in map.values() {
        greatest = greatest.max(*value);
    }
    // for the proof: facts about the order of the keys
    let _count = map.len();
    greatest
}
