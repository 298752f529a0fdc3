//! A map with a limited number of keys, for tests.
ghost use Rattle.std.specs.Prelude.{◌≡◌, ℕ, ◌+◌, ◌<◌, ◌≤◌, ◌^◌, ◌↔◌, IsOk, IfOk, OnOk, OnErr};
ghost use Rattle.std.specs.FinMap as map;
ghost use Rattle.kc_table.specs.Counts.{KeyCounts, IsStored, count_at, readied, added};
ghost use Rattle.kc_table.specs.LimitedCounts.{Limited, HasReachedLimit, IsAtLimit};
ghost use Rattle.kc_table.specs.Sizes.{most_bits, most_parts, count_bits};

use crate::counts::Counts;
use crate::plain_counts::PlainCounts;
use crate::table_fault::TableFault;
use std::alloc::{AllocError, Global};
use std::marker::Model;

/// A `PlainCounts` for tests: if it has `limit` keys, it returns `refusal` for a new one.
#[derive(Drop)]
pub struct LimitedCounts {
    plain: PlainCounts,
    stored: u64,
    limit: u64,
    refusal: TableFault,
}

impl Model for LimitedCounts {
    ghost use Rattle.std.specs.Prelude.{◌≡◌, ◌≤◌};
    ghost use Rattle.std.specs.FinMap.{len};
    ghost use Rattle.kc_table.specs.LimitedCounts.{Limited, limited_code};

    ghost Value = { Limited };

    ghost coded = { limited_code };

    ghost view = { λ t. record { bits = t.plain.bits; counts = t.plain.counts; limit = t.limit; refusal = t.refusal } };

    ghost invariant = { λ t. (t.stored ≡ len t.plain.counts) × (t.stored ≤ t.limit) };
}

impl LimitedCounts {
    /// An empty map for keys of this number of bits, and for so many keys.
    pub fn new(alloc: Global, bits: u32, limit: u64, refusal: TableFault) -> Self
        requires { bits ≤ most_bits }
        ensures { result ≡ record { bits = bits; counts = map.empty; limit = limit; refusal = refusal } }
    {
        LimitedCounts {
            plain: PlainCounts::new(alloc, bits),
            stored: 0,
            limit,
            refusal,
        }
    }
}

impl Counts for LimitedCounts {
    ghost bits = { λ t. t.bits };

    ghost counts = { λ t. t.counts };

    ghost may_be_full = { IsAtLimit };

    ghost slots = { λ _. 0 };

    ghost part = { λ _ _. 0 };

    fn key_bits(&self) -> u32 {
        self.plain.key_bits()
    }

    /// Stores the key, as in the trait. If the map has as many keys as it may, a new key is refused.
    fn ready(&mut self, key: u64) -> Result<(), TableFault>
        requires { key < 2 ^ self.old.bits }
        ensures known { IsStored self.old.counts key → IsOk result }
        ensures stored { OnOk result (self.new.counts ≡ readied self.old.counts key) }
        ensures refused { OnErr result (self.new.counts ≡ self.old.counts) }
        ensures full { result ≡ Err TableFault.Full ↔ IsAtLimit self.old self.old.counts key }
        ensures reached { HasReachedLimit self.old self.old.counts key → result ≡ Err self.old.refusal }
        ensures same_bits { self.new.bits ≡ self.old.bits }
        ensures same_limit { self.new.limit ≡ self.old.limit }
        ensures same_refusal { self.new.refusal ≡ self.old.refusal }
        ensures same_limits { (m : KeyCounts) (q : ℕ) → IsAtLimit self.new m q ↔ IsAtLimit self.old m q }
    {
        if self.plain.is_stored(key) {
            return Ok(());
        }
        if self.stored >= self.limit {
            return Err(self.refusal);
        }
        self.plain.ready(key)?;
        self.stored += 1;
        Ok(())
    }

    /// Counts the key, as in the trait. If the map has as many keys as it may, a new key is refused.
    fn count(&mut self, key: u64) -> Result<u64, TableFault>
        requires in_range { key < 2 ^ self.old.bits }
        requires room { count_at self.old.counts key < 2 ^ count_bits }
        ensures known { IsStored self.old.counts key → IsOk result }
        ensures new_count { IfOk result (λ count. count ≡ count_at self.old.counts key + 1) }
        ensures counted { OnOk result (self.new.counts ≡ added self.old.counts key) }
        ensures refused { OnErr result (self.new.counts ≡ self.old.counts) }
        ensures full { result ≡ Err TableFault.Full ↔ IsAtLimit self.old self.old.counts key }
        ensures reached { HasReachedLimit self.old self.old.counts key → result ≡ Err self.old.refusal }
        ensures same_bits { self.new.bits ≡ self.old.bits }
        ensures same_limit { self.new.limit ≡ self.old.limit }
        ensures same_refusal { self.new.refusal ≡ self.old.refusal }
        ensures same_limits { (m : KeyCounts) (q : ℕ) → IsAtLimit self.new m q ↔ IsAtLimit self.old m q }
    {
        self.ready(key)?;
        Ok(self.plain.increment(key))
    }

    fn uncount(&mut self, key: u64) {
        self.plain.uncount(key);
    }

    fn slots(&self) -> u64 {
        self.plain.slots()
    }

    fn add(&mut self, key: u64) {
        self.plain.add(key);
    }

    fn get(&self, key: u64) -> u64 {
        self.plain.get(key)
    }

    fn part_of(&self, key: u64) -> u32 {
        self.plain.part_of(key)
    }

    fn rows(&self, alloc: Global) -> Result<Vec<(u64, u64)>, AllocError> {
        self.plain.rows(alloc)
    }

    fn greatest(&self) -> u64 {
        self.plain.greatest()
    }
}
