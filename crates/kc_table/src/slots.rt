//! A table of fixed size, whose slots have a key's remainder, its number of reprobes and its count.
ghost use Rattle.std.specs.Prelude.{◌≡◌, ◌≢◌, ℕ, ◌+◌, ◌-◌, ◌<◌, ◌≤◌, ◌^◌, length, true, false, None};
ghost use Rattle.std.specs.Prelude.{IfOk, IfSome, IfNone, Some};
ghost use Rattle.std.specs.FinMap.{empty, insert, get};
ghost use Rattle.std.specs.Vec.{vec_capacity};
ghost use Rattle.kc_table.specs.Counts.{IsGreatestCount};
ghost use Rattle.kc_table.specs.QuotientTable.{Holds, HasStoredCrowd, MayBeTooSmall};
ghost use Rattle.kc_table.specs.Reprobing.{IsOut, IsReprobing};
ghost use Rattle.kc_table.specs.Sizes.{most_bits, most_log, remainder_bits, reprobe_bits};
ghost use Rattle.kc_table.specs.Slot.{key_in, IsSound, tag_at};

use crate::packed_slots::PackedSlots;
use crate::reprobes::Reprobing;
use crate::sizes::{PLACES, REPROBE_BITS, TAG_STEP};
use crate::table_fault::TableFault;
use crate::tag::Tag;
use kc_lemmas::Steps;
use std::alloc::{AllocError, Global};

/// A table of 2^log slots for keys of so many bits.
#[derive(Drop)]
pub(crate) struct Slots {
    pub bits: u32,
    pub log: u32,
    pub slots: PackedSlots,
    ghost sized: { length slots.items ≡ 2 ^ log },
    ghost shared: { bits + reprobe_bits ≡ log + slots.tag_bits },
    ghost sound: { IsSound bits log (tag_at slots.items) },
}

impl Slots {
    ghost use Rattle.kc_table.specs.Slots.{key_counts, slot_list, slot_tags, counted_entries, HasRoom};

    /// A table of empty slots.
    pub fn empty(alloc: Global, bits: u32, log: u32) -> Result<Slots, AllocError>
        requires few_bits { bits ≤ most_bits }
        requires few_slots { log ≤ most_log }
        requires no_wider { log ≤ bits }
        requires remainder_fits { bits ≤ log + remainder_bits }
        ensures bits { IfOk result (λ t. t.bits ≡ bits) }
        ensures log { IfOk result (λ t. t.log ≡ log) }
        ensures empty { IfOk result (λ t. key_counts t ≡ empty) }
    {
        let slots = PackedSlots::empty(alloc, bits - log + REPROBE_BITS, log)?;
        Ok(Slots { bits, log, slots })
    }

    /// Walks over the key's places up to the key itself or a free one. A slot is never emptied, so the key is not after
    /// a free place.
    #[inline(always)]
    pub fn reprobe(&self, key: u64, steps: &mut Steps) -> Reprobing
        requires { key < 2 ^ self.now.bits }
        ensures walked { IsReprobing self.now.log (slot_tags self.now) key (steps.new.count - steps.old.count) result }
        ensures room { HasRoom self.now result }
    {
        let mask = (1 << self.log) - 1;
        let remainder = key >> self.log;
        let mut place = key as usize & mask;
        for i in 0..PLACES {
            place = (place + i) & mask;
            let wanted = Tag {
                number: remainder * TAG_STEP + (i as u64 + 1),
            };
            // `steps` counts each read of a tag.
            *steps = steps.and_one();
            let tag = self.slots.tag(place);
            if tag.number == wanted.number {
                return Reprobing::Found { place };
            }
            if tag.number == 0 {
                return Reprobing::Free { place, tag: wanted };
            }
        }
        Reprobing::Crowded
    }

    /// The key in a slot: its remainder, and the home from which its number of reprobes leads to the slot.
    #[inline(always)]
    pub fn key_at(&self, index: usize, tag: Tag) -> u64
        requires tag { tag ≡ slot_tags self.now index }
        requires some { tag ≢ 0 }
        ensures key { result ≡ key_in self.now.log index tag }
        ensures in_range { result < 2 ^ self.now.bits }
    {
        let mask = (1 << self.log) - 1;
        let remainder = tag.number / TAG_STEP;
        // A tag has its number of reprobes plus 1.
        let reprobes = (tag.number % TAG_STEP) as usize - 1;
        let turn = reprobes * (reprobes + 1) / 2;
        // The home is `turn` slots before this one, around the start of the table. `mask` is the number of slots minus
        // 1, so going forward by it goes back by one.
        let home = (index + mask * turn) & mask;
        (remainder << self.log) + home as u64
    }

    /// Stores a key that is not stored yet. Returns false, and stores nothing, if all its places are taken.
    #[inline(always)]
    pub fn take(&mut self, key: u64, count: u64) -> bool
        requires in_range { key < 2 ^ self.old.bits }
        requires new { get (key_counts self.old) key ≡ None }
        ensures bits { self.new.bits ≡ self.old.bits }
        ensures log { self.new.log ≡ self.old.log }
        ensures taken { result ≡ true → key_counts self.new ≡ insert (key_counts self.old) key count }
        ensures out { result ≡ false → IsOut self.old.log (slot_tags self.old) key }
    {
        match self.reprobe(key, &mut Steps::zero()) {
            Reprobing::Free { place, tag } => {
                self.slots.put(place, tag, count);
                true
            }
            Reprobing::Crowded => false,
            Reprobing::Found { .. } => unreachable!(),
        }
    }

    /// The same keys and counts in a table of 2^log slots; None if a key has no free place there.
    pub fn to_size(&self, alloc: Global, log: u32) -> Result<Option<Slots>, AllocError>
        requires few_slots { log ≤ most_log }
        requires no_wider { log ≤ self.now.bits }
        requires remainder_fits { self.now.bits ≤ log + remainder_bits }
        ensures bits { IfOk result (λ r. IfSome r (λ t. t.bits ≡ self.now.bits)) }
        ensures log { IfOk result (λ r. IfSome r (λ t. t.log ≡ log)) }
        ensures same { IfOk result (λ r. IfSome r (λ t. key_counts t ≡ key_counts self.now)) }
        ensures narrow { IfOk result (λ r. IfNone r (log < self.now.bits)) }
        ensures crowded { IfOk result (λ r. IfNone r (HasStoredCrowd log (key_counts self.now))) }
    {
        let mut table = Slots::empty(alloc, self.bits, log)?;
        for old_index in 0..1 << self.log {
            let tag = self.slots.tag(old_index);
            if tag.number == 0 {
                continue;
            }
            let key = self.key_at(old_index, tag);
            if !table.take(key, self.slots.count(old_index)) {
                return Ok(None);
            }
        }
        Ok(Some(table))
    }

    /// The smallest larger table, of up to 2^max_log slots, that has room for all keys of this one and for one new key
    /// with its count.
    pub fn to_larger_with(
        &self,
        alloc: Global,
        key: u64,
        count: u64,
        max_log: u32,
    ) -> Result<Slots, TableFault>
        requires in_range { key < 2 ^ self.now.bits }
        requires new { get (key_counts self.now) key ≡ None }
        requires tight { MayBeTooSmall self.now.bits self.now.log (key_counts self.now) key }
        requires may_grow { self.now.log ≤ max_log }
        requires few_slots { max_log ≤ most_log }
        requires no_wider { max_log ≤ self.now.bits }
        ensures bits { IfOk result (λ t. t.bits ≡ self.now.bits) }
        ensures larger { IfOk result (λ t. self.now.log < t.log) }
        ensures log { IfOk result (λ t. t.log ≤ max_log) }
        ensures smallest { IfOk result (λ t. (log : ℕ) → self.now.log ≤ log → log < t.log
            → MayBeTooSmall self.now.bits log (key_counts self.now) key) }
        ensures taken { IfOk result (λ t. key_counts t ≡ insert (key_counts self.now) key count) }
        ensures full { result ≡ Err TableFault.Full → MayBeTooSmall self.now.bits max_log (key_counts self.now) key }
    {
        for log in self.log + 1..max_log + 1 {
            let Ok(resized) = self.to_size(alloc, log) else {
                return Err(TableFault::Memory);
            };
            let Some(mut table) = resized else {
                continue;
            };
            if table.take(key, count) {
                return Ok(table);
            }
        }
        Err(TableFault::Full)
    }

    /// Each key with a count of at least 1, with its count. The room for them is asked for once.
    pub fn entries(&self, alloc: Global) -> Result<Vec<(u64, u64)>, AllocError>
        ensures entries { IfOk result (λ v. v.items ≡ counted_entries self.now) }
        ensures bounded { IfOk result (λ v. vec_capacity v ≤ length (counted_entries self.now)) }
    {
        let mut entries = Vec::with_capacity(alloc, self.entry_count())?;
        for index in 0..1 << self.log {
            let Some(entry) = self.entry(index) else {
                continue;
            };
            entries.push_reserved(entry);
        }
        Ok(entries)
    }

    // How many keys have a count of at least 1. No branch depends on whether a slot is empty, since that can't be
    // predicted.
    fn entry_count(&self) -> usize
        ensures { result ≡ length (counted_entries self.now) }
    {
        let mut counted = 0;
        for index in 0..1 << self.log {
            if self.is_counted(index) {
                counted += 1;
            }
        }
        counted
    }

    // Whether the key in a slot has a count of at least 1.
    #[inline(always)]
    fn is_counted(&self, index: usize) -> bool
        requires { index < 2 ^ self.now.log }
        ensures yes { result ≡ true → (key : ℕ) × (count : ℕ)
            × Holds (slot_list self.now) index key count × (1 ≤ count) }
        ensures no { result ≡ false → (key count : ℕ) → Holds (slot_list self.now) index key count → count ≡ 0 }
    {
        let tag = self.slots.tag(index);
        let has_key = tag.number != 0;
        has_key & (self.slots.count(index) != 0)
    }

    // The key in a slot and its count, if that is at least 1.
    #[inline(always)]
    fn entry(&self, index: usize) -> Option<(u64, u64)>
        requires { index < 2 ^ self.now.log }
        ensures some { IfSome result (λ e. Holds (slot_list self.now) index e.0 e.1 × (1 ≤ e.1)) }
        ensures none { IfNone result ((key count : ℕ) → Holds (slot_list self.now) index key count → count ≡ 0) }
    {
        let tag = self.slots.tag(index);
        if tag.number == 0 {
            return None;
        }
        let count = self.slots.count(index);
        if count == 0 {
            return None;
        }
        Some((self.key_at(index, tag), count))
    }

    /// The greatest count, 0 if there is none.
    pub fn greatest(&self) -> u64
        ensures { IsGreatestCount (key_counts self.now) result }
    {
        let mut greatest: u64 = 0;
        for index in 0..1 << self.log {
            let Some(entry) = self.entry(index) else {
                continue;
            };
            greatest = greatest.max(entry.1);
        }
        greatest
    }
}
