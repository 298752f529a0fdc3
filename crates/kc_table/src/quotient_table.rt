//! The hash table of remainders, which grows by doubling.
ghost use Rattle.std.specs.Prelude.{◌≡◌, ℕ, ◌+◌, ◌-◌, ◌<◌, ◌≤◌, ◌^◌, ◌↔◌, min, true};
ghost use Rattle.std.specs.Prelude.{IfOk, IfSome, IfNone, IsSome, IsOk, OnOk, OnErr};
ghost use Rattle.std.specs.FinMap.{empty};
ghost use Rattle.kc_table.specs.Counts.{KeyCounts, IsStored, count_at, readied, added, reduced};
ghost use Rattle.kc_table.specs.QuotientTable.{Table, counts_in, HoldsKey, IsShutOut, IsFoundAfter, IsMissedAfter};
ghost use Rattle.kc_table.specs.QuotientTable.{IsSearchedBy};
ghost use Rattle.kc_table.specs.QuotientTable.{IsCrowded, MayBeTooSmall, MayBeFull};
ghost use Rattle.kc_table.specs.Reprobing.{IsPlaceOf, home_part};
ghost use Rattle.kc_table.specs.Sizes.{place_count, spread_log, most_bits, least_log, most_log, most_parts};
ghost use Rattle.kc_table.specs.Sizes.{count_bits};

use crate::counts::Counts;
use crate::reprobes::Reprobing;
use crate::sizes::PART_BITS;
use crate::slots::Slots;
use crate::table_fault::TableFault;
use kc_lemmas::Steps;
use std::alloc::{AllocError, Global};
use std::marker::Model;

/// The map as a table of 2^log slots, which grows up to 2^max_log. A slot is a number with a tag, which is the
/// remainder of a key and its number of reprobes, and the key's count; the slot's index determines the rest of the key.
/// A count that is too large for its slot is stored elsewhere.
#[derive(Drop)]
pub struct QuotientTable {
    alloc: Global,
    max_log: u32,
    slots: Slots,
}

impl Model for QuotientTable {
    ghost use Rattle.kc_table.specs.QuotientTable.{Table, IsWithinLimits};
    ghost use Rattle.kc_table.specs.Slot.{contents_of};

    ghost Value = { Table };

    ghost view = { λ t. record {
      bits = t.slots.bits;
      max_log = t.max_log;
      log = t.slots.log;
      slots = contents_of t.slots.log t.slots.slots.items;
    } };

    ghost invariant = { λ t. IsWithinLimits t.slots.bits t.slots.log t.max_log };
}

impl QuotientTable {
    /// An empty table of 2^log slots, which may grow to 2^max_log, for keys of so many bits.
    pub fn new(
        alloc: Global,
        bits: u32,
        log: u32,
        max_log: u32,
    ) -> Result<QuotientTable, AllocError>
        requires few_bits { bits ≤ most_bits }
        requires enough_slots { min least_log bits ≤ log }
        requires may_grow { log ≤ max_log }
        requires enough_places { min spread_log bits ≤ max_log }
        requires few_slots { max_log ≤ min most_log bits }
        ensures bits { IfOk result (λ t. t.bits ≡ bits) }
        ensures log { IfOk result (λ t. t.log ≡ log) }
        ensures max_log { IfOk result (λ t. t.max_log ≡ max_log) }
        ensures empty { IfOk result (λ t. counts_in t.slots ≡ empty) }
    {
        let slots = Slots::empty(alloc, bits, log)?;
        Ok(QuotientTable {
            alloc,
            max_log,
            slots,
        })
    }

    /// The logarithm of the number of slots.
    pub fn log(&self) -> u32
        ensures { result ≡ self.now.log }
    {
        self.slots.log
    }

    /// The slot of the key. The key's places are read in order, up to the one that has it or is empty, so at most 63
    /// slots. It takes no memory.
    #[inline]
    pub fn find(&self, key: u64, steps: &mut Steps) -> Option<u64>
        requires { key < 2 ^ self.now.bits }
        ensures stored { IsSome result ↔ IsStored (counts_in self.now.slots) key }
        ensures slot { IfSome result (λ s. HoldsKey self.now.slots s key) }
        ensures place { IfSome result (λ s. IsPlaceOf self.now.log key s) }
        ensures home { self.now.log ≡ self.now.bits → IfSome result (λ s. s ≡ key) }
        ensures found_after { IfSome result (IsFoundAfter self.now key (steps.new.count - steps.old.count)) }
        ensures missed_after { IfNone result (IsMissedAfter self.now key (steps.new.count - steps.old.count)) }
        ensures reads { steps.new.count ≤ steps.old.count + place_count }
    {
        match self.slots.reprobe(key, steps) {
            Reprobing::Found { place } => Some(place as u64),
            Reprobing::Free { .. } => None,
            Reprobing::Crowded => None,
        }
    }

    // The key's count, 0 if the key is not stored. The only tags that it reads are those of one find.
    #[inline(always)]
    fn get_by_one_find(&self, key: u64, steps: &mut Steps) -> u64
        requires { key < 2 ^ self.now.bits }
        ensures count { result ≡ count_at (counts_in self.now.slots) key }
        ensures one_find { IsSearchedBy self.now key (steps.new.count - steps.old.count) }
    {
        match self.find(key, steps) {
            Some(place) => self.slots.slots.count(place as usize),
            None => 0,
        }
    }

    // Counts the key at its place, which may be a free one, and returns the new count. None if all its places have
    // other keys. The only tags that it reads are those of one find.
    #[inline(always)]
    fn count_by_one_find(&mut self, key: u64, steps: &mut Steps) -> Option<u64>
        requires in_range { key < 2 ^ self.old.bits }
        requires room { count_at (counts_in self.old.slots) key < 2 ^ count_bits }
        ensures new_count { IfSome result (λ count. count ≡ count_at (counts_in self.old.slots) key + 1) }
        ensures counted { IfSome result (λ _. counts_in self.new.slots ≡ added (counts_in self.old.slots) key) }
        ensures unchanged { IfNone result (self.new ≡ self.old) }
        ensures known { IsStored (counts_in self.old.slots) key → IsSome result }
        ensures placed { IfSome result (λ _. ¬ IsShutOut self.old key) }
        ensures shut_out { IfNone result (IsShutOut self.old key) }
        ensures crowded { IfNone result (IsCrowded (counts_in self.old.slots) self.old.log key) }
        ensures same_bits { self.new.bits ≡ self.old.bits }
        ensures same_log { self.new.log ≡ self.old.log }
        ensures same_max_log { self.new.max_log ≡ self.old.max_log }
        ensures within_max_log { self.new.log ≤ self.new.max_log }
        ensures one_find { IsSearchedBy self.old key (steps.new.count - steps.old.count) }
    {
        match self.slots.reprobe(key, steps) {
            Reprobing::Found { place } => Some(self.slots.slots.add_one(place)),
            Reprobing::Free { place, tag } => {
                self.slots.slots.put(place, tag, 1);
                Some(1)
            }
            Reprobing::Crowded => None,
        }
    }

    // Counts a key whose places all have other keys, in a larger table.
    #[cold]
    #[inline(never)]
    fn count_in_larger(&mut self, key: u64) -> Result<u64, TableFault>
        requires in_range { key < 2 ^ self.old.bits }
        requires shut_out { IsShutOut self.old key }
        ensures new_count { IfOk result (λ count. count ≡ count_at (counts_in self.old.slots) key + 1) }
        ensures counted { OnOk result (counts_in self.new.slots ≡ added (counts_in self.old.slots) key) }
        ensures unchanged { OnErr result (self.new ≡ self.old) }
        ensures full { result ≡ Err TableFault.Full → MayBeFull self.old (counts_in self.old.slots) key }
        ensures same_bits { self.new.bits ≡ self.old.bits }
        ensures same_max_log { self.new.max_log ≡ self.old.max_log }
        ensures within_max_log { self.new.log ≤ self.new.max_log }
        ensures grown { OnOk result (self.old.log < self.new.log) }
        ensures smallest { (log : ℕ) → self.old.log ≤ log → log < self.new.log
            → MayBeTooSmall self.old.bits log (counts_in self.old.slots) key }
    {
        self.slots = self.slots.to_larger_with(self.alloc, key, 1, self.max_log)?;
        Ok(1)
    }
}

impl Counts for QuotientTable {
    ghost bits = { λ t. t.bits };

    ghost counts = { λ t. counts_in t.slots };

    ghost may_be_full = { MayBeFull };

    ghost slots = { λ t. 2 ^ t.log };

    ghost part = { λ t. home_part t.log };

    fn key_bits(&self) -> u32 {
        self.slots.bits
    }

    /// Stores the key, as in the trait. The table grows only if all places of the key have other keys, and then to the
    /// smallest size at which neither this key nor a stored one finds all its places taken.
    #[inline]
    fn ready(&mut self, key: u64) -> Result<(), TableFault>
        requires { key < 2 ^ self.old.bits }
        ensures known { IsStored (counts_in self.old.slots) key → IsOk result }
        ensures stored { OnOk result (counts_in self.new.slots ≡ readied (counts_in self.old.slots) key) }
        ensures refused { OnErr result (counts_in self.new.slots ≡ counts_in self.old.slots) }
        ensures full_only_there { result ≡ Err TableFault.Full → MayBeFull self.old (counts_in self.old.slots) key }
        ensures same_bits { self.new.bits ≡ self.old.bits }
        ensures same_limits { (m : KeyCounts) (q : ℕ) → MayBeFull self.new m q ↔ MayBeFull self.old m q }
        ensures unchanged { OnErr result (self.new ≡ self.old) }
        ensures untouched { IsStored (counts_in self.old.slots) key → self.new ≡ self.old }
        ensures same_max_log { self.new.max_log ≡ self.old.max_log }
        ensures within_max_log { self.new.log ≤ self.new.max_log }
        ensures placed { ¬ IsShutOut self.old key → result ≡ Ok tt }
        ensures stays { ¬ IsShutOut self.old key → self.new.log ≡ self.old.log }
        ensures uncrowded { ¬ IsCrowded (counts_in self.old.slots) self.old.log key → self.new.log ≡ self.old.log }
        ensures grown { OnOk result (IsShutOut self.old key → self.old.log < self.new.log) }
        ensures never_smaller { self.old.log ≤ self.new.log }
        ensures smallest { (log : ℕ) → self.old.log ≤ log → log < self.new.log
            → MayBeTooSmall self.old.bits log (counts_in self.old.slots) key }
    {
        match self.slots.reprobe(key, &mut Steps::zero()) {
            Reprobing::Found { .. } => Ok(()),
            Reprobing::Free { place, tag } => {
                self.slots.slots.put(place, tag, 0);
                Ok(())
            }
            Reprobing::Crowded => {
                self.slots = self.slots.to_larger_with(self.alloc, key, 0, self.max_log)?;
                Ok(())
            }
        }
    }

    /// Counts the key, as in the trait, and looks for it once. The table grows only if `ready` would make it grow, and
    /// to the same size.
    #[inline]
    fn count(&mut self, key: u64) -> Result<u64, TableFault>
        requires in_range { key < 2 ^ self.old.bits }
        requires room { count_at (counts_in self.old.slots) key < 2 ^ count_bits }
        ensures known { IsStored (counts_in self.old.slots) key → IsOk result }
        ensures new_count { IfOk result (λ count. count ≡ count_at (counts_in self.old.slots) key + 1) }
        ensures counted { OnOk result (counts_in self.new.slots ≡ added (counts_in self.old.slots) key) }
        ensures refused { OnErr result (counts_in self.new.slots ≡ counts_in self.old.slots) }
        ensures full_only_there { result ≡ Err TableFault.Full → MayBeFull self.old (counts_in self.old.slots) key }
        ensures same_bits { self.new.bits ≡ self.old.bits }
        ensures same_limits { (m : KeyCounts) (q : ℕ) → MayBeFull self.new m q ↔ MayBeFull self.old m q }
        ensures unchanged { OnErr result (self.new ≡ self.old) }
        ensures same_max_log { self.new.max_log ≡ self.old.max_log }
        ensures within_max_log { self.new.log ≤ self.new.max_log }
        ensures placed { ¬ IsShutOut self.old key → IsOk result }
        ensures stays { ¬ IsShutOut self.old key → self.new.log ≡ self.old.log }
        ensures uncrowded { ¬ IsCrowded (counts_in self.old.slots) self.old.log key → self.new.log ≡ self.old.log }
        ensures grown { OnOk result (IsShutOut self.old key → self.old.log < self.new.log) }
        ensures never_smaller { self.old.log ≤ self.new.log }
        ensures smallest { (log : ℕ) → self.old.log ≤ log → log < self.new.log
            → MayBeTooSmall self.old.bits log (counts_in self.old.slots) key }
    {
        match self.count_by_one_find(key, &mut Steps::zero()) {
            Some(count) => Ok(count),
            None => self.count_in_larger(key),
        }
    }

    /// Decreases the key's count, as in the trait. The table keeps its size.
    #[inline]
    fn uncount(&mut self, key: u64)
        requires in_range { key < 2 ^ self.old.bits }
        requires some { 1 ≤ count_at (counts_in self.old.slots) key }
        ensures counted { counts_in self.new.slots ≡ reduced (counts_in self.old.slots) key }
        ensures same_bits { self.new.bits ≡ self.old.bits }
        ensures same_limits { (m : KeyCounts) (q : ℕ) → MayBeFull self.new m q ↔ MayBeFull self.old m q }
        ensures same_log { self.new.log ≡ self.old.log }
        ensures same_max_log { self.new.max_log ≡ self.old.max_log }
    {
        match self.find(key, &mut Steps::zero()) {
            Some(place) => self.slots.slots.remove_one(place as usize),
            None => unreachable!(),
        }
    }

    fn slots(&self) -> u64 {
        1 << self.slots.log
    }

    /// Adds one to the key's count, as in the trait. The table keeps its size.
    #[inline]
    fn add(&mut self, key: u64)
        requires in_range { key < 2 ^ self.old.bits }
        requires stored { IsStored (counts_in self.old.slots) key }
        requires room { count_at (counts_in self.old.slots) key < 2 ^ count_bits }
        ensures counted { counts_in self.new.slots ≡ added (counts_in self.old.slots) key }
        ensures same_bits { self.new.bits ≡ self.old.bits }
        ensures same_limits { (m : KeyCounts) (q : ℕ) → MayBeFull self.new m q ↔ MayBeFull self.old m q }
        ensures same_log { self.new.log ≡ self.old.log }
        ensures same_max_log { self.new.max_log ≡ self.old.max_log }
    {
        match self.count_by_one_find(key, &mut Steps::zero()) {
            Some(_) => (),
            None => unreachable!(),
        }
    }

    #[inline]
    fn get(&self, key: u64) -> u64 {
        self.get_by_one_find(key, &mut Steps::zero())
    }

    /// The part of the table with the key's home.
    #[inline]
    fn part_of(&self, key: u64) -> u32 {
        let home = key as usize & ((1 << self.slots.log) - 1);
        (home >> self.slots.log.saturating_sub(PART_BITS)) as u32
    }

    fn rows(&self, alloc: Global) -> Result<Vec<(u64, u64)>, AllocError> {
        self.slots.entries(alloc)
    }

    fn greatest(&self) -> u64 {
        self.slots.greatest()
    }
}
