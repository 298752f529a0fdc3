//! The slots of a table, each packed into one number, with the great counts beside them.
ghost use Rattle.std.specs.Prelude.{◌≡◌, ◌≢◌, ◌+◌, ◌-◌, ◌^◌, ◌<◌, ◌≤◌, IfOk, length, replicate, slice_set};
ghost use Rattle.kc_table.specs.Packing.{ArePlacesFor};
ghost use Rattle.kc_table.specs.Sizes.{count_bits, most_log};
ghost use Rattle.kc_table.specs.Slot.{tag_at, slot_count, empty_slot};

use crate::great_counts::GreatCounts;
use crate::number_rows::Numbers;
use crate::sizes::MIN_COUNT_BITS;
use crate::tag::Tag;
use std::alloc::{AllocError, Global};
use std::marker::Model;

// A table with this many slots or more has room for at least `GREAT_ROOM` great counts.
const MANY_SLOTS: usize = 1 << 18;

const GREAT_ROOM: usize = 1 << 21;

/// The slots of a table, one after another. A slot's number has the tag in its high bits, and below it `low` bits for
/// the count. If these are all 1, the count is in `great`, under the slot's index.
#[derive(Drop)]
pub(crate) struct PackedSlots {
    low: u32,
    numbers: Numbers,
    great: GreatCounts,
}

impl Model for PackedSlots {
    ghost use Rattle.std.specs.Prelude.{◌-◌};
    ghost use Rattle.kc_table.specs.Numbers.{width_of, numbers_in};
    ghost use Rattle.kc_table.specs.Packing.{Packed, IsPacked, slots_of};

    ghost Value = { Packed };

    ghost view = { λ p. record {
      tag_bits = width_of p.numbers - p.low;
      items = slots_of p.low (numbers_in p.numbers) p.great.counts;
    } };

    ghost invariant = { λ p. IsPacked p.low (width_of p.numbers) p.great.places (numbers_in p.numbers) };
}

impl PackedSlots {
    /// 2^log empty slots with so many bits for a tag. Their numbers have 32 bits if that leaves some for a count,
    /// otherwise 64.
    pub fn empty(alloc: Global, tag_bits: u32, log: u32) -> Result<PackedSlots, AllocError>
        requires some_bits { 0 < tag_bits }
        requires few_bits { tag_bits ≤ 64 }
        requires few_slots { log ≤ most_log }
        ensures tag_bits { IfOk result (λ slots. slots.tag_bits ≡ tag_bits) }
        ensures empty { IfOk result (λ slots. slots.items ≡ replicate (2 ^ log) empty_slot) }
    {
        let count = 1 << log;
        let great = GreatCounts::new(alloc, room_for_great(count))?;
        let bits = (tag_bits + MIN_COUNT_BITS).min(64);
        let numbers = Numbers::zeros(alloc, bits, count)?;
        let low = numbers.width() - tag_bits;
        Ok(PackedSlots {
            low,
            numbers,
            great,
        })
    }

    /// The tag in a slot.
    #[inline(always)]
    pub fn tag(&self, index: usize) -> Tag
        requires { index < length self.now.items }
        ensures { result ≡ tag_at self.now.items index }
    {
        Tag {
            number: self.numbers.get(index) >> self.low,
        }
    }

    /// The count in a slot.
    #[inline(always)]
    pub fn count(&self, index: usize) -> u64
        requires { index < length self.now.items }
        ensures { result ≡ slot_count self.now.items index }
    {
        let mask = all_ones(self.low);
        let below = self.numbers.get(index) & mask;
        if below < mask {
            below
        } else {
            self.great.count(index)
        }
    }

    /// Puts a tag and a count into an empty slot.
    #[inline(always)]
    pub fn put(&mut self, index: usize, tag: Tag, count: u64)
        requires in_range { index < length self.old.items }
        requires empty { tag_at self.old.items index ≡ 0 }
        requires some { tag ≢ 0 }
        requires fits { tag < 2 ^ self.old.tag_bits }
        ensures tag_bits { self.new.tag_bits ≡ self.old.tag_bits }
        ensures put { self.new.items ≡ slice_set self.old.items index (record { tag = tag; count = count }) }
    {
        let mask = all_ones(self.low);
        let above = tag.number << self.low;
        if count < mask {
            self.numbers.set(index, above + count);
        } else {
            self.great.set(index, count);
            self.numbers.set(index, above + mask);
        }
    }

    /// Adds one to the count in a slot that is not empty, and returns the new count.
    #[inline(always)]
    pub fn add_one(&mut self, index: usize) -> u64
        requires in_range { index < length self.old.items }
        requires some { tag_at self.old.items index ≢ 0 }
        requires room { slot_count self.old.items index < 2 ^ count_bits }
        ensures tag_bits { self.new.tag_bits ≡ self.old.tag_bits }
        ensures told { result ≡ slot_count self.old.items index + 1 }
        ensures counted { self.new.items ≡ slice_set self.old.items index
            (record { tag = tag_at self.old.items index; count = slot_count self.old.items index + 1 }) }
    {
        let mask = all_ones(self.low);
        let number = self.numbers.get(index);
        let below = number & mask;
        if below + 1 < mask {
            self.numbers.set(index, number + 1);
            below + 1
        } else {
            self.add_one_beside(index)
        }
    }

    // Adds one to the count in a slot; it becomes a great count if it is not one already.
    #[cold]
    #[inline(never)]
    fn add_one_beside(&mut self, index: usize) -> u64
        requires in_range { index < length self.old.items }
        requires room { slot_count self.old.items index < 2 ^ count_bits }
        ensures tag_bits { self.new.tag_bits ≡ self.old.tag_bits }
        ensures told { result ≡ slot_count self.old.items index + 1 }
        ensures counted { self.new.items ≡ slice_set self.old.items index
            (record { tag = tag_at self.old.items index; count = slot_count self.old.items index + 1 }) }
    {
        let raised = self.count(index) + 1;
        let mask = all_ones(self.low);
        let number = self.numbers.get(index);
        self.great.set(index, raised);
        self.numbers.set(index, number - (number & mask) + mask);
        raised
    }

    /// Decreases the count in a slot that is not empty.
    #[inline(always)]
    pub fn remove_one(&mut self, index: usize)
        requires in_range { index < length self.old.items }
        requires some { tag_at self.old.items index ≢ 0 }
        requires counted { 1 ≤ slot_count self.old.items index }
        ensures tag_bits { self.new.tag_bits ≡ self.old.tag_bits }
        ensures reduced { self.new.items ≡ slice_set self.old.items index
            (record { tag = tag_at self.old.items index; count = slot_count self.old.items index - 1 }) }
    {
        let mask = all_ones(self.low);
        let number = self.numbers.get(index);
        if number & mask < mask {
            self.numbers.set(index, number - 1);
        } else {
            let lowered = self.great.count(index) - 1;
            self.great.set(index, lowered);
        }
    }
}

// For how many great counts there is room beside so many slots. This is address space, which becomes memory only as
// they come.
//
// A freed block above 32 MB goes back to the system. Once a smaller one was freed, the C library (glibc) takes blocks
// up to that size from a heap, where hash tables that have grown leave gaps: a third of a count's peak. So the room is
// either that large, or too small to matter.
fn room_for_great(slots: usize) -> usize
    ensures { ArePlacesFor slots result }
{
    if slots < MANY_SLOTS {
        slots
    } else {
        slots.max(GREAT_ROOM)
    }
}

// The number of so many bits that are all 1.
#[inline(always)]
fn all_ones(bits: u32) -> u64
    requires { bits < 64 }
    ensures { result ≡ 2 ^ bits - 1 }
{
    (1 << bits) - 1
}
