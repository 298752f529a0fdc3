//! The sizes inside a table: how many places a key has, and how the bits of a tag are divided. `specs/Sizes` has the
//! relations between them.

/// How many places a key has.
pub(crate) const PLACES: usize = 63;

/// How many bits of a tag are the number of reprobes; the others are the remainder.
pub(crate) const REPROBE_BITS: u32 = 6;

/// A tag is the key's remainder times this, plus its number of reprobes, plus 1.
pub(crate) const TAG_STEP: u64 = 1 << REPROBE_BITS;

/// The least number of bits that a slot of 32 bits has for a count.
pub(crate) const MIN_COUNT_BITS: u32 = 4;

/// How many bits of a key's home are the number of its part of the table.
pub(crate) const PART_BITS: u32 = 10;

/// The most parts of a table.
pub const PARTS: usize = 1 << PART_BITS;

const _: () = prove!(PLACES + 1 == TAG_STEP as usize);
