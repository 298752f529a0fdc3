//! Taking a source block by block, for readers that use its text as it comes.
ghost use Rattle.std.specs.Prelude.{◌≡◌, ◌+◌, ◌-◌, ◌^◌, ◌≤◌, length, take, drop, min, max};
ghost use Rattle.std.specs.Prelude.{IfOk, IfErr, OnErr};
ghost use Rattle.kc_gzip.specs.declared.unpacked_intakes.TakeFault.TheVariants.{Memory};
ghost use Rattle.kc_gzip.specs.Since.{Continues};
ghost use Rattle.kc_gzip.specs.Intakes.{AsksForBlocks, Comes, Fills, Skips, Stops, block_size, none_kept};
ghost use Rattle.kc_gzip.specs.Intakes.{nothing_taken, taking};

use crate::faults::GzipFault;
use crate::gzip_or_plain::{GunzipFault, zeros};
use crate::lent_source::Unpacking;
use kc_io::{BLOCK_SIZE, Source};
use std::alloc::{AllocError, AllocFailed, Global};
use std::marker::Model;
use thiserror::Error;

/// The room in a new buffer, besides a block, for the part of a line that is left when the next block comes.
const FRONT: usize = 4_096;

/// Why the text of a source could not be taken.
#[derive(Clone, Copy, Debug, PartialEq, Eq, Error)]
pub enum TakeFault {
    /// The text is longer than the limit.
    #[error("too long")]
    TooLong,
    /// A read failed.
    #[error("read failed")]
    Read,
    /// The gzip is broken.
    #[error("broken gzip")]
    Broken,
    /// The gzip is cut short.
    #[error("gzip cut short")]
    Short,
    /// A growth was refused.
    #[error("no memory")]
    Memory,
}

impl From<AllocError> for TakeFault {
    ghost from_gives = { λ _ fault. fault ≡ Memory };

    fn from(_error: AllocError) -> TakeFault {
        TakeFault::Memory
    }
}

impl<T: Drop> From<AllocFailed<T>> for TakeFault {
    ghost from_gives = { λ _ fault. fault ≡ Memory };

    fn from(_error: AllocFailed<T>) -> TakeFault {
        TakeFault::Memory
    }
}

impl From<GunzipFault> for TakeFault {
    ghost from_gives = { λ why fault. fault ≡ taking why };

    fn from(why: GunzipFault) -> TakeFault {
        match why {
            GunzipFault::Read => TakeFault::Read,
            GunzipFault::TooLong => TakeFault::Memory,
            GunzipFault::Gzip(GzipFault::Broken) => TakeFault::Broken,
            GunzipFault::Gzip(GzipFault::Short) => TakeFault::Short,
            GunzipFault::Gzip(GzipFault::Memory) => TakeFault::Memory,
        }
    }
}

/// The bytes that came from a source and are not used yet, and how many more may come. Gzip is decompressed.
///
/// It keeps these bytes with room for one block behind them, and what the decompression keeps, whatever came before.
#[derive(Drop)]
pub struct Intake {
    unpacking: Unpacking,
    // the bytes that are not used yet are those from `used` to `end`
    buffer: Vec<u8>,
    used: usize,
    end: usize,
    room: u64,
}

impl Model for Intake {
    ghost use Rattle.std.specs.Prelude.{◌≤◌, length, take, drop};
    ghost use Rattle.kc_gzip.specs.Intakes.{AsksForBlocks, Unread, block_size};

    ghost Value = { Unread };

    ghost view = { λ i. record {
      bytes = drop i.used (take i.end i.buffer.items);
      room = i.room;
      came = i.unpacking.given.bytes;
      since = i.unpacking.since;
    } };

    ghost invariant = { λ i. (i.used ≤ i.end) × (i.end ≤ length i.buffer.items)
        × (block_size ≤ length i.buffer.items) × AsksForBlocks i.unpacking.since };
}

impl Intake {
    /// The state before the first read, if `limit` bytes may come.
    ///
    /// # Errors
    /// `AllocError` if a block or the buffer was refused.
    pub fn new(alloc: Global, limit: u64) -> Result<Intake, AllocError>
        ensures { IfOk result (λ intake. intake ≡ nothing_taken limit) }
    {
        Ok(Intake {
            unpacking: Unpacking::new(alloc)?,
            buffer: empty_buffer(alloc)?,
            used: 0,
            end: 0,
            room: limit,
        })
    }

    /// The bytes that came and are not used yet.
    pub fn as_slice(&self) -> &[u8]
        ensures { result.now ≡ self.now.bytes }
    {
        &self.buffer[self.used..self.end]
    }

    /// How many bytes the source has given, compressed as it gave them; 2^64 - 1 if there are more.
    pub fn taken_count(&self) -> u64
        ensures { result ≡ min (length self.now.since.bytes) (2 ^ 64 - 1) }
    {
        self.unpacking.taken_count()
    }

    /// Uses the first `count` bytes, which are forgotten. Condition: there are at least `count` bytes.
    pub fn use_up(&mut self, count: usize)
        requires { count ≤ length self.old.bytes }
        ensures { self.new ≡ record self.old { bytes = drop count self.old.bytes } }
    {
        self.used += count;
    }

    /// Takes more from the source, and appends at most a block of its text to the bytes that are there: true if some
    /// came, false if the source returned its end and all came.
    ///
    /// # Errors
    /// `TooLong` if more came than there was room for, `Read` if a read failed, `Broken` and `Short` if the gzip is
    /// broken or cut short, after all that can be read of it, and `Memory`. Each leaves the bytes that are there, and
    /// how many more may come.
    pub fn fill<S: Source>(&mut self, source: &mut S) -> Result<bool, TakeFault>
        ensures filled { Fills (S.seen source.old) (S.seen source.new) self.old self.new result }
        ensures one_block { length self.new.bytes ≤ length self.old.bytes + BLOCK_SIZE }
        ensures refused { OnErr result (self.new.bytes ≡ self.old.bytes) }
        ensures kept { OnErr result (self.new.room ≡ self.old.room) }
    {
        match self.unpacking.fault() {
            Some(why) => return Err(TakeFault::from(why)),
            None => {}
        }
        self.end = make_room(&mut self.buffer, self.used, self.end)?;
        self.used = 0;
        let block = &mut self.buffer[self.end..self.end + BLOCK_SIZE];
        let count = take(&mut self.unpacking, source, block, self.room)?;
        self.end += count;
        self.room -= count as u64;
        Ok(count > 0)
    }

    /// Takes the rest of the source block by block, forgets it, and returns the length of its text.
    ///
    /// # Errors
    /// As `fill`. It takes memory only for the decompression.
    pub fn skip_rest<S: Source>(mut self, source: &mut S) -> Result<u64, TakeFault>
        ensures { Skips (S.seen source.old) (S.seen source.new) self result }
    {
        let block = &mut self.buffer[..BLOCK_SIZE];
        skip_by_blocks(&mut self.unpacking, source, block, self.room)
    }
}

// A buffer without bytes.
fn empty_buffer(alloc: Global) -> Result<Vec<u8>, AllocError>
    ensures { IfOk result (λ buffer. length buffer.items ≡ FRONT + BLOCK_SIZE) }
{
    zeros(alloc, FRONT + BLOCK_SIZE)
}

// Moves the bytes from `used` to `end` to the front, with room for a block behind them, and returns how many they are.
fn make_room(buffer: &mut Vec<u8>, used: usize, end: usize) -> Result<usize, AllocError>
    requires order { used ≤ end }
    requires within { end ≤ length buffer.old.items }
    ensures kept { IfOk result (λ left. take left buffer.new.items ≡ drop used (take end buffer.old.items)) }
    ensures count { IfOk result (λ left. left ≡ end - used) }
    ensures room { IfOk result (λ left. left + BLOCK_SIZE ≤ length buffer.new.items) }
    ensures bound { length buffer.new.items ≤ max (length buffer.old.items) (end - used + BLOCK_SIZE) }
    ensures refused { OnErr result (buffer.new.items ≡ buffer.old.items) }
{
    let left = end - used;
    let needed = left + BLOCK_SIZE;
    if buffer.len() < needed {
        buffer.resize(needed, 0)?;
    }
    if used > 0 {
        buffer.as_mut_slice().copy_within(used..end, 0);
    }
    Ok(left)
}

// Takes what one read gives into the block. Condition: the block is whole, as those before were.
fn take<S: Source>(
    unpacking: &mut Unpacking,
    source: &mut S,
    block: &mut [u8],
    room: u64,
) -> Result<usize, TakeFault>
    requires whole { length block.old ≡ block_size }
    requires asks { AsksForBlocks unpacking.old.since }
    ensures goes { Continues (S.seen source.old) unpacking.old.since (S.seen source.new) unpacking.new.since }
    ensures asks { AsksForBlocks unpacking.new.since }
    ensures comes { IfOk result (λ count. Comes count unpacking.old unpacking.new room block.new) }
    ensures stops { IfErr result (λ why. Stops why unpacking.old unpacking.new room) }
{
    match unpacking.read(source, block) {
        Ok(count) => {
            if count as u64 > room {
                return Err(TakeFault::TooLong);
            }
            Ok(count)
        }
        Err(why) => Err(TakeFault::from(why)),
    }
}

// Takes all that comes, block by block, and returns how many bytes it was.
fn skip_by_blocks<S: Source>(
    unpacking: &mut Unpacking,
    source: &mut S,
    block: &mut [u8],
    limit: u64,
) -> Result<u64, TakeFault>
    requires whole { length block.old ≡ block_size }
    requires asks { AsksForBlocks unpacking.old.since }
    ensures { Skips (S.seen source.old) (S.seen source.new) (none_kept unpacking.old limit) result }
{
    let mut skipped = 0u64;
    'reading: loop {
        let count = take(unpacking, source, block, limit - skipped)?;
        if count == 0 {
            return Ok(skipped);
        }
        skipped += count as u64;
    }
}
