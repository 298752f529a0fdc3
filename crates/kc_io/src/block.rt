//! Bytes gathered in a fixed array, so that a sink gets blocks instead of single fields.
ghost use Rattle.std.specs.Prelude.{◌≡◌, ◌+◌, ◌≤◌, ◌<◌, ◌++◌, [], length, take, decimal, OnOk, OnErr};
ghost use Rattle.kc_io.specs.Sinks.{HasBegun, Drains};

use crate::failures::Failed;
use crate::sinks::Sink;
use crate::whole_texts::write_all;
use itoa::Buffer;
use std::marker::Model;

/// How many bytes a block has room for. The invariant of `Block` has the same number.
pub const BLOCK_SIZE: usize = 65_536;

/// The most digits of a number of 64 bits.
pub const NUMBER_SIZE: usize = 20;

/// The bytes gathered so far, at most `BLOCK_SIZE` of them.
#[derive(Drop)]
pub struct Block {
    bytes: [u8; BLOCK_SIZE],
    len: usize,
}

impl Model for Block {
    ghost use Rattle.std.specs.Prelude.{List, ℕ, ◌≤◌, take};

    ghost Value = { List ℕ };

    ghost view = { λ b. take b.len b.bytes };

    ghost invariant = { λ b. b.len ≤ 65536 };
}

impl Block {
    /// A block with no bytes.
    pub fn new() -> Block
        ensures { result ≡ [] }
    {
        Block {
            bytes: [0; BLOCK_SIZE],
            len: 0,
        }
    }

    /// How many bytes there are.
    pub fn len(&self) -> usize
        ensures { result ≡ length self.now }
    {
        self.len
    }

    /// The bytes.
    pub fn as_slice(&self) -> &[u8]
        ensures { result.now ≡ self.now }
    {
        &self.bytes[..self.len]
    }

    /// Forgets the bytes.
    pub fn clear(&mut self)
        ensures { self.new ≡ [] }
    {
        self.len = 0;
    }

    /// Appends `bytes` to those that are there.
    #[inline(always)]
    pub fn push(&mut self, bytes: &[u8])
        requires room { length self.old + length bytes.now ≤ BLOCK_SIZE }
        ensures pushed { self.new ≡ self.old ++ bytes.now }
    {
        let end = self.len + bytes.len();
        self.bytes[self.len..end].copy_from_slice(bytes);
        self.len = end;
    }

    /// Appends the first `count` of the bytes to those that are there. All of them are copied, since a copy of a fixed
    /// size is fast. Condition: there is room for all.
    #[inline(always)]
    pub fn push_front<const N: usize>(&mut self, bytes: &[u8; N], count: usize)
        requires room { length self.old + N ≤ BLOCK_SIZE }
        requires within { count ≤ N }
        ensures pushed { self.new ≡ self.old ++ take count bytes.now }
    {
        let start = self.len;
        self.bytes[start..start + N].copy_from_slice(bytes);
        self.len = start + count;
    }
}

impl Block {
    /// Appends a number to the bytes that are there, in decimal.
    #[inline(always)]
    pub fn push_number(&mut self, number: u64)
        requires room { length self.old + NUMBER_SIZE ≤ BLOCK_SIZE }
        ensures pushed { self.new ≡ self.old ++ decimal number }
        ensures short { length self.new ≤ length self.old + NUMBER_SIZE }
    {
        if number < 100 {
            // most counts are this small
            let (digits, count) = small_decimal(number as u8);
            self.push_front(&digits, count);
        } else {
            self.push_digits(number);
        }
    }

    // Appends a number to the bytes that are there, in decimal, however many digits it has.
    fn push_digits(&mut self, number: u64)
        requires room { length self.old + NUMBER_SIZE ≤ BLOCK_SIZE }
        ensures pushed { self.new ≡ self.old ++ decimal number }
        ensures short { length self.new ≤ length self.old + NUMBER_SIZE }
    {
        let mut digits = Buffer::new();
        self.push(digits.format(number).as_bytes());
    }

    /// Hands the bytes to the writer if there is no room for `count` more. Condition: a block has room for that many.
    ///
    /// # Errors
    /// `Failed` if the writer failed or took no byte. It took a beginning of the bytes.
    #[inline(always)]
    pub fn make_room<W: Sink>(&mut self, writer: &mut W, count: usize) -> Result<(), Failed>
        requires { count ≤ BLOCK_SIZE }
        ensures ok { OnOk result (Drains (W.seen writer.old) (W.seen writer.new) self.old self.new) }
        ensures room { OnOk result (length self.new + count ≤ BLOCK_SIZE) }
        ensures err { OnErr result (HasBegun (W.seen writer.old) (W.seen writer.new) self.old) }
    {
        if self.len > BLOCK_SIZE - count {
            write_all(writer, self.as_slice())?;
            self.clear();
        }
        Ok(())
    }
}

// The digits of a number that has one or two, and how many they are. Both are common among counts, in no order, so it
// makes two bytes for either: that takes no branch.
#[inline(always)]
fn small_decimal(number: u8) -> ([u8; 2], usize)
    requires { number < 100 }
    ensures most { result.1 ≤ 2 }
    ensures digits { take result.1 result.0 ≡ decimal number }
{
    let (tens, ones) = (b'0' + number / 10, b'0' + number % 10);
    if number < 10 {
        ([ones, ones], 1)
    } else {
        ([tens, ones], 2)
    }
}
