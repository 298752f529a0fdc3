//! Lists of numbers that take half the memory if the numbers are small.
ghost use Rattle.std.specs.Prelude.{◌≡◌, ◌^◌, ◌<◌, ◌≤◌, IfOk, length, replicate, slice_index_or, slice_set};
ghost use Rattle.std.specs.Prelude.{vec_capacity};
ghost use Rattle.kc_table.specs.Numbers.{width_of, numbers_in, room_of};

use kc_lemmas::zeros;
use std::alloc::{AllocError, Global};

/// A list of numbers of 32 bits, or of 64.
#[derive(Drop)]
pub(crate) enum Numbers {
    Narrow(Vec<u32>),
    Wide(Vec<u64>),
}

impl Numbers {
    /// `count` zeros, in room for these alone: numbers of 32 bits if `bits` are enough, otherwise of 64.
    pub fn zeros(alloc: Global, bits: u32, count: usize) -> Result<Numbers, AllocError>
        ensures narrow { bits ≤ 32 → IfOk result (λ row. width_of row ≡ 32) }
        ensures wide { 32 < bits → IfOk result (λ row. width_of row ≡ 64) }
        ensures zeros { IfOk result (λ row. numbers_in row ≡ replicate count 0) }
        ensures bounded { IfOk result (λ row. room_of row ≤ count) }
    {
        if bits <= 32 {
            Ok(Numbers::Narrow(narrow_zeros(alloc, count)?))
        } else {
            Ok(Numbers::Wide(zeros(alloc, count)?))
        }
    }

    /// How many bits each number has.
    #[inline(always)]
    pub fn width(&self) -> u32
        ensures { result ≡ width_of self.now }
    {
        match self {
            Numbers::Narrow(_) => 32,
            Numbers::Wide(_) => 64,
        }
    }

    #[inline(always)]
    pub fn get(&self, index: usize) -> u64
        requires { index < length (numbers_in self.now) }
        ensures number { result ≡ slice_index_or (numbers_in self.now) index 0 }
        ensures fits { result < 2 ^ width_of self.now }
    {
        match self {
            Numbers::Narrow(numbers) => u64::from(numbers[index]),
            Numbers::Wide(numbers) => numbers[index],
        }
    }

    #[inline(always)]
    pub fn set(&mut self, index: usize, number: u64)
        requires in_range { index < length (numbers_in self.old) }
        requires fits { number < 2 ^ width_of self.old }
        ensures width { width_of self.new ≡ width_of self.old }
        ensures set { numbers_in self.new ≡ slice_set (numbers_in self.old) index number }
    {
        match self {
            Numbers::Narrow(numbers) => numbers[index] = number as u32,
            Numbers::Wide(numbers) => numbers[index] = number,
        }
    }
}

// `count` zeros, in room for these alone.
fn narrow_zeros(alloc: Global, count: usize) -> Result<Vec<u32>, AllocError>
    ensures zeros { IfOk result (λ numbers. numbers.items ≡ replicate count 0) }
    ensures bounded { IfOk result (λ numbers. vec_capacity numbers ≤ count) }
{
    let mut numbers = Vec::with_capacity(alloc, count)?;
    for _ in 0..count {
        numbers.push_reserved(0);
    }
    Ok(numbers)
}
