//! Vectors whose capacity is asked for once, and bounded by what will be put into them.
ghost use Rattle.std.specs.Prelude.{◌≡◌, ◌≤◌, [], length, replicate, IfOk};
ghost use Rattle.std.specs.Vec.{vec_capacity};

use std::alloc::{AllocError, Global};

/// An empty list with room for one entry for each of the items.
pub fn room_for_each<S, T>(alloc: Global, items: &[S]) -> Result<Vec<T>, AllocError>
    ensures empty { IfOk result (λ room. room.items ≡ []) }
    ensures bounded { IfOk result (λ room. vec_capacity room ≤ length items.now) }
{
    Vec::with_capacity(alloc, items.len())
}

/// `count` zeros, with room only for these.
pub fn zeros(alloc: Global, count: usize) -> Result<Vec<u64>, AllocError>
    ensures zeros { IfOk result (λ numbers. numbers.items ≡ replicate count 0) }
    ensures bounded { IfOk result (λ numbers. vec_capacity numbers ≤ count) }
{
    let mut numbers = Vec::with_capacity(alloc, count)?;
    for _ in 0..count {
        numbers.push_reserved(0);
    }
    Ok(numbers)
}
