//! Vectors that are made once and used again: they are emptied, and keep their capacity.
ghost use Rattle.std.specs.Prelude.{◌≡◌, ℕ, ◌+◌, ◌<◌, ◌≤◌, ◌⊎◌, [], length, max, slice_index, IfOk, OnOk};
ghost use Rattle.std.specs.Vec.{vec_capacity};
ghost use Rattle.kc_booking.specs.Round.{items_at, room_at, rooms_of, with_an_eighth};

use std::alloc::{AllocError, Global};

/// `count` empty vectors.
pub(crate) fn empty_vecs<T>(alloc: Global, count: usize) -> Result<Vec<Vec<T>>, AllocError>
    ensures all { IfOk result (λ vecs. length vecs.items ≡ count) }
    ensures empty { IfOk result (λ vecs. (place : ℕ) → items_at vecs.items place ≡ []) }
{
    let mut vecs = Vec::with_capacity(alloc, count)?;
    for _ in 0..count {
        vecs.push_reserved(Vec::new(alloc));
    }
    Ok(vecs)
}

/// Empties each vector, and keeps its capacity.
pub(crate) fn clear_each<T: Drop>(vecs: &mut Vec<Vec<T>>)
    ensures all { length vecs.new.items ≡ length vecs.old.items }
    ensures empty { (place : ℕ) → items_at vecs.new.items place ≡ [] }
    ensures rooms { rooms_of vecs.new.items ≡ rooms_of vecs.old.items }
{
    for place in 0..vecs.len() {
        vecs[place].clear();
    }
}

/// Makes room in each vector for as many more. Condition: there is a number for each.
pub(crate) fn make_room<T>(vecs: &mut Vec<Vec<T>>, more: &[usize]) -> Result<(), AllocError>
    requires { length vecs.old.items ≤ length more.now }
    ensures all { length vecs.new.items ≡ length vecs.old.items }
    ensures unchanged { (place : ℕ) → items_at vecs.new.items place ≡ items_at vecs.old.items place }
    ensures room { OnOk result ((place : ℕ) → place < length vecs.old.items
        → length (items_at vecs.old.items place) + slice_index more.now place ≤ room_at vecs.new.items place) }
    ensures bounded { (place : ℕ) → room_at vecs.new.items place ≤ max (room_at vecs.old.items place)
        (with_an_eighth (length (items_at vecs.old.items place) + slice_index more.now place)) }
{
    for place in 0..vecs.len() {
        make_room_for(&mut vecs[place], more[place])?;
    }
    Ok(())
}

/// Makes room for `more` items: if there is too little, for an eighth more than there will be.
pub(crate) fn make_room_for<T>(vec: &mut Vec<T>, more: usize) -> Result<(), AllocError>
    ensures unchanged { vec.new.items ≡ vec.old.items }
    ensures room { OnOk result (length vec.old.items + more ≤ vec_capacity vec.new) }
    ensures bounded { vec_capacity vec.new ≤ max (vec_capacity vec.old)
        (with_an_eighth (length vec.old.items + more)) }
    ensures grown { OnOk result ((vec_capacity vec.new ≡ vec_capacity vec.old)
        ⊎ (with_an_eighth (length vec.old.items + more) ≤ vec_capacity vec.new)) }
{
    if more <= vec.capacity() - vec.len() {
        return Ok(());
    }
    let all = vec.len().saturating_add(more);
    vec.reserve_exact(more.saturating_add(all / 8))
}
