//! Items that are dealt into piles, one for each thread, and the threads' results, joined.
ghost use Rattle.std.specs.Prelude.{◌≡◌, ◌≤◌, ◌^◌, ◌-◌, [], ◌∷◌, ◌++◌, length, map, min, IfOk, Ok};
ghost use Rattle.std.specs.List.{flat_map};
ghost use Rattle.std.specs.Vec.{vec_capacity};

use kc_lemmas::room_for_each;
use std::alloc::{AllocError, Global};
use std::mem::replace;

/// How much work an item is, compared with others. Only the time of the threads depends on it.
pub(crate) trait Weighed {
    /// How much work the item is, in a unit that all items have in common.
    fn weight(&self) -> usize;
}

/// The items in at most so many piles of about the same weight: joined in order, they are all items. Condition: at
/// least one pile.
pub(crate) fn piles_of<T: Weighed + Drop>(
    alloc: Global,
    items: Vec<T>,
    most: u32,
) -> Result<Vec<Vec<T>>, AllocError>
    requires { 1 ≤ most }
    ensures few { IfOk result (λ piles. length piles.items ≤ most) }
    ensures all { IfOk result (λ piles. flat_map (λ pile. pile.items) piles.items ≡ items.items) }
{
    let enough = total_weight(&items).div_ceil(most as usize);
    let mut piles = Vec::new(alloc);
    let mut pile = Vec::new(alloc);
    let mut weight = 0usize;
    for item in items {
        if weight >= enough && piles.len() + 1 < most as usize {
            piles.push(replace(&mut pile, Vec::new(alloc)))?;
            weight = 0;
        }
        weight = weight.saturating_add(item.weight());
        pile.push(item)?;
    }
    let piles = with_last(piles, pile)?;
    Ok(piles)
}

// The piles, with one more at the end.
fn with_last<T: Drop>(mut piles: Vec<Vec<T>>, pile: Vec<T>) -> Result<Vec<Vec<T>>, AllocError>
    ensures { IfOk result (λ all. all.items ≡ piles.items ++ pile ∷ []) }
{
    piles.push(pile)?;
    Ok(piles)
}

// The weight of the items together, as far as a `usize` reaches.
fn total_weight<T: Weighed>(items: &[T]) -> usize {
    let mut total = 0usize;
    for item in items {
        total = total.saturating_add(item.weight());
    }
    total
}

/// The lists that were returned; memory is refused if it was refused for one of them.
pub(crate) fn collect_ok<T: Drop>(
    alloc: Global,
    answers: Vec<Result<Vec<T>, AllocError>>,
) -> Result<Vec<Vec<T>>, AllocError>
    ensures { IfOk result (λ lists. map (λ list. Ok list) lists.items ≡ answers.items) }
{
    let mut lists = room_for_each(alloc, &answers)?;
    for answer in answers {
        lists.push(answer?)?;
    }
    Ok(lists)
}

/// All items, list after list. Each list is freed as soon as its items are taken.
pub(crate) fn concat_lists<T: Drop>(alloc: Global, lists: Vec<Vec<T>>) -> Result<Vec<T>, AllocError>
    ensures { IfOk result (λ all. all.items ≡ flat_map (λ list. list.items) lists.items) }
{
    let mut all = room_for_all(alloc, &lists)?;
    for mut list in lists {
        all.append(&mut list)?;
    }
    Ok(all)
}

// An empty list with room for the items of all lists.
fn room_for_all<T>(alloc: Global, lists: &[Vec<T>]) -> Result<Vec<T>, AllocError>
    ensures empty { IfOk result (λ room. room.items ≡ []) }
    ensures bounded { IfOk result (λ room. vec_capacity room ≤ length (flat_map (λ list. list.items) lists.now)) }
{
    Vec::with_capacity(alloc, item_count(lists))
}

/// How many items the lists have, as far as a `usize` reaches.
pub(crate) fn item_count<T>(lists: &[Vec<T>]) -> usize
    ensures { result ≡ min (length (flat_map (λ list. list.items) lists.now)) (2 ^ 64 - 1) }
{
    let mut count = 0usize;
    for list in lists {
        count = count.saturating_add(list.len());
    }
    count
}
