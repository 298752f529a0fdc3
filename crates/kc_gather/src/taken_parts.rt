//! What is taken from the stripes of a count for its summary.
ghost use Rattle.std.specs.Prelude.{◌≤◌, IfOk};
ghost use Rattle.kc_gather.specs.Gathering.{HavePartsOf};

use crate::piles::{Weighed, collect_ok, concat_lists, piles_of};
use crate::stripe_part::StripePart;
use crate::summary::Summary;
use kc_booking::Stripe;
use kc_lemmas::room_for_each;
use kc_table::Counts;
use std::alloc::{AllocError, Global};
use std::thread;
use std::thread::Threads;

// Stripes have about equally many words.
impl<C: Counts> Weighed for Stripe<C> {
    fn weight(&self) -> usize {
        1
    }
}

/// The part of each stripe. Each is freed as soon as its part is taken.
pub(crate) fn take_parts<S: Summary, C: Counts + Drop>(
    alloc: Global,
    stripes: Vec<Stripe<C>>,
) -> Result<Vec<StripePart>, AllocError>
    ensures { IfOk result (λ taken. HavePartsOf S.is_part stripes.items taken.items) }
{
    let mut taken = room_for_each(alloc, &stripes)?;
    for stripe in stripes {
        let part = S::part_of(alloc, stripe)?;
        taken.push(part)?;
    }
    Ok(taken)
}

/// The same by at most so many threads. The C library lets a thread reuse what the threads before it freed, so the rows
/// take the place of the tables. Condition: at least one thread.
pub(crate) fn take_parts_in_parallel<S: Summary + Send, C: Counts + Drop + Send, H: Threads + Sync>(
    rt: &H,
    alloc: Global,
    threads: u32,
    stripes: Vec<Stripe<C>>,
) -> Result<Vec<StripePart>, AllocError>
    requires { 1 ≤ threads }
    ensures { IfOk result (λ taken. HavePartsOf S.is_part stripes.items taken.items) }
{
    let piles = piles_of(alloc, stripes, threads)?;
    let answers = thread::map_vec(
        rt,
        piles,
        &|pile: Vec<Stripe<C>>| -> Result<Vec<StripePart>, AllocError>
            ensures { IfOk result (λ taken. HavePartsOf S.is_part pile.items taken.items) }
        { take_parts::<S, C>(alloc, pile) },
    )?;
    let lists = collect_ok(alloc, answers)?;
    let taken = concat_lists(alloc, lists)?;
    Ok(taken)
}
