//! The rows that are taken from the stripes of a count, in parts.
ghost use Rattle.std.specs.Prelude.{◌≡◌, ℕ, List, map, IfOk};
ghost use Rattle.kc_word.specs.Cutting.{NumberedPieces};
ghost use Rattle.kc_booking.specs.Setup.{StripeSetup};
ghost use Rattle.kc_booking.specs.Stripe.{AreStripeRows, row_of_pair};
ghost use Rattle.kc_gather.specs.Gathering.{IsWhole, HasRowsOf};

use crate::parts::divide_rows;
use crate::stripe_part::StripePart;
use kc_booking::Stripe;
use kc_lemmas::room_for_each;
use kc_table::Counts;
use kc_tally::LooseRows;
use std::alloc::{AllocError, Global};

/// The words of a stripe with their counts, in parts by the highest bits of the words. The stripe is freed.
pub(crate) fn rows_of<C: Counts + Drop>(
    alloc: Global,
    stripe: Stripe<C>,
) -> Result<Vec<LooseRows>, AllocError>
    ensures { (setup : StripeSetup) (batches : List NumberedPieces) (n : ℕ) → IsWhole setup batches n stripe
        → IfOk result (HasRowsOf setup batches n) }
{
    // for the proof: facts about the journal
    stripe.is_lawful();
    let k = stripe.setup().rule().k();
    let rows = unparted_rows(alloc, stripe)?;
    let parts = divide_rows(alloc, k, &rows)?;
    Ok(parts)
}

// The words of a stripe with their counts. The stripe is freed, so its memory is available for their parts.
fn unparted_rows<C: Counts + Drop>(
    alloc: Global,
    stripe: Stripe<C>,
) -> Result<Vec<(u64, u64)>, AllocError>
    ensures { IfOk result (λ rows.
        AreStripeRows stripe.setup stripe.number stripe.journal (map row_of_pair rows.items)) }
{
    stripe.rows(alloc)
}

/// The rows of all stripes.
pub(crate) fn rows_in(
    alloc: Global,
    parts: Vec<StripePart>,
) -> Result<Vec<Vec<LooseRows>>, AllocError>
    ensures { IfOk result (λ taken. taken.items ≡ map (λ part. part.rows) parts.items) }
{
    let mut taken = room_for_each(alloc, &parts)?;
    for part in parts {
        let StripePart { rows, .. } = part;
        taken.push(rows)?;
    }
    Ok(taken)
}
