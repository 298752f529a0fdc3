//! The tables of a new count: an empty one for each stripe.
ghost use Rattle.std.specs.Prelude.{◌≡◌, length, min, All, IfOk};
ghost use Rattle.std.specs.FinMap.{empty};
ghost use Rattle.kc_table.specs.QuotientTable.{counts_in};
ghost use Rattle.kc_table.specs.Sizes.{most_log};
ghost use Rattle.kc_booking.specs.Setup.{stripe_count, key_bits};
ghost use Rattle.kc_booking.specs.Tables.{IsStartLog};

use crate::setup::Setup;
use kc_table::{PlainCounts, QuotientTable};
use std::alloc::{AllocError, Global};

// The greatest log of a table: it has at most 2^40 slots.
const MAX_LOG: u32 = 40;

// The least log of a table, unless there are fewer keys than slots.
const MIN_LOG: u32 = 4;

/// An empty `PlainCounts` for each stripe, for keys of the setup's `key_bits`.
pub fn plain_tables(alloc: Global, setup: &Setup) -> Result<Vec<PlainCounts>, AllocError>
    ensures one_each { IfOk result (λ tables. length tables.items ≡ stripe_count setup.now) }
    ensures bits { IfOk result (λ tables. All (λ table. table.bits ≡ key_bits setup.now) tables.items) }
    ensures empty { IfOk result (λ tables. All (λ table. table.counts ≡ empty) tables.items) }
{
    let bits = setup.key_bits();
    let mut tables = Vec::new(alloc);
    for _ in 0..setup.stripes() {
        tables.push(PlainCounts::new(alloc, bits))?;
    }
    Ok(tables)
}

/// An empty `QuotientTable` for each stripe, for keys of the setup's `key_bits`. Each may grow as far as its type
/// allows. The tables begin with the fewest slots, a power of two each, that are at least `size` together, within the
/// sizes that `QuotientTable::new` accepts.
pub fn quotient_tables(
    alloc: Global,
    setup: &Setup,
    size: u64,
) -> Result<Vec<QuotientTable>, AllocError>
    ensures one_each { IfOk result (λ tables. length tables.items ≡ stripe_count setup.now) }
    ensures bits { IfOk result (λ tables. All (λ table. table.bits ≡ key_bits setup.now) tables.items) }
    ensures max_log { IfOk result (λ tables.
        All (λ table. table.max_log ≡ min most_log (key_bits setup.now)) tables.items) }
    ensures log { IfOk result (λ tables.
        All (λ table. IsStartLog (stripe_count setup.now) size (key_bits setup.now) table.log) tables.items) }
    ensures empty { IfOk result (λ tables. All (λ table. counts_in table.slots ≡ empty) tables.items) }
{
    let bits = setup.key_bits();
    let max_log = bits.min(MAX_LOG);
    // size <= 2^log * stripes exactly if (size - 1) / stripes < 2^log
    let last = size.saturating_sub(1) / setup.stripes() as u64;
    let least_log = if last == 0 { 0 } else { last.ilog2() + 1 };
    let log = least_log.clamp(bits.min(MIN_LOG), max_log);
    let mut tables = Vec::new(alloc);
    for _ in 0..setup.stripes() {
        tables.push(QuotientTable::new(alloc, bits, log, max_log)?)?;
    }
    Ok(tables)
}
