//! `Summary`, the result of a count: the tally of its batches or, without its rows, the numbers of that tally.
ghost use Rattle.std.specs.Prelude.{◌≡◌, ℕ, ◌≤◌, ◌^◌, List, length, IfOk, OnOk, IfErr};
ghost use Rattle.kc_fastx.specs.Reads.{Read};
ghost use Rattle.kc_kmer.specs.Rule.{CountingRule};
ghost use Rattle.kc_word.specs.Cutting.{NumberedPieces};
ghost use Rattle.kc_word.specs.Shared.{values};
ghost use Rattle.kc_booking.specs.Setup.{StripeSetup, stripe_count};
ghost use Rattle.kc_booking.specs.Stripe.{reads_in, position_sum};
ghost use Rattle.kc_gather.specs.Gathering.{AreWholeBefore, IsRefusal};
ghost use Rattle.kc_gather.specs.Gathering.{IsWhole, AreAllParts};
ghost use Rattle.kc_gather.specs.Parts.{AreSorted, list_rows};

use crate::columns::sort_in_parallel;
use crate::gather_fault::GatherFault;
use crate::given_stripes::GivenStripes;
use crate::stripe_part::StripePart;
use crate::taken_parts::take_parts_in_parallel;
use kc_booking::{Setup, Stripe};
use kc_table::Counts;
use kc_tally::{LooseLists, PackedRows};
use kc_word::Batch;
use std::alloc::{AllocError, Global};
use std::sync::Arc;
use std::thread::Threads;

/// The result of a count: the `Tally` of its batches or, without its rows, its `Numbers`.
// It is `Send`, since the checker accepts no call in another thread that relies on a bound of a type that is not.
pub trait Summary: Sized + Send {
    ghost use Rattle.kc_gather.specs.declared.stripe_part.StripePart.{StripePart};

    // Whether this is the summary of the tally of these reads.
    ghost is_of: { CountingRule → List Read → Self → Type 0 };

    // Whether this is the part of the stripe of this number in a count of these batches.
    ghost is_part: { StripeSetup → List NumberedPieces → ℕ → StripePart → Type 0 };

    /// What is taken from a stripe for it. The stripe is freed.
    fn part_of<C: Counts + Drop>(alloc: Global, stripe: Stripe<C>) -> Result<StripePart, AllocError>
        ensures { (setup : StripeSetup) (batches : List NumberedPieces) (n : ℕ) → IsWhole setup batches n stripe
            → IfOk result (is_part setup batches n) };

    /// The summary that is made of the parts. If it has rows, `sort` sorts them.
    ///
    /// Conditions: the parts are those of all stripes, in order, in a count of batches that have at most 2^62 positions
    /// together; `sort` returns the rows of each column sorted by their words.
    fn of_parts<F: Fn(Vec<LooseLists>) -> Result<Vec<PackedRows>, AllocError>>(
        alloc: Global,
        parts: Vec<StripePart>,
        setup: &Setup,
        sort: &F,
    ) -> Result<Self, AllocError>
        requires parts { (batches : List NumberedPieces) × AreAllParts is_part setup.now batches parts.items }
        requires callable { F.IsAlwaysCallable sort.now }
        requires sorts { (columns result : _) → F.post sort.now columns result
            → IfOk result (λ sorted. AreSorted (λ column. column.rows) columns.items (list_rows sorted)) }
        ensures { (batches : List NumberedPieces) → AreAllParts is_part setup.now batches parts.items
            → IfOk result (is_of setup.now.rule (reads_in batches)) };

    /// The summary of the tally of the batches, gathered from the stripes into which they were booked, by at most so
    /// many threads. It is refused if `gather` is.
    ///
    /// Conditions: those of `gather`, and at least one thread.
    // It is final, since the checker accepts no function of an impl that hands a bounded type to another thread.
    final fn gather<C: Counts + Drop + Send + Sync, H: Threads + Sync>(
        rt: &H,
        alloc: Global,
        threads: u32,
        stripes: Vec<Stripe<C>>,
        batches: &[Arc<Batch>],
        setup: &Setup,
    ) -> Result<Self, GatherFault>
        requires threads { 1 ≤ threads }
        requires one_each { length stripes.items ≡ stripe_count setup.now }
        requires few { position_sum setup.now.rule.k (values batches.now) ≤ 2 ^ 62 }
        ensures whole { OnOk result
            (AreWholeBefore setup.now (values batches.now) stripes.items (length stripes.items)) }
        ensures summary { IfOk result (is_of setup.now.rule (reads_in (values batches.now))) }
        ensures refused { IfErr result (IsRefusal setup.now (values batches.now) stripes.items) }
    {
        // for the proof: facts about the number of stripes
        setup.stripes();
        let given = GivenStripes {
            stripes: &stripes,
            batches,
            setup,
        };
        given.check_in_parallel(rt, threads, 0, stripes.len())?;
        let parts = take_parts_in_parallel::<Self, C, H>(rt, alloc, threads, stripes)?;
        let sort = |columns: Vec<LooseLists>| -> Result<Vec<PackedRows>, AllocError>
            requires { 1 ≤ threads }
            ensures { IfOk result (λ sorted. AreSorted (λ column. column.rows) columns.items (list_rows sorted)) }
        { sort_in_parallel(rt, alloc, threads, columns) };
        let summary = Self::of_parts(alloc, parts, setup, &sort)?;
        Ok(summary)
    }
}
