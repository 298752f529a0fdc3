//! Stripes that were given to be gathered, and what each has to contain.
ghost use Rattle.std.specs.Prelude.{◌≤◌, ◌^◌, length, IfErr, OnOk};
ghost use Rattle.std.specs.Thread.{IsSync};
ghost use Rattle.kc_word.specs.Shared.{values};
ghost use Rattle.kc_gather.specs.Gathering.{AreWholeIn, IsRefusedIn};

use crate::gather_fault::GatherFault;
use crate::journal::check_stripe;
use kc_booking::{Setup, Stripe};
use kc_table::Counts;
use kc_word::Batch;
use std::sync::Arc;
use std::thread::{Threads, join};

/// Stripes, the batches that the journal of each has to contain, and how the words are divided among them.
#[derive(Drop)]
pub(crate) struct GivenStripes<'a, C: Counts> {
    pub(crate) stripes: &'a [Stripe<C>],
    pub(crate) batches: &'a [Arc<Batch>],
    pub(crate) setup: &'a Setup,
}

impl<C: Counts> GivenStripes<'_, C> {
    /// Checks the stripes from one index to before another, in order, until one is refused. It takes no memory.
    /// Condition: there are so many stripes, and at most 2^32.
    pub(crate) fn check(&self, from: usize, to: usize) -> Result<(), GatherFault>
        requires { (to ≤ length self.now.stripes.now) × (to ≤ 2 ^ 32) }
        ensures whole { OnOk result
            (AreWholeIn self.now.setup.now (values self.now.batches.now) self.now.stripes.now from to) }
        ensures refused { IfErr result
            (IsRefusedIn self.now.setup.now (values self.now.batches.now) self.now.stripes.now from to) }
    {
        for index in from..to {
            check_stripe(index as u32, &self.stripes[index], self.batches, self.setup)?;
        }
        Ok(())
    }
}

impl<C: Counts + Sync> GivenStripes<'_, C> {
    /// The same by at most so many threads, since batches are compared with all their bases. It takes no memory.
    /// Conditions: those of `check`, and the first index is not above the other.
    #[cycle(halves)]
    pub(crate) fn check_in_parallel<H: Threads + Sync>(
        &self,
        rt: &H,
        threads: u32,
        from: usize,
        to: usize,
    ) -> Result<(), GatherFault>
        requires range { from ≤ to }
        requires there { (to ≤ length self.now.stripes.now) × (to ≤ 2 ^ 32) }
        ensures whole { OnOk result
            (AreWholeIn self.now.setup.now (values self.now.batches.now) self.now.stripes.now from to) }
        ensures refused { IfErr result
            (IsRefusedIn self.now.setup.now (values self.now.batches.now) self.now.stripes.now from to) }
    {
        if threads < 2 {
            return self.check(from, to);
        }
        let middle = from + (to - from) / 2;
        let low = threads / 2;
        let high = threads - low;
        let front = || -> Result<(), GatherFault>
            requires { IsSync H.row × IsSync C.row × (from ≤ middle) × (middle ≤ length self.now.stripes.now)
                × (middle ≤ 2 ^ 32) }
            ensures { let given = self.entry.now in
                let batches = values given.batches.now in
                OnOk result (AreWholeIn given.setup.now batches given.stripes.now from middle)
                × IfErr result (IsRefusedIn given.setup.now batches given.stripes.now from middle) }
        { self.check_in_parallel(rt, low, from, middle) };
        let back = || -> Result<(), GatherFault>
            requires { IsSync H.row × IsSync C.row × (middle ≤ to) × (to ≤ length self.now.stripes.now)
                × (to ≤ 2 ^ 32) }
            ensures { let given = self.entry.now in
                let batches = values given.batches.now in
                OnOk result (AreWholeIn given.setup.now batches given.stripes.now middle to)
                × IfErr result (IsRefusedIn given.setup.now batches given.stripes.now middle to) }
        { self.check_in_parallel(rt, high, middle, to) };
        let (first, second) = join(rt, front, back);
        first?;
        second
    }
}
