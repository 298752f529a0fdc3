//! One worker of a run: it draws numbers, and books the batch of each number into every stripe.
ghost use Rattle.std.specs.Prelude.{◌≡◌, ◌+◌, ◌<◌, ◌≤◌, ◌⊎◌, [], All, IfOk, IfErr, OnOk};
ghost use Rattle.std.specs.Prelude.{length};
ghost use Rattle.kc_word.specs.Shared.{values};
ghost use Rattle.kc_tickets.specs.Tickets.{IsSeatOf, IsDone, answers_of};
ghost use Rattle.kc_booking.specs.Stripe.{position_sum};
ghost use Rattle.kc_run.specs.Runs.{IsJob, IsReady, HasWorked, IsWorkerFault, MayEverBeFull, but_last};

use crate::gate::Gate;
use crate::round_booking::{RoundBuffers, RoundLimits, book_range};
use crate::run_fault::RunFault;
use kc_share::{Books, Plan, Share};
use kc_stripe::{Round, Stripes, Terms};
use kc_table::Counts;
use kc_tickets::{Seat, Tickets};
use kc_word::Batch;
use std::alloc::{AllocError, Global};
use std::sync::{Arc, Wait};

/// What all workers of a run use.
#[derive(Drop)]
pub(crate) struct Job<'a, C: Counts, N: Terms, G: Gate> {
    pub batches: &'a [Arc<Batch>],
    pub stripes: &'a Stripes<C, N>,
    /// The plan of the sheet of the shares.
    pub plan: Plan,
    pub tickets: &'a Tickets,
    pub gate: &'a G,
    /// How large the rounds are.
    pub limits: RoundLimits,
    /// How far apart the rounds of two workers begin, so that they don't wait for the lock of one stripe.
    pub stripes_apart: u32,
}

/// A worker: its seat of the tickets, and its share.
#[derive(Drop)]
pub(crate) struct Worker<N: Books> {
    pub seat: Seat,
    pub share: Share<N>,
}

impl<N: Terms> Worker<N> {
    /// Works round by round until no number is left: draws numbers, and books the batch of each into every stripe. The
    /// gate gets the worker's number.
    pub fn work<H: Wait, C: Counts, G: Gate>(
        mut self,
        rt: &H,
        alloc: Global,
        job: &Job<C, N, G>,
        number: u32,
    ) -> Result<Worker<N>, RunFault>
        requires job { let Job = IsJob N.may_be_booked job.now.tickets.now job.now.plan in
            Job job.now.batches.now job.now.stripes.now.setup }
        requires ready { IsReady job.now.tickets.now job.now.plan self.seat self.share }
        ensures worked { IfOk result (λ worker.
            HasWorked job.now.tickets.now job.now.plan worker.seat worker.share) }
        ensures refused { IfErr result (IsWorkerFault (MayEverBeFull N.may_be_full) job.now.plan.stripes) }
    {
        let mut buffers = RoundBuffers::new(alloc, job.stripes.setup())?;
        self.work_in(rt, job, number, &mut buffers)?;
        Ok(self)
    }

    // Works round by round, in these buffers, until no number is left. Condition: the round in them has no batches.
    fn work_in<H: Wait, C: Counts, G: Gate>(
        &mut self,
        rt: &H,
        job: &Job<'_, C, N, G>,
        number: u32,
        buffers: &mut RoundBuffers,
    ) -> Result<(), RunFault>
        requires job { let Job = IsJob N.may_be_booked job.now.tickets.now job.now.plan in
            Job job.now.batches.now job.now.stripes.now.setup }
        requires ready { IsReady job.now.tickets.now job.now.plan self.old.seat self.old.share }
        requires setup { buffers.old.round.setup ≡ job.now.stripes.now.setup }
        requires none { buffers.old.round.batches ≡ [] }
        ensures worked { OnOk result
            (HasWorked job.now.tickets.now job.now.plan self.new.seat self.new.share) }
        ensures refused { IfErr result (IsWorkerFault (MayEverBeFull N.may_be_full) job.now.plan.stripes) }
    {
        let stripes = job.stripes.setup().stripes();
        // The rounds of neighbouring workers begin some stripes apart.
        let first = number.wrapping_mul(job.stripes_apart) % stripes;
        let mut slots = 0;
        while !self.seat.is_done() {
            let Some(drawn) = job.tickets.draw(&mut self.seat) else {
                return Ok(());
            };
            let positions = job.limits.positions_for(slots);
            self.draw_batches(job, number, drawn, positions, &mut buffers.round)?;
            let share = &mut self.share;
            let behind = book_range(rt, job.stripes, buffers, first, stripes, share)?;
            let before = book_range(rt, job.stripes, buffers, 0, first, share)?;
            slots = behind.saturating_add(before);
            tell_after(job.gate, number, buffers.round.batches());
            buffers.round.clear();
        }
        Ok(())
    }

    // Cuts up the batch of a number that was drawn, and those of more numbers until the round has so many positions, or
    // as many batches as it may have, or none is left. The gate is called for each as it is drawn.
    fn draw_batches<C: Counts, G: Gate>(
        &mut self,
        job: &Job<'_, C, N, G>,
        number: u32,
        mut drawn: u64,
        positions: u64,
        round: &mut Round,
    ) -> Result<(), AllocError>
        requires own { IsSeatOf job.now.tickets.now self.old.seat }
        requires more { ¬ IsDone self.old.seat }
        requires limit { job.now.tickets.now.limit ≡ length job.now.batches.now }
        requires drawn { drawn < length job.now.batches.now }
        requires allowed { All N.may_be_booked (values job.now.batches.now) }
        requires none { round.old.batches ≡ [] }
        ensures own { IsSeatOf job.now.tickets.now self.new.seat }
        ensures share { self.new.share ≡ self.old.share }
        ensures setup { round.new.setup ≡ round.old.setup }
        ensures answered { OnOk result (length (answers_of self.new.seat) + 1
            ≡ length (answers_of self.old.seat) + length round.new.batches) }
        ensures allowed { OnOk result (All N.may_be_booked round.new.batches) }
        ensures some { OnOk result (1 ≤ length round.new.batches) }
        ensures few { OnOk result
            ((length round.new.batches ≡ 1) ⊎ (length round.new.batches ≤ job.now.limits.batches)) }
        ensures bounded { OnOk result ((length round.new.batches ≡ 1)
            ⊎ (position_sum round.old.setup.rule.k (but_last round.new.batches) < positions)) }
    {
        let k = round.setup().rule().k();
        let mut taken: u64 = 0;
        loop {
            let batch = &job.batches[drawn as usize];
            job.gate.before_book(number, batch.number());
            round.cut_up(batch)?;
            taken = taken.saturating_add(batch.position_count(k) as u64);
            if taken >= positions || round.batches().len() as u64 >= job.limits.batches {
                return Ok(());
            }
            let Some(next) = job.tickets.draw(&mut self.seat) else {
                return Ok(());
            };
            drawn = next;
        }
    }
}

// Calls the gate for these batches, which were booked into every stripe.
fn tell_after<G: Gate>(gate: &G, worker: u32, batches: &[Arc<Batch>]) {
    for batch in batches {
        gate.after_book(worker, batch.number());
    }
}
