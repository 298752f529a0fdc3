//! The tally of the reads of all sources: they are read, cleaned and cut into batches, and as many threads as are asked
//! for count the words of the batches, all of them or those of a list. The caller decides whether the tally is wanted,
//! or only its histogram or its statistics.
ghost use Rattle.std.specs.Prelude.{◌≡◌, ◌≤◌, ◌<◌, ◌+◌, ◌^◌, length, IfOk, IfErr, IfSome, OnOk};
ghost use Rattle.kc_fastx.specs.Parsing.{most_bytes};
ghost use Rattle.kc_word.specs.Shared.{values};
ghost use Rattle.kc_booking.specs.Setup.{stripe_count};
ghost use Rattle.kc_booking.specs.Stripe.{position_sum};
ghost use Rattle.kc_tool.specs.CountedTallies.{KnowsOne};
ghost use Rattle.kc_tool.specs.GivenSources.{Keeps, seen_in};
ghost use Rattle.kc_report.specs.Table.{IsOrigin, MaySay};
ghost use Rattle.kc_tool.specs.Tallies.{
  CutsBatches,
  CutsNext,
  CutsSources,
  GivesWords,
  IsListUnder,
  RefusesList,
  RefusesSource,
  RefusesSources,
  TalliesSources,
  kept_to,
  reader_lacks_memory,
  words_of,
};
ghost use Rattle.kc_command.specs.Settings.{Settings, rule_of};

use crate::count_progress::Progress;
use crate::given_sources::{GivenSources, ReadsSource};
use crate::read_ahead::{Cutter, ReadBuffer, Reader, cut_all};
use crate::reported::Reported;
use crate::tool_faults::ToolFault;
use kc_command::Options;
use kc_fastx::{FastxFault, Source, read_all};
use kc_hash::Hash;
use kc_report::Origin;
use kc_run::{quotient_tables, run};
use kc_stripe::Setup;
use kc_word::{Batch, Cutting, Only, Rule};
use std::alloc::{AllocError, Global};
use std::mem::swap;
use std::sync::{Arc, Wait};
use std::thread::Threads;

/// The most bytes that the sources of one count may have together, and that its list may have.
pub const MAX_BYTES: u64 = 1 << 36;

/// A long list enlarges batches to this many positions for each of its words, up to `LISTED_POSITIONS`.
const POSITIONS_A_WORD: u64 = 4;

/// The most positions to which a list enlarges a batch: as many as make a round of a worker.
const LISTED_POSITIONS: u64 = 4_000_000;

/// The seed of the hash that divides the words among the stripes. No report depends on it.
const SEED: u64 = 1;

/// The list of the words that occur in the reads of this source, under the rule of the count.
///
/// # Errors
/// `Fastx` with the fault of the source, whose number is 0. `Memory` if a growth was refused after the reading.
pub(crate) fn read_list<R: Source>(
    alloc: Global,
    source: &mut R,
    rule: &Rule,
) -> Result<Only, ToolFault>
    ensures list { IfOk result (GivesWords rule.now (R.seen source.old) (R.seen source.new)) }
    ensures fault { IfErr result (RefusesList (R.seen source.old) (R.seen source.new)) }
{
    match read_all(alloc, source, MAX_BYTES) {
        Ok((reads, _count)) => Ok(Only::of(alloc, &reads, rule)?),
        Err(fault) => Err(ToolFault::Fastx { source: 0, fault }),
    }
}

/// What a command works with: threads of the runtime, this memory, and who is notified of the progress.
#[derive(Drop)]
pub(crate) struct Means<'a, H: Threads, P: Progress> {
    /// The runtime.
    pub rt: &'a H,
    /// The memory.
    pub alloc: Global,
    /// Who is notified.
    pub progress: &'a P,
}

/// Counts the words of the reads of the sources, in order, as the options ask, or only those of the list, with as many
/// threads as are asked for. It returns the summary of their tally that the caller wants, and its origin. It reports
/// how many bytes each read gave, how many batches there are, and each that was booked. Condition: the list fits the
/// rule of the options.
///
/// # Errors
/// `Fastx` with the fault of the first source that has one, and its number from 1; the sources after it are unchanged.
/// `Run` if a thread, a place in a table or memory for them was refused. `Memory` if a growth was refused elsewhere.
pub(crate) fn count_given<
    S: Reported,
    H: Threads + Wait + Sync,
    R: Source,
    F: Source,
    P: Progress + Sync,
>(
    means: &Means<'_, H, P>,
    options: &Options,
    list: Option<Only>,
    sources: &mut GivenSources<'_, '_, '_, R, F>,
) -> Result<(S, Option<Origin>), ToolFault>
    requires { IfSome list (IsListUnder (rule_of options.now)) }
    ensures tally { let Tallies = TalliesSources (seen_in R.seen F.seen sources.old)
        (seen_in R.seen F.seen sources.new) in
        IfOk result (λ table. KnowsOne S.knows table.0
        (λ tally. Tallies options.now (words_of list) (tally, table.1))) }
    ensures origin { IfOk result (λ table. MaySay table.1) }
    ensures fault { let Refuses = RefusesSources options.now (seen_in R.seen F.seen sources.old) in
        IfErr result (Refuses (seen_in R.seen F.seen sources.new)) }
    ensures kept { Keeps R.seen F.seen sources.old sources.new }
{
    let Means {
        rt,
        alloc,
        progress,
    } = *means;
    let (batches, origin) = batches_given(means, &list, options, sources)?;
    progress.counting_begins(batches.len() as u64);
    let setup = setup_of(alloc, list, options)?;
    let tables = quotient_tables(alloc, &setup, options.size())?;
    let workers = options.workers();
    let summary = run(rt, alloc, &batches, &setup, tables, workers, progress)?;
    Ok((summary, Some(origin)))
}

/// Whether there was no memory for the reader of a source.
pub(crate) fn reader_lacks_memory(fault: &ToolFault) -> bool
    ensures { result ≡ reader_lacks_memory fault.now }
{
    match fault {
        ToolFault::Fastx { source: _, fault } => *fault == FastxFault::Memory,
        _ => false,
    }
}

// The batches of the reads of the sources, in order, and the origin of a count of them. They have as many positions as
// the options ask for, and more if a list is long: each booking of a batch compares the lists, and so this takes little
// time compared with counting. A fault is one of `cut_given`.
fn batches_given<H: Threads, R: Source, F: Source, P: Progress>(
    means: &Means<'_, H, P>,
    list: &Option<Only>,
    options: &Options,
    sources: &mut GivenSources<'_, '_, '_, R, F>,
) -> Result<(Vec<Arc<Batch>>, Origin), ToolFault>
    ensures cut { let Cuts = CutsBatches (seen_in R.seen F.seen sources.old) (seen_in R.seen F.seen sources.new) in
        IfOk result (λ cut. Cuts options.now (words_of list.now) (values cut.0.items) cut.1) }
    ensures few { IfOk result (λ cut. length cut.0.items ≤ 2 ^ 40) }
    ensures small { IfOk result (λ cut. position_sum options.now.k (values cut.0.items) ≤ 2 ^ 62) }
    ensures origin { IfOk result (λ cut. IsOrigin cut.1) }
    ensures fault { let Refuses = RefusesSources options.now (seen_in R.seen F.seen sources.old) in
        IfErr result (Refuses (seen_in R.seen F.seen sources.new)) }
    ensures kept { Keeps R.seen F.seen sources.old sources.new }
{
    let words = match list {
        None => 0,
        Some(list) => list.words().len() as u64,
    };
    let wanted = words.saturating_mul(POSITIONS_A_WORD).min(LISTED_POSITIONS);
    let size = wanted.max(options.batch());
    let rule = options.rule();
    let cutter = Cutter {
        rt: means.rt,
        alloc: means.alloc,
        threads: options.workers(),
        rule: &rule,
        progress: means.progress,
    };
    let (cutting, reads) = cut_given(&cutter, sources, size)?;
    let batches = cutting.finish(means.alloc)?;
    // for the proof: facts about a length
    let _bases = rule.k().get();
    let origin = Origin {
        floor: rule.floor(),
        reads,
        listed: list.is_some(),
    };
    Ok((batches, origin))
}

// The cutting of the reads of the sources, in order, into batches of `size` positions, and how many reads there are.
// Each source is read whole before the next one. Some reads are cut while the next ones are read, so the text of only
// two buffers of reads is in memory at a time. A fault is that of the first source that has one, with its number from
// 1, or `Memory` if a growth was refused outside the reading. Condition: the size is at least 1.
fn cut_given<H: Threads, R: Source, F: Source, P: Progress>(
    cutter: &Cutter<'_, H, P>,
    sources: &mut GivenSources<'_, '_, '_, R, F>,
    size: u64,
) -> Result<(Cutting, u64), ToolFault>
    requires { 1 ≤ size }
    ensures cut { let Cuts = CutsSources (seen_in R.seen F.seen sources.old) (seen_in R.seen F.seen sources.new) in
        IfOk result (λ cut. Cuts cutter.now.rule.now size cut.0 cut.1) }
    ensures fault { (settings : Settings) → IfErr result
        (RefusesSources settings (seen_in R.seen F.seen sources.old) (seen_in R.seen F.seen sources.new)) }
    ensures kept { Keeps R.seen F.seen sources.old sources.new }
{
    let mut cut = ReadsInCutting {
        cutting: Cutting::new(cutter.alloc, cutter.rule.k(), size),
        left: MAX_BYTES,
        sources: 0,
        reads: 0,
    };
    for i in 0..sources.count() {
        sources.read(i, cutter, &mut cut)?;
    }
    Ok((cut.cutting, cut.reads))
}

impl<H: Threads, P: Progress> ReadsSource<ReadsInCutting> for Cutter<'_, H, P> {
    type Gives = ();

    ghost use Rattle.kc_tool.specs.Tallies.{MayCutNext, CutsNextOrRefuses};

    ghost can_read = { λ cutter cut. MayCutNext cut };

    ghost reads = { λ cutter old new cut after result. CutsNextOrRefuses old new cutter.rule.now cut after result };

    fn read_source<R: Source>(
        &self,
        source: &mut R,
        state: &mut ReadsInCutting,
    ) -> Result<(), ToolFault> {
        state.take(self, source)
    }
}

// A cutting of the reads of the sources that were read so far, and how many there were.
#[derive(Drop)]
struct ReadsInCutting {
    cutting: Cutting,
    // how many bytes the sources after them may give
    left: u64,
    // how many sources were read
    sources: u64,
    // how many reads they gave
    reads: u64,
}

impl ReadsInCutting {
    // Reads the next source whole, and cuts the pieces of its reads after those that were cut. A fault is that of the
    // source, with its number, and a fault of the lines is returned only after the rest was read.
    fn take<H: Threads, R: Source, P: Progress>(
        &mut self,
        cutter: &Cutter<'_, H, P>,
        source: &mut R,
    ) -> Result<(), ToolFault>
        requires few { self.old.reads + self.old.left ≤ most_bytes }
        requires numbered { self.old.sources < u64.MAX }
        ensures next { OnOk result
            (CutsNext (R.seen source.old) (R.seen source.new) cutter.now.rule.now self.old self.new) }
        ensures fault { IfErr result
            (RefusesSource (R.seen source.old) (R.seen source.new) (self.old.sources + 1) self.old.left) }
    {
        self.sources += 1;
        let number = self.sources;
        let alloc = cutter.alloc;
        let Ok(mut reader) = Reader::new(alloc, self.left) else {
            return Err(ToolFault::Fastx {
                source: number,
                fault: FastxFault::Memory,
            });
        };
        let mut front = ReadBuffer::new(alloc);
        let mut back = ReadBuffer::new(alloc);
        let mut count = 0u64;
        'reads: loop {
            let cutting = &mut self.cutting;
            let more = match cutter.cut_and_read(
                cutting,
                &mut front,
                &mut reader,
                source,
                &mut back,
            )? {
                Ok(more) => more,
                Err(fault) => {
                    return Err(ToolFault::Fastx {
                        source: number,
                        fault: reader.reading.settle(source, fault),
                    });
                }
            };
            count += back.reads.len() as u64;
            if !more {
                cut_all(alloc, cutter.rule, &back.reads, &mut self.cutting)?;
                self.left -= reader.reading.byte_count();
                self.reads += count;
                return Ok(());
            }
            swap(&mut front, &mut back);
        }
    }
}

// The setup that the options ask for: how words are divided among the stripes, and which count. Condition: the list
// fits the rule of the options.
fn setup_of(alloc: Global, list: Option<Only>, options: &Options) -> Result<Setup, AllocError>
    requires { IfSome list (IsListUnder (rule_of options.now)) }
    ensures rule { IfOk result (λ setup. setup.rule ≡ kept_to (words_of list) (rule_of options.now)) }
    ensures stripes { IfOk result (λ setup. stripe_count setup ≡ options.now.stripes) }
{
    let rule = options.rule();
    let hash = Hash::seeded(2 * rule.k().get(), SEED);
    let Some(setup) = Setup::new(rule, hash, options.stripes()) else {
        unreachable!()
    };
    let Some(list) = list else {
        return Ok(setup);
    };
    let Some(setup) = setup.listed(Arc::new(alloc, list)?) else {
        unreachable!()
    };
    Ok(setup)
}
