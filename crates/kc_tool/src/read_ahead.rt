//! The reads of a source, some at a time: some are cleaned and cut while the next ones are read.
ghost use Rattle.std.specs.Prelude.{◌≡◌, ◌≤◌, ◌++◌, ◌∷◌, [], length, IfOk, OnOk};
ghost use Rattle.kc_fastx.specs.Parsing.{most_bytes};
ghost use Rattle.kc_fastx.specs.Reading.{first_stand};
ghost use Rattle.kc_tool.specs.ReadAhead.{TakesReads, ReadsMore};

use crate::count_progress::Progress;
use kc_fastx::{FastxFault, Reading, SeqRead, Source};
use kc_word::{Cutting, Rule, clean};
use std::alloc::{AllocError, Global};
use std::thread::{Threads, join_mut};

// So many reads are taken at a time, or fewer if they have so many bases.
const AHEAD_READS: usize = 1 << 13;

const AHEAD_BASES: usize = 1 << 18;

// A read of at most so many bases leaves its memory to others.
const SHORT_BASES: usize = 1 << 10;

/// Whether there may be more reads, or the fault of the source.
pub(crate) type More = Result<bool, FastxFault>;

/// Reads that were taken together. The memory of short ones is used again.
#[derive(Drop)]
pub(crate) struct ReadBuffer {
    /// The reads.
    pub reads: Vec<SeqRead>,
    // how many bases they have
    bases: usize,
    // reads whose memory others may take
    spare: Vec<SeqRead>,
}

impl ReadBuffer {
    /// No reads yet.
    pub(crate) fn new(alloc: Global) -> ReadBuffer
        ensures { result.reads.items ≡ [] }
    {
        ReadBuffer {
            reads: Vec::new(alloc),
            bases: 0,
            spare: Vec::new(alloc),
        }
    }

    // Appends the read.
    fn push(&mut self, read: SeqRead) -> Result<(), AllocError>
        ensures { OnOk result (self.new.reads.items ≡ self.old.reads.items ++ read ∷ []) }
    {
        self.bases = self.bases.saturating_add(read.bases().len());
        let read = match self.spare.pop() {
            Some(spare) => spare.refill(&read)?,
            None => read,
        };
        self.reads.push(read)?;
        Ok(())
    }

    // Removes all reads.
    fn clear(&mut self)
        ensures { self.new.reads.items ≡ [] }
    {
        while let Some(read) = self.reads.pop() {
            if read.bases().len() <= SHORT_BASES {
                // If memory for that is refused, the read is freed.
                let _kept = self.spare.push(read);
            }
        }
        self.bases = 0;
    }

    // Whether these reads are cut before others are taken.
    fn is_full(&self) -> bool {
        self.bases >= AHEAD_BASES
    }

    // Whether these reads are cut and removed before the next ones are read: if there are none, or if they take so much
    // memory that those of a second buffer would double it.
    fn is_cut_first(&self) -> bool {
        self.reads.is_empty() || self.bases > 2 * AHEAD_BASES
    }
}

/// A reader of a source, and how many bytes of it were reported.
#[derive(Drop)]
pub(crate) struct Reader {
    /// The reader.
    pub reading: Reading,
    told: u64,
}

impl Reader {
    /// A reader that takes at most `limit` bytes of its source.
    pub(crate) fn new(alloc: Global, limit: u64) -> Result<Reader, AllocError>
        requires { limit ≤ most_bytes }
        ensures { IfOk result (λ reader. reader.reading ≡ first_stand limit) }
    {
        let reading = Reading::new(alloc, limit)?;
        Ok(Reader { reading, told: 0 })
    }

    // Takes reads until the buffer is full or none is left, and reports the bytes that came after each. Condition: the
    // buffer is empty.
    fn read_some<R: Source, P: Progress>(
        &mut self,
        alloc: Global,
        source: &mut R,
        progress: &P,
        buffer: &mut ReadBuffer,
    ) -> Result<More, AllocError>
        requires { buffer.old.reads.items ≡ [] }
        ensures { IfOk result (ReadsMore (R.seen source.old) (R.seen source.new)
            self.old.reading self.new.reading buffer.new.reads.items) }
    {
        for _ in 0..AHEAD_READS {
            let read = match self.reading.next_read(alloc, source) {
                Ok(read) => read,
                Err(fault) => return Ok(Err(fault)),
            };
            self.report(progress);
            let Some(read) = read else {
                return Ok(Ok(false));
            };
            buffer.push(read)?;
            if buffer.is_full() {
                return Ok(Ok(true));
            }
        }
        Ok(Ok(true))
    }

    // Reports the bytes that came since the last report.
    fn report<P: Progress>(&mut self, progress: &P)
        ensures { self.new.reading ≡ self.old.reading }
    {
        let taken = self.reading.taken_count();
        if self.told < taken {
            progress.bytes_read(taken - self.told);
            self.told = taken;
        }
    }
}

/// How sources are read for a cutting: with this memory, under this rule, by two threads if there may be so many; and
/// who is notified of the bytes that come.
#[derive(Drop)]
pub(crate) struct Cutter<'a, H: Threads, P: Progress> {
    /// The runtime.
    pub rt: &'a H,
    /// The memory.
    pub alloc: Global,
    /// How many threads there may be.
    pub threads: u32,
    /// The rule of the count.
    pub rule: &'a Rule,
    /// Who is notified.
    pub progress: &'a P,
}

impl<H: Threads, P: Progress> Cutter<'_, H, P> {
    /// Cuts the reads of one buffer while the next ones are read into the other one, and then removes them. Condition:
    /// the other buffer is empty.
    pub(crate) fn cut_and_read<R: Source>(
        &self,
        cutting: &mut Cutting,
        front: &mut ReadBuffer,
        reader: &mut Reader,
        source: &mut R,
        back: &mut ReadBuffer,
    ) -> Result<More, AllocError>
        requires { back.old.reads.items ≡ [] }
        ensures cut { OnOk result (TakesReads self.now.rule.now front.old.reads.items cutting.old cutting.new) }
        ensures removed { OnOk result (front.new.reads.items ≡ []) }
        ensures read { IfOk result (ReadsMore (R.seen source.old) (R.seen source.new)
            reader.old.reading reader.new.reading back.new.reads.items) }
    {
        if self.threads < 2 || front.is_cut_first() {
            cut_all(self.alloc, self.rule, &front.reads, cutting)?;
            front.clear();
            return reader.read_some(self.alloc, source, self.progress, back);
        }
        let (cut, more) = self.cut_while_reading(cutting, &front.reads, reader, source, back);
        cut?;
        front.clear();
        more
    }

    // Cuts these reads in a new thread, and reads the next ones into the buffer in this one. Condition: the buffer is
    // empty.
    fn cut_while_reading<R: Source>(
        &self,
        cutting: &mut Cutting,
        front: &[SeqRead],
        reader: &mut Reader,
        source: &mut R,
        back: &mut ReadBuffer,
    ) -> (Result<(), AllocError>, Result<More, AllocError>)
        requires { back.old.reads.items ≡ [] }
        ensures cut { OnOk result.0 (TakesReads self.now.rule.now front.now cutting.old cutting.new) }
        ensures read { IfOk result.1 (ReadsMore (R.seen source.old) (R.seen source.new)
            reader.old.reading reader.new.reading back.new.reads.items) }
    {
        let (alloc, rule, progress) = (self.alloc, self.rule, self.progress);
        let mut cut = || -> Result<(), AllocError>
            ensures { OnOk result (TakesReads rule.entry.now front.entry.now cutting.entry.now cutting.exit.now) }
        { cut_all(alloc, rule, front, cutting) };
        let mut read = || -> Result<More, AllocError>
            requires { back.now.reads.items ≡ [] }
            ensures { IfOk result (ReadsMore (R.seen source.entry.now) (R.seen source.exit.now)
                reader.entry.now.reading reader.exit.now.reading back.exit.now.reads.items) }
        { reader.read_some(alloc, source, progress, back) };
        join_mut(self.rt, &mut cut, &mut read)
    }
}

/// Cleans the reads, and cuts their pieces after those that were cut.
pub(crate) fn cut_all(
    alloc: Global,
    rule: &Rule,
    reads: &[SeqRead],
    cutting: &mut Cutting,
) -> Result<(), AllocError>
    ensures { OnOk result (TakesReads rule.now reads.now cutting.old cutting.new) }
{
    for read in reads {
        let piece = clean(alloc, read, rule)?;
        cutting.push(alloc, &piece)?;
    }
    Ok(())
}
