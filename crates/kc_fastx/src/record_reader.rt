//! The reads of a source, one after another: the reader keeps a block of its bytes and one record.
ghost use Rattle.std.specs.Prelude.{◌≡◌, ℕ, List, true, false, None, Some, Err, ◌+◌, ◌≤◌, ◌<◌};
ghost use Rattle.std.specs.Prelude.{length, min, ◌-◌, ◌^◌, IfOk, IfErr, OnOk, OnErr, IfSome, OnSome};
ghost use Rattle.kc_io.specs.Sources.{Seen};
ghost use Rattle.kc_fastx.specs.Reads.{Read};
ghost use Rattle.kc_fastx.specs.Lines.{line_count, skip_blanks, Passes, HasWhole, HasLongestWhole};
ghost use Rattle.kc_fastx.specs.Parsing.{most_bytes, RefusesFor};
ghost use Rattle.kc_fastx.specs.Reading.{first_stand, HasGiven, MeetsFault, GivesNext, TellsNext};
ghost use Rattle.kc_fastx.specs.Reading.{ComesBehind, IsNext, NextFails, IsSure, IsUnsure, Moves, Grows};
ghost use Rattle.kc_fastx.specs.Reading.{AtMostDoubles, TakesFew, UsesFront, WantsMore};
ghost use Rattle.kc_fastx.specs.Titles.{Record, HasGivenRecords, GivesRecord, TellsRecord, reads_in};
ghost use Rattle.kc_fastx.specs.Reading.{BeginsRecord, BeginsTitle, LacksMemory};
ghost use Rattle.kc_fastx.specs.Faults.{UnlessMemory, kept_fault};

use crate::fasta::next_fasta;
use crate::fastq::next_fastq;
use crate::read_faults::FastxFault;
use crate::reads::SeqRead;
use crate::text_lines::LineCursor;
use kc_gzip::{Intake, TakeFault};
use kc_io::Source;
use memchr::memrchr;
use std::alloc::{AllocError, Global};
use std::marker::Model;

// What the bytes that were taken determine of the next read.
#[derive(Drop)]
pub enum Next {
    Given(SeqRead),
    // All bytes were taken, and no record is left.
    End,
    // There is no whole record yet.
    Short,
}

/// A reader of the reads of a source, one after another, which leaves the source with its caller. It keeps a block of
/// the bytes and one record, whatever came before.
///
/// Contracts are about the reads that were given so far: after `new`, `HasGiven` holds with none; `next_read` adds the
/// read that it gives; and if it returns `None`, they are all reads of all bytes. Each call is handed the same source,
/// and nobody else takes bytes from it meanwhile.
#[derive(Drop)]
pub struct Reading {
    intake: Intake,
    used: u64,
    lines_used: u64,
    is_fastq: bool,
    ended: bool,
    failed: Option<FastxFault>,
}

impl Model for Reading {
    ghost use Rattle.std.specs.Prelude.{◌≡◌, ◌≤◌, ◌<◌, ◌+◌, ◌^◌, length, None};
    ghost use Rattle.kc_fastx.specs.Reading.{Stand};

    ghost Value = { Stand };

    ghost view = { λ r. record {
      unread = r.intake;
      used = r.used;
      lines_used = r.lines_used;
      is_fastq = r.is_fastq;
      ended = r.ended;
      failed = r.failed;
    } };

    ghost invariant = { λ r. (r.lines_used ≤ r.used)
        × (r.failed ≡ None → r.used + (length r.intake.bytes + r.intake.room) < 2 ^ 63) };
}

impl Reading {
    /// A reader that takes at most `limit` bytes of its source. Nothing is taken yet. Condition: the limit is at most
    /// 2^36.
    ///
    /// # Errors
    /// `AllocError` if the block was refused.
    pub fn new(alloc: Global, limit: u64) -> Result<Reading, AllocError>
        requires { limit ≤ most_bytes }
        ensures { IfOk result (λ reading. reading ≡ first_stand limit) }
    {
        let intake = Intake::new(alloc, limit)?;
        Ok(Reading {
            intake,
            used: 0,
            lines_used: 0,
            is_fastq: false,
            ended: false,
            failed: None,
        })
    }

    /// The next read, or none if all bytes were taken and no read is left. Blocks are taken until there is a whole
    /// record or the source has returned its end.
    ///
    /// # Errors
    /// The first fault of all bytes, with its line, as soon as the lines that were taken determine it. `TooLong` if the
    /// source gave more bytes than the limit, and `Read` if it failed, before the next record was whole. `Memory` if a
    /// growth was refused. The reader keeps its fault: from then on it returns the same, takes nothing from the source
    /// and is unchanged. Only `Memory` for the text of a record is not kept: the reader still has given the same reads,
    /// and can be called again. `Memory` for bytes that the source had given already is kept, since these bytes are
    /// lost.
    pub fn next_read<S: Source>(
        &mut self,
        alloc: Global,
        source: &mut S,
    ) -> Result<Option<SeqRead>, FastxFault>
        ensures given { (start : Seen) (limit : ℕ) (reads : List Read)
            → HasGiven start (S.seen source.old) limit reads self.old
            → GivesNext start (S.seen source.new) limit reads self.new result }
        ensures behind { (start : Seen) (limit : ℕ) (reads : List Read)
            → HasGiven start (S.seen source.old) limit reads self.old
            → IfErr result (ComesBehind reads self.new) }
        ensures used { IfOk result (λ next. IfSome next (λ read. self.old.used < self.new.used)) }
        ensures few { TakesFew self.old self.new }
        ensures memory { result ≡ Err FastxFault.Memory → self.old.failed ≡ None → LacksMemory self.new }
        ensures again { IfSome self.old.failed (λ fault. result ≡ Err fault) }
        ensures unchanged { OnSome self.old.failed (self.new ≡ self.old) }
        ensures untaken { OnSome self.old.failed (S.seen source.new ≡ S.seen source.old) }
        ensures kept { IfErr result (UnlessMemory (λ fault. self.new.failed ≡ Some fault)) }
        ensures resumed { OnErr result (self.new.failed ≡ None → (start : Seen) (limit : ℕ) (reads : List Read)
            → HasGiven start (S.seen source.old) limit reads self.old
            → HasGiven start (S.seen source.new) limit reads self.new) }
    {
        self.next_of(alloc, source, &mut Vec::new(alloc), false)
    }

    /// The next read, as `next_read` gives it, and its title, which replaces the contents of `title`: the rest of its
    /// first line, after the first byte. If no read is given, `title` may have any contents.
    ///
    /// # Errors
    /// Those of `next_read`; also `Memory` if there was none for the title.
    pub fn next_titled<S: Source>(
        &mut self,
        alloc: Global,
        source: &mut S,
        title: &mut Vec<u8>,
    ) -> Result<Option<SeqRead>, FastxFault>
        ensures given { (start : Seen) (limit : ℕ) (records : List Record)
            → HasGivenRecords start (S.seen source.old) limit records self.old
            → GivesRecord start (S.seen source.new) limit records self.new title.new.items result }
        ensures behind { (start : Seen) (limit : ℕ) (records : List Record)
            → HasGivenRecords start (S.seen source.old) limit records self.old
            → IfErr result (ComesBehind (reads_in records) self.new) }
        ensures used { IfOk result (λ next. IfSome next (λ read. self.old.used < self.new.used)) }
        ensures few { TakesFew self.old self.new }
        ensures memory { result ≡ Err FastxFault.Memory → self.old.failed ≡ None → LacksMemory self.new }
        ensures again { IfSome self.old.failed (λ fault. result ≡ Err fault) }
        ensures unchanged { OnSome self.old.failed (self.new ≡ self.old) }
        ensures untaken { OnSome self.old.failed (S.seen source.new ≡ S.seen source.old) }
        ensures kept { IfErr result (UnlessMemory (λ fault. self.new.failed ≡ Some fault)) }
        ensures resumed { OnErr result (self.new.failed ≡ None → (start : Seen) (limit : ℕ) (records : List Record)
            → HasGivenRecords start (S.seen source.old) limit records self.old
            → HasGivenRecords start (S.seen source.new) limit records self.new) }
    {
        self.next_of(alloc, source, title, true)
    }

    /// How many bytes were taken. Condition: no fault is kept, as after `next_read` has returned a read or none.
    pub fn byte_count(&self) -> u64
        requires { self.now.failed ≡ None }
        ensures { result ≡ self.now.used + length self.now.unread.bytes }
    {
        self.used + self.intake.as_slice().len() as u64
    }

    /// How many bytes the source has given, compressed as it gave them; 2^64 - 1 if there are more.
    pub fn taken_count(&self) -> u64
        ensures { result ≡ min (length self.now.unread.since.bytes) (2 ^ 64 - 1) }
    {
        self.intake.taken_count()
    }

    /// The fault of the source, if all its bytes matter and `next_read` has returned this fault. After a fault of lines
    /// the other bytes are taken and forgotten: that they are too many, or that a read fails, takes precedence.
    pub fn settle<S: Source>(self, source: &mut S, fault: FastxFault) -> FastxFault
        ensures { (start : Seen) (limit : ℕ) → MeetsFault start (S.seen source.old) limit self fault
            → RefusesFor start (S.seen source.new) limit result }
    {
        if self.ended || !fault.is_of_lines() {
            return fault;
        }
        match self.intake.skip_rest(source) {
            Ok(_) => fault,
            Err(why) => FastxFault::from(why),
        }
    }

    // The next read, and its title if that is asked for; otherwise `title` is unchanged.
    fn next_of<S: Source>(
        &mut self,
        alloc: Global,
        source: &mut S,
        title: &mut Vec<u8>,
        is_titled: bool,
    ) -> Result<Option<SeqRead>, FastxFault>
        ensures given { (start : Seen) (limit : ℕ) (reads : List Read)
            → HasGiven start (S.seen source.old) limit reads self.old
            → GivesNext start (S.seen source.new) limit reads self.new result }
        ensures titled { is_titled ≡ true → (start : Seen) (limit : ℕ) (records : List Record)
            → HasGivenRecords start (S.seen source.old) limit records self.old
            → GivesRecord start (S.seen source.new) limit records self.new title.new.items result }
        ensures behind { (start : Seen) (limit : ℕ) (reads : List Read)
            → HasGiven start (S.seen source.old) limit reads self.old
            → IfErr result (ComesBehind reads self.new) }
        ensures used { IfOk result (λ next. IfSome next (λ read. self.old.used < self.new.used)) }
        ensures few { TakesFew self.old self.new }
        ensures memory { result ≡ Err FastxFault.Memory → self.old.failed ≡ None → LacksMemory self.new }
        ensures again { IfSome self.old.failed (λ fault. result ≡ Err fault) }
        ensures unchanged { OnSome self.old.failed (self.new ≡ self.old) }
        ensures untaken { OnSome self.old.failed (S.seen source.new ≡ S.seen source.old) }
        ensures kept { IfErr result (UnlessMemory (λ fault. self.new.failed ≡ Some fault)) }
        ensures resumed { OnErr result (self.new.failed ≡ None → (start : Seen) (limit : ℕ) (reads : List Read)
            → HasGiven start (S.seen source.old) limit reads self.old
            → HasGiven start (S.seen source.new) limit reads self.new) }
        ensures resumed_titled { OnErr result (self.new.failed ≡ None
            → (start : Seen) (limit : ℕ) (records : List Record)
            → HasGivenRecords start (S.seen source.old) limit records self.old
            → HasGivenRecords start (S.seen source.new) limit records self.new) }
    {
        if let Some(fault) = self.failed {
            return Err(fault);
        }
        'reading: loop {
            match self.next_of_whole(alloc, title, is_titled) {
                Ok(Next::Given(read)) => return Ok(Some(read)),
                Ok(Next::End) => return Ok(None),
                Ok(Next::Short) => self.grow(source)?,
                Err(fault) => return Err(self.keep(fault)),
            }
        }
    }

    // Takes at least as many more bytes as are there, in blocks, or all up to the end.
    fn grow<S: Source>(&mut self, source: &mut S) -> Result<(), TakeFault>
        requires ended { self.old.ended ≡ false }
        requires failed { self.old.failed ≡ None }
        ensures grows { Grows (S.seen source.old) (S.seen source.new) self.old self.new result }
        ensures few { AtMostDoubles self.old self.new }
        ensures unended { OnErr result (self.new.ended ≡ false) }
    {
        let wanted = self.intake.as_slice().len().saturating_mul(2);
        'filling: loop {
            match self.intake.fill(source) {
                Ok(true) => {}
                Ok(false) => {
                    self.ended = true;
                    return Ok(());
                }
                Err(why) => {
                    // what the source gave in this read is lost
                    self.failed = Some(FastxFault::from(why));
                    return Err(why);
                }
            }
            if self.intake.as_slice().len() >= wanted {
                return Ok(());
            }
        }
    }

    // Keeps the fault of a record and returns it. `Memory` isn't kept: the next call may have some.
    fn keep(&mut self, fault: FastxFault) -> FastxFault
        ensures answered { result ≡ fault }
        ensures kept { self.new ≡ record self.old { failed = kept_fault self.old.failed fault } }
    {
        if !matches!(fault, FastxFault::Memory) {
            self.failed = Some(fault);
        }
        fault
    }

    // The next read, and its title if that is asked for, as far as the whole lines in the block determine them.
    fn next_of_whole(
        &mut self,
        alloc: Global,
        title: &mut Vec<u8>,
        is_titled: bool,
    ) -> Result<Next, FastxFault>
        requires { self.old.failed ≡ None }
        ensures tells { (start now : Seen) (limit : ℕ) (reads : List Read)
            → HasGiven start now limit reads self.old → TellsNext start now limit reads self.new result }
        ensures behind { (start now : Seen) (limit : ℕ) (reads : List Read)
            → HasGiven start now limit reads self.old → IfErr result (ComesBehind reads self.new) }
        ensures moves { Moves self.old self.new result }
        ensures memory { result ≡ Err FastxFault.Memory → BeginsRecord self.old }
        ensures wants { WantsMore self.old result }
        ensures uses { UsesFront self.old self.new }
        ensures titled { is_titled ≡ true → TellsRecord self.old self.new title.new.items result }
    {
        let whole = self.whole_lines();
        let mut lines = LineCursor {
            left: whole,
            taken: self.lines_used,
        };
        lines.pass_blanks();
        let first = LineCursor { ..lines };
        let next = next_record(alloc, &mut lines, self.is_fastq);
        if !self.ended && !is_sure(&next, &lines) {
            return Ok(Next::Short);
        }
        let Some((read, is_fastq)) = next? else {
            return Ok(Next::End);
        };
        if is_titled {
            title.clear();
            title.extend_from_slice(first.title())?;
        }
        let count = whole.len() - lines.left.len();
        self.lines_used = lines.taken;
        self.is_fastq = is_fastq;
        self.used += count as u64;
        self.intake.use_up(count);
        Ok(Next::Given(read))
    }

    // The bytes up to the last line end, or all of them once the source has ended.
    fn whole_lines(&self) -> &[u8]
        ensures whole { HasWhole self.now.ended self.now.unread.bytes result.now }
        ensures longest { self.now.ended ≡ false → HasLongestWhole self.now.unread.bytes result.now }
    {
        let bytes = self.intake.as_slice();
        if self.ended {
            return bytes;
        }
        match memrchr(b'\n', bytes) {
            Some(end) => &bytes[..end + 1],
            None => &bytes[..0],
        }
    }
}

// The next record of lines of which the first isn't blank, and whether it is FASTQ.
fn next_record(
    alloc: Global,
    lines: &mut LineCursor<'_>,
    is_fastq: bool,
) -> Result<Option<(SeqRead, bool)>, FastxFault>
    requires { skip_blanks lines.old.left ≡ lines.old.left }
    ensures ok { IfOk result (λ next. IsNext is_fastq lines.old.left next lines.new.left) }
    ensures counted { OnOk result (line_count lines.new ≡ line_count lines.old) }
    ensures passes { OnOk result (Passes lines.old lines.new) }
    ensures err { IfErr result (UnlessMemory (NextFails is_fastq (line_count lines.old) lines.old.left)) }
    ensures memory { result ≡ Err FastxFault.Memory → BeginsTitle is_fastq lines.old.left }
{
    if !is_fastq && lines.left.first() == Some(&b'>') {
        let Some(read) = next_fasta(alloc, lines)? else {
            return Ok(None);
        };
        return Ok(Some((read, false)));
    }
    let Some(read) = next_fastq(alloc, lines)? else {
        return Ok(None);
    };
    Ok(Some((read, true)))
}

// Whether this result stays right whatever bytes the source still gives: a record may go on in lines to come.
fn is_sure(next: &Result<Option<(SeqRead, bool)>, FastxFault>, lines: &LineCursor<'_>) -> bool
    ensures sure { result ≡ true → IsSure next.now lines.now.left }
    ensures unsure { result ≡ false → IsUnsure next.now lines.now.left }
{
    match next {
        Ok(Some(_)) => !lines.left.is_empty(),
        Ok(None) => false,
        Err(FastxFault::Truncated(_)) => false,
        Err(_) => true,
    }
}
