//! The decompression of a source that is lent for each read.
ghost use Rattle.std.specs.Prelude.{◌≡◌, ◌<◌, ◌≤◌, ◌++◌, ℕ, List, true, false, [], None, Some, length, take};
ghost use Rattle.std.specs.Prelude.{◌-◌, ◌^◌, min, IfOk, IfErr, IfSome, IfNone, OnOk};
ghost use Rattle.kc_io.specs.History.{History, no_history, after};
ghost use Rattle.kc_gzip.specs.Unzipping.{fresh};
ghost use Rattle.kc_gzip.specs.Following.{is_ready, Follows, Comes, Gives, Answers, Holds, Reads, Leaves, WhyFailed};
ghost use Rattle.kc_gzip.specs.Following.{IsFront, HasToldAll, says_partly, nothing_read};
ghost use Rattle.kc_gzip.specs.Since.{Continues};
ghost use Rattle.kc_gzip.specs.Intakes.{AsksForBlocks, block_size};

use crate::faults::GzipFault;
use crate::gzip_or_plain::{GunzipFault, Mode, Unzip};
use kc_io::{Failed, Heard, Source};
use std::alloc::{AllocError, Global};
use std::marker::Model;

/// The decompression of a source that is handed over at each read. A source that doesn't begin with 31 and 139 is
/// passed through unchanged.
#[derive(Drop)]
pub struct Unpacking {
    unzip: Unzip,
    // what the source has answered
    heard: Noted,
    fault: Option<GunzipFault>,
    // the history of the decompressed bytes
    given: Heard,
}

impl Model for Unpacking {
    ghost use Rattle.kc_gzip.specs.Following.{Unpacked, Holds};

    ghost Value = { Unpacked };

    ghost view = { λ u. record { since = u.heard; given = u.given.history; fault = u.fault } };

    ghost invariant = { λ u. Holds u.fault u.unzip u.heard u.given.history.bytes };
}

impl Unpacking {
    /// The state before the first read.
    ///
    /// # Errors
    /// `AllocError` if the block was refused.
    pub fn new(alloc: Global) -> Result<Unpacking, AllocError>
        ensures { IfOk result (λ unpacking. unpacking ≡ nothing_read) }
    {
        Ok(Unpacking {
            unzip: Unzip::new(alloc)?,
            heard: Noted::nothing(),
            fault: None,
            given: Heard::nothing(),
        })
    }

    /// Why no more can be read, if a read has failed.
    pub fn fault(&self) -> Option<GunzipFault>
        ensures fault { result ≡ self.now.fault }
        ensures why { IfSome result (λ why. WhyFailed why self.now.since) }
        ensures all { IfSome result (λ why. HasToldAll why self.now.since self.now.given.bytes) }
        ensures front { IsFront self.now.given.bytes (says_partly self.now.since.bytes) }
        ensures unfailed { IfNone result (self.now.since.failures ≡ 0) }
    {
        self.fault
    }

    /// How many bytes the source has given, compressed as it gave them; 2^64 - 1 if there are more.
    pub fn taken_count(&self) -> u64
        ensures { result ≡ min (length self.now.since.bytes) (2 ^ 64 - 1) }
    {
        self.heard.byte_count()
    }

    /// Moves decompressed bytes of the source to the front of the buffer. It moves none only at the end, after the
    /// whole text of the source's bytes was given.
    ///
    /// # Errors
    /// Why no more can be read. It stays so.
    pub fn read<S: Source>(
        &mut self,
        source: &mut S,
        buffer: &mut [u8],
    ) -> Result<usize, GunzipFault>
        ensures bound { IfOk result (λ n. n ≤ length buffer.new) }
        ensures leaves { Leaves result self.old self.new buffer.new }
        ensures reads { Reads result self.new buffer.new }
        ensures front { IsFront self.new.given.bytes (says_partly self.new.since.bytes) }
        ensures all { IfSome self.new.fault (λ why. HasToldAll why self.new.since self.new.given.bytes) }
        ensures kept { IfSome self.old.fault (λ why. (self.new.fault ≡ Some why)
            × (self.new.since ≡ self.old.since) × (S.seen source.new ≡ S.seen source.old)) }
        ensures goes { Continues (S.seen source.old) self.old.since (S.seen source.new) self.new.since }
        ensures asks { length buffer.old ≡ block_size → AsksForBlocks self.old.since → AsksForBlocks self.new.since }
    {
        match read_kept(
            source,
            &mut self.heard,
            &mut self.unzip,
            &mut self.fault,
            buffer,
        ) {
            Ok(count) => {
                self.given = self.given.with_answer(&Ok(count), buffer);
                Ok(count)
            }
            Err(why) => {
                self.given = self.given.with_answer(&Err(Failed), buffer);
                Err(why)
            }
        }
    }
}

// A read that keeps why it failed, and returns it again.
fn read_kept<S: Source>(
    source: &mut S,
    heard: &mut Noted,
    unzip: &mut Unzip,
    fault: &mut Option<GunzipFault>,
    buffer: &mut [u8],
) -> Result<usize, GunzipFault>
    ensures bound { IfOk result (λ n. n ≤ length buffer.new) }
    ensures answers { (told : List ℕ) → Holds fault.old unzip.old heard.old told
        → Answers result fault.new unzip.new heard.new told buffer.new }
    ensures kept { IfSome fault.old (λ why. (fault.new ≡ Some why)
        × (heard.new ≡ heard.old) × (S.seen source.new ≡ S.seen source.old)) }
    ensures goes { Continues (S.seen source.old) heard.old (S.seen source.new) heard.new }
    ensures asks { length buffer.old ≡ block_size → (told : List ℕ) → Holds fault.old unzip.old heard.old told
        → AsksForBlocks heard.old → AsksForBlocks heard.new }
{
    match *fault {
        Some(why) => Err(why),
        None => match read_some(source, heard, unzip, buffer) {
            Ok(count) => Ok(count),
            Err(why) => {
                *fault = Some(why);
                Err(why)
            }
        },
    }
}

// Moves decompressed bytes to the front of the buffer.
fn read_some<S: Source>(
    source: &mut S,
    heard: &mut Noted,
    unzip: &mut Unzip,
    buffer: &mut [u8],
) -> Result<usize, GunzipFault>
    ensures bound { IfOk result (λ n. n ≤ length buffer.new) }
    ensures gives { (told : List ℕ) → Follows unzip.old heard.old told
        → Gives result unzip.new heard.new told buffer.new }
    ensures goes { Continues (S.seen source.old) heard.old (S.seen source.new) heard.new }
    ensures asks { length buffer.old ≡ block_size → (told : List ℕ) → Follows unzip.old heard.old told
        → AsksForBlocks heard.old → AsksForBlocks heard.new }
{
    match prepare(source, heard, unzip) {
        Ok(()) => {}
        Err(why) => return Err(why),
    }
    if unzip.is_passing() {
        read_plain(source, heard, unzip, buffer)
    } else {
        Ok(unzip.give(buffer))
    }
}

// Goes on until there is something to give, or nothing more can come.
fn prepare<S: Source>(
    source: &mut S,
    heard: &mut Noted,
    unzip: &mut Unzip,
) -> Result<(), GunzipFault>
    ensures comes { (told : List ℕ) → Follows unzip.old heard.old told
        → Comes result unzip.new heard.new told }
    ensures ready { OnOk result (is_ready unzip.new ≡ true) }
    ensures goes { Continues (S.seen source.old) heard.old (S.seen source.new) heard.new }
    ensures asks { (told : List ℕ) → Follows unzip.old heard.old told
        → AsksForBlocks heard.old → AsksForBlocks heard.new }
{
    for _ in 0..u64::MAX {
        if unzip.is_ready() {
            return Ok(());
        }
        match turn(source, heard, unzip) {
            Ok(()) => {}
            Err(why) => return Err(why),
        }
    }
    Err(GunzipFault::TooLong)
}

// Takes bytes from the source, or makes a step with those that are there. Condition: there is nothing to give.
fn turn<S: Source>(source: &mut S, heard: &mut Noted, unzip: &mut Unzip) -> Result<(), GunzipFault>
    requires { is_ready unzip.old ≡ false }
    ensures comes { (told : List ℕ) → Follows unzip.old heard.old told
        → Comes result unzip.new heard.new told }
    ensures goes { Continues (S.seen source.old) heard.old (S.seen source.new) heard.new }
    ensures asks { (told : List ℕ) → Follows unzip.old heard.old told
        → AsksForBlocks heard.old → AsksForBlocks heard.new }
{
    match unzip.mode {
        Mode::Start => look(source, heard, unzip),
        Mode::Plain => Ok(()),
        Mode::Zipped => go_on(source, heard, unzip),
    }
}

// Decides what the bytes are, as soon as there are two.
fn look<S: Source>(source: &mut S, heard: &mut Noted, unzip: &mut Unzip) -> Result<(), GunzipFault>
    requires { unzip.old.mode ≡ Mode.Start }
    ensures comes { (told : List ℕ) → Follows unzip.old heard.old told
        → Comes result unzip.new heard.new told }
    ensures goes { Continues (S.seen source.old) heard.old (S.seen source.new) heard.new }
    ensures asks { (told : List ℕ) → Follows unzip.old heard.old told
        → AsksForBlocks heard.old → AsksForBlocks heard.new }
{
    if !unzip.work.ended && unzip.input.len() < 2 {
        return fill(source, heard, unzip);
    }
    unzip.decide();
    Ok(())
}

// Takes more bytes if there are few, or makes a step.
fn go_on<S: Source>(source: &mut S, heard: &mut Noted, unzip: &mut Unzip) -> Result<(), GunzipFault>
    requires none { fresh unzip.old.work ≡ [] }
    requires zipped { unzip.old.mode ≡ Mode.Zipped }
    ensures comes { (told : List ℕ) → Follows unzip.old heard.old told
        → Comes result unzip.new heard.new told }
    ensures goes { Continues (S.seen source.old) heard.old (S.seen source.new) heard.new }
    ensures asks { (told : List ℕ) → Follows unzip.old heard.old told
        → AsksForBlocks heard.old → AsksForBlocks heard.new }
{
    if !unzip.work.ended && unzip.input.len() < unzip.wanted {
        return fill(source, heard, unzip);
    }
    step_once(unzip)
}

// Makes a step, or requires more bytes before the next one.
fn step_once(unzip: &mut Unzip) -> Result<(), GunzipFault>
    requires none { fresh unzip.old.work ≡ [] }
    requires zipped { unzip.old.mode ≡ Mode.Zipped }
    ensures { (below : History) (told : List ℕ) → Follows unzip.old below told → Comes result unzip.new below told }
{
    match unzip.step() {
        Ok(()) => {
            unzip.want_some();
            Ok(())
        }
        Err(GzipFault::Short) => {
            if unzip.work.ended {
                return Err(GunzipFault::Gzip(GzipFault::Short));
            }
            unzip.want_more();
            Ok(())
        }
        Err(GzipFault::Broken) => Err(GunzipFault::Gzip(GzipFault::Broken)),
        Err(GzipFault::Memory) => Err(GunzipFault::Gzip(GzipFault::Memory)),
    }
}

// Appends what one read of the source gives to the bytes that are there. Conditions: it has not returned its end, and
// its bytes are not passed through.
fn fill<S: Source>(source: &mut S, heard: &mut Noted, unzip: &mut Unzip) -> Result<(), GunzipFault>
    requires still { unzip.old.work.ended ≡ false }
    requires mode { unzip.old.mode ≡ Mode.Plain → ⊥ }
    ensures comes { (told : List ℕ) → Follows unzip.old heard.old told
        → Comes result unzip.new heard.new told }
    ensures goes { Continues (S.seen source.old) heard.old (S.seen source.new) heard.new }
    ensures asks { (told : List ℕ) → Follows unzip.old heard.old told
        → AsksForBlocks heard.old → AsksForBlocks heard.new }
{
    let Ok(count) = read_block(source, heard, &mut unzip.block) else {
        return Err(GunzipFault::Read);
    };
    if count == 0 {
        unzip.work.ended = true;
        return Ok(());
    }
    match unzip.add(count) {
        Ok(()) => Ok(()),
        Err(_) => Err(GunzipFault::Gzip(GzipFault::Memory)),
    }
}

// One read of the source into the block.
fn read_block<S: Source>(
    source: &mut S,
    heard: &mut Noted,
    block: &mut Vec<u8>,
) -> Result<usize, Failed>
    ensures bound { IfOk result (λ n. n ≤ length block.new.items) }
    ensures history { heard.new ≡ after heard.old result block.new.items }
    ensures whole { length block.new.items ≡ length block.old.items }
    ensures goes { Continues (S.seen source.old) heard.old (S.seen source.new) heard.new }
{
    heard.read(source, block.as_mut_slice())
}

// Reads the source directly into the buffer. Conditions: its bytes are passed through, and all that were taken were
// given.
fn read_plain<S: Source>(
    source: &mut S,
    heard: &mut Noted,
    unzip: &mut Unzip,
    buffer: &mut [u8],
) -> Result<usize, GunzipFault>
    requires plain { unzip.old.mode ≡ Mode.Plain }
    requires none { fresh unzip.old.work ≡ [] }
    requires still { unzip.old.work.ended ≡ false }
    ensures bound { IfOk result (λ n. n ≤ length buffer.new) }
    ensures gives { (told : List ℕ) → Follows unzip.old heard.old told
        → Gives result unzip.new heard.new told buffer.new }
    ensures goes { Continues (S.seen source.old) heard.old (S.seen source.new) heard.new }
    ensures asks { length buffer.old ≡ block_size → AsksForBlocks heard.old
        → AsksForBlocks heard.new }
{
    let Ok(count) = heard.read(source, buffer) else {
        return Err(GunzipFault::Read);
    };
    if count == 0 && !buffer.is_empty() {
        unzip.work.ended = true;
    }
    Ok(count)
}

/// What a source has answered, and how many bytes it gave.
#[derive(Drop)]
pub(crate) struct Noted {
    heard: Heard,
    // 2^64 - 1 if there are more
    bytes: u64,
}

impl Model for Noted {
    ghost use Rattle.std.specs.Prelude.{◌≡◌, ◌-◌, ◌^◌, length, min};
    ghost use Rattle.kc_io.specs.History.{History};

    ghost Value = { History };

    ghost view = { λ n. n.heard.history };

    ghost invariant = { λ n. n.bytes ≡ min (length n.heard.history.bytes) (2 ^ 64 - 1) };
}

impl Noted {
    // The state before the first read.
    fn nothing() -> Noted
        ensures { result ≡ no_history }
    {
        Noted {
            heard: Heard::nothing(),
            bytes: 0,
        }
    }

    // How many bytes came; 2^64 - 1 if there are more.
    fn byte_count(&self) -> u64
        ensures { result ≡ min (length self.now.bytes) (2 ^ 64 - 1) }
    {
        self.bytes
    }

    // One read of the source, which is recorded.
    fn read<S: Source>(&mut self, source: &mut S, buffer: &mut [u8]) -> Result<usize, Failed>
        ensures bound { IfOk result (λ n. n ≤ length buffer.new) }
        ensures history { self.new ≡ after self.old result buffer.new }
        ensures whole { length buffer.new ≡ length buffer.old }
        ensures goes { Continues (S.seen source.old) self.old (S.seen source.new) self.new }
    {
        let answer = source.read(buffer);
        if let Ok(count) = answer {
            self.bytes = self.bytes.saturating_add(count as u64);
        }
        self.heard = self.heard.with_answer(&answer, buffer);
        answer
    }
}
