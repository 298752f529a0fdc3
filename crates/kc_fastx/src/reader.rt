//! The reads of a source, one after another.
ghost use Rattle.std.specs.Prelude.{◌≡◌, ◌≤◌, ◌<◌, ℕ, List, [], None, Some, Err, IfOk, IfErr, OnErr, IfSome, OnSome};
ghost use Rattle.kc_io.specs.Sources.{Seen};
ghost use Rattle.kc_fastx.specs.Reads.{Read};
ghost use Rattle.kc_fastx.specs.Parsing.{most_bytes};
ghost use Rattle.kc_fastx.specs.Faults.{UnlessMemory};
ghost use Rattle.kc_fastx.specs.Reading.{Reader, first_stand, HasGiven, GivesNext, LacksMemory, TakesFew};

use crate::read_faults::FastxFault;
use crate::reads::SeqRead;
use crate::record_reader::Reading;
use kc_io::Source;
use std::alloc::{AllocError, Global};
use std::marker::Model;

/// The reads of a source, one after another. It keeps a block of the bytes and one record, whatever came before.
///
/// Contracts are about the reads that were given so far: after `new`, `HasGiven` holds with none; `next_read` adds the
/// read that it gives; and if it returns `None`, they are all reads of all bytes.
#[derive(Drop)]
pub struct Reads<S: Source + Drop> {
    alloc: Global,
    source: S,
    reading: Reading,
}

impl<S: Source + Drop> Model for Reads<S> {
    ghost use Rattle.kc_fastx.specs.Reading.{Reader};

    ghost Value = { Reader };

    ghost view = { λ r. record { source = S.seen r.source; stand = r.reading } };
}

impl<S: Source + Drop> Reads<S> {
    /// A reader of this source, which takes at most `limit` bytes. Nothing is taken yet. Condition: the limit is at
    /// most 2^36.
    ///
    /// # Errors
    /// `AllocError` if the block was refused.
    pub fn new(alloc: Global, source: S, limit: u64) -> Result<Reads<S>, AllocError>
        requires { limit ≤ most_bytes }
        ensures stand { IfOk result (λ reads. reads ≡ record { source = S.seen source; stand = first_stand limit }) }
        ensures given { IfOk result (λ reads. HasGiven (S.seen source) reads.source limit [] reads.stand) }
    {
        let reading = Reading::new(alloc, limit)?;
        Ok(Reads {
            alloc,
            source,
            reading,
        })
    }

    /// The next read, or none if all bytes were taken and no read is left.
    ///
    /// # Errors
    /// The first fault of all bytes, with its line, as soon as the lines that were taken determine it. `TooLong` if the
    /// source gave more bytes than the limit, and `Read` if it failed, while more were taken for the next read.
    /// `Memory` if a growth was refused. The reader keeps its fault: from then on it returns the same, takes nothing
    /// from the source and is unchanged. Only `Memory` for the text of a record is not kept: the reader still has given
    /// the same reads, and can be called again. `Memory` for bytes that the source had given already is kept, since
    /// these bytes are lost.
    pub fn next_read(&mut self) -> Result<Option<SeqRead>, FastxFault>
        ensures given { (start : Seen) (limit : ℕ) (reads : List Read)
            → HasGiven start self.old.source limit reads self.old.stand
            → GivesNext start self.new.source limit reads self.new.stand result }
        ensures used { IfOk result (λ next. IfSome next (λ read. self.old.stand.used < self.new.stand.used)) }
        ensures few { TakesFew self.old.stand self.new.stand }
        ensures memory { result ≡ Err FastxFault.Memory → self.old.stand.failed ≡ None → LacksMemory self.new.stand }
        ensures again { IfSome self.old.stand.failed (λ fault. result ≡ Err fault) }
        ensures unchanged { OnSome self.old.stand.failed (self.new ≡ self.old) }
        ensures kept { IfErr result (UnlessMemory (λ fault. self.new.stand.failed ≡ Some fault)) }
        ensures resumed { OnErr result (self.new.stand.failed ≡ None → (start : Seen) (limit : ℕ) (reads : List Read)
            → HasGiven start self.old.source limit reads self.old.stand
            → HasGiven start self.new.source limit reads self.new.stand) }
    {
        self.reading.next_read(self.alloc, &mut self.source)
    }
}
