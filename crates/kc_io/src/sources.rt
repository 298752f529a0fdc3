//! Sources: where the bytes of an input come from.
ghost use Rattle.std.specs.Prelude.{◌≡◌, ◌≤◌, Some, Ok, length, min, IfOk, IfSome};
ghost use Rattle.std.specs.Io.KnownBytes.{ReadConsumes};
ghost use Rattle.kc_io.specs.History.{no_history, after};
ghost use Rattle.kc_io.specs.Sources.{Seen};
ghost use Rattle.kc_io.specs.Answers.{no_calls, Settles};

use crate::failures::Failed;
use crate::histories::Heard;
use crate::recorded_calls::Recorded;
use std::io::Read;
use std::marker::Model;

/// A source of bytes. Proofs see the bytes that it has left, if they are known, and the history of its reads.
pub trait Source {
    ghost seen: { Self → Seen };

    /// Moves the next `n` bytes to the front of the buffer and returns `Ok(n)`; 0 only at the end or for an empty
    /// buffer.
    ///
    /// # Errors
    /// `Failed` if the read failed. The bytes that are left are unchanged.
    fn read(&mut self, buffer: &mut [u8]) -> Result<usize, Failed>
        ensures bound { IfOk result (λ n. n ≤ length buffer.new) }
        ensures bytes { ReadConsumes (seen self.old).left (seen self.new).left result buffer.new }
        ensures history { (seen self.new).history ≡ after (seen self.old).history result buffer.new };
}

/// A source that reads from a slice, whose bytes are known. It never fails.
#[derive(Drop)]
pub struct FromBytes<'a> {
    left: &'a [u8],
    heard: Heard,
}

impl<'a> Model for FromBytes<'a> {
    ghost use Rattle.std.specs.Prelude.{◌≡◌, Some};
    ghost use Rattle.kc_io.specs.Sources.{Seen};

    ghost Value = { Seen };

    ghost view = { λ s. record { left = Some s.left.now; history = s.heard.history } };

    ghost invariant = { λ s. s.heard.history.failures ≡ 0 };
}

impl<'a> FromBytes<'a> {
    /// A source of these bytes.
    pub fn new(bytes: &'a [u8]) -> FromBytes<'a>
        ensures { result ≡ record { left = Some bytes.now; history = no_history } }
    {
        FromBytes {
            left: bytes,
            heard: Heard::nothing(),
        }
    }

    /// The bytes that are left. No read has failed, whoever asked for it.
    pub fn as_slice(&self) -> &[u8]
        ensures left { self.now.left ≡ Some result.now }
        ensures unfailed { self.now.history.failures ≡ 0 }
    {
        self.left
    }
}

impl Source for FromBytes<'_> {
    ghost seen = { λ s. s };

    /// Moves all bytes that are left to the front of the buffer, or as many as it has room for. It never fails.
    fn read(&mut self, buffer: &mut [u8]) -> Result<usize, Failed>
        ensures bound { IfOk result (λ n. n ≤ length buffer.new) }
        ensures bytes { ReadConsumes self.old.left self.new.left result buffer.new }
        ensures history { self.new.history ≡ after self.old.history result buffer.new }
        ensures most { IfSome self.old.left (λ left. result ≡ Ok (min (length left) (length buffer.old))) }
    {
        let count = self.left.len().min(buffer.len());
        let (front, rest) = self.left.split_at(count);
        buffer[..count].copy_from_slice(front);
        self.left = rest;
        self.heard = self.heard.with_answer(&Ok(count), buffer);
        Ok(count)
    }
}

/// A source over any reader of std. Its bytes are known if the reader's are. A read that is interrupted is repeated;
/// the 2^64th interruption in a row is a failure.
#[derive(Drop)]
pub struct FromRead<R: Read> {
    recorded: Recorded<R>,
}

impl<R: Read> Model for FromRead<R> {
    ghost use Rattle.std.specs.Prelude.{◌≡◌};
    ghost use Rattle.kc_io.specs.Answers.{ReaderSeen, most_tries};

    ghost Value = { ReaderSeen };

    ghost view = { λ s. record {
      seen = record { left = R.remaining s.recorded.stream; history = s.recorded.heard.history };
      calls = s.recorded.asked.calls;
    } };

    ghost invariant = { λ s. s.recorded.tries ≡ most_tries };
}

impl<R: Read> FromRead<R> {
    /// A source over this reader.
    pub fn new(reader: R) -> FromRead<R>
        ensures { result ≡ record {
          seen = record { left = R.remaining reader; history = no_history };
          calls = no_calls;
        } }
    {
        FromRead {
            recorded: Recorded::new(reader),
        }
    }
}

impl<R: Read> Source for FromRead<R> {
    ghost seen = { λ s. s.seen };

    /// Reads until a read isn't interrupted.
    ///
    /// # Errors
    /// `Failed` if the read failed, or 2^64 reads in a row were interrupted.
    fn read(&mut self, buffer: &mut [u8]) -> Result<usize, Failed>
        ensures bound { IfOk result (λ n. n ≤ length buffer.new) }
        ensures bytes { ReadConsumes self.old.seen.left self.new.seen.left result buffer.new }
        ensures history { self.new.seen.history ≡ after self.old.seen.history result buffer.new }
        ensures settles { Settles self.old.calls self.new.calls result }
    {
        'reading: loop {
            match self.recorded.read(buffer) {
                Some(answer) => return answer,
                None => {}
            }
        }
    }
}
