//! Sinks: where the bytes of a text go.
ghost use Rattle.std.specs.Prelude.{◌≡◌, ◌≤◌, length, IfOk, IsOk, Some};
ghost use Rattle.std.specs.Io.KnownBytes.{WriteAppends, Keeps};
ghost use Rattle.kc_io.specs.History.{no_history, after, after_flush};
ghost use Rattle.kc_io.specs.Sinks.{Written, write_answer};
ghost use Rattle.kc_io.specs.Answers.{no_calls, Settles};

use crate::failures::Failed;
use crate::histories::Heard;
use crate::recorded_calls::Recorded;
use std::io::{ErrorKind, Write};
use std::marker::Model;

/// Whatever takes bytes. Proofs see the bytes written to it, if they are known, and the history of its calls.
pub trait Sink {
    ghost seen: { Self → Written };

    /// Takes the first n of the bytes, if it returns Ok(n). It fails if it takes no byte of a text that has bytes.
    ///
    /// # Errors
    /// `Failed` if the write failed. No byte was taken.
    fn write(&mut self, bytes: &[u8]) -> Result<usize, Failed>
        ensures within { IfOk result (λ n. n ≤ length bytes.now) }
        ensures appends { WriteAppends (seen self.old).bytes (seen self.new).bytes result bytes.now }
        ensures history { (seen self.new).history
            ≡ after (seen self.old).history (write_answer result bytes.now) bytes.now };

    /// Passes on what was taken.
    ///
    /// # Errors
    /// `Failed` if that failed.
    fn flush(&mut self) -> Result<(), Failed>
        ensures keeps { Keeps (seen self.old).bytes (seen self.new).bytes }
        ensures history { (seen self.new).history ≡ after_flush (seen self.old).history result };
}

/// A sink over a vector, whose bytes are known. It fails if the vector can't grow.
#[derive(Drop)]
pub struct ToVec {
    bytes: Vec<u8>,
    heard: Heard,
}

impl Model for ToVec {
    ghost use Rattle.std.specs.Prelude.{Some};
    ghost use Rattle.kc_io.specs.Sinks.{Written};

    ghost Value = { Written };

    ghost view = { λ s. record { bytes = Some s.bytes.items; history = s.heard.history } };
}

impl ToVec {
    /// A sink that appends to these bytes.
    pub fn new(bytes: Vec<u8>) -> ToVec
        ensures { result ≡ record { bytes = Some bytes.items; history = no_history } }
    {
        ToVec {
            bytes,
            heard: Heard::nothing(),
        }
    }

    /// The bytes.
    pub fn as_slice(&self) -> &[u8]
        ensures { self.now.bytes ≡ Some result.now }
    {
        self.bytes.as_slice()
    }

    /// The vector.
    pub fn into_inner(self) -> Vec<u8>
        ensures { self.bytes ≡ Some result.items }
    {
        let ToVec { bytes, heard: _ } = self;
        bytes
    }
}

impl Sink for ToVec {
    ghost seen = { λ s. s };

    /// Takes all of the bytes.
    ///
    /// # Errors
    /// `Failed` if the growth was refused. No byte was taken.
    fn write(&mut self, bytes: &[u8]) -> Result<usize, Failed>
        ensures within { IfOk result (λ n. n ≤ length bytes.now) }
        ensures appends { WriteAppends self.old.bytes self.new.bytes result bytes.now }
        ensures history { self.new.history ≡ after self.old.history (write_answer result bytes.now) bytes.now }
        ensures whole { IfOk result (λ n. n ≡ length bytes.now) }
    {
        let answer = match self.bytes.extend_from_slice(bytes) {
            Ok(()) => Ok(bytes.len()),
            Err(_) => Err(Failed),
        };
        self.heard = self.heard.with_answer(&answer, bytes);
        answer
    }

    /// Never fails.
    fn flush(&mut self) -> Result<(), Failed>
        ensures keeps { Keeps self.old.bytes self.new.bytes }
        ensures history { self.new.history ≡ after_flush self.old.history result }
        ensures ok { IsOk result }
    {
        self.heard = self.heard.with_flush(&Ok(()));
        Ok(())
    }
}

/// A sink over any writer of std. Its bytes are known if the writer's are. A call that is interrupted is repeated; the
/// 2^64th interruption in a row is a failure.
#[derive(Drop)]
pub struct ToWrite<W: Write> {
    recorded: Recorded<W>,
}

impl<W: Write> Model for ToWrite<W> {
    ghost use Rattle.std.specs.Prelude.{◌≡◌};
    ghost use Rattle.kc_io.specs.Answers.{WriterSeen, most_tries};

    ghost Value = { WriterSeen };

    ghost view = { λ s. record {
      seen = record { bytes = W.contents s.recorded.stream; history = s.recorded.heard.history };
      calls = s.recorded.asked.calls;
    } };

    ghost invariant = { λ s. s.recorded.tries ≡ most_tries };
}

impl<W: Write> ToWrite<W> {
    /// A sink over this writer.
    pub fn new(writer: W) -> ToWrite<W>
        ensures { result ≡ record {
          seen = record { bytes = W.contents writer; history = no_history };
          calls = no_calls;
        } }
    {
        ToWrite {
            recorded: Recorded::new(writer),
        }
    }

    /// The kind of the writer's last error that is no interruption; None if there was none.
    pub fn last_error(&self) -> Option<ErrorKind> {
        self.recorded.last_error()
    }

    /// The writer.
    pub fn into_inner(self) -> W
        ensures { W.contents result ≡ self.seen.bytes }
    {
        self.recorded.into_inner()
    }
}

impl<W: Write> Sink for ToWrite<W> {
    ghost seen = { λ s. s.seen };

    /// Writes until a write isn't interrupted.
    ///
    /// # Errors
    /// `Failed` if the write failed, or took no byte although there were some, or 2^64 writes in a row were
    /// interrupted.
    fn write(&mut self, bytes: &[u8]) -> Result<usize, Failed>
        ensures within { IfOk result (λ n. n ≤ length bytes.now) }
        ensures appends { WriteAppends self.old.seen.bytes self.new.seen.bytes result bytes.now }
        ensures history { self.new.seen.history
            ≡ after self.old.seen.history (write_answer result bytes.now) bytes.now }
        ensures settles { Settles self.old.calls self.new.calls result }
    {
        'writing: loop {
            match self.recorded.write(bytes) {
                Some(answer) => return answer,
                None => {}
            }
        }
    }

    /// Flushes until a flush isn't interrupted.
    ///
    /// # Errors
    /// `Failed` if the flush failed, or 2^64 flushes in a row were interrupted.
    fn flush(&mut self) -> Result<(), Failed>
        ensures keeps { Keeps self.old.seen.bytes self.new.seen.bytes }
        ensures history { self.new.seen.history ≡ after_flush self.old.seen.history result }
        ensures settles { Settles self.old.calls self.new.calls result }
    {
        'flushing: loop {
            match self.recorded.flush() {
                Some(answer) => return answer,
                None => {}
            }
        }
    }
}
