//! Standard output as a sink, which keeps the reason why the system refused what was written.
ghost use Rattle.std.specs.Prelude.{◌≡◌};
ghost use Rattle.kc_tool.specs.Process.{unwritten};

use crate::file_refusals::{Refusal, refusal_of};
use kc_io::{Failed, Sink, ToWrite};
use std::cell::Cell;
use std::io::Write;
use std::marker::Model;

/// Why the last failed write or flush failed, for whoever explains a fault after the command has ended.
#[derive(Drop)]
pub(crate) struct RefusalNote {
    refusal: Cell<Option<Refusal>>,
}

impl RefusalNote {
    /// Before any call failed.
    pub fn nothing() -> RefusalNote {
        RefusalNote {
            refusal: Cell::new(None),
        }
    }

    /// Why the last failed call failed.
    pub fn get(&self) -> Option<Refusal> {
        self.refusal.get()
    }

    // Keeps why the last failed call of this stream failed.
    fn keep<W: Write>(&self, stream: &ToWrite<W>) {
        self.refusal.set(stream.last_error().map(refusal_of));
    }
}

/// Standard output.
#[derive(Drop)]
pub struct OutputSink<'a, W: Write> {
    stream: ToWrite<W>,
    note: &'a RefusalNote,
}

impl<'a, W: Write> Model for OutputSink<'a, W> {
    ghost use Rattle.kc_io.specs.Sinks.{Written};

    ghost Value = { Written };

    ghost view = { λ s. s.stream.seen };
}

impl<'a, W: Write> OutputSink<'a, W> {
    /// A sink over this writer, which keeps in `note` why it failed.
    pub(crate) fn new(writer: W, note: &'a RefusalNote) -> OutputSink<'a, W>
        ensures { result ≡ unwritten (W.contents writer) }
    {
        let stream = ToWrite::new(writer);
        OutputSink { stream, note }
    }
}

impl<W: Write> Sink for OutputSink<'_, W> {
    ghost seen = { λ s. s };

    fn write(&mut self, bytes: &[u8]) -> Result<usize, Failed> {
        let answer = self.stream.write(bytes);
        self.note.keep(&self.stream);
        answer
    }

    fn flush(&mut self) -> Result<(), Failed> {
        let answer = self.stream.flush();
        self.note.keep(&self.stream);
        answer
    }
}
