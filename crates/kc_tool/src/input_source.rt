//! Standard input as a source, which keeps its first bytes.
ghost use Rattle.std.specs.Prelude.{◌≡◌};
ghost use Rattle.kc_tool.specs.Process.{untouched};

use crate::looks::InputLook;
use kc_io::{Failed, FromRead, Source};
use std::io::Read;
use std::marker::Model;

/// Standard input.
#[derive(Drop)]
pub struct InputSource<'a, R: Read> {
    stream: FromRead<R>,
    look: &'a InputLook,
}

impl<'a, R: Read> Model for InputSource<'a, R> {
    ghost use Rattle.kc_io.specs.Sources.{Seen};

    ghost Value = { Seen };

    ghost view = { λ s. s.stream.seen };
}

impl<'a, R: Read> InputSource<'a, R> {
    /// A source over this reader, whose first bytes are kept in `look`.
    pub(crate) fn new(reader: R, look: &'a InputLook) -> InputSource<'a, R>
        ensures { result ≡ untouched (R.remaining reader) }
    {
        let stream = FromRead::new(reader);
        InputSource { stream, look }
    }
}

impl<R: Read> Source for InputSource<'_, R> {
    ghost seen = { λ s. s };

    fn read(&mut self, buffer: &mut [u8]) -> Result<usize, Failed> {
        let answer = self.stream.read(buffer);
        self.look.note(&answer, buffer);
        answer
    }
}
