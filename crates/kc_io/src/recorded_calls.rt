//! Single calls of a reader or a writer of std, each of which is recorded in the history with its result.
//!
//! No contract covers what std's streams answer. So `read`, `write` and `flush` below have to be reviewed by eye: one
//! call of the stream, its result, and its record. What the layers above do with the results is proved from the record.
ghost use Rattle.std.specs.Prelude.{◌≡◌, ◌≤◌, length, IfSome, IfOk, MatchOption};
ghost use Rattle.std.specs.Io.KnownBytes.{ReadConsumes, WriteAppends, Keeps};
ghost use Rattle.kc_io.specs.History.{no_history, after, after_flush};
ghost use Rattle.kc_io.specs.Answers.{no_calls, after_call, most_tries, settled, Hears};
ghost use Rattle.kc_io.specs.Sinks.{write_answer};

use crate::failures::Failed;
use crate::histories::{Asked, Heard};
use std::io;
use std::io::{ErrorKind, Read, Write};

/// A stream with the history of its calls. Only these calls reach the stream.
#[derive(Drop)]
pub struct Recorded<S> {
    stream: S,
    heard: Heard,
    asked: Asked,
    // how many more calls in a row may be interrupted before one is a failure
    tries: u64,
    // the kind of the last error that is no interruption
    last_error: Option<ErrorKind>,
}

impl<S> Recorded<S> {
    /// The stream, which was not called yet.
    pub fn new(stream: S) -> Recorded<S>
        ensures stream { result.stream ≡ stream }
        ensures heard { result.heard.history ≡ no_history }
        ensures asked { result.asked.calls ≡ no_calls }
        ensures tries { result.tries ≡ most_tries }
    {
        Recorded {
            stream,
            heard: Heard::nothing(),
            asked: Asked::nothing(),
            tries: u64::MAX,
            last_error: None,
        }
    }

    /// The kind of the stream's last error that is no interruption; None if there was none.
    pub fn last_error(&self) -> Option<ErrorKind> {
        self.last_error
    }

    /// The stream, for good.
    pub fn into_inner(self) -> S
        ensures { result ≡ self.stream }
    {
        let Recorded {
            stream,
            heard: _,
            asked: _,
            tries: _,
            last_error: _,
        } = self;
        stream
    }
}

impl<R: Read> Recorded<R> {
    /// One read of the stream; None if it was interrupted and has to be repeated.
    pub fn read(&mut self, buffer: &mut [u8]) -> Option<Result<usize, Failed>>
        ensures bound { IfSome result (λ answer. IfOk answer (λ n. n ≤ length buffer.new)) }
        ensures bytes { MatchOption result (Keeps (R.remaining self.old.stream) (R.remaining self.new.stream))
            (λ answer. ReadConsumes (R.remaining self.old.stream) (R.remaining self.new.stream) answer buffer.new) }
        ensures history { MatchOption result (self.new.heard.history ≡ self.old.heard.history)
            (λ answer. self.new.heard.history ≡ after self.old.heard.history answer buffer.new) }
        ensures hears { Hears self.old.asked.calls self.old.tries self.new.asked.calls self.new.tries result }
    {
        let answer = self.stream.read(buffer);
        let Some(answer) = settle(
            &mut self.asked,
            &mut self.tries,
            &mut self.last_error,
            answer,
        ) else {
            return None;
        };
        self.heard = self.heard.with_answer(&answer, buffer);
        Some(answer)
    }
}

impl<W: Write> Recorded<W> {
    /// One write to the stream; None if it was interrupted and has to be repeated. It fails if it takes no byte of a
    /// text that has bytes.
    pub fn write(&mut self, bytes: &[u8]) -> Option<Result<usize, Failed>>
        ensures bound { IfSome result (λ answer. IfOk answer (λ n. n ≤ length bytes.now)) }
        ensures bytes { MatchOption result (Keeps (W.contents self.old.stream) (W.contents self.new.stream))
            (λ answer. WriteAppends (W.contents self.old.stream) (W.contents self.new.stream) answer bytes.now) }
        ensures history { MatchOption result (self.new.heard.history ≡ self.old.heard.history)
            (λ answer. self.new.heard.history ≡ after self.old.heard.history answer bytes.now) }
        ensures some { IfSome result (λ answer. write_answer answer bytes.now ≡ answer) }
        ensures hears { Hears self.old.asked.calls self.old.tries self.new.asked.calls self.new.tries result }
    {
        let answer = self.stream.write(bytes);
        let Some(answer) = settle(
            &mut self.asked,
            &mut self.tries,
            &mut self.last_error,
            answer,
        ) else {
            return None;
        };
        let answer = match answer {
            Ok(0) if !bytes.is_empty() => Err(Failed),
            Ok(n) => Ok(n),
            Err(Failed) => Err(Failed),
        };
        self.heard = self.heard.with_answer(&answer, bytes);
        Some(answer)
    }

    /// One flush of the stream; None if it was interrupted and has to be repeated.
    pub fn flush(&mut self) -> Option<Result<(), Failed>>
        ensures bytes { Keeps (W.contents self.old.stream) (W.contents self.new.stream) }
        ensures history { MatchOption result (self.new.heard.history ≡ self.old.heard.history)
            (λ answer. self.new.heard.history ≡ after_flush self.old.heard.history answer) }
        ensures hears { Hears self.old.asked.calls self.old.tries self.new.asked.calls self.new.tries result }
    {
        let answer = self.stream.flush();
        let Some(answer) = settle(
            &mut self.asked,
            &mut self.tries,
            &mut self.last_error,
            answer,
        ) else {
            return None;
        };
        self.heard = self.heard.with_flush(&answer);
        Some(answer)
    }
}

// Settles one answer of std, and counts it: None if it is an interruption and `tries` allows one more. `last_error`
// keeps the kind of any other error.
fn settle<T>(
    asked: &mut Asked,
    tries: &mut u64,
    last_error: &mut Option<ErrorKind>,
    answer: io::Result<T>,
) -> Option<Result<T, Failed>>
    ensures settled { result ≡ settled answer tries.old }
    ensures counted { asked.new.calls ≡ after_call asked.old.calls answer }
    ensures hears { Hears asked.old.calls tries.old asked.new.calls tries.new result }
{
    let left = *tries;
    *tries = u64::MAX;
    match answer {
        Ok(value) => {
            *asked = asked.with_answer();
            Some(Ok(value))
        }
        Err(error) => match error.kind() {
            ErrorKind::Interrupted if left > 0 => {
                *asked = asked.with_interruption();
                *tries = left - 1;
                None
            }
            ErrorKind::Interrupted => {
                *asked = asked.with_interruption();
                Some(Err(Failed))
            }
            kind => {
                *last_error = Some(kind);
                *asked = asked.with_answer();
                Some(Err(Failed))
            }
        },
    }
}
