//! The history of a stream, which exists only in proofs.
ghost use Rattle.std.specs.Prelude.{◌≡◌};
ghost use Rattle.kc_io.specs.History.{History, no_history, after, after_flush};
ghost use Rattle.kc_io.specs.Answers.{Calls, no_calls, and_answer, and_interruption};

use crate::failures::Failed;
use std::marker::Model;

/// What a source or a sink has answered so far. Only proofs see it: it takes no bytes, and its counts have no bound.
/// Whoever implements `Source` or `Sink` keeps one, and adds each answer to it.
#[derive(Drop)]
pub struct Heard {
    pub ghost history: { History },
}

impl Model for Heard {
    ghost use Rattle.std.specs.Borrow.{ftrue};

    ghost also_owns = { λ _. ftrue };
}

impl Heard {
    /// The history before the first call.
    pub fn nothing() -> Heard
        ensures { result.history ≡ no_history }
    {
        Heard {}
    }

    /// The history after this answer to a read into the slice, or to a write from it.
    pub fn with_answer(&self, answer: &Result<usize, Failed>, slice: &[u8]) -> Heard
        ensures { result.history ≡ after self.now.history answer.now slice.now }
    {
        Heard {}
    }

    /// The history after this answer to a flush.
    pub fn with_flush(&self, answer: &Result<(), Failed>) -> Heard
        ensures { result.history ≡ after_flush self.now.history answer.now }
    {
        Heard {}
    }
}

/// How a stream of std answered the calls of an adapter. Only proofs see it. Whoever calls the stream adds each answer.
#[derive(Drop)]
pub struct Asked {
    pub ghost calls: { Calls },
}

impl Model for Asked {
    ghost use Rattle.std.specs.Borrow.{ftrue};

    ghost also_owns = { λ _. ftrue };
}

impl Asked {
    /// Before the first call of the stream.
    pub fn nothing() -> Asked
        ensures { result.calls ≡ no_calls }
    {
        Asked {}
    }

    /// After one more call that was interrupted.
    pub fn with_interruption(&self) -> Asked
        ensures { result.calls ≡ and_interruption self.now.calls }
    {
        Asked {}
    }

    /// After one more call that was not.
    pub fn with_answer(&self) -> Asked
        ensures { result.calls ≡ and_answer self.now.calls }
    {
        Asked {}
    }
}
