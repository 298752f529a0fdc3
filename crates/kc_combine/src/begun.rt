//! The view of a source when the reading of a table text began, which exists only in proofs.
ghost use Rattle.std.specs.Prelude.{◌≡◌};
ghost use Rattle.kc_io.specs.Sources.{Seen};

use kc_io::Source;
use std::marker::Model;

/// The view of a source when the reading of a table text began. Only proofs see it, and it takes no bytes.
#[derive(Drop)]
pub struct Begun {
    pub ghost start: { Seen },
}

impl Model for Begun {
    ghost use Rattle.std.specs.Borrow.{ftrue};

    ghost also_owns = { λ _. ftrue };
}

impl Begun {
    /// The view of this source now.
    pub fn at<S: Source>(_source: &S) -> Begun
        ensures { result.start ≡ S.seen _source.now }
    {
        Begun {}
    }
}
