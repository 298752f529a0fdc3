//! A number of steps that only contracts see.
ghost use Rattle.std.specs.Prelude.{◌≡◌, ℕ, ◌+◌};
ghost use Rattle.std.specs.Borrow.{ftrue};

use std::marker::Model;

/// How many steps were done. The number exists only in proofs, so it takes no bytes and has no bound; in contracts it
/// is `count`. A contract that is handed one has the exact step from `old` to `new`: then no body can reset it.
#[derive(Drop)]
pub struct Steps {
    pub ghost count: { ℕ },
}

impl Model for Steps {
    ghost also_owns = { λ _. ftrue };
}

impl Steps {
    /// No steps.
    pub fn zero() -> Steps
        ensures { result.count ≡ 0 }
    {
        Steps {}
    }

    /// One step more than these, which are only borrowed.
    pub fn and_one(&self) -> Steps
        ensures { result.count ≡ self.now.count + 1 }
    {
        Self {}
    }
}
