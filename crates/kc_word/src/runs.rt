//! Runs of N in a piece.
ghost use Rattle.std.specs.Prelude.{◌≡◌, ◌+◌, ◌^◌, ◌<◌, ◌≤◌, nat_le, OnOk, OnErr};
ghost use Rattle.kc_word.specs.Runs.{AreRuns, AreGrown, is_in_runs};

use std::alloc::AllocError;

/// A run of N: where it starts, and how long it is.
#[derive(Clone, Copy, PartialEq, Eq, Debug)]
pub(crate) struct Run {
    pub(crate) start: usize,
    pub(crate) length: usize,
}

impl Run {
    /// Whether the run ends at the index or before it.
    #[inline(always)]
    pub(crate) fn ends_by(self, i: usize) -> bool
        ensures { result ≡ nat_le (self.start + self.length) i }
    {
        self.start <= i && i - self.start >= self.length
    }
}

/// Adds `count` indices from `at` on, after all that the runs have, to the last run if that one ends there, otherwise
/// as a new one. After a refusal the runs are unchanged.
pub(crate) fn push_run(runs: &mut Vec<Run>, at: usize, count: usize) -> Result<(), AllocError>
    requires rising { AreRuns 0 at runs.old.items }
    requires some { 1 ≤ count }
    requires fits { at + count < 2 ^ 64 }
    ensures grown { OnOk result (AreGrown runs.old.items runs.new.items at count) }
    ensures refused { OnErr result (runs.new.items ≡ runs.old.items) }
{
    let last = runs.len();
    if last > 0 && runs[last - 1].start + runs[last - 1].length == at {
        runs[last - 1].length += count;
        return Ok(());
    }
    runs.push(Run {
        start: at,
        length: count,
    })?;
    Ok(())
}

/// Whether the index is in one of the runs.
pub(crate) fn is_in_runs(runs: &[Run], i: usize) -> bool
    ensures { result ≡ is_in_runs runs.now i }
{
    for run in runs {
        if run.start <= i && i - run.start < run.length {
            return true;
        }
    }
    false
}
