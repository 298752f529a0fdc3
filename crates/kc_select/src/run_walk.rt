//! Runs of equal counts, from counts that come one at a time.
ghost use Rattle.std.specs.Prelude.{◌≡◌, ◌+◌, ◌-◌, ◌<◌, ◌^◌, ◌++◌, ◌∷◌, List, ℕ, [], Option, None};
ghost use Rattle.std.specs.Option.{option_to_list};
ghost use Rattle.kc_select.specs.Profiles.{runs_from};
ghost use Rattle.kc_select.specs.RunWalks.{runs_behind};

use std::marker::Model;

// The words at positions `start` to `end` - 1 of a read have this count.
#[derive(Clone, Copy, PartialEq, Eq, Debug)]
pub(crate) struct CountRun {
    // The position of the first word, from 0.
    pub(crate) start: u64,
    // The position after that of the last word.
    pub(crate) end: u64,
    // The count of each word.
    pub(crate) count: u64,
}

// Takes the counts along a read, and returns the runs of equal ones.
#[derive(Drop)]
pub(crate) struct RunWalk {
    at: u64,
    last: Option<CountRun>,
}

impl Model for RunWalk {
    ghost use Rattle.std.specs.Prelude.{◌≡◌};
    ghost use Rattle.std.specs.Prelude.{IfSome};
    ghost use Rattle.kc_select.specs.RunWalks.{RunWalking};

    ghost Value = { RunWalking };

    ghost view = { λ w. record { at = w.at; last = w.last } };

    ghost invariant = { λ w. IfSome w.last (λ run. run.end ≡ w.at) };
}

impl RunWalk {
    // Before the first count.
    pub(crate) fn new() -> RunWalk
        ensures at { result.at ≡ 0 }
        ensures runs { (counts : List (Option ℕ)) → runs_behind result counts ≡ runs_from 0 counts }
    {
        RunWalk { at: 0, last: None }
    }

    // Takes the next count, or None for a position without one, and returns the run that ends before it, if there is
    // one. Condition: fewer than 2^64 - 1 came before.
    pub(crate) fn push(&mut self, count: Option<u64>) -> Option<CountRun>
        requires { self.old.at < 2 ^ 64 - 1 }
        ensures at { self.new.at ≡ self.old.at + 1 }
        ensures runs { (counts : List (Option ℕ)) → runs_behind self.old (count ∷ counts)
            ≡ option_to_list result ++ runs_behind self.new counts }
    {
        let start = self.at;
        self.at += 1;
        let Some(count) = count else {
            return self.last.take();
        };
        let next = CountRun {
            start,
            end: self.at,
            count,
        };
        let Some(run) = self.last else {
            self.last = Some(next);
            return None;
        };
        if run.count == count {
            self.last = Some(CountRun {
                end: self.at,
                ..run
            });
            return None;
        }
        self.last = Some(next);
        Some(run)
    }

    // Returns the run that is not complete yet, if there is one, and leaves none.
    pub(crate) fn end(&mut self) -> Option<CountRun>
        ensures at { self.new.at ≡ self.old.at }
        ensures last { self.new.last ≡ None }
        ensures runs { runs_behind self.old [] ≡ option_to_list result }
    {
        self.last.take()
    }
}
