//! The counts of the words of a read, in runs of equal ones.
ghost use Rattle.std.specs.Prelude.{◌≡◌, ◌+◌, ◌<◌, ◌++◌, ◌∷◌, [], length, nat_le, IfSome, IfNone};
ghost use Rattle.std.specs.Option.{option_to_list, option_map};
ghost use Rattle.kc_tally.specs.Tally.{count_of};
ghost use Rattle.kc_select.specs.Profiles.{counts_along, runs_from};
ghost use Rattle.kc_select.specs.CountWalks.{runs_left};

use crate::row_index::RowIndex;
use crate::run_walk::{CountRun, RunWalk};
use crate::word_places::WordPlaces;
use kc_fastx::SeqRead;
use kc_kmer::Rule;
use kc_word::{Rolled, usable_code};
use std::marker::Model;

// A place in a read whose words are counted.
#[derive(Drop)]
pub(crate) struct CountWalk<'a> {
    index: &'a RowIndex<'a>,
    read: &'a SeqRead,
    at: usize,
    rolled: Rolled,
    runs: RunWalk,
    // where the next words are searched
    places: WordPlaces<'a>,
}

impl<'a> Model for CountWalk<'a> {
    ghost use Rattle.kc_select.specs.CountWalks.{CountWalking, IsCountWalking};

    ghost Value = { CountWalking };

    ghost view = { λ w. record {
      tally = w.index.now;
      rule = w.rolled.rule;
      read = w.read.now;
      taken = w.at;
      runs = w.runs;
    } };

    ghost invariant = { λ w. IsCountWalking (record {
      tally = w.index.now;
      rule = w.rolled.rule;
      read = w.read.now;
      taken = w.at;
      runs = w.runs;
    }) w.rolled };
}

impl<'a> CountWalk<'a> {
    // At the front of the read.
    pub(crate) fn new(index: &'a RowIndex<'a>, read: &'a SeqRead, rule: Rule) -> CountWalk<'a>
        ensures { runs_left result ≡ runs_from 0 (counts_along index.now rule read.now) }
    {
        let _count = read.bases().len();
        CountWalk {
            index,
            read,
            at: 0,
            rolled: Rolled::new(rule),
            runs: RunWalk::new(),
            places: WordPlaces::new(read, rule),
        }
    }

    // Whether all bases were taken.
    #[inline(always)]
    fn is_done(&self) -> bool
        ensures { result ≡ nat_le (length self.now.read.bases) self.now.taken }
    {
        self.read.bases().len() <= self.at
    }

    // Takes the next base, and returns the run that ends before the word that this base completes, if there is one.
    // Condition: not all bases were taken.
    fn step(&mut self) -> Option<CountRun>
        requires { self.old.taken < length self.old.read.bases }
        ensures read { self.new.read ≡ self.old.read }
        ensures taken { self.new.taken ≡ self.old.taken + 1 }
        ensures runs { runs_left self.old ≡ option_to_list result ++ runs_left self.new }
    {
        let k = self.rolled.rule.k().get() as usize;
        let code = usable_code(self.read, &self.rolled.rule, self.at);
        let word = self.rolled.push(code as u64);
        self.at += 1;
        if self.at < k {
            return None;
        }
        let count = count_in(self.index, &mut self.places, word);
        self.runs.push(count)
    }

    // Takes bases up to the end of the next run, or all that are left.
    pub(crate) fn next_run(&mut self) -> Option<CountRun>
        ensures some { IfSome result (λ run. runs_left self.old ≡ run ∷ runs_left self.new) }
        ensures none { IfNone result ((runs_left self.old ≡ []) × (runs_left self.new ≡ [])) }
    {
        while !self.is_done() {
            if let Some(run) = self.step() {
                return Some(run);
            }
        }
        self.runs.end()
    }
}

// The count of the word in the table, if there is a word. It is the next word of those whose places were looked up.
#[inline(always)]
fn count_in(index: &RowIndex<'_>, places: &mut WordPlaces<'_>, word: Option<u64>) -> Option<u64>
    ensures { result ≡ option_map (λ word. count_of index.now.rows word) word }
{
    Some(index.count_of(word?, places.next_place(index)))
}
