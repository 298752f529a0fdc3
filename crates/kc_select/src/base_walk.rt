//! The words of a read, one after another, without memory.
ghost use Rattle.std.specs.Prelude.{◌≡◌, ◌+◌, ◌^◌, ◌<◌, ◌∷◌, nat_le, [], length, IfSome, IfNone};
ghost use Rattle.kc_kmer.specs.Occurrences.{words_in};
ghost use Rattle.kc_word.specs.Cutting.{cleaned};
ghost use Rattle.kc_word.specs.Walking.{words_left};

use kc_fastx::SeqRead;
use kc_kmer::Rule;
use kc_word::{Rolled, usable_code};
use std::marker::Model;

// A place in a read whose words are taken. Its view is a place in the piece of the read, which has N for the bases that
// are not usable.
#[derive(Drop)]
pub(crate) struct BaseWalk<'a> {
    read: &'a SeqRead,
    at: usize,
    rolled: Rolled,
}

impl<'a> Model for BaseWalk<'a> {
    ghost use Rattle.kc_word.specs.Cutting.{cleaned};
    ghost use Rattle.kc_word.specs.Walking.{Walking, IsWalking};

    ghost Value = { Walking };

    ghost view = { λ w. record { rule = w.rolled.rule; bytes = cleaned w.rolled.rule w.read.now; taken = w.at } };

    ghost invariant = { λ w.
        IsWalking (record { rule = w.rolled.rule; bytes = cleaned w.rolled.rule w.read.now; taken = w.at }) w.rolled };
}

impl<'a> BaseWalk<'a> {
    // At the front of the read.
    pub(crate) fn new(read: &'a SeqRead, rule: Rule) -> BaseWalk<'a>
        ensures place { result ≡ record { rule = rule; bytes = cleaned rule read.now; taken = 0 } }
        ensures words { words_left result ≡ words_in rule read.now }
        ensures few { length (words_left result) < 2 ^ 64 }
    {
        let _count = read.bases().len();
        BaseWalk {
            read,
            at: 0,
            rolled: Rolled::new(rule),
        }
    }

    // Whether all bases were taken.
    #[inline(always)]
    fn is_done(&self) -> bool
        ensures { result ≡ nat_le (length self.now.bytes) self.now.taken }
    {
        self.read.bases().len() <= self.at
    }

    // Takes the next base, and returns the word that ends with it, if there is one. Condition: not all bases were
    // taken.
    #[inline(always)]
    fn step(&mut self) -> Option<u64>
        requires { self.old.taken < length self.old.bytes }
        ensures taken { self.new ≡ record { rule = self.old.rule; bytes = self.old.bytes; taken = self.old.taken + 1 } }
        ensures word { IfSome result (λ word. words_left self.old ≡ word ∷ words_left self.new) }
        ensures none { IfNone result (words_left self.new ≡ words_left self.old) }
    {
        let code = usable_code(self.read, &self.rolled.rule, self.at);
        self.at += 1;
        self.rolled.push(code as u64)
    }

    // Takes bases up to the end of the next word, or all that are left if no word ends in them.
    #[inline(always)]
    pub(crate) fn next_word(&mut self) -> Option<u64>
        ensures rule { self.new.rule ≡ self.old.rule }
        ensures word { IfSome result (λ word. words_left self.old ≡ word ∷ words_left self.new) }
        ensures none { IfNone result ((words_left self.old ≡ []) × (words_left self.new ≡ [])) }
    {
        while !self.is_done() {
            if let Some(word) = self.step() {
                return Some(word);
            }
        }
        None
    }
}
