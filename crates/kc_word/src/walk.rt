//! The words of a batch, one after another, without memory.
use crate::piece_words::Roll;
use crate::pieces::Pieces;
use std::marker::Model;

/// An iterator over the words of a batch. Its view is the list of those still to come.
#[derive(Drop)]
pub struct Walk<'a> {
    pub(crate) roll: Roll<'a>,
    pub(crate) pieces: &'a Pieces,
    pub(crate) next: usize,
}

impl<'a> Model for Walk<'a> {
    ghost use Rattle.std.specs.Prelude.{ℕ, List, drop, ◌++◌};
    ghost use Rattle.kc_kmer.specs.Occurrences.{words_of};
    ghost use Rattle.kc_word.specs.Cutting.{as_reads};
    ghost use Rattle.kc_word.specs.Walking.{words_left};

    ghost Value = { List ℕ };

    ghost view = { λ w. words_left w.roll ++ words_of w.roll.rule (as_reads (drop w.next w.pieces.now)) };
}

impl<'a> Iterator for Walk<'a> {
    type Item = u64;

    ghost use Rattle.std.specs.Iterator.{YieldsFirst, item_count};

    ghost next_gives = { YieldsFirst (λ w. w) };

    ghost remaining = { item_count (λ w. w) };

    #[inline(always)]
    fn next(&mut self) -> Option<u64> {
        loop {
            if let Some(word) = self.roll.next_word() {
                return Some(word);
            }
            if self.next >= self.pieces.len() {
                return None;
            }
            self.roll = self.pieces.roll(self.next, self.roll.rule());
            self.next += 1;
        }
    }
}
