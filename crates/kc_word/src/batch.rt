//! Batches: the numbered parts of an input that workers count one by one.
ghost use Rattle.std.specs.Prelude.{◌≡◌};
ghost use Rattle.kc_word.specs.Cutting.{position_total, as_reads};
ghost use Rattle.kc_kmer.specs.Occurrences.{words_of};

use crate::piece_views::PieceViews;
use crate::pieces::Pieces;
use crate::walk::Walk;
use kc_kmer::{K, Rule};
use std::marker::Model;

/// A batch: a numbered part of the input, which is counted on its own. It has a number, and pieces.
#[derive(Debug, Drop)]
pub struct Batch {
    pub(crate) number: u64,
    pub(crate) pieces: Pieces,
}

impl Model for Batch {
    ghost use Rattle.std.specs.Prelude.{◌≤◌, length};
    ghost use Rattle.kc_word.specs.Cutting.{NumberedPieces};

    ghost Value = { NumberedPieces };

    ghost view = { λ b. record { number = b.number; pieces = b.pieces } };

    ghost invariant = { λ b. 1 ≤ length b.pieces };
}

impl Batch {
    /// The number of the batch in its cutting, from 0.
    pub fn number(&self) -> u64
        ensures { result ≡ self.now.number }
    {
        self.number
    }

    /// How many positions the batch has for words of k bases.
    pub fn position_count(&self, k: K) -> usize
        ensures { result ≡ position_total k self.now.pieces }
    {
        let pieces = &self.pieces;
        let mut count = 0;
        let mut start = 0;
        for end in &pieces.ends {
            count += k.positions(*end - start);
            start = *end;
        }
        count
    }

    /// The pieces of the batch, in order; the view of each is its bytes. It takes no memory.
    pub fn pieces(&self) -> PieceViews<'_>
        ensures { result ≡ self.now.pieces }
    {
        PieceViews {
            pieces: &self.pieces,
            next: 0,
        }
    }

    /// The words at the positions of the batch, without those that have an N, as numbers, in the forms under which they
    /// count, in order: the items are what `words` returns for the batch. It takes no memory.
    pub fn walk(&self, rule: &Rule) -> Walk<'_>
        ensures { result ≡ words_of rule.now (as_reads self.now.pieces) }
    {
        Walk {
            roll: self.pieces.roll(0, *rule),
            pieces: &self.pieces,
            next: 1,
        }
    }
}

/// Equal batches have the same number and equal pieces.
impl PartialEq for Batch {
    ghost use Rattle.kc_word.specs.Cutting.{is_same_batch};
    ghost use Rattle.kc_word.specs.Sameness.{is_same_batch-laws};

    ghost eq = { is_same_batch };

    ghost laws = { is_same_batch-laws };

    fn eq(&self, other: &Batch) -> bool {
        (self.number == other.number) && self.pieces == other.pieces
    }
}

impl Eq for Batch {
    ghost use Rattle.kc_word.specs.Sameness.{is_same_batch-IsEquivalence};

    ghost laws = { is_same_batch-IsEquivalence };
}
