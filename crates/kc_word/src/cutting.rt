//! The cutting of pieces into batches, piece by piece.
ghost use Rattle.std.specs.Prelude.{◌≡◌, ◌≤◌, ◌++◌, ◌∷◌, [], List, ℕ, length, slice_range, IfOk, OnOk, OnErr};
ghost use Rattle.kc_word.specs.Cutting.{cutting, KeepsOccurrences, KeepsWords};
ghost use Rattle.kc_word.specs.OpenCutting.{HasTaken, HasTakenFront};
ghost use Rattle.kc_word.specs.Shared.{values};

use crate::batch::Batch;
use crate::piece::Piece;
use crate::pieces::Pieces;
use kc_kmer::K;
use std::alloc::{AllocError, Global};
use std::marker::Model;
use std::sync::Arc;

/// A cutting under way: pieces that come one at a time are divided into batches, as `cut` does. It has the whole
/// batches, and the one that is begun. It keeps the bytes of the pieces that it has taken, and not the pieces. The
/// parts of the batch that is begun are packed one after another only when it is whole, so a refusal leaves them
/// unchanged.
///
/// Contracts state which pieces it `HasTaken`.
#[derive(Drop)]
pub struct Cutting {
    k: K,
    size: u64,
    batches: Vec<Arc<Batch>>,
    begun: Vec<Piece>,
    filled: u64,
}

impl Model for Cutting {
    ghost use Rattle.std.specs.Prelude.{◌<◌};
    ghost use Rattle.kc_word.specs.OpenCutting.{OpenCutting};
    ghost use Rattle.kc_word.specs.Shared.{values};

    ghost Value = { OpenCutting };

    ghost view = { λ c. record {
      k = c.k;
      size = c.size;
      batches = values c.batches.items;
      begun = c.begun.items;
      filled = c.filled;
    } };

    ghost invariant = { λ c. c.filled < c.size };
}

impl Cutting {
    /// A cutting without pieces, for words of k bases and batches of `size` positions each. Condition: the size is at
    /// least 1.
    pub fn new(alloc: Global, k: K, size: u64) -> Cutting
        requires { 1 ≤ size }
        ensures k { result.k ≡ k }
        ensures size { result.size ≡ size }
        ensures none { HasTaken result [] }
    {
        Cutting {
            k,
            size,
            batches: Vec::new(alloc),
            begun: Vec::new(alloc),
            filled: 0,
        }
    }

    /// Takes the next piece. After a refusal some first positions of it are cut, maybe none, after the pieces that were
    /// taken before.
    pub fn push(&mut self, alloc: Global, piece: &Piece) -> Result<(), AllocError>
        ensures k { self.new.k ≡ self.old.k }
        ensures size { self.new.size ≡ self.old.size }
        ensures more { OnOk result ((pieces : List (List ℕ))
            → HasTaken self.old pieces → HasTaken self.new (pieces ++ piece.now ∷ [])) }
        ensures refused { OnErr result ((pieces : List (List ℕ))
            → HasTaken self.old pieces → HasTakenFront self.new pieces piece.now) }
    {
        let bases = self.k.get() as usize;
        let count = self.k.positions(piece.len() as usize);
        let mut position = 0;
        while position < count {
            // as many positions as the batch that is begun has room for
            let taken = ((count - position) as u64).min(self.size - self.filled) as usize;
            let end = position + taken + (bases - 1);
            let filled = self.filled + taken as u64;
            if filled < self.size {
                let part = Piece::new(alloc).with_part(piece, position, end)?;
                self.begun.push(part)?;
                self.filled = filled;
            } else {
                let batch = self.whole_batch(alloc, piece, position, end)?;
                self.batches.push(batch)?;
                self.begun.clear();
                self.filled = 0;
            }
            position += taken;
        }
        Ok(())
    }

    /// The batches of all pieces that were taken.
    pub fn finish(self, alloc: Global) -> Result<Vec<Arc<Batch>>, AllocError>
        ensures cutting { IfOk result (λ batches. (pieces : List (List ℕ))
            → HasTaken self pieces → values batches.items ≡ cutting self.k self.size pieces) }
        ensures occurrences { IfOk result (λ batches. (pieces : List (List ℕ))
            → HasTaken self pieces → KeepsOccurrences self.k pieces (values batches.items)) }
        ensures words { IfOk result (λ batches. (pieces : List (List ℕ))
            → HasTaken self pieces → KeepsWords self.k pieces (values batches.items)) }
    {
        let _some = self.k.get();
        let mut cutting = self;
        let Some(last) = cutting.begun.pop() else {
            return Ok(cutting.batches);
        };
        let batch = cutting.whole_batch(alloc, &last, 0, last.len() as usize)?;
        let mut batches = cutting.batches;
        batches.push(batch)?;
        Ok(batches)
    }

    // The batch that is begun, with the bytes of the piece from `from` to before `to` as its last part: all its parts,
    // packed one after another. Conditions: these are in order, and at most the piece's length.
    fn whole_batch(
        &self,
        alloc: Global,
        piece: &Piece,
        from: usize,
        to: usize,
    ) -> Result<Arc<Batch>, AllocError>
        requires ordered { from ≤ to }
        requires within { to ≤ length piece.now }
        ensures { IfOk result (λ batch. batch.value ≡ record {
          number = length self.now.batches;
          pieces = self.now.begun ++ slice_range piece.now from to ∷ [];
        }) }
    {
        let mut pieces = Pieces {
            bytes: Piece::new(alloc),
            ends: Vec::new(alloc),
        };
        for part in &self.begun {
            pieces = pieces.with_part(part, 0, part.len() as usize)?;
        }
        pieces = pieces.with_part(piece, from, to)?;
        // without spare capacity
        pieces.bytes.bases.numbers.shrink_to_fit();
        pieces.bytes.runs.shrink_to_fit();
        pieces.ends.shrink_to_fit();
        let number = self.batches.len() as u64;
        Ok(Arc::new(alloc, Batch { number, pieces })?)
    }
}

/// Cuts pieces into batches of `size` positions each; the last may have fewer. The positions of all pieces are numbered
/// in order; batch i has those from `i * size` to before `(i + 1) * size`, and neighbouring parts of one piece overlap
/// by k - 1 bytes. Every batch has a position. Condition: the size is at least 1.
pub fn cut(
    alloc: Global,
    pieces: Vec<Piece>,
    k: K,
    size: u64,
) -> Result<Vec<Arc<Batch>>, AllocError>
    requires { 1 ≤ size }
    ensures cutting { IfOk result (λ batches. values batches.items ≡ cutting k size pieces.items) }
    ensures occurrences { IfOk result (λ batches. KeepsOccurrences k pieces.items (values batches.items)) }
    ensures words { IfOk result (λ batches. KeepsWords k pieces.items (values batches.items)) }
{
    let mut cutting = Cutting::new(alloc, k, size);
    for piece in &pieces {
        cutting.push(alloc, piece)?;
    }
    cutting.finish(alloc)
}
