//! Several pieces stored as one, one after another, with the places at which they end.
ghost use Rattle.std.specs.Prelude.{◌≡◌, ◌<◌, ◌≤◌, ◌++◌, ◌∷◌, ◌==◌, [], None, length};
ghost use Rattle.std.specs.Prelude.{slice_index_or, slice_range, IfOk};
ghost use Rattle.kc_fastx.specs.Reads.{read_of};
ghost use Rattle.kc_kmer.specs.Occurrences.{words_in};
ghost use Rattle.kc_word.specs.Walking.{words_left};

use crate::piece::Piece;
use crate::piece_words::Roll;
use kc_kmer::Rule;
use std::alloc::AllocError;
use std::marker::Model;

/// Pieces, in order. They are stored as one piece with the bytes of all of them, and the places at which they end.
#[derive(Debug, Drop)]
pub(crate) struct Pieces {
    pub(crate) bytes: Piece,
    pub(crate) ends: Vec<usize>,
}

impl Model for Pieces {
    ghost use Rattle.std.specs.Prelude.{ℕ, List, length};
    ghost use Rattle.kc_word.specs.PackedBatch.{pieces_in, AreEnds};

    ghost Value = { List (List ℕ) };

    ghost view = { λ p. pieces_in p.bytes p.ends.items };

    ghost invariant = { λ p. AreEnds p.ends.items (length p.bytes) };
}

impl Pieces {
    /// How many there are.
    #[inline(always)]
    pub(crate) fn len(&self) -> usize
        ensures { result ≡ length self.now }
    {
        self.ends.len()
    }

    /// The words of piece `i`, to be taken. Condition: there is such a piece.
    #[inline(always)]
    pub(crate) fn roll(&self, i: usize, rule: Rule) -> Roll<'_>
        requires { i < length self.now }
        ensures place { result ≡ record { rule = rule; bytes = slice_index_or self.now i []; taken = 0 } }
        ensures words { words_left result ≡ words_in rule (read_of (slice_index_or self.now i []) None) }
    {
        let start = if i == 0 { 0 } else { self.ends[i - 1] };
        Roll::new(&self.bytes, start, self.ends[i], rule)
    }

    /// These pieces, and one more: the bytes of a piece from `from` to before `to`. Conditions: these are in order, and
    /// at most the piece's length.
    pub(crate) fn with_part(
        self,
        piece: &Piece,
        from: usize,
        to: usize,
    ) -> Result<Pieces, AllocError>
        requires ordered { from ≤ to }
        requires within { to ≤ length piece.now }
        ensures { IfOk result (λ more. more ≡ self ++ slice_range piece.now from to ∷ []) }
    {
        let bytes = self.bytes.with_part(piece, from, to)?;
        let mut ends = self.ends;
        ends.push(bytes.len() as usize)?;
        Ok(Pieces { bytes, ends })
    }
}

/// Equal pieces end at the same places and have the same bytes.
impl PartialEq for Pieces {
    ghost use Rattle.std.specs.Cmp.{partial_equiv_from_equiv};
    ghost use Rattle.std.specs.Cmp.Lexicographic.{lists_equiv, nat_list_eq_equiv};
    ghost use Rattle.kc_word.specs.Cutting.{are_same_pieces};

    ghost eq = { are_same_pieces };

    ghost laws = { partial_equiv_from_equiv (lists_equiv nat_list_eq_equiv) };

    fn eq(&self, other: &Pieces) -> bool {
        let ends = self.ends.as_slice();
        let others = other.ends.as_slice();
        self.bytes == other.bytes && ends == others
    }
}

impl Eq for Pieces {
    ghost use Rattle.std.specs.Cmp.Lexicographic.{lists_equiv, nat_list_eq_equiv};

    ghost laws = { lists_equiv nat_list_eq_equiv };
}
