//! Pieces: reads ready to be counted, stored as packed codes and runs of N.
ghost use Rattle.std.specs.Prelude.{◌≡◌, ◌<◌, ◌↔◌, ◌++◌, [], length, slice_index, slice_range, ◌≤◌, IfOk, IsTrue};
ghost use Rattle.kc_word.specs.Cutting.{is_piece_byte};

use crate::packed_codes::{BASES, Packed};
use crate::runs::{Run, is_in_runs, push_run};
use kc_kmer::letter::base_of;
use std::alloc::{AllocError, Global};
use std::marker::Model;

/// The letter of a piece in place of a base that is not usable.
const UNUSABLE: u8 = b'N';

/// A piece: a read, or a part of one, ready to be counted, with upper-case bases, and `N` for each base that is not
/// usable. It is stored as packed codes and a list of the runs of N. Under a run the codes are 0, so equal pieces are
/// stored alike.
#[derive(Debug, Drop)]
pub struct Piece {
    pub(crate) bases: Packed,
    pub(crate) runs: Vec<Run>,
}

impl Model for Piece {
    ghost use Rattle.std.specs.Prelude.{ℕ, List};
    ghost use Rattle.kc_word.specs.PackedPiece.{bytes_of, IsPiece};

    ghost Value = { List ℕ };

    ghost view = { λ p. bytes_of p.bases p.runs.items };

    ghost invariant = { λ p. IsPiece p.bases p.runs.items };
}

impl Piece {
    /// No bytes.
    pub(crate) fn new(alloc: Global) -> Piece
        ensures { result ≡ [] }
    {
        Piece {
            bases: Packed {
                numbers: Vec::new(alloc),
                len: 0,
            },
            runs: Vec::new(alloc),
        }
    }

    /// The number of bytes.
    pub fn len(&self) -> u64
        ensures { result ≡ length self.now }
    {
        self.bases.len as u64
    }

    /// Whether there is no byte.
    pub fn is_empty(&self) -> bool
        ensures { IsTrue result ↔ (length self.now ≡ 0) }
    {
        self.len() == 0
    }

    /// The byte at index `i`. Condition: `i` is below the length.
    pub fn base(&self, i: u64) -> u8
        requires { i < length self.now }
        ensures value { result ≡ slice_index self.now i }
        ensures letter { IsTrue (is_piece_byte result) }
    {
        let at = i as usize;
        if is_in_runs(&self.runs, at) {
            return UNUSABLE;
        }
        base_of((self.bases.numbers[at / BASES] >> (62 - 2 * (at % BASES))) & 3)
    }

    /// This piece, followed by the bytes of another one from `from` to before `to`. Conditions: these are in order, and
    /// at most the other's length. If there would be 2^64 bytes or more, which no memory holds, it is refused.
    pub(crate) fn with_part(
        self,
        other: &Piece,
        from: usize,
        to: usize,
    ) -> Result<Piece, AllocError>
        requires ordered { from ≤ to }
        requires within { to ≤ length other.now }
        ensures { IfOk result (λ more. more ≡ self ++ slice_range other.now from to) }
    {
        let at = self.bases.len;
        if to - from > usize::MAX - at {
            return Err(AllocError);
        }
        let Piece {
            mut bases,
            mut runs,
        } = self;
        bases.push_part(&other.bases, from, to)?;
        let others = other.runs.as_slice();
        for n in others.partition_point(|run| run.ends_by(from))..others.len() {
            let run = others[n];
            if run.start >= to {
                break;
            }
            let start = run.start.max(from);
            let end = run.start.saturating_add(run.length).min(to);
            if start < end {
                push_run(&mut runs, at + (start - from), end - start)?;
            }
        }
        Ok(Piece { bases, runs })
    }
}

/// Equal pieces have the same bytes.
impl PartialEq for Piece {
    ghost use Rattle.std.specs.Cmp.{partial_equiv_from_equiv};
    ghost use Rattle.std.specs.Cmp.Lexicographic.{nat_list_eq_equiv};
    ghost use Rattle.kc_word.specs.Cutting.{is_same_piece};

    ghost eq = { is_same_piece };

    ghost laws = { partial_equiv_from_equiv nat_list_eq_equiv };

    fn eq(&self, other: &Piece) -> bool {
        self.bases == other.bases && self.runs.as_slice() == other.runs.as_slice()
    }
}

impl Eq for Piece {
    ghost use Rattle.std.specs.Cmp.Lexicographic.{nat_list_eq_equiv};

    ghost laws = { nat_list_eq_equiv };
}
