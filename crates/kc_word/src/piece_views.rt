//! The pieces of a batch, one after another, without memory.
ghost use Rattle.std.specs.Prelude.{◌≡◌, ◌<◌, ◌↔◌, length, slice_index, IsTrue};
ghost use Rattle.kc_word.specs.Cutting.{is_piece_byte};

use crate::piece::Piece;
use crate::pieces::Pieces;
use std::marker::Model;

/// A piece of a batch. Its view is its bytes.
#[derive(Drop)]
pub struct PieceView<'a> {
    pub(crate) bytes: &'a Piece,
    pub(crate) from: u64,
    pub(crate) to: u64,
}

impl<'a> Model for PieceView<'a> {
    ghost use Rattle.std.specs.Prelude.{ℕ, List, ◌^◌, ◌<◌, ◌≤◌, length, slice_range};

    ghost Value = { List ℕ };

    ghost view = { λ p. slice_range p.bytes.now p.from p.to };

    ghost invariant = { λ p. (p.from ≤ p.to) × (p.to ≤ length p.bytes.now) × (p.to < 2 ^ 64) };
}

impl<'a> PieceView<'a> {
    /// The number of bytes.
    pub fn len(&self) -> u64
        ensures { result ≡ length self.now }
    {
        self.to - self.from
    }

    /// Whether there is no byte.
    pub fn is_empty(&self) -> bool
        ensures { IsTrue result ↔ (length self.now ≡ 0) }
    {
        self.len() == 0
    }

    /// The byte at index `i`, a base in upper case or `N`. Condition: `i` is below the length.
    pub fn base(&self, i: u64) -> u8
        requires { i < length self.now }
        ensures value { result ≡ slice_index self.now i }
        ensures letter { IsTrue (is_piece_byte result) }
    {
        self.bytes.base(self.from + i)
    }
}

/// An iterator over the pieces of a batch. Its view is the list of those still to come.
#[derive(Drop)]
pub struct PieceViews<'a> {
    pub(crate) pieces: &'a Pieces,
    pub(crate) next: usize,
}

impl<'a> Model for PieceViews<'a> {
    ghost use Rattle.std.specs.Prelude.{ℕ, List, drop};

    ghost Value = { List (List ℕ) };

    ghost view = { λ v. drop v.next v.pieces.now };
}

impl<'a> Iterator for PieceViews<'a> {
    type Item = PieceView<'a>;

    ghost use Rattle.std.specs.Iterator.{YieldsFirst, item_count};

    ghost next_gives = { YieldsFirst (λ v. v) };

    ghost remaining = { item_count (λ v. v) };

    fn next(&mut self) -> Option<PieceView<'a>> {
        let i = self.next;
        let pieces = self.pieces;
        if i >= pieces.len() {
            return None;
        }
        self.next = i + 1;
        let start = if i == 0 { 0 } else { pieces.ends[i - 1] };
        Some(PieceView {
            bytes: &pieces.bytes,
            from: start as u64,
            to: pieces.ends[i] as u64,
        })
    }
}
