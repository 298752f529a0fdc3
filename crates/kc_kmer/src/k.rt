//! K, the length of the words of a count: 1 to 31 bases.
ghost use Rattle.std.specs.Prelude.{◌≡◌, ◌≤◌, SomeIff};
ghost use Rattle.kc_kmer.specs.Occurrences.{position_count};

use std::marker::Model;

/// The length of a word, from 1 to 31 bases.
#[derive(Clone, Copy, PartialEq, Eq, Debug)]
pub struct K {
    bases: u32,
}

impl Model for K {
    ghost use Rattle.std.specs.Prelude.{ℕ, ◌≤◌};

    ghost Value = { ℕ };

    ghost view = { λ k. k.bases };

    ghost invariant = { λ k. (1 ≤ k.bases) × (k.bases ≤ 31) };

    ghost inverse = { λ n. record { bases = n } };
}

impl K {
    /// The greatest length of a word.
    pub const MAX: u32 = 31;

    /// A length of `n` bases, if `n` is 1 to 31.
    pub fn new(n: u32) -> Option<K>
        ensures { SomeIff result ((1 ≤ n) × (n ≤ 31)) n }
    {
        if n < 1 || n > K::MAX {
            return None;
        }
        Some(K { bases: n })
    }

    /// The number of bases.
    pub fn get(self) -> u32
        ensures value { result ≡ self }
        ensures some { 1 ≤ self }
        ensures fits { self ≤ 31 }
    {
        self.bases
    }

    /// How many positions `count` bases have: words begin at 0 to n - k.
    pub fn positions(self, count: usize) -> usize
        ensures value { result ≡ position_count self count }
        ensures most { result ≤ count }
    {
        let bases = self.bases as usize;
        if count < bases { 0 } else { count - bases + 1 }
    }
}
