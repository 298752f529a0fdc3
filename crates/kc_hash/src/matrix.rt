//! Square matrices of bits.

ghost use Rattle.std.specs.Prelude.{◌≡◌, ℕ, ◌+◌, ◌-◌, ◌<◌, ◌≤◌, ◌^◌, ◌↔◌, ◌++◌, List, length, take, replicate};
ghost use Rattle.std.specs.Prelude.{slice_index, map, bit_xor, IsSome, IfSome};
ghost use Rattle.kc_hash.specs.Matrix.{IsWidth, IsMatrix, AreBelow};
ghost use Rattle.kc_hash.specs.Product.{product, identity};
ghost use Rattle.kc_hash.specs.Elimination.{row_added};
ghost use Rattle.kc_hash.specs.Seeds.{seed_columns};
ghost use Rattle.kc_hash.specs.Inversion.{columns-length, padded-take};

use rand_core::SeedableRng;
use rand_core::utils::NextWord;
use rand_xoshiro::SplitMix64;
use std::marker::Model;

/// A square matrix of bits. It has as many columns, 1 to 62, as the numbers that it multiplies have bits.
///
/// A column is a number; bit `i` of it is the column's entry in row `i`. In contracts a matrix is the list of its
/// columns, so two matrices are equal if their columns are.
#[derive(Clone, Copy, Debug)]
pub struct Matrix {
    pub(crate) bits: u32,
    pub(crate) columns: [u64; 62],
}

impl Model for Matrix {
    ghost Value = { List ℕ };

    ghost view = { λ m. take m.bits m.columns };

    ghost invariant = { λ m. IsMatrix m.bits m.columns };

    ghost inverse = { λ cs. record { bits = length cs; columns = cs ++ replicate (62 - length cs) 0 } };

    ghost inverse_ok = { λ m h. λ i. record {
      bits = columns-length m.bits m.columns h i;
      columns = padded-take m.bits m.columns h i;
    } };
}

impl Matrix {
    /// The matrix of these columns: the first `bits` entries. None if `bits` is not 1 to 62 or one of these entries is
    /// `2^bits` or more. Later entries are not looked at.
    pub fn of_columns(bits: u32, columns: [u64; 62]) -> Option<Matrix>
        ensures some { IsSome result ↔ (IsWidth bits × AreBelow bits columns) }
        ensures columns { IfSome result (λ m. m ≡ take bits columns) }
    {
        if bits == 0 || bits > 62 {
            return None;
        }
        let mut kept = [0; 62];
        for index in 0..bits as usize {
            let column = columns[index];
            if column >> bits != 0 {
                return None;
            }
            kept[index] = column;
        }
        Some(Matrix {
            bits,
            columns: kept,
        })
    }

    /// The identity matrix for numbers of so many bits.
    pub fn identity(bits: u32) -> Matrix
        requires { IsWidth bits }
        ensures { result ≡ identity bits }
    {
        let mut columns = [0; 62];
        for index in 0..bits as usize {
            columns[index] = 1 << index;
        }
        Matrix { bits, columns }
    }

    /// The matrix of the seed: its columns are the first numbers that `SplitMix64` draws from it, of which the low
    /// `bits` bits are kept.
    pub(crate) fn of_seed(bits: u32, seed: u64) -> Matrix
        requires { IsWidth bits }
        ensures { result ≡ seed_columns bits seed }
    {
        let mut generator = SplitMix64::seed_from_u64(seed);
        let low = (1 << bits) - 1;
        let mut columns = [0; 62];
        for index in 0..bits as usize {
            columns[index] = generator.next_word() & low;
        }
        Matrix { bits, columns }
    }

    /// The number of bits of the numbers that the matrix multiplies.
    pub fn bits(&self) -> u32
        ensures columns { result ≡ length self.now }
        ensures width { IsWidth result }
        ensures below { AreBelow result self.now }
    {
        self.bits
    }

    /// The columns.
    pub fn columns(&self) -> &[u64]
        ensures { result.now ≡ self.now }
    {
        &self.columns[..self.bits as usize]
    }

    /// The matrix times the number `x`: the xor of the columns at the set bits of `x`.
    pub fn apply(&self, x: u64) -> u64
        requires { x < 2 ^ length self.now }
        ensures product { result ≡ product self.now x }
        ensures within { result < 2 ^ length self.now }
        ensures zero { x ≡ 0 → result ≡ 0 }
        ensures linear { (y : ℕ) → product self.now (bit_xor x y) ≡ bit_xor result (product self.now y) }
    {
        let mut sum = 0;
        for index in 0..self.bits {
            if (x >> index) & 1 == 1 {
                sum ^= self.columns[index as usize];
            }
        }
        sum
    }

    /// Adds row `row` to each row in `rows`, a set of bits.
    pub(crate) fn add_row(&mut self, row: u32, rows: u64)
        requires row_within { row < length self.old }
        requires rows_within { rows < 2 ^ length self.old }
        ensures { self.new ≡ map (row_added row rows) self.old }
    {
        for column in self.columns.iter_mut() {
            if (*column >> row) & 1 == 1 {
                *column ^= rows;
            }
        }
    }
}

impl PartialEq for Matrix {
    ghost use Rattle.std.specs.Prelude.{nat_eq};
    ghost use Rattle.std.specs.Cmp.{partial_equiv_from_equiv};
    ghost use Rattle.std.specs.Cmp.Lexicographic.{pointwise, nat_list_eq_equiv};

    ghost eq = { pointwise nat_eq };

    ghost laws = { partial_equiv_from_equiv nat_list_eq_equiv };

    /// Two matrices are equal if their columns are.
    fn eq(&self, other: &Matrix) -> bool {
        self.columns() == other.columns()
    }
}

impl Eq for Matrix {
    ghost use Rattle.std.specs.Cmp.Lexicographic.{nat_list_eq_equiv};

    ghost laws = { nat_list_eq_equiv };
}
