//! The hash: an invertible matrix together with its inverse, and its laws.

ghost use Rattle.std.specs.Prelude.{◌≡◌, ℕ, ◌<◌, ◌^◌, List, length, IfOk, IfErr, IsErr};
ghost use Rattle.kc_hash.specs.Matrix.{IsWidth};
ghost use Rattle.kc_hash.specs.Product.{product, identity, AreInverse, StaysBelow, IsInKernel};
ghost use Rattle.kc_hash.specs.Product.{IsNonsingular, IsOneToOne, IsOnto};
ghost use Rattle.kc_hash.specs.Seeds.{turn_columns, NoneIsNonsingular};
ghost use Rattle.kc_hash.specs.Hash.{IsHash, inverse_of};
ghost use Rattle.kc_hash.specs.Inversion.{inverse_is};

use crate::byte_tables::MatrixTables;
use crate::elimination::Inverse;
use crate::matrix::Matrix;
use std::marker::Model;
use thiserror::Error;

/// Why a matrix makes no hash.
#[derive(Clone, Copy, Debug, PartialEq, Eq, Error)]
pub enum HashFault {
    /// Refusal 9: the matrix has no inverse, since it maps this number, which is not 0, to 0.
    #[error("the matrix is singular: it maps {0} to 0")]
    Singular(u64),
}

/// How many seeds are tried for an invertible matrix.
const SEEDS: u64 = 64;

/// An invertible linear map of the numbers of 1 to 62 bits: a matrix, kept with its inverse.
///
/// In contracts a hash is the list of its matrix's columns, so two hashes are equal if their matrices are. It has about
/// 1 KB: borrow it unless you keep it.
#[derive(Clone, Copy, Debug)]
pub struct Hash {
    matrix: Matrix,
    inverse: Matrix,
}

impl Model for Hash {
    ghost Value = { List ℕ };

    ghost view = { λ h. h.matrix };

    ghost invariant = { λ h. IsHash h.matrix h.inverse };

    ghost inverse = { λ columns. record { matrix = columns; inverse = inverse_of columns } };

    ghost inverse_ok = { λ a h. λ i. record { matrix = a.matrix; inverse = inverse_is a.matrix a.inverse h i } };
}

impl Hash {
    ghost use Rattle.kc_hash.specs.HashFault.{mapped_to_zero};

    /// The hash of the first of 64 seeds, from `seed` on and wrapping, whose matrix is invertible. The columns of a
    /// seed's matrix are the first `bits` numbers of `SplitMix64::seed_from_u64`, of which the low `bits` bits are
    /// kept. If none of the 64 matrices is invertible, the hash leaves every number unchanged.
    pub fn seeded(bits: u32, seed: u64) -> Hash
        requires { IsWidth bits }
        ensures first { (turn : ℕ) → turn < 64 → NoneIsNonsingular bits seed turn
            → IsNonsingular (turn_columns bits seed turn) → result ≡ turn_columns bits seed turn }
        ensures none { NoneIsNonsingular bits seed 64 → result ≡ identity bits }
    {
        for turn in 0..SEEDS {
            let matrix = Matrix::of_seed(bits, seed.wrapping_add(turn));
            if let Inverse::Found(inverse) = matrix.invert() {
                return Hash { matrix, inverse };
            }
        }
        let identity = Matrix::identity(bits);
        Hash {
            matrix: identity,
            inverse: identity,
        }
    }

    /// The hash with this matrix; refused if it has no inverse, with a number that it maps to 0.
    pub fn of_matrix(matrix: Matrix) -> Result<Hash, HashFault>
        ensures matrix { IfOk result (λ hash. hash ≡ matrix) }
        ensures nonsingular { IfOk result (λ _. IsNonsingular matrix) }
        ensures singular { IfErr result (λ fault. IsInKernel matrix (mapped_to_zero fault)) }
        ensures refused { (x : ℕ) → IsInKernel matrix x → IsErr result }
    {
        match matrix.invert() {
            Inverse::Found(inverse) => Ok(Hash { matrix, inverse }),
            Inverse::Kernel(x) => Err(HashFault::Singular(x)),
        }
    }

    /// The number of bits of the numbers that are hashed.
    pub fn bits(&self) -> u32
        ensures columns { result ≡ length self.now }
        ensures width { IsWidth result }
    {
        self.matrix.bits
    }

    /// A law: the hash is a permutation of the numbers of its bits. A hashed number has no more bits than the hash,
    /// different numbers have different hashed numbers, and each number is a hashed number.
    pub fn is_permutation(&self)
        ensures stays_below { StaysBelow self.now }
        ensures one_to_one { IsOneToOne self.now }
        ensures onto { IsOnto self.now }
    {
        // Reading it makes the hash's invariant known.
        let _matrix = &self.matrix;
    }

    /// The hashed number: the matrix times `x`.
    pub fn forward(&self, x: u64) -> u64
        requires { x < 2 ^ length self.now }
        ensures product { result ≡ product self.now x }
        ensures within { result < 2 ^ length self.now }
    {
        self.matrix.apply(x)
    }

    /// The one number whose hashed number is `y`.
    pub fn back(&self, y: u64) -> u64
        requires { y < 2 ^ length self.now }
        ensures within { result < 2 ^ length self.now }
        ensures hashed { product self.now result ≡ y }
        ensures only { (x : ℕ) → x < 2 ^ length self.now → product self.now x ≡ y → result ≡ x }
    {
        self.inverse.apply(y)
    }

    /// The matrix as eight tables, which hash as `forward` does.
    pub fn forward_tables(&self) -> MatrixTables
        ensures { result ≡ self.now }
    {
        self.matrix.tables()
    }

    /// The inverse as eight tables, which give numbers back as `back` does.
    pub fn back_tables(&self) -> MatrixTables
        ensures { AreInverse self.now result }
    {
        self.inverse.tables()
    }
}

impl PartialEq for Hash {
    ghost use Rattle.std.specs.Prelude.{nat_eq};
    ghost use Rattle.std.specs.Cmp.{partial_equiv_from_equiv};
    ghost use Rattle.std.specs.Cmp.Lexicographic.{pointwise, nat_list_eq_equiv};

    ghost eq = { pointwise nat_eq };

    ghost laws = { partial_equiv_from_equiv nat_list_eq_equiv };

    /// Two hashes are equal if their matrices have the same columns.
    fn eq(&self, other: &Hash) -> bool {
        self.matrix.columns() == other.matrix.columns()
    }
}

impl Eq for Hash {
    ghost use Rattle.std.specs.Cmp.Lexicographic.{nat_list_eq_equiv};

    ghost laws = { nat_list_eq_equiv };
}
