//! The inverse of a matrix, by elimination: row operations on the matrix and on the identity, side by side, turn the
//! columns of the matrix into those of the identity, one after another.

ghost use Rattle.std.specs.Prelude.{ℕ, List};
ghost use Rattle.kc_hash.specs.Product.{Undoes, AreInverse, IsInKernel, IsNonsingular};

use crate::matrix::Matrix;

/// The result of an inversion: the inverse, or why there is none.
#[derive(Clone, Copy, Debug, PartialEq, Eq)]
pub enum Inverse {
    /// The inverse of the matrix.
    Found(Matrix),
    /// A number other than 0 that the matrix maps to 0; then it has no inverse.
    Kernel(u64),
}

impl Matrix {
    ghost use Rattle.kc_hash.specs.Inverse.{IfFound, IfKernel};

    /// The inverse of the matrix, or a number below `2^bits` other than 0 that it maps to 0.
    pub fn invert(&self) -> Inverse
        ensures found { IfFound result (AreInverse self.now) }
        ensures kernel { IfKernel result (IsInKernel self.now) }
        ensures found_alone { IfFound result (λ _. IsNonsingular self.now) }
        ensures kernel_alone { IfKernel result (λ _. (other : List ℕ) → Undoes self.now other → ⊥) }
    {
        let bits = self.bits;
        let mut reduced = *self;
        let mut inverse = Matrix::identity(bits);
        for index in 0..bits {
            let upper = reduced.columns[index as usize] >> index;
            if upper == 0 {
                // The column has only bits of columns before it, each of which has one.
                return Inverse::Kernel(reduced.columns[index as usize] ^ (1 << index));
            }
            // The lowest row from `index` on in which the column has a bit; a later one is added to row `index`.
            let row = index + upper.trailing_zeros();
            if row != index {
                reduced.add_row(row, 1 << index);
                inverse.add_row(row, 1 << index);
            }
            // Then row `index` clears the column's other bits.
            let others = reduced.columns[index as usize] ^ (1 << index);
            reduced.add_row(index, others);
            inverse.add_row(index, others);
        }
        Inverse::Found(inverse)
    }
}
