//! A matrix as tables, for loops over many numbers.

ghost use Rattle.std.specs.Prelude.{◌≡◌, ℕ, ◌+◌, ◌^◌, ◌<◌, ◌≤◌, List, length, slice_index, bit_xor};
ghost use Rattle.kc_hash.specs.Matrix.{AreBelow};
ghost use Rattle.kc_hash.specs.Product.{product};
ghost use Rattle.kc_hash.specs.Tables.{AreTables};

use crate::matrix::Matrix;
use std::marker::Model;

/// A matrix with its products with each byte at each of the eight byte positions of a number: multiplying a number
/// takes eight look-ups.
///
/// It has 17 KB: build it once for many numbers, and borrow it. In contracts it is the list of the matrix's columns.
#[derive(Drop)]
pub struct MatrixTables {
    matrix: Matrix,
    tables: [[u64; 256]; 8],
}

impl Model for MatrixTables {
    ghost Value = { List ℕ };

    ghost view = { λ t. t.matrix };

    ghost invariant = { λ t. AreTables t.matrix t.tables × AreBelow (length t.matrix) t.matrix };
}

impl Matrix {
    /// The matrix as eight tables, which multiply a number byte by byte.
    pub fn tables(&self) -> MatrixTables
        ensures { result ≡ self.now }
    {
        let mut tables = [[0; 256]; 8];
        for bit in 0..64 {
            // After its columns a matrix has zeros.
            let column = self.columns.get(bit).copied().unwrap_or(0);
            // The products with the bytes that have this bit as their highest.
            add_column(&mut tables[bit / 8], 1 << (bit % 8), column);
        }
        MatrixTables {
            matrix: *self,
            tables,
        }
    }
}

/// Writes a copy of each of the first `width` entries after them, with the column added.
fn add_column(table: &mut [u64; 256], width: usize, column: u64)
    requires { width ≤ 128 }
    ensures lower { (i : ℕ) → i < width → slice_index table.new i ≡ slice_index table.old i }
    ensures upper { (i : ℕ) → i < width
        → slice_index table.new (width + i) ≡ bit_xor (slice_index table.old i) column }
{
    for lower in 0..width {
        table[width + lower] = table[lower] ^ column;
    }
}

impl MatrixTables {
    /// The matrix.
    pub fn matrix(&self) -> Matrix
        ensures { result ≡ self.now }
    {
        self.matrix
    }

    /// The matrix times the number `x`, as `Matrix::apply`.
    pub fn apply(&self, x: u64) -> u64
        requires { x < 2 ^ length self.now }
        ensures product { result ≡ product self.now x }
        ensures within { result < 2 ^ length self.now }
    {
        let mut sum = 0;
        for position in 0..8 {
            sum ^= self.tables[position][(x >> (8 * position)) as usize & 255];
        }
        sum
    }
}
