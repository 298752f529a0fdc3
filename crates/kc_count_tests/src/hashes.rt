//! A small matrix by hand, and seeds compared with another program.
ghost use Rattle.std.specs.Prelude.{◌≡◌, length};

use crate::count_assertions::{assert_items, assert_same};
use kc_hash::{Hash, HashFault, Inverse, Matrix, MatrixTables};
use std::process::Abort;
use std::test::Fail;

// The matrix of two columns.
fn made_matrix(first: u64, second: u64) -> Result<Matrix, Fail> {
    let mut columns = [0; 62];
    columns[0] = first;
    columns[1] = second;
    match Matrix::of_columns(2, columns) {
        Some(matrix) => Ok(matrix),
        None => Err(Fail::from("no matrix")),
    }
}

#[test]
fn a_matrix_of_two_columns(rt: HostRuntime) -> Result<(), Fail> {
    let matrix = made_matrix(1, 3)?;
    assert_items(&rt, "columns", matrix.columns(), &[1, 3]);
    assert_same(&rt, "inverse", &matrix.invert(), &Inverse::Found(matrix));
    let same = Matrix::identity(2);
    assert_same(&rt, "identity", &made_matrix(1, 2)?, &same);
    let hash = Hash::of_matrix(matrix)?;
    hash.is_permutation();
    let tables = matrix.tables();
    assert_same(&rt, "tables", &tables.matrix(), &matrix);
    assert!(rt; matrix.bits() == 2);
    assert_same(&rt, "a product", &matrix.apply(2), &3);
    assert_got_back(
        &rt,
        &hash,
        &hash.forward_tables(),
        &hash.back_tables(),
        (2, 3),
    );
    Ok(())
}

// Asserts the hashed number of a number.
fn assert_got_back<H: Abort>(
    rt: &H,
    hash: &Hash,
    forward: &MatrixTables,
    back: &MatrixTables,
    pair: (u64, u64),
)
    requires forward { forward.now ≡ hash.now }
    requires back { length back.now ≡ length hash.now }
{
    let (x, hashed) = pair;
    let bits = hash.bits();
    assert!(rt; x >> bits == 0);
    let y = hash.forward(x);
    assert!(rt; hash.back(y) == x, "back at {bits} bits");
    assert!(rt; forward.apply(x) == y, "tables at {bits} bits");
    assert!(rt; back.apply(y) == x, "tables back at {bits} bits");
    assert_same(rt, "hashed", &y, &hashed);
}

#[test]
fn a_singular_matrix_makes_no_hash(rt: HostRuntime) -> Result<(), Fail> {
    let matrix = made_matrix(1, 1)?;
    assert_same(&rt, "kernel", &matrix.invert(), &Inverse::Kernel(3));
    let fault = HashFault::Singular(3);
    assert_same(&rt, "hash", &Hash::of_matrix(matrix), &Err(fault));
    let told = format!(in rt.alloc(); "{fault}")?;
    assert!(rt; told.as_str() == "the matrix is singular: it maps 3 to 0");
    Ok(())
}

// Bits, a seed, and of the hash that it gives the column at the first bit and the xor of all columns; by another
// program.
const SEEDED: &[(u32, u64, u64, u64)] = &[
    (1, 1, 0x1, 0x1),
    (2, 1, 0x1, 0x2),
    (3, 1, 0x6, 0x3),
    (4, 1, 0x1, 0x3),
    (7, 1, 0x6d, 0x3),
    (8, 1, 0xed, 0x95),
    (42, 1, 0xe4_db01_8fed, 0x1ab_df3f_1a34),
    (62, 1, 0x1758_35de_1c97_56ce, 0x178f_f592_888e_6a4a),
    (3, u64::MAX, 6, 3),
    (5, u64::MAX, 13, 28),
    (8, u64::MAX, 175, 84),
];

// Asserts that the hash of a seed maps 1 and the greatest number to these.
fn assert_seeded<H: Abort>(rt: &H, bits: u32, seed: u64, first: u64, all: u64) {
    assert!(rt; bits >= 1 && bits <= 62);
    let hash = Hash::seeded(bits, seed);
    assert!(rt; hash.bits() == bits);
    assert!(rt; 1u64 >> bits == 0);
    assert_same(rt, bits, &hash.forward(1), &first);
    let greatest = (1 << bits) - 1;
    assert_same(rt, bits, &hash.forward(greatest), &all);
}

#[test]
fn a_seed_gives_the_first_invertible_matrix(rt: HostRuntime) {
    for (bits, seed, first, all) in SEEDED {
        assert_seeded(&rt, *bits, *seed, *first, *all);
    }
}
