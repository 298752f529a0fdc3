//! The invertible linear hash: a number of 1 to 62 bits is multiplied by an invertible matrix of bits, so each number
//! has a hashed number of its own, which determines it.
//!
//! [`Hash`] is such a matrix with its inverse, made from a seed or from a given [`Matrix`]. [`MatrixTables`] is a
//! matrix as eight tables of 256, for loops over many numbers. [`Inverse`] is the result of an inversion.
//!
//! ```ignore
//! let y = hash.forward(x);    // for x below 2^bits
//! assert!(rt; hash.back(y) == x, "back at {bits} bits");
//! assert!(rt; forward.apply(x) == y, "tables at {bits} bits");
//! assert!(rt; back.apply(y) == x, "tables back at {bits} bits");
//! ```
//!
//! No call takes memory. A number is a `u64` below `2^bits`; that is the condition of each call that takes one.
#![tactic(auto)]

mod byte_tables;
mod elimination;
mod hash;
mod matrix;

pub use byte_tables::MatrixTables;
pub use elimination::Inverse;
pub use hash::{Hash, HashFault};
pub use matrix::Matrix;
