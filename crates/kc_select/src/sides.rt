//! Values for the two sides of pairs of reads.

/// A value for the first reads of pairs, and one for the second ones, their mates.
#[derive(Drop)]
pub struct Sides<T> {
    /// The value for the first reads.
    pub first: T,
    /// The value for the second ones.
    pub second: T,
}

/// One of the sides of pairs of reads.
#[derive(Clone, Copy, PartialEq, Eq, Debug)]
pub enum Side {
    /// That of the first reads.
    First,
    /// That of the second ones.
    Second,
}
