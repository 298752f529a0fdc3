//! What a table was counted from.

// The least floor that a header can have.
pub(crate) const MIN_FLOOR: u8 = 33;

pub(crate) const MAX_FLOOR: u8 = 126;

pub(crate) const MAX_READS: u64 = 1 << 62;

/// What a table was counted from.
#[derive(Clone, Copy, Debug, PartialEq, Eq)]
pub struct Origin {
    /// The floor of qualities: the least byte of a quality line with which a base counts.
    pub floor: u8,
    /// How many reads were counted.
    pub reads: u64,
    /// Whether a list was given: then only its words were counted.
    pub listed: bool,
}
