//! The header of a table.

use crate::origin::Origin;
use kc_kmer::K;

/// The header of a table.
#[derive(Clone, Copy)]
pub struct Header {
    /// The length of the words.
    pub k: K,
    /// Whether both strands were counted.
    pub both: bool,
    /// What the table was counted from, if that is known.
    pub origin: Option<Origin>,
}
