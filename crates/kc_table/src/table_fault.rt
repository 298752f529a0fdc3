//! The faults of a table: why it refuses a new key.
use thiserror::Error;

/// Why `ready` was refused. Both faults leave the map unchanged.
#[derive(Clone, Copy, Debug, Drop, Eq, Error, PartialEq)]
pub enum TableFault {
    /// All places of a key are taken, and the table may not grow.
    #[error("the table is full")]
    Full,
    /// A growth was refused.
    #[error("no memory")]
    Memory,
}
