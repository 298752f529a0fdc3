//! The faults of gzip.
ghost use Rattle.std.specs.Prelude.{◌≡◌};
ghost use Rattle.kc_gzip.specs.declared.faults.GzipFault.TheVariants.{Memory};

use std::alloc::{AllocError, AllocFailed};
use thiserror::Error;

/// Why bytes are no gzip.
#[derive(Clone, Copy, Debug, PartialEq, Eq, Error)]
pub enum GzipFault {
    /// A header, a block, a checksum or a length is wrong, or something else follows.
    #[error("broken gzip")]
    Broken,
    /// The bytes end before the gzip does.
    #[error("gzip cut short")]
    Short,
    /// A growth was refused.
    #[error("no memory")]
    Memory,
}

impl From<AllocError> for GzipFault {
    ghost from_gives = { λ _ fault. fault ≡ Memory };

    fn from(_error: AllocError) -> GzipFault {
        GzipFault::Memory
    }
}

impl<T: Drop> From<AllocFailed<T>> for GzipFault {
    ghost from_gives = { λ _ fault. fault ≡ Memory };

    fn from(_error: AllocFailed<T>) -> GzipFault {
        GzipFault::Memory
    }
}
