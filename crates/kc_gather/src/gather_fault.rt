//! Why stripes are not gathered.
ghost use Rattle.std.specs.Prelude.{◌≡◌};
ghost use Rattle.kc_gather.specs.declared.gather_fault.GatherFault.TheVariants.{Memory};

use std::alloc::AllocError;
use thiserror::Error;

/// Why stripes were not gathered. Stripes are looked at in order, and for each it is checked first whether it is
/// foreign.
#[derive(Clone, Copy, Debug, Drop, Eq, Error, PartialEq)]
pub enum GatherFault {
    /// Refusal 31: the stripe at this index has another setup or another number, or a batch in its journal is not the
    /// given one with its number.
    #[error("stripe {0} is foreign")]
    Foreign(u32),
    /// Refusal 32: the journal of the stripe at this index lacks the batch with this number, and none before it.
    #[error("stripe {0} lacks batch {1}")]
    Missing(u32, u64),
    /// Refusal 34: memory was refused.
    #[error("no memory")]
    Memory,
}

impl From<AllocError> for GatherFault {
    ghost from_gives = { λ _ fault. fault ≡ Memory };

    fn from(_error: AllocError) -> GatherFault {
        GatherFault::Memory
    }
}
