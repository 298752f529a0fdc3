//! Why a selection of pairs ended early.
ghost use Rattle.std.specs.Prelude.{◌≡◌};
ghost use Rattle.kc_select.specs.declared.pair_fault.PairFault.TheVariants.{Write};

use crate::sides::Side;
use kc_fastx::FastxFault;
use kc_io::Failed;
use thiserror::Error;

/// Why not all pairs of reads of two sources were judged and written.
#[derive(Clone, Copy, Debug, PartialEq, Eq, Error)]
pub enum PairFault {
    /// The reads of this side met this fault.
    #[error("{1}")]
    Reads(Side, FastxFault),
    /// The records with this number, from 1, are no pair: their titles are not those of mates, or one source has no
    /// such record.
    #[error("reads are no pair, record {0}")]
    Unpaired(u64),
    /// A writer failed or took no byte.
    #[error("write failed")]
    Write,
}

impl From<Failed> for PairFault {
    ghost from_gives = { λ _ fault. fault ≡ Write };

    fn from(_error: Failed) -> PairFault {
        PairFault::Write
    }
}
