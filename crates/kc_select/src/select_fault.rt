//! Why a selection ended early.
ghost use Rattle.std.specs.Prelude.{◌≡◌};
ghost use Rattle.kc_select.specs.declared.select_fault.SelectFault.TheVariants.{Write};

use kc_fastx::FastxFault;
use kc_io::Failed;
use thiserror::Error;

/// Why not all reads of a source were judged and written.
#[derive(Clone, Copy, Debug, PartialEq, Eq, Error)]
pub enum SelectFault {
    /// The reads of the source met this fault.
    #[error("{0}")]
    Reads(FastxFault),
    /// The writer failed or took no byte.
    #[error("write failed")]
    Write,
}

impl From<Failed> for SelectFault {
    ghost from_gives = { λ _ fault. fault ≡ Write };

    fn from(_error: Failed) -> SelectFault {
        SelectFault::Write
    }
}
