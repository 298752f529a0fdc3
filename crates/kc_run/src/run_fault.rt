//! The faults of a run: why it gives no tally.
ghost use Rattle.std.specs.Prelude.{◌≡◌, ◌≢◌, ℕ};
ghost use Rattle.kc_run.specs.declared.run_fault.RunFault.TheVariants.{Memory};
ghost use Rattle.kc_run.specs.Runs.{booking_fault, IsOfGathering};

use kc_gather::GatherFault;
use kc_stripe::BookFault;
use std::alloc::AllocError;
use thiserror::Error;

/// Why a run gave no tally. If several workers fail, the fault of the first one in their order is returned.
#[derive(Clone, Copy, Debug, Drop, Eq, Error, PartialEq)]
pub enum RunFault {
    /// Refusal 31: the stripe with this number is foreign: it has another setup or number, or a batch that is not the
    /// given one with its number, or one that was booked before.
    #[error("stripe {0} is foreign")]
    Foreign(u32),
    /// Refusal 33: the worker with this number could not be started.
    #[error("no thread for worker {0}")]
    NoThread(u32),
    /// Refusal 34: memory was refused.
    #[error("no memory")]
    Memory,
    /// Refusal 35: the hash table of the stripe with this number has no place for a key.
    #[error("stripe {0} is full")]
    Full(u32),
}

impl RunFault {
    /// The fault of a run in which the stripe with this number refused a booking.
    pub(crate) fn of_booking(stripe: u32, fault: BookFault) -> RunFault
        ensures { result ≡ booking_fault stripe fault }
    {
        match fault {
            BookFault::Twice | BookFault::Stranger => RunFault::Foreign(stripe),
            BookFault::Full => RunFault::Full(stripe),
            BookFault::Memory => RunFault::Memory,
        }
    }

    /// The fault of a run in which gathering was refused. No stripe lacks a batch.
    pub(crate) fn of_gathering(fault: GatherFault) -> RunFault
        requires { (index batch : ℕ) → fault ≢ GatherFault.Missing index batch }
        ensures { IsOfGathering fault result }
    {
        match fault {
            GatherFault::Foreign(stripe) => RunFault::Foreign(stripe),
            GatherFault::Missing(_, _) => unreachable!(),
            GatherFault::Memory => RunFault::Memory,
        }
    }
}

impl From<AllocError> for RunFault {
    ghost from_gives = { λ _ fault. fault ≡ Memory };

    fn from(_error: AllocError) -> RunFault {
        RunFault::Memory
    }
}
