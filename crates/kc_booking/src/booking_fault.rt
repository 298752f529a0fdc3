//! The faults of booking: why a stripe doesn't take a batch.
ghost use Rattle.std.specs.Prelude.{◌≡◌};
ghost use Rattle.kc_booking.specs.declared.booking_fault.BookFault.{BookFault};
ghost use Rattle.kc_booking.specs.declared.booking_fault.BookFault.TheVariants.{Memory};
ghost use Rattle.kc_booking.specs.Faults.{booking_fault};

use kc_table::TableFault;
use std::alloc::AllocError;
use thiserror::Error;

/// Why a batch was not booked, in the order in which these refusals are looked for. Each leaves the stripe's journal,
/// counts, histogram and total unchanged.
#[derive(Clone, Copy, Debug, Drop, Eq, Error, PartialEq)]
pub enum BookFault {
    /// Refusal 21: a batch with this number was booked before.
    #[error("the batch was booked before")]
    Twice,
    /// Refusal 22: the cut was made with another setup, or for another stripe.
    #[error("the cut is of another stripe")]
    Stranger,
    /// Refusal 23: the total would pass 2^62, or the table has no place for a key.
    #[error("the stripe is full")]
    Full,
    /// Refusal 24: memory was refused.
    #[error("no memory")]
    Memory,
}

impl From<TableFault> for BookFault {
    ghost from_gives = { λ why fault. fault ≡ booking_fault why };

    fn from(why: TableFault) -> BookFault {
        match why {
            TableFault::Full => BookFault::Full,
            TableFault::Memory => BookFault::Memory,
        }
    }
}

impl From<AllocError> for BookFault {
    ghost from_gives = { λ _ fault. fault ≡ Memory };

    fn from(_error: AllocError) -> BookFault {
        BookFault::Memory
    }
}
