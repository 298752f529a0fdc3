//! The faults of readers: what is wrong with an input, or with the source that gives it.
ghost use Rattle.std.specs.Prelude.{◌≡◌};
ghost use Rattle.kc_fastx.specs.declared.read_faults.FastxFault.{FastxFault};
ghost use Rattle.kc_fastx.specs.declared.read_faults.FastxFault.TheVariants.{Memory};
ghost use Rattle.kc_fastx.specs.Faults.{fault_number, is_of_lines, taking_fault};

use kc_gzip::TakeFault;
use std::alloc::{AllocError, AllocFailed};
use thiserror::Error;

/// Why no reads are given. Lines are numbered from 1.
#[derive(Clone, Copy, Debug, PartialEq, Eq, Error)]
pub enum FastxFault {
    /// This line should begin a record, and doesn't.
    #[error("bad start, line {0}")]
    BadStart(u64),
    /// This line of a sequence has a byte that is no letter, `.`, `-` or `*`.
    #[error("bad base, line {0}")]
    BadBase(u64),
    /// This line of a quality has a byte outside 33 to 126.
    #[error("bad quality, line {0}")]
    BadQuality(u64),
    /// With this line the quality is longer than its sequence.
    #[error("long quality, line {0}")]
    LongQuality(u64),
    /// The input ends with this line, inside a record.
    #[error("truncated, line {0}")]
    Truncated(u64),
    /// The source gave more bytes than its limit.
    #[error("too long")]
    TooLong,
    /// The source failed.
    #[error("read failed")]
    Read,
    /// Memory was refused.
    #[error("no memory")]
    Memory,
    /// The source is gzip, and broken.
    #[error("broken gzip")]
    BrokenGzip,
    /// The source is gzip, and ends before it should.
    #[error("gzip cut short")]
    ShortGzip,
}

impl FastxFault {
    /// The fault's number: 1 to 8, 71 or 72.
    pub fn number(&self) -> u32
        ensures { result ≡ fault_number self.now }
    {
        match self {
            FastxFault::BadStart(_) => 1,
            FastxFault::BadBase(_) => 2,
            FastxFault::BadQuality(_) => 3,
            FastxFault::LongQuality(_) => 4,
            FastxFault::Truncated(_) => 5,
            FastxFault::TooLong => 6,
            FastxFault::Read => 7,
            FastxFault::Memory => 8,
            FastxFault::BrokenGzip => 71,
            FastxFault::ShortGzip => 72,
        }
    }

    // Whether the input itself is wrong, and not its source, its size or a lack of memory.
    pub(crate) fn is_of_lines(&self) -> bool
        ensures { result ≡ is_of_lines self.now }
    {
        self.number() <= 5
    }
}

impl From<TakeFault> for FastxFault {
    ghost from_gives = { λ why fault. fault ≡ taking_fault why };

    fn from(why: TakeFault) -> FastxFault {
        match why {
            TakeFault::TooLong => FastxFault::TooLong,
            TakeFault::Read => FastxFault::Read,
            TakeFault::Broken => FastxFault::BrokenGzip,
            TakeFault::Short => FastxFault::ShortGzip,
            TakeFault::Memory => FastxFault::Memory,
        }
    }
}

impl From<AllocError> for FastxFault {
    ghost from_gives = { λ _ fault. fault ≡ Memory };

    fn from(_error: AllocError) -> FastxFault {
        FastxFault::Memory
    }
}

impl<T: Drop> From<AllocFailed<T>> for FastxFault {
    ghost from_gives = { λ _ fault. fault ≡ Memory };

    fn from(_error: AllocFailed<T>) -> FastxFault {
        FastxFault::Memory
    }
}
