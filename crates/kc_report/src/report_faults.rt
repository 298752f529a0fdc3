//! Why a report could not be written, or a table not be read.
ghost use Rattle.std.specs.Prelude.{◌≡◌};
ghost use Rattle.kc_report.specs.declared.report_faults.ReportFault.TheVariants.{Write, Memory};
ghost use Rattle.kc_report.specs.Faults.{taking_fault};

use kc_gzip::TakeFault;
use kc_io::Failed;
use std::alloc::{AllocError, AllocFailed};
use thiserror::Error;

/// Why a report could not be written, or a table not be read.
#[derive(Clone, Copy, Debug, PartialEq, Eq, Error)]
pub enum ReportFault {
    /// The writer failed, or took no byte.
    #[error("write failed")]
    Write,
    /// The first line of a table is no header.
    #[error("bad header")]
    BadHeader,
    /// This line of a table, numbered from 1, is no row that may come there.
    #[error("bad row, line {0}")]
    BadRow(u64),
    /// A table has no end line, or a wrong one, or goes on after it.
    #[error("bad end")]
    BadEnd,
    /// The text of a table's source is longer than its limit.
    #[error("table too long")]
    TableTooLong,
    /// The source of a table failed.
    #[error("table read failed")]
    TableRead,
    /// The source of a table is gzip, and broken.
    #[error("broken gzip")]
    BrokenGzip,
    /// The source of a table is gzip, and ends before it should.
    #[error("gzip cut short")]
    ShortGzip,
    /// This asked word, numbered from 1, is no word of the tally's length.
    #[error("bad word {0}")]
    BadWord(u64),
    /// Two tables do not match: they were not counted under one rule, or a list was given.
    #[error("tables do not match")]
    Unlike,
    /// The counts of two tables, or their reads, add up to more than a table can have.
    #[error("sums too large")]
    TooLarge,
    /// A growth was refused.
    #[error("no memory")]
    Memory,
}

impl From<Failed> for ReportFault {
    ghost from_gives = { λ _ fault. fault ≡ Write };

    fn from(_error: Failed) -> ReportFault {
        ReportFault::Write
    }
}

impl From<TakeFault> for ReportFault {
    ghost from_gives = { λ why fault. fault ≡ taking_fault why };

    fn from(why: TakeFault) -> ReportFault {
        match why {
            TakeFault::TooLong => ReportFault::TableTooLong,
            TakeFault::Read => ReportFault::TableRead,
            TakeFault::Broken => ReportFault::BrokenGzip,
            TakeFault::Short => ReportFault::ShortGzip,
            TakeFault::Memory => ReportFault::Memory,
        }
    }
}

impl From<AllocError> for ReportFault {
    ghost from_gives = { λ _ fault. fault ≡ Memory };

    fn from(_error: AllocError) -> ReportFault {
        ReportFault::Memory
    }
}

impl<T: Drop> From<AllocFailed<T>> for ReportFault {
    ghost from_gives = { λ _ fault. fault ≡ Memory };

    fn from(_error: AllocFailed<T>) -> ReportFault {
        ReportFault::Memory
    }
}
