//! The faults of the program.
ghost use Rattle.std.specs.Prelude.{◌≡◌};
ghost use Rattle.kc_tool.specs.declared.tool_faults.ToolFault.TheVariants.{BadOption, Memory, Run, Write};
ghost use Rattle.kc_tool.specs.Faults.{combine_fault, report_fault, table_fault};

use kc_combine::{CombineFault, PlacedFault};
use kc_command::OptionName;
use kc_fastx::FastxFault;
use kc_io::Failed;
use kc_report::ReportFault;
use kc_run::RunFault;
use std::alloc::{AllocError, AllocFailed};
use thiserror::Error;

/// Why a command could not be carried out.
#[derive(Debug, Drop, PartialEq, Eq, Error)]
pub enum ToolFault {
    /// A source could not be read as sequence reads. Sources are numbered from 1, and the list of a count is number 0.
    #[error("{fault}, source {source}")]
    Fastx {
        /// The number of the source.
        source: u64,
        /// What is wrong with it.
        fault: FastxFault,
    },
    /// The first line of a table is no header.
    #[error("bad header")]
    BadHeader,
    /// This line of a table, numbered from 1, is no row that may come there.
    #[error("bad row, line {0}")]
    BadRow(u64),
    /// A table has no end line, or a wrong one, or goes on after it.
    #[error("bad end")]
    BadEnd,
    /// The source of a table gave more bytes than its limit.
    #[error("table too long")]
    TableTooLong,
    /// The source of a table failed.
    #[error("table read failed")]
    TableRead,
    /// A growth was refused.
    #[error("no memory")]
    Memory,
    /// An option has a value outside its limits.
    #[error("bad option")]
    BadOption(OptionName),
    /// This asked word, numbered from 1, is no word of the tally's length.
    #[error("bad word {0}")]
    BadWord(u64),
    /// The writer failed, or took no byte.
    #[error("write failed")]
    Write,
    /// The counting was refused.
    #[error("{0}")]
    Run(RunFault),
    /// The file with this name could not be opened, or not be created.
    #[error("cannot open {0}")]
    OpenFailed(String),
    /// The tables that are to be combined do not match.
    #[error("tables do not match")]
    Unlike,
    /// A count of combined tables, or the sum of their counts or of their reads, is above 2^62.
    #[error("sums too large")]
    TooLarge,
    /// Table number `place`, from 1, is broken gzip.
    #[error("broken gzip, source {0}")]
    BrokenTable(u64),
    /// Table number `place`, from 1, is gzip that is cut short.
    #[error("gzip cut short, source {0}")]
    ShortTable(u64),
    /// The records with this number, from 1, are no pair: their titles are not those of mates, or one source has no
    /// such record.
    #[error("reads are no pair, record {0}")]
    Unpaired(u64),
}

impl From<AllocError> for ToolFault {
    ghost from_gives = { λ _ fault. fault ≡ Memory };

    fn from(_error: AllocError) -> ToolFault {
        ToolFault::Memory
    }
}

impl<T: Drop> From<AllocFailed<T>> for ToolFault {
    ghost from_gives = { λ _ fault. fault ≡ Memory };

    fn from(_error: AllocFailed<T>) -> ToolFault {
        ToolFault::Memory
    }
}

impl From<Failed> for ToolFault {
    ghost from_gives = { λ _ fault. fault ≡ Write };

    fn from(_error: Failed) -> ToolFault {
        ToolFault::Write
    }
}

impl From<OptionName> for ToolFault {
    ghost from_gives = { λ name fault. fault ≡ BadOption name };

    fn from(name: OptionName) -> ToolFault {
        ToolFault::BadOption(name)
    }
}

impl From<RunFault> for ToolFault {
    ghost from_gives = { λ why fault. fault ≡ Run why };

    fn from(fault: RunFault) -> ToolFault {
        ToolFault::Run(fault)
    }
}

impl From<ReportFault> for ToolFault {
    ghost from_gives = { λ report fault. fault ≡ report_fault report };

    fn from(fault: ReportFault) -> ToolFault {
        table_fault(1, fault)
    }
}

/// Why table number `place`, from 1, could not be read, or no report be written.
pub(crate) fn table_fault(place: u64, fault: ReportFault) -> ToolFault
    ensures { result ≡ table_fault place fault }
{
    match fault {
        ReportFault::BadHeader => ToolFault::BadHeader,
        ReportFault::BadRow(line) => ToolFault::BadRow(line),
        ReportFault::BadEnd => ToolFault::BadEnd,
        ReportFault::TableTooLong => ToolFault::TableTooLong,
        ReportFault::TableRead => ToolFault::TableRead,
        ReportFault::Memory => ToolFault::Memory,
        ReportFault::BadWord(number) => ToolFault::BadWord(number),
        ReportFault::Write => ToolFault::Write,
        ReportFault::Unlike => ToolFault::Unlike,
        ReportFault::TooLarge => ToolFault::TooLarge,
        ReportFault::BrokenGzip => ToolFault::BrokenTable(place),
        ReportFault::ShortGzip => ToolFault::ShortTable(place),
    }
}

/// Why tables could not be combined.
pub(crate) fn combine_fault(fault: CombineFault<PlacedFault>) -> ToolFault
    ensures { result ≡ combine_fault fault }
{
    match fault {
        CombineFault::Table(PlacedFault { place, fault }) => table_fault(place, fault),
        CombineFault::Unlike => ToolFault::Unlike,
        CombineFault::TooLarge => ToolFault::TooLarge,
        CombineFault::Write => ToolFault::Write,
        CombineFault::Memory => ToolFault::Memory,
    }
}
