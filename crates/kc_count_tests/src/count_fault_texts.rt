//! How the faults of tables, of reports and of selections are displayed.
use crate::count_assertions::assert_displayed;
use kc_fastx::FastxFault;
use kc_report::ReportFault;
use kc_select::{PairFault, SelectFault, Side};
use kc_table::TableFault;
use std::alloc::AllocError;

const OF_TABLES: &[(TableFault, &str)] = &[
    (TableFault::Full, "the table is full"),
    (TableFault::Memory, "no memory"),
];

const OF_REPORTS: &[(ReportFault, &str)] = &[
    (ReportFault::Write, "write failed"),
    (ReportFault::BadHeader, "bad header"),
    (ReportFault::BadRow(12), "bad row, line 12"),
    (ReportFault::BadEnd, "bad end"),
    (ReportFault::TableTooLong, "table too long"),
    (ReportFault::TableRead, "table read failed"),
    (ReportFault::BrokenGzip, "broken gzip"),
    (ReportFault::ShortGzip, "gzip cut short"),
    (ReportFault::BadWord(101), "bad word 101"),
    (ReportFault::Unlike, "tables do not match"),
    (ReportFault::TooLarge, "sums too large"),
    (ReportFault::Memory, "no memory"),
];

// A fault of the reads is displayed as their reader displays it.
const OF_SELECTIONS: &[(SelectFault, &str)] = &[
    (
        SelectFault::Reads(FastxFault::BadBase(4)),
        "bad base, line 4",
    ),
    (SelectFault::Reads(FastxFault::Read), "read failed"),
    (SelectFault::Write, "write failed"),
];

const OF_PAIRS: &[(PairFault, &str)] = &[
    (
        PairFault::Reads(Side::First, FastxFault::BadBase(4)),
        "bad base, line 4",
    ),
    (
        PairFault::Reads(Side::Second, FastxFault::Read),
        "read failed",
    ),
    (PairFault::Unpaired(12), "reads are no pair, record 12"),
    (PairFault::Write, "write failed"),
];

#[test]
fn faults_of_tables_reports_and_selections_are_displayed(
    rt: HostRuntime,
) -> Result<(), AllocError> {
    for (fault, text) in OF_TABLES {
        assert_displayed(&rt, fault, *text)?;
    }
    for (fault, text) in OF_REPORTS {
        assert_displayed(&rt, fault, *text)?;
    }
    for (fault, text) in OF_SELECTIONS {
        assert_displayed(&rt, fault, *text)?;
    }
    for (fault, text) in OF_PAIRS {
        assert_displayed(&rt, fault, *text)?;
    }
    Ok(())
}
