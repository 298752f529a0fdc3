//! The fault of one of several tables.

use kc_report::ReportFault;

/// The fault of one of several tables.
#[derive(Clone, Copy, Debug, PartialEq, Eq)]
pub struct PlacedFault {
    /// Which of the tables it is, from 1.
    pub place: u64,
    /// Its fault.
    pub fault: ReportFault,
}
