//! Facts about the sum of tables. Each law is the contract of a function that does nothing.
ghost use Rattle.kc_report.specs.Merging.{CountsMatch, MergedText};

/// Table texts of two counts under one rule match, and the table text of their sum is that of the count of both inputs'
/// reads.
pub fn merged_text()
    ensures matched { CountsMatch }
    ensures text { MergedText }
{}
