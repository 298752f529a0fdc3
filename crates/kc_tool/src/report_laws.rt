//! Facts about merged reports. They are the contract of a function that does nothing.
ghost use Rattle.kc_tool.specs.MergedReports.{
  ApartIsTogether,
  MergeWritesMerged,
  MergeWritesMergedFiles,
  MergedReports,
  OneReport,
  ReportTellsReads,
  ReportsFit,
  ReportsMatch,
};

use kc_command::Options;

/// If `count_reads` has no list and writes a table, its text has the number of reads that the sources gave. Two such
/// texts under one rule match, and they fit, so they are never refused as unlike or as too large. The sum that the
/// command `merge` writes has the reads of both, and only one text does. So if the bytes of the sources are known, the
/// tables of two inputs that were counted separately, merged, are byte for byte the table of both counted together.
pub fn merged_reports(options: &Options)
    ensures report { ReportTellsReads options.now }
    ensures matched { ReportsMatch }
    ensures fits { ReportsFit options.now }
    ensures merged { MergedReports }
    ensures only { OneReport }
    ensures together { ApartIsTogether options.now }
    ensures command { MergeWritesMerged }
    ensures files { MergeWritesMergedFiles }
{
    // for the proof: facts about a length and a floor
    let rule = options.rule();
    let _bases = rule.k().get();
    let _floor = rule.floor();
}
