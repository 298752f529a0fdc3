//! Facts about table texts. Each law is the contract of a function that does nothing.
ghost use Rattle.std.specs.Prelude.{◌≡◌, ℕ, List, Ok, Result, Option};
ghost use Rattle.kc_tally.specs.Tally.{TallySeen};
ghost use Rattle.kc_report.specs.declared.origin.Origin.{Origin};
ghost use Rattle.kc_report.specs.declared.report_faults.ReportFault.{ReportFault};
ghost use Rattle.kc_report.specs.Table.{table_text};
ghost use Rattle.kc_report.specs.TableReading.{IsTable, IsTableOf};

/// Every byte string has one result, a tally with its origin or its first fault, and only one.
pub fn one_table()
    ensures some { (bytes : List ℕ)
        → (answer : Result (TallySeen × Option Origin) ReportFault) × IsTableOf bytes answer }
    ensures only { (bytes : List ℕ) (one other : Result (TallySeen × Option Origin) ReportFault)
        → IsTableOf bytes one → IsTableOf bytes other → one ≡ other }
{}

/// The text of a tally with its origin is read as both.
pub fn table_of_text()
    ensures { (tally : TallySeen) (origin : Option Origin) → IsTable tally origin
        → IsTableOf (table_text tally origin) (Ok (tally, origin)) }
{}

/// A tally with its origin has one spelling: bytes that are read as both are their text, and no other pair has that
/// text.
pub fn one_spelling()
    ensures text { (bytes : List ℕ) (tally : TallySeen) (origin : Option Origin)
        → IsTableOf bytes (Ok (tally, origin)) → bytes ≡ table_text tally origin }
    ensures tally { (tally other : TallySeen) (origin another : Option Origin)
        → IsTable tally origin → IsTable other another → table_text tally origin ≡ table_text other another
        → (tally ≡ other) × (origin ≡ another) }
{}
