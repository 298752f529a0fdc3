//! Tables in memory whose words are visited.
ghost use Rattle.std.specs.Prelude.{◌≡◌, ◌≤◌, [], All, IfErr, OnOk, length, map};
ghost use Rattle.kc_report.specs.Table.{MaySay};
ghost use Rattle.kc_combine.specs.LoadedTables.{table_seen};
ghost use Rattle.kc_combine.specs.VisitedTexts.{AreVisited, VisitsNoTables};

use crate::loaded_tables::{LoadedTable, begin_each, header_of_loaded};
use crate::placed_fault::PlacedFault;
use crate::visited_texts::OF_SAME_WORDS;
use crate::visited_words::visit_words;
use crate::visits_words::VisitsWords;
use crate::written_tables::{CombineFault, zero_counts};
use std::alloc::Global;

/// Visits each word of these tables, in order, with its counts in them. Conditions: there is at least one table, and
/// each origin is one that a header can have. The contract covers a visitor that visited no word before.
///
/// # Errors
/// `Unlike` if the k-mers of two tables differ in length, or one table counts both strands and another does not, and
/// `Memory` if a growth was refused; then no word was visited.
pub fn visit_tables<V: VisitsWords>(
    alloc: Global,
    tables: &[LoadedTable],
    visitor: &mut V,
) -> Result<(), CombineFault<PlacedFault>>
    requires some { 1 ≤ length tables.now }
    requires said { All (λ table. MaySay table.origin) tables.now }
    ensures visited { V.visited visitor.old []
        → OnOk result (AreVisited (map table_seen tables.now) (V.visited visitor.new)) }
    ensures fault { IfErr result (VisitsNoTables (map table_seen tables.now) visitor.old visitor.new) }
    ensures setting { V.setting visitor.new ≡ V.setting visitor.old }
{
    header_of_loaded(alloc, OF_SAME_WORDS, tables)?;
    let mut counts = zero_counts(alloc, tables.len())?;
    let mut aheads = begin_each(alloc, tables)?;
    match visit_words(&mut aheads, &mut counts, visitor) {
        Ok(()) => Ok(()),
        Err(fault) => Err(CombineFault::Table(fault)),
    }
}
