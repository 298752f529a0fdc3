//! Table texts whose words are visited, each text read from its source.
ghost use Rattle.std.specs.Prelude.{◌≡◌, ◌≤◌, [], IfErr, OnOk, length, map};
ghost use Rattle.kc_combine.specs.VisitedTexts.{VisitsNoTexts, VisitsTexts};

use crate::combined_texts::{header_of_all, open_each, put_back, with_sources};
use crate::combining::Combining;
use crate::combining_rules::{Intersection, Take};
use crate::placed_fault::PlacedFault;
use crate::visited_words::visit_words;
use crate::visits_words::VisitsWords;
use crate::written_tables::{CombineFault, zero_counts};
use kc_io::Source;
use std::alloc::Global;
use std::mem;

/// A combination of any tables whose k-mers have one length and count the same strands; their origins may differ.
pub(crate) const OF_SAME_WORDS: Combining = Combining::Intersect(Intersection {
    take: Take::Least,
});

/// Reads the table texts of these sources side by side, at most `limit` bytes of each, and visits each word of the
/// tables, in order, with its counts in them. It keeps what a `TableReading` keeps of each table, and only its next
/// row. The sources keep their order. Condition: there is at least one source. The contract covers a visitor that
/// visited no word before.
///
/// # Errors
/// `Table` with the fault of a table, and its place; words may have been visited. `Unlike` if the k-mers of two tables
/// differ in length, or one table counts both strands and another does not, and `Memory` if a growth was refused; then
/// no word was visited.
pub fn visit_texts<S: Source + Drop, V: VisitsWords>(
    alloc: Global,
    sources: &mut Vec<S>,
    limit: u64,
    visitor: &mut V,
) -> Result<(), CombineFault<PlacedFault>>
    requires { 1 ≤ length sources.old.items }
    ensures visited { V.visited visitor.old [] → OnOk result (VisitsTexts limit (map S.seen sources.old.items)
        (map S.seen sources.new.items) (V.visited visitor.new)) }
    ensures fault { IfErr result (VisitsNoTexts S.seen limit sources.old.items sources.new.items visitor.old
        visitor.new) }
    ensures setting { V.setting visitor.new ≡ V.setting visitor.old }
    ensures long { length sources.new.items ≡ length sources.old.items }
{
    let openings = open_each(alloc, sources, limit)?;
    header_of_all(alloc, OF_SAME_WORDS, &openings)?;
    let mut counts = zero_counts(alloc, sources.len())?;
    let (count, room) = (sources.len(), Vec::with_capacity(alloc, sources.len())?);
    let left = mem::replace(sources, Vec::with_capacity(alloc, count)?);
    let mut aheads = with_sources(room, left, openings, limit);
    let visited = visit_words(&mut aheads, &mut counts, visitor);
    put_back(sources, aheads);
    match visited {
        Ok(()) => Ok(()),
        Err(fault) => Err(CombineFault::Table(fault)),
    }
}
