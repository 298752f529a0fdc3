//! Two tables put together.
ghost use Rattle.std.specs.Prelude.{◌≡◌, ◌↔◌, ◌<◌, ◌≤◌, ◌^◌, IsTrue, IfErr, IfOk, option_map};
ghost use Rattle.kc_report.specs.declared.report_faults.ReportFault.TheVariants.{TooLarge};
ghost use Rattle.kc_report.specs.Merging.{AreAlike, HaveOneFloor, IsUnlisted, Merges, OriginsMatch};
ghost use Rattle.kc_report.specs.Merging.{joined_origin, reads_together};
ghost use Rattle.kc_report.specs.Table.{MaySay};

use crate::dump::MAX_COUNT;
use crate::origin::{MAX_READS, Origin};
use crate::report_faults::ReportFault;
use kc_tally::Tally;
use std::alloc::Global;

/// The sum of two tallies, and what it was counted from: if both origins are known, the reads of both, with their
/// floor.
///
/// # Errors
/// In this order: `Unlike` if the words have different lengths, only one tally counts both strands, a list was given,
/// or both origins are known and have different floors; `TooLarge` if the totals, or the reads if both origins are
/// known, add up to more than 2^62; `Memory` if it was refused.
pub fn merge(
    alloc: Global,
    first: &Tally,
    first_origin: Option<&Origin>,
    second: &Tally,
    second_origin: Option<&Origin>,
) -> Result<(Tally, Option<Origin>), ReportFault>
    ensures merged { Merges first.now second.now (option_map (λ said. said.now) first_origin.entry)
        (option_map (λ said. said.now) second_origin.entry) result }
    ensures said { MaySay (option_map (λ said. said.now) first_origin.entry)
        → MaySay (option_map (λ said. said.now) second_origin.entry)
        → IfOk result (λ table. MaySay table.1) }
{
    let (origin, other) = (first_origin.copied(), second_origin.copied());
    if !are_alike(first, second, origin, other) {
        return Err(ReportFault::Unlike);
    }
    let joined = join_origins(origin, other)?;
    if first.total() + second.total() > MAX_COUNT {
        return Err(ReportFault::TooLarge);
    }
    Ok((Tally::sum(alloc, first, second)?, joined))
}

// Whether the tables match.
fn are_alike(first: &Tally, second: &Tally, origin: Option<Origin>, other: Option<Origin>) -> bool
    ensures { IsTrue result ↔ AreAlike first.now second.now origin other }
{
    let same_words = first.k().get() == second.k().get() && first.both() == second.both();
    same_words && origins_match(origin, other)
}

/// Whether tables of these origins can be merged: no origin that is given has a list, and two that are given have one
/// floor.
pub fn origins_match(origin: Option<Origin>, other: Option<Origin>) -> bool
    ensures { IsTrue result ↔ OriginsMatch origin other }
{
    is_unlisted(origin) && is_unlisted(other) && have_one_floor(origin, other)
}

// Whether no list was given, as far as the origin is known.
fn is_unlisted(origin: Option<Origin>) -> bool
    ensures { IsTrue result ↔ IsUnlisted origin }
{
    match origin {
        Some(origin) => !origin.listed,
        None => true,
    }
}

// Whether the floors are the same if both origins are given.
fn have_one_floor(origin: Option<Origin>, other: Option<Origin>) -> bool
    ensures { IsTrue result ↔ HaveOneFloor origin other }
{
    match (origin, other) {
        (Some(origin), Some(other)) => origin.floor == other.floor,
        (Some(_), None) => true,
        (None, _) => true,
    }
}

/// The origin of two merged tables: the reads of both, with the first floor; none unless both origins are given.
///
/// # Errors
/// `TooLarge` if the reads together are above 2^62.
pub fn join_origins(
    origin: Option<Origin>,
    other: Option<Origin>,
) -> Result<Option<Origin>, ReportFault>
    ensures value { IfOk result (λ joined. joined ≡ joined_origin origin other) }
    ensures few { IfOk result (λ joined. reads_together origin other ≤ 2 ^ 62) }
    ensures said { MaySay origin → MaySay other → IfOk result MaySay }
    ensures fault { IfErr result (λ fault. (fault ≡ TooLarge) × (2 ^ 62 < reads_together origin other)) }
{
    let (Some(origin), Some(other)) = (origin, other) else {
        return Ok(None);
    };
    if origin.reads > MAX_READS || other.reads > MAX_READS - origin.reads {
        return Err(ReportFault::TooLarge);
    }
    Ok(Some(Origin {
        floor: origin.floor,
        reads: origin.reads + other.reads,
        listed: false,
    }))
}
