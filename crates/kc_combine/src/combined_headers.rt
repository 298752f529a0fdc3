//! The header of a combination of tables.
ghost use Rattle.std.specs.Prelude.{◌≢◌, ◌↔◌, ◌≤◌, All, IsTrue, None, length};
ghost use Rattle.kc_report.specs.Table.{MaySay};
ghost use Rattle.kc_combine.specs.CombinedHeaders.{CombinesHeaders, GivesOrigin, Match};
ghost use Rattle.kc_combine.specs.declared.combining.Combining.TheVariants.{Merge};

use crate::combining::Combining;
use kc_report::{Header, Origin, ReportFault, join_origins, origins_match};

/// The header of the combination of tables with these headers: their words, and for merged tables their joined origin.
/// Conditions: there is at least one header, and each origin is one that a header can have.
///
/// # Errors
/// `Unlike` if the words of two tables differ in length, or one table counts both strands and another does not; for
/// merged tables also if one was counted with a list, or two have different floors. `TooLarge` if the reads of merged
/// tables are together above 2^62.
pub fn combined_header(combining: Combining, headers: &[Header]) -> Result<Header, ReportFault>
    requires some { 1 ≤ length headers.now }
    requires said { All (λ header. MaySay header.origin) headers.now }
    ensures { CombinesHeaders combining headers.now result }
{
    'headers: for header in headers {
        if !match_with(combining, header, headers) {
            return Err(ReportFault::Unlike);
        }
    }
    let first = &headers[0];
    Ok(Header {
        k: first.k,
        both: first.both,
        origin: combined_origin(combining, headers)?,
    })
}

// Whether the tables with these headers match the table with this one.
fn match_with(combining: Combining, header: &Header, headers: &[Header]) -> bool
    ensures { IsTrue result ↔ All (λ other. Match combining header.now other) headers.now }
{
    'headers: for other in headers {
        if !matches(combining, header, other) {
            return false;
        }
    }
    true
}

// Whether tables with these two headers match.
fn matches(combining: Combining, header: &Header, other: &Header) -> bool
    ensures { IsTrue result ↔ Match combining header.now other.now }
{
    let same_words = header.k.get() == other.k.get() && header.both == other.both;
    match combining {
        Combining::Merge => same_words && origins_match(header.origin, other.origin),
        Combining::Intersect(_)
        | Combining::Subtract
        | Combining::SubtractCounts
        | Combining::Filter(_) => same_words,
    }
}

// The origin of the combination of tables with these headers.
fn combined_origin(combining: Combining, headers: &[Header]) -> Result<Option<Origin>, ReportFault>
    requires some { 1 ≤ length headers.now }
    requires said { All (λ header. MaySay header.origin) headers.now }
    ensures { GivesOrigin combining headers.now result }
{
    match combining {
        Combining::Merge => merged_origin(headers),
        Combining::Intersect(_)
        | Combining::Subtract
        | Combining::SubtractCounts
        | Combining::Filter(_) => Ok(None),
    }
}

// The origin of merged tables with these headers; none unless each header has one.
fn merged_origin(headers: &[Header]) -> Result<Option<Origin>, ReportFault>
    requires some { 1 ≤ length headers.now }
    requires said { All (λ header. MaySay header.origin) headers.now }
    ensures { GivesOrigin Merge headers.now result }
{
    if !have_origins(headers) {
        return Ok(None);
    }
    let last = headers.len() - 1;
    let mut joined = headers[last].origin;
    'headers: for i in 0..last {
        joined = join_origins(headers[last - 1 - i].origin, joined)?;
    }
    Ok(joined)
}

// Whether each of these headers has an origin.
fn have_origins(headers: &[Header]) -> bool
    ensures { IsTrue result ↔ All (λ header. header.origin ≢ None) headers.now }
{
    'headers: for header in headers {
        if header.origin.is_none() {
            return false;
        }
    }
    true
}
