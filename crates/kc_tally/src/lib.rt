//! Tallies of DNA k-mers (words of length k): how often each word occurs in reads, the histogram of these counts, and
//! their total.
//!
//! A `Tally` is made of its rows, a `Row` for each word that occurs, in ascending order of the words. They may come in
//! parts. It keeps nearly every row in one number of 64 bits. `bin`, `total` and `count_of` are then functions of the
//! rows. While words are still counted there is a `Histogram` alone: it changes with each count that grows, and
//! histograms of parts add up. `Statistics` are four numbers about a tally, which need no rows if its histogram is
//! known. `slow_tally::tally` counts small examples straight from the definitions, and `tally_laws` has laws of every
//! tally.
//!
//! ```ignore
//! let rows = [
//!     Row { word: 1, count: 2 },
//!     Row { word: 6, count: 1 },
//!     Row {
//!         word: 11,
//!         count: 70_000,
//!     },
//! ];
//! Tally::of_rows(alloc, k, false, Vec::from_slice(alloc, &rows)?)    // words of two bases, on one strand
//! ```
#![tactic(auto)]

mod growing_rows;
mod histogram;
mod layout;
mod loose_rows;
mod packed_rows;
mod part_rows;
mod row;
mod rows;
mod search;
pub mod slow_tally;
mod sums;
mod tally;
pub mod tally_laws;
mod tally_statistics;

pub use growing_rows::GrowingRows;
pub use histogram::Histogram;
pub use loose_rows::{LooseLists, LooseRows};
pub use packed_rows::PackedRows;
pub use part_rows::PartRows;
pub use row::Row;
pub use rows::Rows;
pub use tally::Tally;
pub use tally_statistics::Statistics;
