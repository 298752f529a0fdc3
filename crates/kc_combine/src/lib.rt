//! Tables combined word by word: sums, intersections and differences of any number of tables, and filters of one. Each
//! table gives its rows one after another, in the order of their words, so only the next row of each is kept.
//!
//! A rule makes one count of the counts that a word has in the tables, 0 for each table that lacks it. A word with the
//! result 0 is left out.
//!
//! `Comparing` and `CopySpectrum` visit the words of two tables, one of reads and one of an assembly, and count them;
//! `write_comparison` and `write_spectrum` write their numbers. `comparing_laws` has laws of these.
//!
//! ```ignore
//! let rule = Within { least: 2, most: 4 };
//! let kept = rule.count(&[*count]);
//! ```
#![tactic(auto)]

mod ahead;
mod aheads;
mod begun;
mod combined_headers;
mod combined_rows;
mod combined_texts;
mod combines;
mod combining;
pub mod combining_laws;
mod combining_rules;
pub mod comparing_laws;
mod comparison;
mod comparison_text;
mod copy_spectrum;
mod counts_of_word;
mod derived;
mod derived_tables;
mod derived_texts;
mod gives_rows;
mod judged_texts;
mod kept_table;
mod loaded_tables;
mod open_table;
mod opening;
mod placed_fault;
mod spectrum_text;
mod visited_tables;
mod visited_texts;
mod visited_words;
mod visits_words;
mod written_tables;

pub use ahead::Ahead;
pub use begun::Begun;
pub use combined_headers::combined_header;
pub use combined_rows::{WalkFault, next_row};
pub use combined_texts::combine_texts;
pub use combines::Combines;
pub use combining::Combining;
pub use combining_rules::{CountDifference, Difference, Intersection, Sum, Take, Within};
pub use comparison::{Comparing, Comparison};
pub use comparison_text::write_comparison;
pub use copy_spectrum::{CopySpectrum, write_spectrum};
pub use derived::Derived;
pub use derived_tables::derive_from_tables;
pub use derived_texts::derive_from_texts;
pub use gives_rows::GivesRows;
pub use judged_texts::judge_texts;
pub use kept_table::KeptTable;
pub use loaded_tables::{LoadedTable, combine_tables};
pub use open_table::OpenTable;
pub use opening::Opening;
pub use placed_fault::PlacedFault;
pub use visited_tables::visit_tables;
pub use visited_texts::visit_texts;
pub use visits_words::VisitsWords;
pub use written_tables::{CombineFault, Totals, write_combined};
