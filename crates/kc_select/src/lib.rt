//! Selecting reads by their k-mers (words of length k) and a table of counts.
//!
//! A word is solid if its count in the table is between two bounds, and a read is solid if at least a given share of
//! its words is. A `Selector` has a table and the rule of a selection, a `Selection`: `is_solid` judges a read, and
//! `is_selected` returns whether the selection keeps it. `select` writes the reads of a source that a selector keeps,
//! with their titles, and counts them.
//!
//! ```ignore
//! let selection = Selection::new(2, 100).with_floor(b'#');
//! let mut source = FromBytes::new(b">r\nACGTA\n");
//! let mut sink = ToVec::new(Vec::new(alloc));
//! let selector = Selector::new(alloc, &tally, selection)?;
//! let selected = select(alloc, &mut source, 1 << 36, &mut sink, &selector)?;
//! ```
#![tactic(auto)]

mod base_walk;
mod count_walk;
mod mates_apart;
mod pair_fault;
mod pair_laws;
mod pair_names;
mod pair_reading;
mod pair_rule;
mod pair_selection;
mod profile_text;
mod read_names;
mod record_texts;
mod row_index;
mod run_walk;
mod select_fault;
mod selected_pairs;
mod selected_text;
mod selection;
mod selection_counts;
mod selector;
mod sides;
mod word_counts;
mod word_places;

pub use mates_apart::select_into_two;
pub use pair_fault::PairFault;
pub use pair_laws::{titles_of_mates, titles_of_strangers};
pub use pair_rule::PairRule;
pub use pair_selection::PairSelection;
pub use select_fault::SelectFault;
pub use selected_pairs::select_into_one;
pub use selected_text::select;
pub use selection::Selection;
pub use selection_counts::{Selected, SelectionCounts};
pub use selector::Selector;
pub use sides::{Side, Sides};
