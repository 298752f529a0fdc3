//! Reads made ready to be counted in parts, and the words (k-mers) of the parts.
//!
//! `clean` makes a `Piece` of a read, `cut` makes numbered batches of pieces, with equally many positions, and `words`
//! returns the words of a batch; `Walk` gives them one by one, and `PieceViews` the batch's pieces. `cutting_laws` has
//! laws of pieces and cuttings. `Only` is a list of the words that occur in reads, to which a count may be restricted;
//! `only_laws` has laws of such lists. `kc_kmer` defines words and how they are counted; its names are here, too.
//!
//! ```ignore
//! let rule = Rule::new(k, true, b'!');
//! let mut pieces = Vec::new(alloc);
//! for read in &reads {
//!     pieces.push(clean(alloc, read, &rule)?)?;
//! }
//! for batch in &cut(alloc, pieces, k, 65_536)? {
//!     let words = words(alloc, batch, &rule)?;
//!     assert_eq!(rt; words.as_slice(), [6, 6, 44].as_slice());
//! }
//! ```
#![tactic(auto)]

mod batch;
mod cutting;
pub mod cutting_laws;
mod list_starts;
mod only;
pub mod only_laws;
mod packed_codes;
mod piece;
mod piece_views;
mod piece_words;
mod pieces;
mod rolled;
mod runs;
mod usable_codes;
mod walk;

pub use batch::Batch;
pub use cutting::{Cutting, cut};
pub use kc_kmer::{
    K, Rule, Word, canonical, pack, reverse_complement, slow_count, text, word_laws,
};
pub use only::Only;
pub use piece::Piece;
pub use piece_views::{PieceView, PieceViews};
pub use piece_words::{put_words, read_words, words};
pub use rolled::Rolled;
pub use usable_codes::{clean, usable_code};
pub use walk::Walk;
