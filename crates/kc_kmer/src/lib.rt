//! DNA k-mers (words of length k): their letters, their numbers and forms, and where they occur in reads.
//!
//! A `Rule` determines how words are counted: their length `K`, one strand or both, and the least quality of a base. A
//! `Word` is a word as a number, two bits a base; `pack` and `text` convert between it and its letters, and `canonical`
//! returns the form under which it counts if both strands do. `letter` has the codes of bases, `slow_count` counts
//! straight from the definitions, and `word_laws` has laws of words and their occurrences.
//!
//! ```ignore
//! let Some(word) = pack(b"cgt", k) else {
//!     return Err(Fail::from("no word"));
//! };
//! assert_eq!(rt; word, Word(27));
//! assert_eq!(rt; canonical(word, k), Word(6));    // ACG
//! ```
#![tactic(auto)]

mod k;
pub mod letter;
mod rule;
pub mod slow_count;
mod word;
pub mod word_laws;

pub use k::K;
pub use rule::Rule;
pub use word::{Word, canonical, pack, reverse_complement, text};
