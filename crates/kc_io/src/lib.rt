//! Bytes in and bytes out.
//!
//! A `Source` gives bytes and a `Sink` takes them. Proofs see the bytes of each, if they are known, and the history of
//! its answers, so contracts also cover streams whose bytes are not known. `FromBytes` and `FromRead` make a source of
//! a slice and of a reader of std; `ToVec` and `ToWrite` make a sink of a vector and of a writer of std. A call of std
//! that is interrupted is repeated, and is no failure.
//!
//! `write_out` hands a text to a sink and flushes it, and `write_all` hands over a part of one. `Block` gathers small
//! texts, so that the sink gets blocks of 64 KB:
//!
//! ```ignore
//! let mut sink = ToVec::new(Vec::new(alloc));
//! let mut block = Block::new();
//! block.push(b"ACG ");
//! block.push_number(2);
//! write_out(&mut sink, block.as_slice())?;
//! assert_eq!(rt; sink.as_slice(), b"ACG 2".as_slice());
//! ```
#![tactic(auto)]

mod block;
mod failures;
mod histories;
mod recorded_calls;
mod sinks;
mod sources;
mod whole_texts;

pub use block::{BLOCK_SIZE, Block, NUMBER_SIZE};
pub use failures::Failed;
pub use histories::Heard;
pub use sinks::{Sink, ToVec, ToWrite};
pub use sources::{FromBytes, FromRead, Source};
pub use whole_texts::{write_all, write_out};
