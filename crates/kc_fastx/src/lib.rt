//! Readers of sequence files: FASTA and Sanger FASTQ, from bytes to a list of reads.
//!
//! `parse` returns the reads of bytes in memory, and `read_all` those of a `Source`, up to a limit of bytes. `Reads`
//! gives the reads of a source that it owns one after another; so does `Reading`, which is handed the source at each
//! call, and can also give their titles. A `SeqRead` has its bases as in the file and, from FASTQ, a quality for each
//! base. A `FastxFault` is the reason why there are no reads, with its line. The reads of bytes are defined in `specs/`
//! (`Lines`, `Fasta`, `Fastq`, `Parsing`; `Titles` for reads with their titles; `Reading` for those that were given so
//! far), and by `read_laws` every byte string has one result.
//!
//! ```ignore
//! let mut source = FromBytes::new(b"@q\nACGT\n+\nII!I\n");
//! let (reads, byte_count) = read_all(alloc, &mut source, 1 << 36)?;
//! for read in &reads {
//!     assert_eq!(rt; read.bases(), b"ACGT".as_slice());
//! }
//! assert_eq!(rt; byte_count, 15);
//! let mut reads = Reads::new(alloc, FromBytes::new(b">r\nGT\nA\n"), 1 << 36)?;
//! let first = reads.next_read()?.ok_or("a read")?;
//! assert_eq!(rt; first.bases(), b"GTA".as_slice());
//! ```
#![tactic(auto)]

mod fasta;
mod fastq;
mod parser;
mod read_faults;
pub mod read_laws;
mod reader;
mod reads;
mod record_reader;
mod records;
mod text_lines;

pub use kc_io::{Failed, FromBytes, FromRead, Source};
pub use parser::{parse, read_all};
pub use read_faults::FastxFault;
pub use reader::Reads;
pub use reads::SeqRead;
pub use record_reader::Reading;
