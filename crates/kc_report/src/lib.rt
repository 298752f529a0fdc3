//! Reports on a tally, each a text that is written to a `Sink`.
//!
//! `write_dump` writes the k-mers (words of length k) with their counts, in the form of a `Dump`; `write_histo` how
//! many words have which count; `write_stats` four numbers about all of them. Each is a function of the rows of the
//! `Tally`. `write_table` writes the table text, from which `read_table` makes the same tally again, and `query` the
//! counts of asked words; `table_laws` has laws of table texts. `TableReading` gives the rows of a table text one by
//! one, and keeps none of them; `read_numbers` keeps what a histogram and the statistics need of them, and `read_asked`
//! those of asked words, which `read_words` takes from a list; `write_dump_of_text` writes the dump of a table text
//! while it is read. A text that is read may be gzip. `merge` adds two tables, and `merging_laws` has a law of that.
//! The `Block` of `kc_io` gathers the bytes of a text, so that the writer gets blocks of 64 KB.
//!
//! `write_dump_in_parallel` and `write_table_in_parallel` write the same texts with several threads. Each thread makes
//! the text of pieces of 8,192 rows, and the writer gets the text of one piece at a time. While it gets the texts of
//! some pieces, those of the next ones are made.
//!
//! ```ignore
//! let mut sink = ToVec::new(Vec::new(rt.alloc()));
//! let outcome = write_dump(&mut sink, tally, dump);
//! assert_same(rt, "an outcome", &outcome, &Ok(()));
//! assert_items(rt, "a dump", sink.as_slice(), want);
//! ```
#![tactic(auto)]

mod asked_words;
mod dump;
mod dumped_text;
mod fields;
mod header;
mod header_fields;
mod histogram_text;
mod letters;
pub mod merging_laws;
mod origin;
mod queries;
mod report_faults;
mod row_pieces;
mod statistics;
mod table;
mod table_header;
pub mod table_laws;
mod table_lines;
mod table_numbers;
mod table_reader;
mod table_reading;
mod table_rows;
mod table_sum;
mod table_writing;
mod word_list;

pub use dump::{Dump, MAX_COUNT, write_dump, write_dump_in_parallel};
pub use dumped_text::write_dump_of_text;
pub use header::Header;
pub use histogram_text::{MAX_HIGH, write_histo, write_histo_of_bins};
pub use kc_io::{BLOCK_SIZE, Block, NUMBER_SIZE};
pub use origin::Origin;
pub use queries::{query, read_asked};
pub use report_faults::ReportFault;
pub use statistics::{write_stats, write_stats_of};
pub use table::{write_table, write_table_in_parallel};
pub use table_numbers::{TableNumbers, read_numbers};
pub use table_reader::read_table;
pub use table_reading::TableReading;
pub use table_sum::{join_origins, merge, origins_match};
pub use table_writing::TableWriting;
pub use word_list::read_words;
