//! The program `kcount`: how often each k-mer (word of length k) occurs in sequence reads.
//!
//! `count_reads` goes from sources of bytes to a written report, as `Options` ask. `program` reads a whole command
//! line, carries it out and returns the exit status; `run` does the same over streams that the caller keeps. An error
//! is a `ToolFault`, and `write_fault` writes its line.
//!
//! `write_dump`, `write_histo`, `write_stats` and `write_table` write a `Tally`, and `query` the counts of some words;
//! `read_table` reads what `write_table` writes, with its `Origin`, and `merge` adds two of these; `report_laws`
//! relates the tables that `count_reads` wrote to their sum.
//!
//! ```text
//! let k = K::new(3).ok_or("a length")?;
//! let options = Options::new(k).with_print(Print::Dump).with_dump(Dump::in_columns());
//! let sources = vec![in alloc; FromBytes::new(b">r1\nACGTA\n")]?;
//! let mut writer = ToVec::new(Vec::new(alloc));
//! count_reads(&rt, alloc, None::<FromBytes>, sources, &options, &mut writer)?;
//! assert_eq!(rt; writer.as_slice(), b"ACG 1\nCGT 1\nGTA 1\n".as_slice());
//! ```
#![tactic(auto)]

mod closing_line;
mod command_line;
mod commands;
mod count_progress;
mod counted_sources;
mod counts_line;
mod explanations;
mod fault_lines;
mod file_acts;
pub mod file_laws;
mod file_refusals;
mod files;
mod given_options;
mod given_sources;
mod input_source;
mod kinds_by_first_bytes;
mod looks;
mod named_sources;
mod option_tips;
mod output_sink;
mod outputs;
mod paired_sources;
mod pairs_writers;
mod read_ahead;
pub mod report_laws;
mod reported;
mod reports;
mod selected_sources;
mod standard_streams;
mod table_reports;
mod task_plans;
mod task_tallies;
mod terminal_line;
mod told;
mod tool_faults;
mod two_passes;

pub use command_line::run;
pub use count_progress::{NoProgress, Progress, Stage};
pub use fault_lines::write_fault;
pub use file_acts::FileAct;
pub use files::NamedFiles;
pub use given_options::{dump_options, high_of, options};
pub use kc_command::{OptionName, Options, Print, command_laws};
pub use kc_io::{Sink, ToVec, ToWrite};
pub use kc_report::{
    Dump, MAX_HIGH, Origin, ReportFault, merge, query, read_table, write_dump, write_histo,
    write_stats, write_table,
};
pub use kc_run::{Gate, RunFault};
pub use kc_tally::{Row, Tally};
pub use kc_word::K;
pub use reports::count_reads;
pub use standard_streams::{StreamNotes, program};
pub use terminal_line::ProgressLine;
pub use tool_faults::ToolFault;
