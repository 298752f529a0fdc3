//! Tests that cross the crates: whole command lines, lists of sources and of words, what is reported meanwhile, and
//! sources and writers that fail.
#![tactic(auto)]

#[cfg(test)]
mod command_lines;
#[cfg(test)]
mod listed_reads;
#[cfg(test)]
mod progress_line;
#[cfg(test)]
mod source_lists;
#[cfg(test)]
mod told_bytes;
#[cfg(test)]
mod tool_examples;
#[cfg(test)]
mod written_bytes;
