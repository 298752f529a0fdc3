//! Tests of the number of steps that only contracts see, of the streams, of the readers of sequence files, and of words
//! and their batches, as a caller sees them.
#![tactic(auto)]

#[cfg(test)]
mod assertions;
#[cfg(test)]
mod batches;
#[cfg(test)]
mod ghost_steps;
#[cfg(test)]
mod gzip_files;
#[cfg(test)]
mod listed_words;
#[cfg(test)]
mod read_streams;
#[cfg(test)]
mod sample_reads;
#[cfg(test)]
mod sequence_examples;
#[cfg(test)]
mod sequence_fault_texts;
#[cfg(test)]
mod sequence_files;
#[cfg(test)]
mod words;
