//! Tests of hashes, tables, tallies, reports, rules for several tables and selected reads, by what these crates show to
//! their callers.
#![tactic(auto)]

#[cfg(test)]
mod combined_counts;
#[cfg(test)]
mod combined_tables;
#[cfg(test)]
mod compared_words;
#[cfg(test)]
mod count_assertions;
#[cfg(test)]
mod count_fault_texts;
#[cfg(test)]
mod counting_tables;
#[cfg(test)]
mod dumped_texts;
#[cfg(test)]
mod growing_tallies;
#[cfg(test)]
mod hashes;
#[cfg(test)]
mod histograms_of_bins;
#[cfg(test)]
mod merged_tables;
#[cfg(test)]
mod pairs_of_reads;
#[cfg(test)]
mod refusing_streams;
#[cfg(test)]
mod report_rows;
#[cfg(test)]
mod reports_by_threads;
#[cfg(test)]
mod selected_reads;
#[cfg(test)]
mod tally_rows;
#[cfg(test)]
mod unsorted_rows;
