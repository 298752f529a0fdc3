//! Tests of a count in stripes: of the shares of a sheet, of stripes alone and among threads, and of what is gathered
//! from them.
#![tactic(auto)]

#[cfg(test)]
mod bookings;
#[cfg(test)]
mod cut_rows;
#[cfg(test)]
mod gatherings;
#[cfg(test)]
mod listed_counts;
#[cfg(test)]
mod meetings;
#[cfg(test)]
mod numbers_of_stripes;
#[cfg(test)]
mod open_terms;
#[cfg(test)]
mod refusals;
#[cfg(test)]
mod rounds;
#[cfg(test)]
mod sample_batches;
#[cfg(test)]
mod sharings;
#[cfg(test)]
mod sheets;
#[cfg(test)]
mod stripe_assertions;
#[cfg(test)]
mod stripe_examples;
#[cfg(test)]
mod stripe_fault_texts;
