//! Tests of the tickets and of whole runs, by their public calls.
#![tactic(auto)]

#[cfg(test)]
mod draws;
#[cfg(test)]
mod gate_calls;
#[cfg(test)]
mod numbers_of_runs;
#[cfg(test)]
mod run_assertions;
#[cfg(test)]
mod run_examples;
#[cfg(test)]
mod whole_runs;
