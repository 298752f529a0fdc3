//! A plain and slow tally, straight from the definitions: each number below 4^k is looked for at each position of each
//! read. It computes small examples.
ghost use Rattle.std.specs.Prelude.{◌^◌, ◌<◌, IfOk};
ghost use Rattle.kc_fastx.specs.Reads.{base_count};
ghost use Rattle.kc_tally.specs.Tally.{IsTally};

use crate::row::Row;
use kc_fastx::SeqRead;
use kc_kmer::slow_count::occurrences;
use kc_kmer::{Rule, Word};
use std::alloc::{AllocError, Global};

/// The tally of the reads: each word that occurs and its occurrences, in the order of the words. Condition: the reads
/// have fewer than 2^64 bases; `kc_kmer::slow_count::base_count` checks that.
pub fn tally(alloc: Global, reads: &[SeqRead], rule: &Rule) -> Result<Vec<Row>, AllocError>
    requires { base_count reads.now < 2 ^ 64 }
    ensures { IfOk result (λ rows. IsTally rule.now reads.now rows.items) }
{
    let mut rows = Vec::new(alloc);
    for word in 0..1u64 << (2 * rule.k().get()) {
        let count = occurrences(reads, rule, Word(word));
        if count > 0 {
            rows.push(Row { word, count })?;
        }
    }
    Ok(rows)
}
