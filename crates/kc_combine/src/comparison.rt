//! The numbers of two compared tables: those of reads and of an assembly.
ghost use Rattle.std.specs.Prelude.{◌≡◌, ◌∷◌, []};
ghost use Rattle.kc_combine.specs.Compared.{added, capped, capped_comparison, comparison_of, HasCompared};

use crate::counts_of_word::{first_count, second_count};
use crate::visits_words::VisitsWords;
use std::marker::Model;

/// The numbers of two compared tables: those of reads and of an assembly.
#[derive(Clone, Copy, Debug, PartialEq, Eq)]
pub struct Comparison {
    /// How many words the reads have.
    pub reads_distinct: u64,
    /// How many words the assembly has.
    pub assembly_distinct: u64,
    /// How many words both have.
    pub shared_distinct: u64,
    /// The sum of the assembly's counts.
    pub assembly_total: u64,
    /// How many words only the assembly has.
    pub assembly_only_distinct: u64,
    /// The sum of the counts of these words.
    pub assembly_only_total: u64,
    /// How many words of the reads are solid.
    pub solid_distinct: u64,
    /// How many of these words the assembly has.
    pub solid_shared: u64,
}

/// The numbers of two tables while their words are visited: first the table of reads, then that of an assembly. A
/// number that does not fit 64 bits stays at the greatest one that does.
///
/// ```ignore
/// let mut comparing = Comparing::new(solid);
/// comparing.visit(&[3, 1]);
/// ```
#[derive(Drop)]
pub struct Comparing {
    // the least count of a solid word
    solid: u64,
    // the numbers of the words so far
    numbers: Comparison,
}

impl Model for Comparing {
    ghost use Rattle.kc_combine.specs.Compared.{ComparingSeen};

    ghost Value = { ComparingSeen };

    ghost view = { λ c. record { solid = c.solid; numbers = c.numbers } };
}

impl Comparing {
    /// No words so far. Words of the reads with a count of at least `solid` are solid.
    pub fn new(solid: u64) -> Comparing
        ensures solid { result.solid ≡ solid }
        ensures none { HasCompared result [] }
    {
        Comparing {
            solid,
            numbers: Comparison {
                reads_distinct: 0,
                assembly_distinct: 0,
                shared_distinct: 0,
                assembly_total: 0,
                assembly_only_distinct: 0,
                assembly_only_total: 0,
                solid_distinct: 0,
                solid_shared: 0,
            },
        }
    }

    /// The numbers of the words that were visited.
    pub fn comparison(&self) -> &Comparison
        ensures { result.now ≡ self.now.numbers }
    {
        &self.numbers
    }
}

impl VisitsWords for Comparing {
    ghost use Rattle.kc_combine.specs.Compared.{HasCompared};

    ghost setting = { λ c. c.solid };

    ghost visited = { HasCompared };

    fn visit(&mut self, counts: &[u64]) {
        let word = comparison_of_word(self.solid, counts);
        self.numbers = sum_of_both(&self.numbers, &word);
    }
}

// The numbers of one word.
fn comparison_of_word(solid: u64, counts: &[u64]) -> Comparison
    ensures { result ≡ comparison_of solid (counts.now ∷ []) }
{
    let (reads, assembly) = (first_count(counts), second_count(counts));
    let reads_have = reads >= 1;
    let assembly_has = assembly >= 1;
    let only_assembly_has = (reads == 0) & assembly_has;
    let is_solid = reads_have & (solid <= reads);
    Comparison {
        reads_distinct: u64::from(reads_have),
        assembly_distinct: u64::from(assembly_has),
        shared_distinct: u64::from(reads_have & assembly_has),
        assembly_total: assembly,
        assembly_only_distinct: u64::from(only_assembly_has),
        assembly_only_total: u64::from(only_assembly_has) * assembly,
        solid_distinct: u64::from(is_solid),
        solid_shared: u64::from(is_solid & assembly_has),
    }
}

// The sums of the numbers, each at most the greatest number.
fn sum_of_both(some: &Comparison, more: &Comparison) -> Comparison
    ensures { result ≡ capped_comparison (added some.now more.now) }
{
    Comparison {
        reads_distinct: some.reads_distinct.saturating_add(more.reads_distinct),
        assembly_distinct: some
            .assembly_distinct
            .saturating_add(more.assembly_distinct),
        shared_distinct: some.shared_distinct.saturating_add(more.shared_distinct),
        assembly_total: some.assembly_total.saturating_add(more.assembly_total),
        assembly_only_distinct: some
            .assembly_only_distinct
            .saturating_add(more.assembly_only_distinct),
        assembly_only_total: some
            .assembly_only_total
            .saturating_add(more.assembly_only_total),
        solid_distinct: some.solid_distinct.saturating_add(more.solid_distinct),
        solid_shared: some.solid_shared.saturating_add(more.solid_shared),
    }
}
