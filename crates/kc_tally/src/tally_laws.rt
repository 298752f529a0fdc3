//! Laws of tallies. Each is the contract of a function that does nothing.
ghost use Rattle.std.specs.Prelude.{◌≡◌, [], ◌∷◌, None, true, codes};
ghost use Rattle.kc_fastx.specs.Reads.{read_of};
ghost use Rattle.kc_kmer.specs.Rule.{counting_all, with_list};
ghost use Rattle.kc_tally.specs.Tally.{row_of, count_of, total_of, IsTally};
ghost use Rattle.kc_tally.specs.Histogram.{bin_of, bin_count};
ghost use Rattle.kc_tally.specs.Statistics.{statistics_of};
ghost use Rattle.kc_tally.specs.Laws.{OneTally, OneValue, JoinedTally, SummedTally, OneSum};
ghost use Rattle.kc_tally.specs.Laws.{TallyTotal, BoundedTally, RowsOfTally};

/// Given reads have exactly one tally, as a finite map and as a value.
pub fn one_tally()
    ensures rows { OneTally }
    ensures value { OneValue }
{}

/// The tally of joined reads is the sum of the tallies of both parts; conversely that sum is the tally of the joined
/// reads.
pub fn joined_tally()
    ensures joined { JoinedTally }
    ensures summed { SummedTally }
{}

/// Two lists of rows have exactly one sum, as a finite map.
pub fn one_sum()
    ensures { OneSum }
{}

/// The counts of a tally add up to the number of all words.
pub fn tally_total()
    ensures { TallyTotal }
{}

/// The counts of a tally add up to at most the number of bases of the reads.
pub fn bounded_tally()
    ensures { BoundedTally }
{}

/// The rows of a tally of at most 2^62 bases are the rows of a `Tally`.
pub fn rows_of_tally()
    ensures { RowsOfTally }
{}

/// Worked rows of the definitions.
pub fn worked_rows()
    ensures tally { IsTally (counting_all 1 true)
        (read_of (codes "AACGT") None ∷ read_of (codes "N") None ∷ []) (row_of 0 3 ∷ row_of 1 2 ∷ []) }
    ensures listed { IsTally (with_list (counting_all 1 true) (1 ∷ []))
        (read_of (codes "AACGT") None ∷ []) (row_of 1 2 ∷ []) }
    ensures count { count_of (row_of 0 3 ∷ row_of 1 2 ∷ []) 1 ≡ 2 }
    ensures no_count { count_of (row_of 0 3 ∷ row_of 1 2 ∷ []) 2 ≡ 0 }
    ensures total { total_of (row_of 0 3 ∷ row_of 1 2 ∷ []) ≡ 5 }
    ensures first_bin { bin_of 1 ≡ 1 }
    ensures own_bin { bin_of 10_000 ≡ 10_000 }
    ensures last_bin { bin_of 70_000 ≡ 10_001 }
    ensures bin { bin_count (row_of 0 5 ∷ row_of 1 1 ∷ row_of 2 10_001 ∷ row_of 3 5 ∷ []) 5 ≡ 2 }
    ensures shared { bin_count (row_of 0 10_001 ∷ row_of 1 10_000 ∷ row_of 2 70_000 ∷ []) 10_001 ≡ 2 }
    ensures statistics { statistics_of (row_of 0 3 ∷ row_of 1 1 ∷ row_of 2 70_000 ∷ row_of 3 1 ∷ [])
        ≡ record { unique = 2; distinct = 4; total = 70_005; greatest = 70_000 } }
    ensures no_statistics { statistics_of [] ≡ record { unique = 0; distinct = 0; total = 0; greatest = 0 } }
{}
