//! Facts about combined tables. Each law is the contract of a function that does nothing.
ghost use Rattle.std.specs.Prelude.{◌≡◌, ℕ, [], ◌∷◌};
ghost use Rattle.kc_combine.specs.Combined.{difference, difference_of_counts, first_of, greatest_of, intersection};
ghost use Rattle.kc_combine.specs.Combined.{least_of, sum_of, within};
ghost use Rattle.kc_combine.specs.Laws.{HasOneResult, HasResult, KeepsFirst, MakesRows, StaysWithin, SumsTwo};
ghost use Rattle.kc_combine.specs.Laws.{TotalOfSum, TotalWithinFirst};
ghost use Rattle.kc_combine.specs.LoadedTables.{WritesMerged, WritesMergedPart};
ghost use Rattle.kc_combine.specs.MergedTables.{AllCountsMatch, AllMergedText, MergesTwo};

/// Tables have exactly one combination by each rule.
pub fn one_result()
    ensures some { HasResult }
    ensures one { HasOneResult }
{}

/// The combination of two tables by the sum of the counts is their sum.
pub fn sum_of_two()
    ensures { SumsTwo }
{}

/// A combination of rows that tallies may have is again such rows, if its counts add up to at most 2^62.
pub fn made_rows()
    ensures { MakesRows }
{}

/// The counts of a sum add up to the counts of all tables.
pub fn total_of_sum()
    ensures { TotalOfSum }
{}

/// An intersection with the least or the first count, a difference, a difference of counts and a filter have at most
/// the counts of the first table, each and in total.
pub fn counts_of_first()
    ensures least { KeepsFirst (intersection least_of) }
    ensures first { KeepsFirst (intersection first_of) }
    ensures difference { KeepsFirst difference }
    ensures counts { KeepsFirst difference_of_counts }
    ensures filter { (least most : ℕ) → KeepsFirst (within least most) }
    ensures total { TotalWithinFirst }
{}

/// An intersection with the greatest count has no count above those of the tables.
pub fn greatest_count_stays()
    ensures { StaysWithin (intersection greatest_of) }
{}

/// Worked rows of the rules: the counts of a word, and the results.
pub fn worked_counts()
    ensures sum { sum_of (1 ∷ 1 ∷ 1 ∷ []) ≡ 3 }
    ensures last { sum_of (0 ∷ 0 ∷ 5 ∷ []) ≡ 5 }
    ensures least { intersection least_of (3 ∷ 1 ∷ 2 ∷ []) ≡ 1 }
    ensures greatest { intersection greatest_of (1 ∷ 3 ∷ 2 ∷ []) ≡ 3 }
    ensures together { intersection sum_of (3 ∷ 1 ∷ 2 ∷ []) ≡ 6 }
    ensures first { intersection first_of (2 ∷ 1 ∷ 3 ∷ []) ≡ 2 }
    ensures lacking { intersection greatest_of (3 ∷ 0 ∷ 2 ∷ []) ≡ 0 }
    ensures alone { difference (1 ∷ 0 ∷ 0 ∷ []) ≡ 1 }
    ensures shared { difference (3 ∷ 0 ∷ 1 ∷ []) ≡ 0 }
    ensures less { difference_of_counts (3 ∷ 1 ∷ 1 ∷ []) ≡ 1 }
    ensures no_less { difference_of_counts (3 ∷ 2 ∷ 2 ∷ []) ≡ 0 }
    ensures lower { within 2 4 (2 ∷ []) ≡ 2 }
    ensures upper { within 2 4 (4 ∷ []) ≡ 4 }
    ensures below { within 2 4 (1 ∷ []) ≡ 0 }
    ensures above { within 2 4 (5 ∷ []) ≡ 0 }
{}

/// Merging two tables as any number of tables is the same as merging two.
pub fn merge_of_two()
    ensures { MergesTwo }
{}

/// Table texts of several counts under one rule match, and the table text of their merged table is that of the count of
/// all inputs' reads.
pub fn merged_texts()
    ensures matched { AllCountsMatch }
    ensures text { AllMergedText }
{}

/// The table text that is written for merged tables is that of their merged table. If the writer fails, it took a
/// beginning of that.
pub fn written_merge()
    ensures whole { WritesMerged }
    ensures part { WritesMergedPart }
{}
