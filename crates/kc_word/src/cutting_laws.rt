//! Laws of cleaned reads and of cuttings. Each is the contract of a function that does nothing.
ghost use Rattle.std.specs.Prelude.{◌≡◌, [], ◌∷◌, Some, false, codes};
ghost use Rattle.kc_fastx.specs.Reads.{read_of};
ghost use Rattle.kc_kmer.specs.Rule.{unlisted_rule};
ghost use Rattle.kc_word.specs.Cutting.{cleaned, cutting};
ghost use Rattle.kc_word.specs.Laws.{CuttingWords, CuttingOccurrences, CuttingNumbers, CuttingPositions};
ghost use Rattle.kc_word.specs.Laws.{BatchPositions, PositionsWithinBytes, CleanedLength, CleanedWords};

/// The words of all batches of a cutting are the words of the reads, each position once.
pub fn cutting_words()
    ensures { CuttingWords }
{}

/// Each word occurs in all batches of a cutting together as often as in the reads.
pub fn cutting_occurrences()
    ensures { CuttingOccurrences }
{}

/// Element i of a cutting is batch i.
pub fn cutting_numbers()
    ensures { CuttingNumbers }
{}

/// The batches of a cutting together have as many positions as the pieces.
pub fn cutting_positions()
    ensures { CuttingPositions }
{}

/// Batch i of a cutting has `size` positions, or those that the batches before it left, and at least one.
pub fn batch_positions()
    ensures { BatchPositions }
{}

/// Pieces have at most as many positions as bytes.
pub fn positions_within_bytes()
    ensures { PositionsWithinBytes }
{}

/// A read's piece is as long as the read.
pub fn cleaned_length()
    ensures { CleanedLength }
{}

/// The words of the cleaned pieces are those of the reads.
pub fn cleaned_words()
    ensures { CleanedWords }
{}

/// Worked rows of the definitions.
pub fn worked_rows()
    ensures piece { cleaned (unlisted_rule 2 false 35)
        (read_of (codes "acgtn") (Some (codes "II!II"))) ≡ codes "ACNTN" }
    ensures cutting { cutting 3 2 (codes "ACGTA" ∷ codes "AC" ∷ codes "NGTN" ∷ [])
        ≡ record { number = 0; pieces = codes "ACGT" ∷ [] }
        ∷ record { number = 1; pieces = codes "GTA" ∷ codes "NGT" ∷ [] }
        ∷ record { number = 2; pieces = codes "GTN" ∷ [] } ∷ [] }
{}
