//! Laws of reads. Each is the contract of a function that does nothing.
ghost use Rattle.std.specs.Prelude.{◌≡◌, ℕ, List, [], ◌∷◌, Some, None, Result, codes};
ghost use Rattle.kc_fastx.specs.declared.read_faults.FastxFault.{FastxFault};
ghost use Rattle.kc_fastx.specs.declared.read_faults.FastxFault.TheVariants.{BadStart, BadBase, BadQuality};
ghost use Rattle.kc_fastx.specs.declared.read_faults.FastxFault.TheVariants.{LongQuality, Truncated};
ghost use Rattle.kc_fastx.specs.Reads.{Read, read_of};
ghost use Rattle.kc_fastx.specs.Parsing.{HasReads, HasFault, IsReadsOf, AreReadsOf};

/// Every byte string has one result, its reads or its first fault, and only one.
pub fn one_answer()
    ensures some { (bytes : List ℕ) → (answer : Result (List Read) FastxFault) × IsReadsOf bytes answer }
    ensures only { (bytes : List ℕ) (one other : Result (List Read) FastxFault)
        → IsReadsOf bytes one → IsReadsOf bytes other → one ≡ other }
{}

/// So has every list of sources: the joined reads, or the number of the first source with a fault, and that fault.
pub fn one_answer_of_all()
    ensures some { (sources : List (List ℕ))
        → (answer : Result (List Read) (ℕ × FastxFault)) × AreReadsOf sources answer }
    ensures only { (sources : List (List ℕ)) (one other : Result (List Read) (ℕ × FastxFault))
        → AreReadsOf sources one → AreReadsOf sources other → one ≡ other }
{}

/// Worked rows of the definitions. A plain program that follows them computes the rows.
pub fn worked_rows()
    ensures nothing { HasReads (codes "") [] }
    ensures fasta { HasReads (codes ">a\nAC\nGT\r\n>b\n\n>c\nac")
        (read_of (codes "ACGT") None ∷ read_of (codes "") None ∷ read_of (codes "ac") None ∷ []) }
    ensures bad_fasta_base { HasFault (codes ">r\nA@C\n") (BadBase 2) }
    ensures bad_first_line { HasFault (codes "ACGT\n") (BadStart 1) }
    ensures wrapped { HasReads (codes "@q\nAC\nGT\n+q\n@I\nII\n") (read_of (codes "ACGT") (Some (codes "@III")) ∷ []) }
    ensures empty_read { HasReads (codes "@q\n\n+\n\n@r\nAC\n+\nII\n")
        (read_of (codes "") (Some (codes "")) ∷ read_of (codes "AC") (Some (codes "II")) ∷ []) }
    ensures blank_in_quality { HasReads (codes "@q\nAC\n+\nI\n\nI\n") (read_of (codes "AC") (Some (codes "II")) ∷ []) }
    ensures bad_start { HasFault (codes "@q\nAC\n+\nII\nxx\n") (BadStart 5) }
    ensures bad_base { HasFault (codes "@q\nAC\n@x\n+\nIIII\n") (BadBase 3) }
    ensures bad_quality { HasFault (codes "@q\nAC\n+\nI \n") (BadQuality 4) }
    ensures long_quality { HasFault (codes "@q\nAC\n+\nIII\n") (LongQuality 4) }
    ensures truncated { HasFault (codes "@q\nACGT\n+\nII") (Truncated 4) }
    ensures truncated_behind_title { HasFault (codes "@q\nAC\n+\n#I\n@r\n") (Truncated 5) }
{}
