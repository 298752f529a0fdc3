//! Laws of words and their occurrences. Each is the contract of a function that does nothing.
ghost use Rattle.std.specs.Prelude.{◌≡◌, [], ◌∷◌, Some, None, true, false, codes};
ghost use Rattle.kc_fastx.specs.Reads.{read_of};
ghost use Rattle.kc_kmer.specs.Word.{number, text, reverse_complement, canonical};
ghost use Rattle.kc_kmer.specs.Rule.{counting_all, unlisted_rule, with_list};
ghost use Rattle.kc_kmer.specs.Occurrences.{occurrences, words_in};
ghost use Rattle.kc_kmer.specs.Laws.{NumberOfText, PackedText, OrderOfTexts, ReversedTwice, OneCanonicalForm};
ghost use Rattle.kc_kmer.specs.Laws.{JoinedOccurrences, CountedWords, ListedOccurrences, ListedWords};
ghost use Rattle.kc_kmer.specs.Laws.{WordsAreBelow, WordsAreForms, WordsAreFew};

/// A number below 4^k is the number of its text.
pub fn number_of_text()
    ensures { NumberOfText }
{}

/// `pack` inverts `text`.
pub fn packed_text()
    ensures { PackedText }
{}

/// The order of the numbers is the order of the texts.
pub fn order_of_texts()
    ensures { OrderOfTexts }
{}

/// The reverse complement of the reverse complement is the word itself.
pub fn reversed_twice()
    ensures { ReversedTwice }
{}

/// A word and its reverse complement have the same canonical form.
pub fn one_canonical_form()
    ensures { OneCanonicalForm }
{}

/// In joined reads each word occurs as often as in both parts together.
pub fn joined_occurrences()
    ensures { JoinedOccurrences }
{}

/// A word occurs as often as its number does among the words of the reads.
pub fn counted_words()
    ensures { CountedWords }
{}

/// Under a rule with a list of words each of them counts as it does without the list, and no other word counts.
pub fn listed_words()
    ensures occurrences { ListedOccurrences }
    ensures words { ListedWords }
{}

/// The words of reads are below 4^k and in the forms under which they count, and there are at most as many as bases.
pub fn words_of_reads()
    ensures below { WordsAreBelow }
    ensures forms { WordsAreForms }
    ensures few { WordsAreFew }
{}

/// Worked rows of the definitions.
pub fn worked_rows()
    ensures text { text 3 44 ≡ codes "GTA" }
    ensures number { number (codes "GTA") ≡ 44 }
    ensures greatest { number (codes "TTTTTTTTTTTTTTTTTTTTTTTTTTTTTTT") ≡ 4_611_686_018_427_387_903 }
    ensures other_strand { reverse_complement (codes "GTA") ≡ codes "TAC" }
    ensures canonical { canonical (codes "CGT") ≡ codes "ACG" }
    ensures words { words_in (counting_all 3 false) (read_of (codes "ACGTA") None) ≡ 6 ∷ 27 ∷ 44 ∷ [] }
    ensures both_strands { words_in (counting_all 3 true) (read_of (codes "ACGTA") None) ≡ 6 ∷ 6 ∷ 44 ∷ [] }
    ensures broken { words_in (counting_all 3 false) (read_of (codes "ACNGT") None) ≡ [] }
    ensures low_quality { words_in (unlisted_rule 2 false 35)
        (read_of (codes "ACGT") (Some (codes "II!I"))) ≡ 1 ∷ [] }
    ensures one_listed { words_in (with_list (counting_all 3 false) (27 ∷ [])) (read_of (codes "ACGTA") None)
        ≡ 27 ∷ [] }
    ensures listed_form { words_in (with_list (counting_all 3 true) (6 ∷ [])) (read_of (codes "ACGTA") None)
        ≡ 6 ∷ 6 ∷ [] }
    ensures none_listed { words_in (with_list (counting_all 3 false) []) (read_of (codes "ACGTA") None) ≡ [] }
    ensures palindrome { occurrences (counting_all 4 true) (read_of (codes "ACGT") None ∷ []) (codes "ACGT") ≡ 1 }
{}
