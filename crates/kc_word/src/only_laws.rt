//! Laws of lists of words. Each is the contract of a function that does nothing.
ghost use Rattle.std.specs.Prelude.{[], ◌∷◌, None, true, false, codes};
ghost use Rattle.kc_fastx.specs.Reads.{read_of};
ghost use Rattle.kc_kmer.specs.Rule.{counting_all};
ghost use Rattle.kc_word.specs.Only.{IsListOf, OneList};

/// The words that occur in reads have only one list.
pub fn one_list()
    ensures { OneList }
{}

/// Worked rows of the definitions.
pub fn worked_rows()
    ensures one_strand { IsListOf (counting_all 3 false) (read_of (codes "CGTA") None ∷ [])
        (record { k = 3; both = false; words = 27 ∷ 44 ∷ [] }) }
    ensures both_strands { IsListOf (counting_all 3 true) (read_of (codes "CGT") None ∷ [])
        (record { k = 3; both = true; words = 6 ∷ [] }) }
    ensures none { IsListOf (counting_all 3 false) (read_of (codes "CGNTA") None ∷ [])
        (record { k = 3; both = false; words = [] }) }
{}
