//! Worked rows of pairs. Each is a clause of a function that does nothing.
ghost use Rattle.std.specs.Prelude.{◌≡◌, true, false, codes};
ghost use Rattle.kc_select.specs.Pairs.{are_mates};

/// Titles of mates.
pub fn titles_of_mates()
    ensures numbers { are_mates (codes "a/1") (codes "a/2") ≡ true }
    ensures numbers_behind_dots { are_mates (codes "a.1") (codes "a.2") ≡ true }
    ensures numbers_behind_blanks { are_mates (codes "a 1:N:0") (codes "a 2:N:0") ≡ true }
    ensures both { are_mates (codes "a/1 x") (codes "a/2\ty") ≡ true }
    ensures one_number { are_mates (codes "a/1") (codes "a") ≡ true }
    ensures record_numbers { are_mates (codes "SRR1.1 1") (codes "SRR1.1 1") ≡ true }
    ensures both_numbers { are_mates (codes "SRR1.1.1") (codes "SRR1.1.2") ≡ true }
    ensures no_names { are_mates (codes "") (codes "") ≡ true }
{}

/// Titles of other records.
pub fn titles_of_strangers()
    ensures other_names { are_mates (codes "a/1") (codes "b/2") ≡ false }
    ensures one_file_twice { are_mates (codes "a/1") (codes "a/1") ≡ false }
    ensures sides_swapped { are_mates (codes "a/2") (codes "a/1") ≡ false }
    ensures other_records { are_mates (codes "SRR1.3") (codes "SRR1.4") ≡ false }
    ensures number_in_a_name { are_mates (codes "a1") (codes "a2") ≡ false }
    ensures number_alone { are_mates (codes "1") (codes "2") ≡ false }
{}
