//! Facts about compared tables. Each law is the contract of a function that does nothing.
ghost use Rattle.std.specs.Prelude.{◌≡◌, ◌∷◌, []};
ghost use Rattle.kc_combine.specs.Compared.{comparison_of, comparison_text, counts_of_words, spectrum_text, words_with};
ghost use Rattle.kc_combine.specs.Compared.{CountsAssembly, CountsReads, NumbersFit, SumsAssembly, WordsFit};
ghost use Rattle.kc_combine.specs.Compared.{worked_assembly, worked_counts, worked_numbers, worked_reads};
ghost use Rattle.kc_combine.specs.Compared.{worked_spectrum};

/// The words of each table are as many as its rows, and the sum of the assembly's counts is that of its rows.
pub fn numbers_of_rows()
    ensures reads { CountsReads }
    ensures assembly { CountsAssembly }
    ensures total { SumsAssembly }
{}

/// The numbers of two tables of tallies fit, and so do the numbers of words in a spectrum.
pub fn numbers_fit()
    ensures numbers { NumbersFit }
    ensures words { WordsFit }
{}

/// The worked row of two tables: the eight numbers, and the three pairs of their spectrum.
pub fn worked_comparison()
    ensures counts { counts_of_words 3 (worked_reads ∷ worked_assembly ∷ []) ≡ worked_counts }
    ensures reads { (comparison_of 2 worked_counts).reads_distinct ≡ 3 }
    ensures assembly { (comparison_of 2 worked_counts).assembly_distinct ≡ 3 }
    ensures shared { (comparison_of 2 worked_counts).shared_distinct ≡ 1 }
    ensures total { (comparison_of 2 worked_counts).assembly_total ≡ 3 }
    ensures only { (comparison_of 2 worked_counts).assembly_only_distinct ≡ 2 }
    ensures only_total { (comparison_of 2 worked_counts).assembly_only_total ≡ 2 }
    ensures solid { (comparison_of 2 worked_counts).solid_distinct ≡ 1 }
    ensures solid_shared { (comparison_of 2 worked_counts).solid_shared ≡ 1 }
    ensures lacking { words_with 10_000 worked_counts 0 1 ≡ 2 }
    ensures alone { words_with 10_000 worked_counts 1 0 ≡ 2 }
    ensures both { words_with 10_000 worked_counts 1 3 ≡ 1 }
{}

/// The texts of the worked row.
pub fn worked_texts()
    ensures numbers { comparison_text (comparison_of 2 worked_counts) ≡ worked_numbers }
    ensures spectrum { spectrum_text 3 worked_counts ≡ worked_spectrum }
{}
