//! The rules that make one count of a word's counts in several tables.
ghost use Rattle.std.specs.Prelude.{◌≡◌, ◌^◌, ◌<◌, ◌≤◌, List, ℕ, IfSome, IfNone};
ghost use Rattle.kc_combine.specs.Combined.{MakesNothingOfNone};

/// A rule that makes one count of a word's counts in several tables.
pub trait Combines {
    ghost use Rattle.std.specs.Prelude.{List, ℕ, ◌^◌, ◌<◌, ◌≤◌};
    ghost use Rattle.kc_combine.specs.Combined.{MakesNothingOfNone};

    // the count, 0 if the word is left out
    ghost rule: { Self → List ℕ → ℕ };

    /// The rule's result for these counts, or none if it is above 2^62.
    fn count(&self, counts: &[u64]) -> Option<u64>
        ensures some { IfSome result (λ count. count ≡ rule self.now counts.now) }
        ensures most { IfSome result (λ count. count ≤ 2 ^ 62) }
        ensures none { IfNone result (2 ^ 62 < rule self.now counts.now) };

    // it leaves out a word that no table has
    ghost nothing: { (combines : Self) → MakesNothingOfNone (rule combines) };
}
