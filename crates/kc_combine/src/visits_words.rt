//! What is done with the words of several tables, one after another.
ghost use Rattle.std.specs.Prelude.{◌≡◌, ◌++◌, ◌∷◌, [], List, ℕ};

/// What looks at the words of several tables, one after another.
pub trait VisitsWords {
    ghost use Rattle.std.specs.Prelude.{◌≡◌, ◌++◌, ◌∷◌, [], List, ℕ};

    // what stays the same while it visits words
    ghost setting: { Self → ℕ };

    // it visited words with these counts in the tables, in this order
    ghost visited: { Self → List (List ℕ) → Type 0 };

    /// Visits one more word, which has these counts in the tables.
    fn visit(&mut self, counts: &[u64])
        ensures more { (words : List (List ℕ)) → visited self.old words
            → visited self.new (words ++ counts.now ∷ []) }
        ensures same { setting self.new ≡ setting self.old };
}
