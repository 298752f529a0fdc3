//! The terms on which batches are booked: which batches, and when a table may be full.

use kc_share::Books;
use std::marker::Brand;

/// The terms of the stripes whose sheet has this name: they hold behind each of their locks, whoever booked there
/// before. Whoever opens the sheet takes `Brand`, and picks them; by default all is allowed.
pub trait Terms: Books {
    ghost use Rattle.std.specs.Prelude.{ℕ};
    ghost use Rattle.kc_word.specs.Cutting.{NumberedPieces};
    ghost use Rattle.kc_table.specs.Counts.{KeyCounts};

    // Which batches may be booked.
    ghost may_be_booked: { NumberedPieces → Type 0 };

    // For which counts and keys a table may be full.
    ghost may_be_full: { KeyCounts → ℕ → Type 0 };
}

impl Terms for Brand {
    ghost use Rattle.std.specs.Prelude.{⊤};

    ghost may_be_booked = { λ _. ⊤ };

    ghost may_be_full = { λ _ _. ⊤ };
}
