//! The tag of a slot: the remainder of its key, and the number of the key's place.

use std::marker::Model;

/// What a slot has of its key, as a number: 0 if the slot is empty, otherwise the key's remainder times `TAG_STEP`,
/// plus its number of reprobes, plus 1.
#[derive(Clone, Copy)]
pub(crate) struct Tag {
    pub number: u64,
}

impl Model for Tag {
    ghost use Rattle.std.specs.Prelude.{ℕ};

    ghost Value = { ℕ };

    ghost view = { λ t. t.number };

    ghost inverse = { λ n. record { number = n } };
}
