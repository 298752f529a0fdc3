//! What a search finds at a key's places.

use crate::tag::Tag;

/// The result of reprobing, the walk over a key's places: the key; or the first free place, with the key's tag there;
/// or 63 other keys.
#[derive(Drop)]
pub(crate) enum Reprobing {
    Found { place: usize },
    Free { place: usize, tag: Tag },
    Crowded,
}
