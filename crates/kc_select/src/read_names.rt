//! The name of a read: its title up to the first blank.
ghost use Rattle.std.specs.Prelude.{◌≡◌};
ghost use Rattle.kc_select.specs.Profiles.{name_of};

use memchr::memchr2;

// The title up to its first blank.
pub(crate) fn name_of(title: &[u8]) -> &[u8]
    ensures { result.now ≡ name_of title.now }
{
    match memchr2(b' ', b'\t', title) {
        Some(end) => &title[..end],
        None => title,
    }
}
