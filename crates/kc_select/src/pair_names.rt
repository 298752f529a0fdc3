//! Whether two titles belong to mates.
ghost use Rattle.std.specs.Prelude.{◌≡◌};
ghost use Rattle.kc_select.specs.Pairs.{has_end, bare_name, is_numbered, are_mates};

use crate::read_names::name_of;

// Whether the titles are those of a first and a second mate.
pub(crate) fn are_mates(first: &[u8], second: &[u8]) -> bool
    ensures { result ≡ are_mates first.now second.now }
{
    let one = name_of(first);
    let other = name_of(second);
    if bare_name(one, b'1') == bare_name(other, b'2') {
        return true;
    }
    one == other && is_numbered(one)
}

// The name of the mate with this number, without the number at its end.
fn bare_name(name: &[u8], number: u8) -> &[u8]
    ensures { result.now ≡ bare_name number name.now }
{
    if has_end(name, b'/', number) || has_end(name, b'.', number) {
        &name[..name.len() - 2]
    } else {
        name
    }
}

// Whether the name ends in `.1` or `.2`.
fn is_numbered(name: &[u8]) -> bool
    ensures { result ≡ is_numbered name.now }
{
    has_end(name, b'.', b'1') || has_end(name, b'.', b'2')
}

// Whether the last two bytes of the name are these.
fn has_end(name: &[u8], mark: u8, number: u8) -> bool
    ensures { result ≡ has_end mark number name.now }
{
    name.ends_with(&[mark, number])
}
