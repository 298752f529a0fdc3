//! The letters of the four bases and their codes.
ghost use Rattle.std.specs.Prelude.{◌≡◌, ◌<◌, if◌then◌else◌};
ghost use Rattle.std.specs.Char.{to_ascii_uppercase};
ghost use Rattle.kc_kmer.specs.Letter.{is_base, code, base};

/// What `code_of` returns for a byte that is no base: greater than every code.
pub const NO_BASE: u8 = 4;

// the code at the letters of the bases in either case, and NO_BASE elsewhere
#[rattlefmt::skip]
static CODES: [u8; 256] = [
    4, 4, 4, 4, 4, 4, 4, 4, 4, 4, 4, 4, 4, 4, 4, 4,
    4, 4, 4, 4, 4, 4, 4, 4, 4, 4, 4, 4, 4, 4, 4, 4,
    4, 4, 4, 4, 4, 4, 4, 4, 4, 4, 4, 4, 4, 4, 4, 4,
    4, 4, 4, 4, 4, 4, 4, 4, 4, 4, 4, 4, 4, 4, 4, 4,
    4, 0, 4, 1, 4, 4, 4, 2, 4, 4, 4, 4, 4, 4, 4, 4,
    4, 4, 4, 4, 3, 4, 4, 4, 4, 4, 4, 4, 4, 4, 4, 4,
    4, 0, 4, 1, 4, 4, 4, 2, 4, 4, 4, 4, 4, 4, 4, 4,
    4, 4, 4, 4, 3, 4, 4, 4, 4, 4, 4, 4, 4, 4, 4, 4,
    4, 4, 4, 4, 4, 4, 4, 4, 4, 4, 4, 4, 4, 4, 4, 4,
    4, 4, 4, 4, 4, 4, 4, 4, 4, 4, 4, 4, 4, 4, 4, 4,
    4, 4, 4, 4, 4, 4, 4, 4, 4, 4, 4, 4, 4, 4, 4, 4,
    4, 4, 4, 4, 4, 4, 4, 4, 4, 4, 4, 4, 4, 4, 4, 4,
    4, 4, 4, 4, 4, 4, 4, 4, 4, 4, 4, 4, 4, 4, 4, 4,
    4, 4, 4, 4, 4, 4, 4, 4, 4, 4, 4, 4, 4, 4, 4, 4,
    4, 4, 4, 4, 4, 4, 4, 4, 4, 4, 4, 4, 4, 4, 4, 4,
    4, 4, 4, 4, 4, 4, 4, 4, 4, 4, 4, 4, 4, 4, 4, 4,
];

static BASES: [u8; 4] = *b"ACGT";

/// The code of a base in either case, A 0, C 1, G 2, T 3, or `NO_BASE`.
#[inline(always)]
pub fn code_of(byte: u8) -> u8
    ensures { result ≡ (if is_base (to_ascii_uppercase byte) then code (to_ascii_uppercase byte) else 4) }
{
    CODES[byte as usize]
}

/// The upper-case letter of a code. Condition: the code is below 4.
#[inline(always)]
pub fn base_of(code: u64) -> u8
    requires { code < 4 }
    ensures { result ≡ base code }
{
    BASES[code as usize]
}
