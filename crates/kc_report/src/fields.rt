//! The fields of a table's row.
ghost use Rattle.std.specs.Prelude.{◌≡◌, ◌≢◌, ℕ, ◌*◌, ◌/◌, ◌≤◌, ◌<◌, ◌^◌, length, take, false, IfSome, IfNone};
ghost use Rattle.kc_kmer.specs.Letter.{are_bases};
ghost use Rattle.kc_kmer.specs.Word.{text};
ghost use Rattle.kc_report.specs.TableReading.{BeginsWith};
ghost use Rattle.kc_report.specs.TableRows.{capital_code, IsSpelled, count_text, HasDigits};

use crate::letters::{codes_of_four, four_of};
use kc_kmer::K;

// What `code_of` returns for a byte that is no capital letter of a base.
const NO_BASE: u8 = 4;

// the code at the capital letters of the bases, and NO_BASE elsewhere
#[rattlefmt::skip]
static CODES: [u8; 256] = [
    4, 4, 4, 4, 4, 4, 4, 4, 4, 4, 4, 4, 4, 4, 4, 4,
    4, 4, 4, 4, 4, 4, 4, 4, 4, 4, 4, 4, 4, 4, 4, 4,
    4, 4, 4, 4, 4, 4, 4, 4, 4, 4, 4, 4, 4, 4, 4, 4,
    4, 4, 4, 4, 4, 4, 4, 4, 4, 4, 4, 4, 4, 4, 4, 4,
    4, 0, 4, 1, 4, 4, 4, 2, 4, 4, 4, 4, 4, 4, 4, 4,
    4, 4, 4, 4, 3, 4, 4, 4, 4, 4, 4, 4, 4, 4, 4, 4,
    4, 4, 4, 4, 4, 4, 4, 4, 4, 4, 4, 4, 4, 4, 4, 4,
    4, 4, 4, 4, 4, 4, 4, 4, 4, 4, 4, 4, 4, 4, 4, 4,
    4, 4, 4, 4, 4, 4, 4, 4, 4, 4, 4, 4, 4, 4, 4, 4,
    4, 4, 4, 4, 4, 4, 4, 4, 4, 4, 4, 4, 4, 4, 4, 4,
    4, 4, 4, 4, 4, 4, 4, 4, 4, 4, 4, 4, 4, 4, 4, 4,
    4, 4, 4, 4, 4, 4, 4, 4, 4, 4, 4, 4, 4, 4, 4, 4,
    4, 4, 4, 4, 4, 4, 4, 4, 4, 4, 4, 4, 4, 4, 4, 4,
    4, 4, 4, 4, 4, 4, 4, 4, 4, 4, 4, 4, 4, 4, 4, 4,
    4, 4, 4, 4, 4, 4, 4, 4, 4, 4, 4, 4, 4, 4, 4, 4,
    4, 4, 4, 4, 4, 4, 4, 4, 4, 4, 4, 4, 4, 4, 4, 4,
];

// The code of a capital letter of a base, or `NO_BASE`.
#[inline(always)]
fn code_of(byte: u8) -> u8
    ensures { result ≡ capital_code byte }
{
    CODES[byte as usize]
}

/// The word that capital letters spell.
#[inline(always)]
pub(crate) fn word_of(letters: &[u8], k: K) -> Option<u64>
    ensures below { IfSome result (λ word. word < 4 ^ k) }
    ensures some { IfSome result (λ word. letters.now ≡ text k word) }
    ensures none { IfNone result ((word : ℕ) → word < 4 ^ k → letters.now ≢ text k word) }
{
    if letters.len() != k.get() as usize {
        return None;
    }
    let Some(front) = number_of_fours(letters) else {
        return None;
    };
    let Some(number) = number_of_rest(letters, letters.len() / 4 * 4, front) else {
        return None;
    };
    Some(number)
}

// The number of the whole groups of four letters.
#[inline(always)]
fn number_of_fours(letters: &[u8]) -> Option<u64>
    requires { length letters.now ≤ 31 }
    ensures some { IfSome result (λ number. IsSpelled (take (length letters.now / 4 * 4) letters.now) number) }
    ensures none { IfNone result (are_bases letters.now ≡ false) }
{
    let mut number = 0u64;
    for j in 0..letters.len() / 4 {
        let (first, second) = (letters[j * 4] as u32, letters[j * 4 + 1] as u32);
        let (third, fourth) = (letters[j * 4 + 2] as u32, letters[j * 4 + 3] as u32);
        let four = first + second * 0x100 + third * 0x1_0000 + fourth * 0x100_0000;
        let codes = codes_of_four(four);
        if four_of(codes) != four {
            return None;
        }
        number = number * 256 + codes as u64;
    }
    Some(number)
}

// The number of the letters, given that of those before index `from`.
#[inline(always)]
fn number_of_rest(letters: &[u8], from: usize, number: u64) -> Option<u64>
    requires short { length letters.now ≤ 31 }
    requires within { from ≤ length letters.now }
    requires before { IsSpelled (take from letters.now) number }
    ensures some { IfSome result (IsSpelled letters.now) }
    ensures none { IfNone result (are_bases letters.now ≡ false) }
{
    let mut number = number;
    for i in from..letters.len() {
        let code = code_of(letters[i]);
        if code == NO_BASE {
            return None;
        }
        number = number * 4 + code as u64;
    }
    Some(number)
}

// The most digits of a count: those of the greatest one, 2^62.
const MAX_DIGITS: usize = 19;

/// Reads a blank, a count and a line feed at the front of the bytes: the count, and how many bytes these are.
#[inline(always)]
pub(crate) fn count_of(fields: &[u8]) -> Option<(u64, usize)>
    ensures within { IfSome result (λ found. found.1 ≤ length fields.now) }
    ensures small { IfSome result (λ found. found.0 < 2 ^ 64) }
    ensures some { IfSome result (λ found. take found.1 fields.now ≡ count_text found.0) }
    ensures none { IfNone result ((count : ℕ) → 1 ≤ count → count ≤ 2 ^ 62
        → ¬ BeginsWith fields.now (count_text count)) }
{
    // most counts are this small
    match digit_of(fields) {
        Some(digit) => Some((digit, 3)),
        None => long_count_of(fields),
    }
}

// The count at the front of the bytes, in such a field, if it has one digit.
#[inline(always)]
fn digit_of(fields: &[u8]) -> Option<u64>
    ensures within { IfSome result (λ digit. 3 ≤ length fields.now) }
    ensures small { IfSome result (λ digit. digit < 10) }
    ensures some { IfSome result (λ digit. take 3 fields.now ≡ count_text digit) }
{
    if fields.len() < 3 || fields[0] != b' ' || fields[2] != b'\n' {
        return None;
    }
    let digit = fields[1].wrapping_sub(b'0');
    if digit > 9 {
        return None;
    }
    Some(digit as u64)
}

// The count at the front of the bytes, in such a field, of any length, and how many bytes the field has.
#[inline(always)]
fn long_count_of(fields: &[u8]) -> Option<(u64, usize)>
    ensures within { IfSome result (λ found. found.1 ≤ length fields.now) }
    ensures small { IfSome result (λ found. found.0 < 2 ^ 64) }
    ensures some { IfSome result (λ found. take found.1 fields.now ≡ count_text found.0) }
    ensures none { IfNone result ((count : ℕ) → 1 ≤ count → count ≤ 2 ^ 62
        → ¬ BeginsWith fields.now (count_text count)) }
{
    let [b' ', digits @ ..] = fields else {
        return None;
    };
    let (count, many) = digits_of(digits);
    if many < 1 || many > MAX_DIGITS || many == digits.len() {
        return None;
    }
    if digits[0] == b'0' || digits[many] != b'\n' {
        return None;
    }
    Some((count, many + 2))
}

// The number in the digits at the front of the bytes, and how many digits there are. With 20 digits or more the number
// may have wrapped.
#[inline(always)]
pub(crate) fn digits_of(bytes: &[u8]) -> (u64, usize)
    ensures { HasDigits bytes.now result.0 result.1 }
{
    let mut number = 0u64;
    for i in 0..bytes.len() {
        let digit = bytes[i].wrapping_sub(b'0');
        if digit > 9 {
            return (number, i);
        }
        number = number.wrapping_mul(10).wrapping_add(digit as u64);
    }
    (number, bytes.len())
}
