//! Numbers on a command line.
ghost use Rattle.std.specs.Prelude.{◌≡◌, ◌<◌, ◌≤◌, ◌^◌, ◌+◌, ◌-◌, ◌*◌, IfSome, Some, None, if◌then◌else◌};
ghost use Rattle.std.specs.Option.{SomeIff};
ghost use Rattle.std.specs.Char.{is_ascii_digit};
ghost use Rattle.kc_command.specs.Numbers.{between, number_between, number_of, scaled_between, scaled_number, unit};

/// The number in a text of decimal digits, if it is between the bounds, inclusive. However many digits there are, the
/// number never wraps.
pub(crate) fn number_between(text: &[u8], least: u64, most: u64) -> Option<u64>
    ensures value { result ≡ number_between least most text.now }
    ensures limits { IfSome result (λ number. (least ≤ number) × (number ≤ most)) }
{
    checked_between(number(text)?, least, most)
}

/// The number in a text of decimal digits, which may be followed by `k`, `M` or `G` (10^3, 10^6 or 10^9), if it is
/// between the bounds.
pub(crate) fn scaled_between(text: &[u8], least: u64, most: u64) -> Option<u64>
    ensures value { result ≡ scaled_between least most text.now }
    ensures limits { IfSome result (λ number. (least ≤ number) × (number ≤ most)) }
{
    checked_between(scaled_number(text)?, least, most)
}

// The number, if it is between the bounds.
fn checked_between(number: u64, least: u64, most: u64) -> Option<u64>
    ensures value { result ≡ between least most (Some number) }
    ensures limits { IfSome result (λ number. (least ≤ number) × (number ≤ most)) }
{
    if number < least || most < number {
        return None;
    }
    Some(number)
}

// The number in a text, with or without a suffix, if it fits 64 bits.
fn scaled_number(text: &[u8]) -> Option<u64>
    ensures { result ≡ between 0 (2 ^ 64 - 1) (scaled_number text.now) }
{
    let [digits @ .., last] = text else {
        return None;
    };
    match unit(*last) {
        None => number(text),
        Some(unit) => number(digits)?.checked_mul(unit),
    }
}

// The factor of a suffix.
fn unit(byte: u8) -> Option<u64>
    ensures { result ≡ unit byte }
{
    match byte {
        b'k' => Some(1_000),
        b'M' => Some(1_000_000),
        b'G' => Some(1_000_000_000),
        _ => None,
    }
}

// The number in a text of decimal digits, if it fits 64 bits.
fn number(text: &[u8]) -> Option<u64>
    ensures { result ≡ between 0 (2 ^ 64 - 1) (number_of text.now) }
{
    if text.is_empty() {
        return None;
    }
    let mut number = 0u64;
    for byte in text {
        number = with_digit(number, digit_of(*byte)?)?;
    }
    Some(number)
}

// The number with one more digit at its end, if that fits 64 bits.
fn with_digit(number: u64, digit: u64) -> Option<u64>
    ensures { SomeIff result (number * 10 + digit < 2 ^ 64) (number * 10 + digit) }
{
    number.checked_mul(10)?.checked_add(digit)
}

// The value of a decimal digit.
fn digit_of(byte: u8) -> Option<u64>
    ensures { result ≡ (if is_ascii_digit byte then Some (byte - 48) else None) }
{
    match byte {
        b'0'..=b'9' => Some(u64::from(byte - b'0')),
        _ => None,
    }
}
