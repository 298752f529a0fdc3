//! The fields of a table's header, each at its place in a header. For any other line their values mean nothing.
ghost use Rattle.std.specs.Prelude.{◌≡◌, ℕ, ◌≤◌, ◌<◌, ◌^◌, List, Bool, ◌∷◌, ◌++◌, Option, Some, decimal};
ghost use Rattle.kc_report.specs.declared.origin.Origin.{Origin};
ghost use Rattle.kc_report.specs.Table.{origin_text, header_line, MaySay, ended};

use crate::fields::digits_of;
use crate::origin::Origin;
use kc_kmer::K;

// The fields of the line, if it is a header.
pub(crate) fn likely_header(line: &[u8]) -> Option<(K, bool, Option<Origin>)>
    ensures { (k : ℕ) (both : Bool) (origin : Option Origin) → 1 ≤ k → k ≤ 31 → MaySay origin
        → line.now ≡ ended (header_line k both origin) → result ≡ Some (k, both, origin) }
{
    let Some((_, fields)) = line.split_at_checked(6) else {
        return None;
    };
    let (bases, fields) = number_in_front(fields);
    let [_, kind, fields @ ..] = fields else {
        return None;
    };
    if bases > K::MAX as u64 {
        return None;
    }
    let Some(k) = K::new(bases as u32) else {
        return None;
    };
    Some((k, *kind == b'c', likely_origin(fields)))
}

// The origin before the line end, if there is one.
fn likely_origin(fields: &[u8]) -> Option<Origin>
    ensures { (origin : Option Origin) → MaySay origin → fields.now ≡ ended (origin_text origin) → result ≡ origin }
{
    let [_, selection, _, fields @ ..] = fields else {
        return None;
    };
    let (floor, fields) = number_in_front(fields);
    let [_, fields @ ..] = fields else {
        return None;
    };
    let (reads, _) = number_in_front(fields);
    if floor > u8::MAX as u64 {
        return None;
    }
    Some(Origin {
        floor: floor as u8,
        reads,
        listed: *selection == b'o',
    })
}

// The number at the front of the bytes, if a byte below the digits ends it, and the rest from that byte on.
fn number_in_front(bytes: &[u8]) -> (u64, &[u8])
    ensures { (n stop : ℕ) (rest : List ℕ) → n < 2 ^ 64 → stop < 48 → bytes.now ≡ decimal n ++ stop ∷ rest
        → (result.0 ≡ n) × (result.1.now ≡ stop ∷ rest) }
{
    let (number, many) = digits_of(bytes);
    (number, &bytes[many..])
}
