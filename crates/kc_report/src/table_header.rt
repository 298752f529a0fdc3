//! The header of a table text: written, and judged when a table is read.
ghost use Rattle.std.specs.Prelude.{◌≡◌, ◌≢◌, ◌↔◌, ◌+◌, ◌≤◌, ◌∷◌, ◌++◌, ℕ, Bool, IsTrue, Option, IfSome, IfNone};
ghost use Rattle.std.specs.Prelude.{length};
ghost use Rattle.kc_report.specs.declared.origin.Origin.{Origin};
ghost use Rattle.kc_report.specs.Bytes.{space};
ghost use Rattle.kc_report.specs.Table.{MaySay, ended, header_line, kind, origin_text, selection, version};

use crate::header_fields::likely_header;
use crate::origin::{MAX_FLOOR, MAX_READS, MIN_FLOOR, Origin};
use crate::table_rows::is_same;
use kc_io::{BLOCK_SIZE, Block, NUMBER_SIZE};
use kc_kmer::K;

// The most bytes of an origin, and of a header with its line end.
const ORIGIN_SIZE: usize = 2 + 1 + NUMBER_SIZE + 1 + NUMBER_SIZE;

const HEADER_SIZE: usize = 6 + NUMBER_SIZE + 2 + ORIGIN_SIZE + 1;

// Appends the header to the block.
pub(crate) fn push_header(block: &mut Block, k: K, both: bool, origin: Option<Origin>)
    requires room { length block.old + HEADER_SIZE ≤ BLOCK_SIZE }
    ensures { block.new ≡ block.old ++ ended (header_line k both origin) }
{
    block.push(version_bytes(origin));
    block.push_number(k.get() as u64);
    block.push(kind_bytes(both));
    push_origin(block, origin);
    block.push(b"\n");
}

// The start of a header, before the length of the words.
fn version_bytes(origin: Option<Origin>) -> &'static [u8]
    ensures bytes { result.now ≡ version origin }
    ensures size { length result.now ≡ 6 }
{
    match origin {
        None => b"KCT 1 ",
        Some(_) => b"KCT 2 ",
    }
}

// The part of a header after the length of the words and before an origin.
fn kind_bytes(both: bool) -> &'static [u8]
    ensures bytes { result.now ≡ space ∷ kind both }
    ensures size { length result.now ≡ 2 }
{
    if both { b" c" } else { b" s" }
}

// Appends the fields of an origin to the block, if there is one.
fn push_origin(block: &mut Block, origin: Option<Origin>)
    requires room { length block.old + ORIGIN_SIZE ≤ BLOCK_SIZE }
    ensures text { block.new ≡ block.old ++ origin_text origin }
    ensures size { length block.new ≤ length block.old + ORIGIN_SIZE }
{
    match origin {
        None => {}
        Some(origin) => {
            block.push(selection_bytes(origin.listed));
            block.push(b" ");
            block.push_number(origin.floor as u64);
            block.push(b" ");
            block.push_number(origin.reads);
        }
    }
}

// The first field of an origin.
fn selection_bytes(listed: bool) -> &'static [u8]
    ensures bytes { result.now ≡ space ∷ selection listed }
    ensures size { length result.now ≡ 2 }
{
    if listed { b" o" } else { b" a" }
}

// The length of the words, whether both strands were counted, and the origin, if there is one, of a header.
pub(crate) fn header_of(scratch: &mut Block, line: &[u8]) -> Option<(K, bool, Option<Origin>)>
    ensures some { IfSome result (λ head. line.now ≡ ended (header_line head.0 head.1 head.2)) }
    ensures least { IfSome result (λ head. 1 ≤ head.0) }
    ensures most { IfSome result (λ head. head.0 ≤ 31) }
    ensures origin { IfSome result (λ head. MaySay head.2) }
    ensures none { IfNone result ((k : ℕ) (both : Bool) (origin : Option Origin) → 1 ≤ k → k ≤ 31 → MaySay origin
        → line.now ≢ ended (header_line k both origin)) }
{
    let Some((k, both, origin)) = likely_header(line) else {
        return None;
    };
    // the fields of a line that is no header may have any values
    if !may_say(origin) || !is_header(scratch, line, k, both, origin) {
        return None;
    }
    Some((k, both, origin))
}

// Whether a header can have the origin.
fn may_say(origin: Option<Origin>) -> bool
    ensures { IsTrue result ↔ MaySay origin }
{
    match origin {
        None => true,
        Some(origin) => {
            origin.floor >= MIN_FLOOR && origin.floor <= MAX_FLOOR && origin.reads <= MAX_READS
        }
    }
}

// Whether the line is this header.
fn is_header(scratch: &mut Block, line: &[u8], k: K, both: bool, origin: Option<Origin>) -> bool
    ensures { IsTrue result ↔ (line.now ≡ ended (header_line k both origin)) }
{
    scratch.clear();
    push_header(scratch, k, both, origin);
    is_same(scratch, line)
}
