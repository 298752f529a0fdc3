//! A read cleaned into a piece: its usable codes and its gaps, 32 bases at a time.
ghost use Rattle.std.specs.Prelude.{◌≡◌, ◌+◌, ◌^◌, ◌<◌, ◌≤◌, [], length, IfOk, OnOk};
ghost use Rattle.std.specs.Vec.{vec_capacity};
ghost use Rattle.kc_word.specs.Cutting.{cleaned};
ghost use Rattle.kc_word.specs.Packed.{number_count};
ghost use Rattle.kc_word.specs.UsableCodes.{usable_code, IsCodeBlock, AreGaps};

use crate::packed_codes::{BASES, Packed};
use crate::piece::Piece;
use crate::runs::{Run, push_run};
use kc_fastx::SeqRead;
use kc_kmer::Rule;
use kc_kmer::letter::{NO_BASE, code_of};
use std::alloc::{AllocError, Global};

/// The piece of a read: each usable base in upper case, and `N` for every other one.
pub fn clean(alloc: Global, read: &SeqRead, rule: &Rule) -> Result<Piece, AllocError>
    ensures cleaned { IfOk result (λ piece. piece ≡ cleaned rule.now read.now) }
    ensures long { IfOk result (λ piece. length piece ≡ length read.now.bases) }
{
    let count = read.bases().len();
    let numbers = room_for_bases(alloc, read)?;
    let mut bases = Packed { numbers, len: 0 };
    let mut runs = Vec::new(alloc);
    for j in 0..count.div_ceil(BASES) {
        let from = j * BASES;
        let taken = (count - from).min(BASES);
        let block = block_of(read, rule, from, taken);
        bases.push_number(block.number, taken)?;
        if block.has_gap {
            mark_gaps(read, rule, from, taken, &mut runs)?;
        }
    }
    Ok(Piece { bases, runs })
}

// An empty vector with room for the numbers of 64 bits that the bases of a read take.
fn room_for_bases(alloc: Global, read: &SeqRead) -> Result<Vec<u64>, AllocError>
    ensures empty { IfOk result (λ room. room.items ≡ []) }
    ensures bounded { IfOk result (λ room. vec_capacity room ≤ number_count (length read.now.bases)) }
{
    Vec::with_capacity(alloc, read.bases().len().div_ceil(BASES))
}

// Up to 32 bases of a read.
#[derive(Clone, Copy)]
struct CodeBlock {
    // Their codes, the first one in the highest bits, 0 for a base that is not usable.
    number: u64,
    // Whether one of them is not usable.
    has_gap: bool,
}

// The block of `count` bases from index `from` on. Condition: the count is 1 to 32, and the read has these bases.
#[inline(always)]
fn block_of(read: &SeqRead, rule: &Rule, from: usize, count: usize) -> CodeBlock
    requires some { 1 ≤ count }
    requires most { count ≤ 32 }
    requires within { from + count ≤ length read.now.bases }
    requires fits { from + count < 2 ^ 64 }
    ensures { IsCodeBlock rule.now read.now from count result.number result.has_gap }
{
    let mut number = 0u64;
    let mut seen = 0u8;
    for i in 0..count {
        let code = usable_code(read, rule, from + i);
        number = (number << 2) + (code & 3) as u64;
        seen |= code;
    }
    CodeBlock {
        number: number << (64 - 2 * count),
        has_gap: seen >= NO_BASE,
    }
}

// Adds the unusable ones of the `count` bases from index `from` on to the runs of those before.
fn mark_gaps(
    read: &SeqRead,
    rule: &Rule,
    from: usize,
    count: usize,
    runs: &mut Vec<Run>,
) -> Result<(), AllocError>
    requires before { AreGaps rule.now read.now from runs.old.items }
    requires within { from + count ≤ length read.now.bases }
    requires fits { from + count < 2 ^ 64 }
    ensures { OnOk result (AreGaps rule.now read.now (from + count) runs.new.items) }
{
    for i in 0..count {
        if usable_code(read, rule, from + i) >= NO_BASE {
            push_run(runs, from + i, 1)?;
        }
    }
    Ok(())
}

/// The code of base `i` if it is one of `ACGTacgt` and its quality, if it has one, is at least the floor; otherwise
/// `NO_BASE`. Condition: the read has this base. It takes no memory.
#[inline(always)]
pub fn usable_code(read: &SeqRead, rule: &Rule, i: usize) -> u8
    requires { i < length read.now.bases }
    ensures { result ≡ usable_code rule.now read.now i }
{
    let code = code_of(read.bases()[i]);
    match read.quals() {
        None => code,
        Some(quals) => {
            if quals[i] >= rule.floor() {
                code
            } else {
                NO_BASE
            }
        }
    }
}
