//! Words as numbers: the first base in the highest two bits.
ghost use Rattle.std.specs.Prelude.{◌≡◌, ◌+◌, ◌^◌, ◌<◌, ◌↔◌, ◌++◌, IsSome, IfSome, IsTrue, length, map, drop};
ghost use Rattle.std.specs.Char.{to_ascii_uppercase};
ghost use Rattle.kc_kmer.specs.Letter.{are_bases};
ghost use Rattle.kc_kmer.specs.Word.{text, reverse_complement, canonical};

use crate::k::K;
use crate::letter::{NO_BASE, base_of, code_of};

/// A word of some length k as a number below 4^k: two bits a base, A 0, C 1, G 2, T 3, the first base
/// highest. The order of the numbers is the order of the texts.
#[derive(Clone, Copy, PartialEq, Eq, PartialOrd, Ord, Hash, Debug)]
pub struct Word(pub u64);

/// The word that `bytes` spell: Some exactly for k bytes of `ACGTacgt`.
pub fn pack(bytes: &[u8], k: K) -> Option<Word>
    ensures found { IsSome result ↔ ((length bytes.now ≡ k) × IsTrue (are_bases (map to_ascii_uppercase bytes.now))) }
    ensures below { IfSome result (λ word. word.0 < 4 ^ k) }
    ensures spelled { IfSome result (λ word. text k word.0 ≡ map to_ascii_uppercase bytes.now) }
{
    if bytes.len() != k.get() as usize {
        return None;
    }
    let mut number = 0u64;
    for byte in bytes {
        let code = code_of(*byte);
        if code == NO_BASE {
            return None;
        }
        number = number * 4 + code as u64;
    }
    Some(Word(number))
}

/// Writes the k upper-case letters of the word to the front, and leaves the rest of the array.
/// Condition: the word is below 4^k.
pub fn text(word: Word, k: K, letters: &mut [u8; 31])
    requires { word.0 < 4 ^ k }
    ensures { letters.new ≡ text k word.0 ++ drop k letters.old }
{
    let count = k.get() as usize;
    for i in 0..count {
        letters[i] = base_of((word.0 >> (2 * (count - 1 - i))) & 3);
    }
}

/// The word on the other strand: reversed, each base complemented. Condition: the word is below 4^k.
pub fn reverse_complement(word: Word, k: K) -> Word
    requires { word.0 < 4 ^ k }
    ensures below { result.0 < 4 ^ k }
    ensures read_back { text k result.0 ≡ reverse_complement (text k word.0) }
{
    // complemented and reversed bit by bit; then the two bits of each base are exchanged
    let backwards = (!word.0).reverse_bits();
    let turned = ((backwards >> 1) & LOW_BITS) | ((backwards & LOW_BITS) << 1);
    Word(turned >> (64 - 2 * k.get()))
}

// the lower bit of each base
const LOW_BITS: u64 = 0x5555_5555_5555_5555;

/// The word or its reverse complement, whichever is less. Condition: the word is below 4^k.
pub fn canonical(word: Word, k: K) -> Word
    requires { word.0 < 4 ^ k }
    ensures below { result.0 < 4 ^ k }
    ensures lesser { text k result.0 ≡ canonical (text k word.0) }
{
    let other = reverse_complement(word, k);
    if other.0 < word.0 { other } else { word }
}
