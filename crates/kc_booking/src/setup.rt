//! How the words of a count are divided among stripes.
ghost use Rattle.std.specs.Prelude.{◌≡◌, ℕ, ◌+◌, ◌*◌, ◌^◌, ◌<◌, ◌≤◌, ◌↔◌, length, Some, None, IsSome, IfSome, IfNone};
ghost use Rattle.kc_hash.specs.Product.{product};
ghost use Rattle.kc_booking.specs.Setup.{StripeSetup, IsSetup, word_count, stripe_count, key_bits};
ghost use Rattle.kc_booking.specs.Setup.{stripe_of, key_of, StandsAt, DividesWords, form_of, form_text};
ghost use Rattle.kc_kmer.specs.Rule.{with_list, without_list};
ghost use Rattle.kc_kmer.specs.Word.{text};

use kc_hash::Hash;
use kc_word::{Only, Rule, Word, canonical, word_laws};
use std::alloc::AllocError;
use std::marker::Model;
use std::sync::Arc;

/// The setup of a count: how its words are divided among stripes. It has the rule of the count, the list of the only
/// words that it counts, if one is given, the hash of its words, and the number of stripes.
///
/// A word's hash value is its hashed number. The low bits of the hash value, as many as distinguish the stripes, are
/// the word's stripe; the rest is its key. No call but `clone` takes memory. A setup has about 1 KB: borrow it unless
/// you keep it.
#[derive(Debug, Drop)]
pub struct Setup {
    rule: Rule,
    only: Option<Arc<Only>>,
    pub(crate) hash: Hash,
    // how many bits of a hash value distinguish the stripes
    pub(crate) stripe_bits: u32,
}

impl Model for Setup {
    ghost use Rattle.kc_booking.specs.Setup.{StripeSetup, HasBits};

    ghost Value = { StripeSetup };

    ghost use Rattle.kc_booking.specs.Listed.{rule_with, IsForRule};

    ghost view = { λ s. record { rule = rule_with s.rule s.only; hash = s.hash; stripe_bits = s.stripe_bits } };

    ghost invariant = { λ s. HasBits s.rule.k s.hash s.stripe_bits × IsForRule s.rule s.only };
}

impl Setup {
    /// The most stripes.
    pub const MAX_STRIPES: u32 = 64;

    /// The setup of a count with this rule, hash and number of stripes: Some exactly if the hash has two bits for each
    /// base of a word, and `stripes` is a power of two, at most 64 and at most 4^k.
    pub fn new(rule: Rule, hash: Hash, stripes: u32) -> Option<Setup>
        ensures some { IsSome result ↔ IsSetup rule hash stripes }
        ensures rule { IfSome result (λ setup. setup.rule ≡ rule) }
        ensures hash { IfSome result (λ setup. setup.hash ≡ hash) }
        ensures stripes { IfSome result (λ setup. stripe_count setup ≡ stripes) }
    {
        if stripes == 0 || stripes > Setup::MAX_STRIPES {
            return None;
        }
        let word_bits = 2 * rule.k().get();
        let stripe_bits = stripes.ilog2();
        if hash.bits() != word_bits || stripes != 1 << stripe_bits || stripe_bits > word_bits {
            return None;
        }
        rule.has_no_list();
        Some(Setup {
            rule,
            only: None,
            hash,
            stripe_bits,
        })
    }

    /// This setup with a list, so that only its words count: Some if the words of the list have the length of those of
    /// the count, and the same strands.
    pub fn listed(self, list: Arc<Only>) -> Option<Setup>
        ensures some { IsSome result ↔ ((list.value.k ≡ self.rule.k) × (list.value.both ≡ self.rule.both)) }
        ensures rule { IfSome result (λ setup. setup.rule ≡ with_list self.rule list.value.words) }
        ensures hash { IfSome result (λ setup. setup.hash ≡ self.hash) }
        ensures stripes { IfSome result (λ setup. setup.stripe_bits ≡ self.stripe_bits) }
    {
        if list.k() != self.rule.k() || list.both() != self.rule.both() {
            return None;
        }
        let Setup {
            rule,
            only: _,
            hash,
            stripe_bits,
        } = self;
        Some(Setup {
            rule,
            only: Some(list),
            hash,
            stripe_bits,
        })
    }

    /// The rule of the count, without its list.
    pub fn rule(&self) -> &Rule
        ensures { result.now ≡ without_list self.now.rule }
    {
        self.rule.has_no_list();
        &self.rule
    }

    /// The list of the words that count, if one is given.
    pub fn list(&self) -> Option<&Only>
        ensures none { IfNone result (self.now.rule.only ≡ None) }
        ensures words { IfSome result (λ list. self.now.rule.only ≡ Some list.now.words) }
        ensures k { IfSome result (λ list. list.now.k ≡ self.now.rule.k) }
    {
        match &self.only {
            None => None,
            Some(list) => Some(&**list),
        }
    }

    /// The hash of the words.
    pub fn hash(&self) -> &Hash
        ensures { result.now ≡ self.now.hash }
    {
        &self.hash
    }

    /// The number of stripes.
    pub fn stripes(&self) -> u32
        ensures value { result ≡ stripe_count self.now }
        ensures some { 1 ≤ result }
        ensures at_most { result ≤ 64 }
    {
        1 << self.stripe_bits
    }

    /// The logarithm of the number of stripes.
    pub(crate) fn stripe_bits(&self) -> u32
        ensures value { result ≡ self.now.stripe_bits }
        ensures at_most { result ≤ 6 }
    {
        self.stripe_bits
    }

    /// The number of bits of a key.
    pub fn key_bits(&self) -> u32
        ensures value { result ≡ key_bits self.now }
        ensures at_most { result ≤ 62 }
    {
        self.hash.bits() - self.stripe_bits
    }

    /// A law: each word has a stripe and a key, and each stripe and key have exactly one word.
    pub fn divides_words(&self)
        ensures { DividesWords self.now }
    {
        self.hash.is_permutation();
    }

    /// The form under which a word counts: the canonical one if both strands count. Condition: the word is below 4^k.
    pub fn form_of(&self, word: Word) -> Word
        requires { word.0 < word_count self.now }
        ensures value { result.0 ≡ form_of self.now word.0 }
        ensures letters { text self.now.rule.k result.0 ≡ form_text self.now word.0 }
        ensures below { result.0 < word_count self.now }
    {
        // for the proof: facts about the numbers of words
        word_laws::number_of_text();
        if self.rule.both() {
            canonical(word, self.rule.k())
        } else {
            word
        }
    }

    /// The stripe of a word. Condition: the word is below 4^k.
    pub fn stripe_of(&self, word: Word) -> u32
        requires { word.0 < word_count self.now }
        ensures value { result ≡ stripe_of self.now word.0 }
        ensures below { result < stripe_count self.now }
    {
        (self.hash.forward(word.0) & ((1 << self.stripe_bits) - 1)) as u32
    }

    /// The key of a word. Condition: the word is below 4^k.
    pub fn key_of(&self, word: Word) -> u64
        requires { word.0 < word_count self.now }
        ensures value { result ≡ key_of self.now word.0 }
        ensures below { result < 2 ^ key_bits self.now }
    {
        self.hash.forward(word.0) >> self.stripe_bits
    }

    /// The one word with this stripe and this key. Conditions: the stripe is below the number of stripes, and the key
    /// has at most `key_bits` bits.
    pub fn word_of(&self, stripe: u32, key: u64) -> Word
        requires stripe { stripe < stripe_count self.now }
        requires key { key < 2 ^ key_bits self.now }
        ensures found { StandsAt self.now stripe key result.0 }
        ensures only { (word : ℕ) → StandsAt self.now stripe key word → result.0 ≡ word }
    {
        Word(self.hash.back(self.hash_value_at(stripe, key)))
    }

    /// The hash value of the word with this stripe and this key.
    pub(crate) fn hash_value_at(&self, stripe: u32, key: u64) -> u64
        requires stripe { stripe < stripe_count self.now }
        requires key { key < 2 ^ key_bits self.now }
        ensures value { result ≡ key * stripe_count self.now + stripe }
        ensures within { result < 2 ^ length self.now.hash }
        ensures stands { (word : ℕ) → word < 2 ^ length self.now.hash → product self.now.hash word ≡ result
            → StandsAt self.now stripe key word }
        ensures hashed { (word : ℕ) → StandsAt self.now stripe key word → product self.now.hash word ≡ result }
    {
        (key << self.stripe_bits) + stripe as u64
    }
}

impl Clone for Setup {
    ghost use Rattle.std.specs.Prelude.{◌≡◌};

    ghost is_clone = { λ setup copy. copy ≡ setup };

    fn clone(&self) -> Result<Setup, AllocError> {
        let only = match &self.only {
            None => None,
            Some(list) => Some(list.clone()?),
        };
        Ok(Setup {
            rule: self.rule,
            only,
            hash: self.hash,
            stripe_bits: self.stripe_bits,
        })
    }
}

/// Equal setups count by equal rules the words of equal lists, and divide them in the same way.
impl PartialEq for Setup {
    ghost use Rattle.kc_booking.specs.Listed.{is_same_setup};
    ghost use Rattle.kc_booking.specs.SetupEquality.{is_same_setup-laws};

    ghost eq = { is_same_setup };

    ghost laws = { is_same_setup-laws };

    fn eq(&self, other: &Setup) -> bool {
        let alike = self.rule == other.rule
            && (self.hash == other.hash && self.stripe_bits == other.stripe_bits);
        match (&self.only, &other.only) {
            (None, None) => alike,
            (Some(list), Some(others)) => alike && list.words() == others.words(),
            _ => false,
        }
    }
}

impl Eq for Setup {
    ghost use Rattle.kc_booking.specs.SetupEquality.{is_same_setup-IsEquivalence};

    ghost laws = { is_same_setup-IsEquivalence };
}
