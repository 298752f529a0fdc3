//! `Counts`, the finite map from keys to counts that every table is.
ghost use Rattle.std.specs.Prelude.{◌≡◌, ℕ, ◌+◌, ◌<◌, ◌≤◌, ◌^◌, ◌↔◌, OnOk, OnErr, IsOk, IfOk, All};
ghost use Rattle.kc_table.specs.Sizes.{most_bits, most_parts, count_bits};
ghost use Rattle.kc_table.specs.Counts.{KeyCounts, IsStored, IsWithin, count_at, readied, added, reduced};
ghost use Rattle.kc_table.specs.Counts.{AreRowsOf, IsGreatestCount};

use crate::table_fault::TableFault;
use std::alloc::{AllocError, Global};

/// A finite map from keys of a fixed number of bits (at most 62) to counts.
/// A key in the map is called stored; its count may be 0.
pub trait Counts {
    ghost bits: { Self → ℕ };

    ghost counts: { Self → KeyCounts };

    // For which maps and keys this table may return `Full`.
    ghost may_be_full: { Self → KeyCounts → ℕ → Type 0 };

    // How many slots the table has.
    ghost slots: { Self → ℕ };

    // The part of the table that has a key.
    ghost part: { Self → ℕ → ℕ };

    /// The number of bits of the keys.
    fn key_bits(&self) -> u32
        ensures bits { result ≡ bits self.now }
        ensures few { result ≤ most_bits }
        ensures within { IsWithin result (counts self.now) };

    /// Stores the key, with the count 0 if it was not stored; a stored key is never refused. `Full` comes only if the
    /// type's `may_be_full` allows it, and `Memory` if a growth was refused.
    fn ready(&mut self, key: u64) -> Result<(), TableFault>
        requires { key < 2 ^ bits self.old }
        ensures known { IsStored (counts self.old) key → IsOk result }
        ensures stored { OnOk result (counts self.new ≡ readied (counts self.old) key) }
        ensures refused { OnErr result (counts self.new ≡ counts self.old) }
        ensures full_only_there { result ≡ Err TableFault.Full → may_be_full self.old (counts self.old) key }
        ensures same_bits { bits self.new ≡ bits self.old }
        ensures same_limits { (m : KeyCounts) (q : ℕ) → may_be_full self.new m q ↔ may_be_full self.old m q };

    /// Stores the key if it is not stored, adds one to its count, and returns the new count; a stored key is never
    /// refused. `Full` comes only if the type's `may_be_full` allows it, and `Memory` if a growth was refused. After a
    /// refusal no count has changed.
    fn count(&mut self, key: u64) -> Result<u64, TableFault>
        requires in_range { key < 2 ^ bits self.old }
        requires room { count_at (counts self.old) key < 2 ^ count_bits }
        ensures known { IsStored (counts self.old) key → IsOk result }
        ensures new_count { IfOk result (λ count. count ≡ count_at (counts self.old) key + 1) }
        ensures counted { OnOk result (counts self.new ≡ added (counts self.old) key) }
        ensures refused { OnErr result (counts self.new ≡ counts self.old) }
        ensures full_only_there { result ≡ Err TableFault.Full → may_be_full self.old (counts self.old) key }
        ensures same_bits { bits self.new ≡ bits self.old }
        ensures same_limits { (m : KeyCounts) (q : ℕ) → may_be_full self.new m q ↔ may_be_full self.old m q };

    /// Decreases the key's count, which is at least 1, by one. The key stays stored. It takes no memory.
    fn uncount(&mut self, key: u64)
        requires in_range { key < 2 ^ bits self.old }
        requires some { 1 ≤ count_at (counts self.old) key }
        ensures counted { counts self.new ≡ reduced (counts self.old) key }
        ensures same_bits { bits self.new ≡ bits self.old }
        ensures same_limits { (m : KeyCounts) (q : ℕ) → may_be_full self.new m q ↔ may_be_full self.old m q };

    /// How many slots the table has, 0 if it has none (a map that is no array). It matters only for speed.
    fn slots(&self) -> u64
        ensures { result ≡ slots self.now };

    /// Adds one to the count of a stored key. It takes no memory.
    fn add(&mut self, key: u64)
        requires in_range { key < 2 ^ bits self.old }
        requires stored { IsStored (counts self.old) key }
        requires room { count_at (counts self.old) key < 2 ^ count_bits }
        ensures counted { counts self.new ≡ added (counts self.old) key }
        ensures same_bits { bits self.new ≡ bits self.old }
        ensures same_limits { (m : KeyCounts) (q : ℕ) → may_be_full self.new m q ↔ may_be_full self.old m q };

    /// The key's count, 0 if the key is not stored.
    fn get(&self, key: u64) -> u64
        requires { key < 2 ^ bits self.now }
        ensures { result ≡ count_at (counts self.now) key };

    /// The part of the table that has the key. It matters only for speed: keys of one part are near each other in
    /// memory, so going through keys part by part waits for memory less often. There are at most 1,024 parts.
    fn part_of(&self, key: u64) -> u32
        requires { key < 2 ^ bits self.now }
        ensures few { result < most_parts }
        ensures part { result ≡ part self.now key };

    /// Each key whose count is at least 1, once, with its count, in any order.
    fn rows(&self, alloc: Global) -> Result<Vec<(u64, u64)>, AllocError>
        ensures told { IfOk result (λ v. AreRowsOf (counts self.now) v.items) }
        ensures in_range { IfOk result (λ v. All (λ row. row.0 < 2 ^ bits self.now) v.items) };

    /// The greatest count of a key, 0 if nothing was counted. It looks at each key once and takes no memory.
    fn greatest(&self) -> u64
        ensures { IsGreatestCount (counts self.now) result };
}
