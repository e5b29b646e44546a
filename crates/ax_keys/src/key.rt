//! Keys.
ghost use Rattle.std.specs.Prelude.{◌≡◌, ◌&&◌, nat_le, nat_eq, length, true, false, IfOk, MatchOption, Some, refl};
ghost use Rattle.std.specs.List.{list_all};
ghost use Rattle.std.specs.Ordering.{nat_cmp};
ghost use Rattle.std.specs.Cmp.{partial_equiv_from_equiv};
ghost use Rattle.std.specs.Cmp.Lexicographic.{pointwise, slice_cmp, nat_list_eq_equiv, nat_list_cmp_total, texts_ties, texts_po};
ghost use Rattle.ax_keys.specs.Keys.{is_key, is_key_byte};

use crate::key_bytes::KeyBytes;
use ax_base::{Duplicate, ListOf, NoMemory, cmp_by_heads, head_of};
use std::alloc::Global;
use std::cmp::Ordering;
use std::marker::Model;

/// A key: 1 to 256 printing bytes from 0x21 to 0x7E. Contracts see it as its bytes. Keys are equal
/// where their bytes are, and ordered by their bytes: a key comes before those that it begins.
#[derive(Debug, Drop)]
pub struct Key {
    // The first eight bytes as one number, by which most keys are told apart with no look at the bytes.
    head: u64,
    bytes: KeyBytes,
}

/// A list of keys.
pub type Keys = ListOf<Key>;

impl Model for Key {
    ghost use Rattle.std.specs.Prelude.{◌≡◌, ℕ, List, true};
    ghost use Rattle.ax_base.specs.Heads.{head_of};
    ghost use Rattle.ax_keys.specs.Keys.{is_key};

    ghost Value = { List ℕ };

    ghost view = { λ k. k.bytes };

    ghost invariant = { λ k. (is_key k.bytes ≡ true) × (k.head ≡ head_of k.bytes) };
}

// Whether a byte prints and is no space.
fn is_key_byte(b: u8) -> bool
    ensures { result ≡ is_key_byte b }
{
    b >= 33 && b <= 126
}

// Whether a word is 1 to 256 bytes long.
fn has_key_length(word: &[u8]) -> bool
    ensures { result ≡ (nat_le 1 (length word.now) && nat_le (length word.now) 256) }
{
    word.len() >= 1 && word.len() <= 256
}

// Whether each byte of a word may stand in a key.
fn has_key_bytes(word: &[u8]) -> bool
    ensures { result ≡ list_all is_key_byte word.now }
{
    word.iter().all(|b| is_key_byte(*b))
}

// Whether a word is a key.
fn is_key(word: &[u8]) -> bool
    ensures { result ≡ is_key word.now }
{
    has_key_length(word) && has_key_bytes(word)
}

impl Key {
    /// The key that a word is, and `None` exactly where it is none. The only fault is `NoMemory`.
    pub fn read(alloc: Global, word: &[u8]) -> Result<Option<Key>, NoMemory>
        ensures { IfOk result (λ key. MatchOption key (is_key word.now ≡ false) (λ k. (k ≡ word.now) × (is_key word.now ≡ true))) }
    {
        if !is_key(word) {
            return Ok(None);
        }
        let bytes = KeyBytes::of(alloc, word)?;
        Ok(Some(Key {
            head: head_of(word),
            bytes,
        }))
    }

    /// The bytes of the key.
    pub fn as_bytes(&self) -> &[u8]
        ensures value { result.now ≡ self.now }
        ensures key { is_key self.now ≡ true }
    {
        self.bytes.as_slice()
    }
}

impl Duplicate for Key {
    fn copy(&self, alloc: Global) -> Result<Key, NoMemory> {
        let bytes = self.bytes.copy(alloc)?;
        Ok(Key {
            head: self.head,
            bytes,
        })
    }
}

impl PartialEq for Key {
    ghost eq = { pointwise nat_eq };

    ghost laws = { partial_equiv_from_equiv nat_list_eq_equiv };

    fn eq(&self, other: &Key) -> bool {
        self.head == other.head && self.bytes.as_slice() == other.bytes.as_slice()
    }
}

impl Eq for Key {
    ghost laws = { nat_list_eq_equiv };
}

// How two keys compare by their bytes.
#[inline(never)]
fn cmp_bytes(a: &Key, b: &Key) -> Ordering
    ensures { result ≡ slice_cmp nat_cmp a.now b.now }
{
    cmp_by_heads(a.head, a.bytes.as_slice(), b.head, b.bytes.as_slice())
}

impl PartialOrd for Key {
    ghost partial_cmp = { λ a b. Some (slice_cmp nat_cmp a b) };

    ghost laws = { texts_po };

    fn partial_cmp(&self, other: &Key) -> Option<Ordering> {
        Some(self.cmp(other))
    }
}

impl Ord for Key {
    ghost cmp = { slice_cmp nat_cmp };

    ghost total = { nat_list_cmp_total };

    ghost matches_partial_cmp = { λ a b. refl };

    ghost matches_eq = { texts_ties };

    #[inline(always)]
    fn cmp(&self, other: &Key) -> Ordering {
        if self.head < other.head {
            return Ordering::Less;
        }
        if other.head < self.head {
            return Ordering::Greater;
        }
        cmp_bytes(self, other)
    }
}
