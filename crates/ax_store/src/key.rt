//! Keys that are mostly compared without a look at their bytes.
ghost use Rattle.std.specs.Prelude.{◌≡◌, drop, IfOk};
ghost use Rattle.ax_base.specs.Heads.{head_of};
ghost use Rattle.ax_store.specs.Held.{begins, bytes_cmp};

use ax_base::heads::note_bytes;
use ax_base::{Bytes, Duplicate, NoMemory, cmp_by_heads, head_of};
use std::alloc::Global;
use std::cmp::Ordering;
use std::marker::Model;

/// A key, with its first and its second eight bytes as numbers beside it.
#[derive(Debug, Drop)]
pub(crate) struct Key {
    first: u64,
    second: u64,
    bytes: Bytes,
}

impl Model for Key {
    ghost use Rattle.std.specs.Prelude.{◌≡◌, drop, List, ℕ};
    ghost use Rattle.std.specs.Coded.{coded_list, coded_ℕ};
    ghost use Rattle.ax_base.specs.Heads.{head_of};

    ghost Value = { List ℕ };

    ghost coded = { coded_list coded_ℕ };

    ghost view = { λ k. k.bytes };

    ghost invariant = { λ k. (k.first ≡ head_of k.bytes) × (k.second ≡ head_of (drop 8 k.bytes)) };
}

/// What keys are compared with: bytes that lie elsewhere, with their numbers.
#[derive(Drop)]
pub(crate) struct Sought<'a> {
    first: u64,
    second: u64,
    bytes: &'a [u8],
}

impl<'a> Model for Sought<'a> {
    ghost use Rattle.std.specs.Prelude.{◌≡◌, drop, List, ℕ};
    ghost use Rattle.std.specs.Coded.{coded_list, coded_ℕ};
    ghost use Rattle.ax_base.specs.Heads.{head_of};

    ghost Value = { List ℕ };

    ghost coded = { coded_list coded_ℕ };

    ghost view = { λ s. s.bytes.now };

    ghost invariant = { λ s. (s.first ≡ head_of s.bytes.now) × (s.second ≡ head_of (drop 8 s.bytes.now)) };
}

// The bytes behind the first eight.
fn behind(bytes: &[u8]) -> &[u8]
    ensures { result.now ≡ drop 8 bytes.now }
{
    &bytes[bytes.len().min(8)..]
}

impl Key {
    pub(crate) fn new(bytes: Bytes) -> Key
        ensures { result ≡ bytes }
    {
        let first = head_of(bytes.as_slice());
        let second = head_of(behind(bytes.as_slice()));
        Key {
            first,
            second,
            bytes,
        }
    }

    pub(crate) fn as_slice(&self) -> &[u8]
        ensures { result.now ≡ self.now }
    {
        self.bytes.as_slice()
    }

    // Whether the key begins with a prefix.
    pub(crate) fn starts_with(&self, prefix: &[u8]) -> bool
        ensures { result ≡ begins prefix.now self.now }
    {
        self.as_slice().starts_with(prefix)
    }

    pub(crate) fn into_bytes(self) -> Bytes
        ensures { result ≡ self }
    {
        self.bytes
    }

    // The key as one to compare with.
    pub(crate) fn sought(&self) -> Sought<'_>
        ensures { result ≡ self.now }
    {
        Sought {
            first: self.first,
            second: self.second,
            bytes: self.bytes.as_slice(),
        }
    }

    // How the key stands to bytes, byte by byte.
    pub(crate) fn order(&self, other: &Sought<'_>) -> Ordering
        ensures { result ≡ bytes_cmp self.now other.now }
    {
        self.sought().order(other)
    }
}

impl Duplicate for Key {
    fn copy(&self, alloc: Global) -> Result<Key, NoMemory> {
        let bytes = Bytes::from_slice(alloc, self.bytes.as_slice())?;
        Ok(Key {
            first: self.first,
            second: self.second,
            bytes,
        })
    }
}

impl<'a> Sought<'a> {
    pub(crate) fn new(bytes: &'a [u8]) -> Sought<'a>
        ensures { result ≡ bytes.now }
    {
        Sought {
            first: head_of(bytes),
            second: head_of(behind(bytes)),
            bytes,
        }
    }

    // How one stands to another, byte by byte. Most are told apart by their numbers.
    fn order(&self, other: &Sought<'_>) -> Ordering
        ensures { result ≡ bytes_cmp self.now other.now }
    {
        note_bytes(self.bytes);
        note_bytes(other.bytes);
        if self.first == other.first && self.bytes.len() >= 8 && other.bytes.len() >= 8 {
            return cmp_by_heads(
                self.second,
                behind(self.bytes),
                other.second,
                behind(other.bytes),
            );
        }
        cmp_by_heads(self.first, self.bytes, other.first, other.bytes)
    }
}
