//! The bytes of a key as they are kept.
ghost use Rattle.std.specs.Prelude.{◌≡◌, ◌≤◌, length, take, IfOk};

use ax_base::NoMemory;
use std::alloc::Global;
use std::marker::Model;

/// Where the bytes of a key lie.
#[derive(Debug, Drop)]
pub enum Kept {
    /// The first so many of these.
    Short { bytes: [u8; 16], len: u8 },
    /// All of these.
    Long { bytes: Vec<u8> },
}

/// The bytes of a key: up to 16 lie in the value itself, which is copied with no memory.
#[derive(Debug, Drop)]
pub struct KeyBytes {
    kept: Kept,
}

impl Model for KeyBytes {
    ghost use Rattle.std.specs.Prelude.{List, ℕ};
    ghost use Rattle.ax_keys.specs.Kept.{kept_bytes, IsKept};

    ghost Value = { List ℕ };

    ghost view = { λ b. kept_bytes b.kept };

    ghost invariant = { λ b. IsKept b.kept };
}

// Few bytes, in the value itself.
fn short(word: &[u8]) -> KeyBytes
    requires { length word.now ≤ 16 }
    ensures { result ≡ word.now }
{
    let mut bytes = [0; 16];
    bytes[..word.len()].copy_from_slice(word);
    KeyBytes {
        kept: Kept::Short {
            bytes,
            len: word.len() as u8,
        },
    }
}

// Bytes in memory of their own.
fn long(alloc: Global, word: &[u8]) -> Result<KeyBytes, NoMemory>
    ensures { IfOk result (λ b. b ≡ word.now) }
{
    match Vec::from_slice(alloc, word) {
        Ok(bytes) => Ok(KeyBytes {
            kept: Kept::Long { bytes },
        }),
        Err(_) => Err(NoMemory),
    }
}

impl KeyBytes {
    /// A copy of these bytes. The only fault is `NoMemory`, where there are more than 16.
    pub fn of(alloc: Global, word: &[u8]) -> Result<KeyBytes, NoMemory>
        ensures { IfOk result (λ b. b ≡ word.now) }
    {
        if word.len() <= 16 {
            Ok(short(word))
        } else {
            long(alloc, word)
        }
    }

    /// A copy. The only fault is `NoMemory`, where there are more than 16 bytes.
    pub fn copy(&self, alloc: Global) -> Result<KeyBytes, NoMemory>
        ensures { IfOk result (λ b. b ≡ self.now) }
    {
        match &self.kept {
            Kept::Short { bytes, len } => Ok(KeyBytes {
                kept: Kept::Short {
                    bytes: *bytes,
                    len: *len,
                },
            }),
            Kept::Long { bytes } => long(alloc, bytes.as_slice()),
        }
    }

    /// The bytes.
    pub fn as_slice(&self) -> &[u8]
        ensures { result.now ≡ self.now }
    {
        match &self.kept {
            Kept::Short { bytes, len } => &bytes[..usize::from(*len)],
            Kept::Long { bytes } => bytes.as_slice(),
        }
    }
}
