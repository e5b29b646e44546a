//! Groups of keys, and the parts that the groups are cut into.
//!
//! Each key falls into one of `m` groups, where `m` is the maximum parallelism, and the groups are
//! cut into `p` parts, each a range of groups. The mixing and the ranges are written after Flink's
//! `MathUtils.murmurHash` and `KeyGroupRangeAssignment`. The function from bytes to 32 bits is this
//! project's own.
ghost use Rattle.std.specs.Prelude.{◌≡◌, ◌<◌, ◌≤◌, ◌^◌};
ghost use Rattle.ax_keys.specs.Groups.{hash_of, word_step, length_step, last_step, magnitude, spread, group, index_of_group, first_of_index, last_of_index};

use crate::key::Key;

// The hash of bytes. It starts at 0, and each byte makes it 31 times itself plus the byte, on 32
// wrapping bits.
fn hash_of(bytes: &[u8]) -> u32
    ensures { result ≡ hash_of bytes.now }
{
    let mut hash: u32 = 0;
    for byte in bytes {
        hash = 31u32.wrapping_mul(hash).wrapping_add(u32::from(*byte));
    }
    hash
}

// Murmur3's mixing of one word of 32 bits into the seed 0.
fn word_step(h: u32) -> u32
    ensures { result ≡ word_step h }
{
    h.wrapping_mul(0xcc9e_2d51)
        .rotate_left(15)
        .wrapping_mul(0x1b87_3593)
        .rotate_left(13)
}

// What Murmur3 does behind a word, and then with the length of the whole, 4 bytes.
fn length_step(x: u32) -> u32
    ensures { result ≡ length_step x }
{
    x.wrapping_mul(5).wrapping_add(0xe654_6b64) ^ 4
}

// Murmur3's last mixing.
fn last_step(x: u32) -> u32
    ensures { result ≡ last_step x }
{
    let x = (x ^ (x >> 16)).wrapping_mul(0x85eb_ca6b);
    let x = (x ^ (x >> 13)).wrapping_mul(0xc2b2_ae35);
    x ^ (x >> 16)
}

// The absolute value of 32 bits as a signed number, and 0 for `-2^31`.
fn magnitude(x: u32) -> u32
    ensures value { result ≡ magnitude x }
    ensures small { result < 2 ^ 31 }
{
    if x == 0x8000_0000 {
        return 0;
    }
    x.cast_signed().unsigned_abs()
}

/// Spreads 32 bits over the numbers below `2^31`, so that hashes that lie near one another do not
/// fall into groups near one another. This is the mixing of Flink's `MathUtils.murmurHash`:
/// Murmur3 for the one word `h`, with seed 0, and then the absolute value of the signed number,
/// which is 0 for `-2^31`.
pub fn spread(h: u32) -> u32
    ensures value { result ≡ spread h }
    ensures small { result < 2 ^ 31 }
{
    magnitude(last_step(length_step(word_step(h))))
}

/// The group of a key, 0 to `m - 1`, of `m` groups: `spread` of the hash of its bytes, modulo `m`.
/// The hash starts at 0, and for each byte becomes 31 times itself plus the byte, on 32 wrapping
/// bits. `m` is the maximum parallelism, 1 to 32,768.
pub fn group(key: &Key, m: u16) -> u16
    requires some_group { 1 ≤ m }
    requires maximum { m ≤ 32768 }
    ensures value { result ≡ group key.now m }
    ensures small { result < m }
{
    (spread(hash_of(key.as_bytes())) % u32::from(m)) as u16
}

/// The part of group `g`, 0 to `p - 1`, where `m` groups are cut into `p` parts: `g * p / m`, in
/// whole numbers. After Flink's `KeyGroupRangeAssignment`. `m` is 1 to 32,768, `g` is below `m`,
/// and `p` is 1 to `m`.
pub fn index_of_group(g: u16, m: u16, p: u16) -> u16
    requires some_group { 1 ≤ m }
    requires maximum { m ≤ 32768 }
    requires a_group { g < m }
    requires some_part { 1 ≤ p }
    requires parts { p ≤ m }
    ensures value { result ≡ index_of_group g m p }
    ensures small { result < p }
{
    (u32::from(g) * u32::from(p) / u32::from(m)) as u16
}

/// The first and the last group of part `i`, both included, where `m` groups are cut into `p`
/// parts: from `(i * m + p - 1) / p` to `((i + 1) * m - 1) / p`, in whole numbers. After Flink's
/// `KeyGroupRangeAssignment`. `m` is 1 to 32,768, `p` is 1 to `m`, and `i` is below `p`.
pub fn range_of_index(i: u16, m: u16, p: u16) -> (u16, u16)
    requires some_group { 1 ≤ m }
    requires maximum { m ≤ 32768 }
    requires some_part { 1 ≤ p }
    requires parts { p ≤ m }
    requires a_part { i < p }
    ensures first { result.0 ≡ first_of_index i m p }
    ensures last { result.1 ≡ last_of_index i m p }
    ensures order { result.0 ≤ result.1 }
    ensures small { result.1 < m }
{
    let (i, m, p) = (u32::from(i), u32::from(m), u32::from(p));
    let first = (i * m + p - 1) / p;
    let last = ((i + 1) * m - 1) / p;
    (first as u16, last as u16)
}
