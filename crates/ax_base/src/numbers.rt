//! Signed decimal numbers of 64 bits.
ghost use Rattle.std.specs.Prelude.{◌≡◌, ◌++◌, if◌then◌else◌, Some, None, ◌≤◌, ◌+◌, ◌-◌, ◌*◌, min, OnOk, OnErr};
ghost use Rattle.std.specs.Fmt.{signed_decimal};
ghost use Rattle.ax_base.specs.Numbers.{number_of, value_from, are_digits, unsigned_by, positive, negative};

use crate::NoMemory;
use crate::lists::Bytes;
use std::alloc::Global;

// One more than the largest number of either sign.
const CAP: u64 = 9223372036854775809;

// The number with one more digit, or the cap where it is greater.
fn with_digit(n: u64, digit: u8) -> u64
    requires small { n ≤ CAP }
    requires low { 48 ≤ digit }
    requires high { digit ≤ 57 }
    ensures { result ≡ min (10 * n + (digit - 48)) CAP }
{
    if n > 922337203685477580 {
        CAP
    } else {
        10 * n + u64::from(digit - b'0')
    }
}

// The digits' value, or the cap where it is greater.
fn capped_value(digits: &[u8]) -> Option<u64>
    ensures { result ≡ (if are_digits digits.now then Some (min (value_from 0 digits.now) CAP) else None) }
{
    if digits.is_empty() {
        return None;
    }
    let mut n = 0;
    for b in digits {
        let b = *b;
        if b < b'0' || b > b'9' {
            return None;
        }
        n = with_digit(n, b);
    }
    Some(n)
}

// The number whose digits these are.
fn positive_of(digits: &[u8]) -> Option<i64>
    ensures { result ≡ unsigned_by positive digits.now }
{
    let n = capped_value(digits)?;
    if n < 9223372036854775808 {
        Some(n as i64)
    } else {
        None
    }
}

// The number whose digits these are, behind a `-`.
fn negative_of(digits: &[u8]) -> Option<i64>
    ensures { result ≡ unsigned_by negative digits.now }
{
    let n = capped_value(digits)?;
    if n < 9223372036854775808 {
        Some(-(n as i64))
    } else if n == 9223372036854775808 {
        Some(i64::MIN)
    } else {
        None
    }
}

/// The number that a word spells: an optional `-` and one or more digits, with a value from
/// `-2^63` to `2^63 - 1`. Leading zeros and `-0` are read. `None` comes exactly where the word is
/// anything else. It takes no memory.
pub fn read_i64(word: &[u8]) -> Option<i64>
    ensures { result ≡ number_of word.now }
{
    match word {
        [] => None,
        [b'-', digits @ ..] => negative_of(digits),
        _ => positive_of(word),
    }
}

/// Puts the shortest decimal text of a number at the end. After `NoMemory` the bytes are as before.
pub fn put_i64(alloc: Global, out: &mut Bytes, n: i64) -> Result<(), NoMemory>
    ensures ok { OnOk result (out.new ≡ out.old ++ signed_decimal n) }
    ensures err { OnErr result (out.new ≡ out.old) }
{
    match n.to_string(alloc) {
        Ok(text) => out.extend_from_slice(text.as_bytes()),
        Err(_) => Err(NoMemory),
    }
}
