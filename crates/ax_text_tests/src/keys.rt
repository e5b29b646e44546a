//! Worked values of keys and key groups.
use crate::fills::filled;
use ax_base::Duplicate;
use ax_keys::{Key, group, index_of_group, range_of_index, spread};
use std::cmp::Ordering;
use std::process::Abort;
use std::test::Fail;

#[test]
fn hashes_are_spread(rt: HostRuntime) -> Result<(), Fail> {
    let cases: [(u32, u32, u32, u16, u16); 4] = [
        (0, 593689054, 94, 5, 1),
        (97, 1455541201, 81, 5, 1),
        (98, 516420758, 22, 1, 0),
        (0x8765_4321, 0x0aa4_ae95, 21, 1, 0),
    ];
    for (h, want, of_128, of_8, of_2) in cases {
        let found = spread(h);
        assert_eq!(rt; found, want);
        assert_eq!(rt; found % 128, of_128);
        let g = (found % 128) as u16;
        assert_eq!(rt; index_of_group(g, 128, 8), of_8);
        assert_eq!(rt; index_of_group(g, 128, 2), of_2);
    }
    Ok(())
}

#[test]
fn groups_and_ranges(rt: HostRuntime) -> Result<(), Fail> {
    assert_eq!(rt; index_of_group(81, 128, 8), 5);
    assert_eq!(rt; index_of_group(32767, 32768, 32768), 32767);
    assert_eq!(rt; range_of_index(5, 128, 8), (80, 95));
    assert_eq!(rt; range_of_index(1, 10, 3), (4, 6));
    assert_eq!(rt; range_of_index(0, 1, 1), (0, 0));
    assert_eq!(rt; range_of_index(32767, 32768, 32768), (32767, 32767));
    let cases: [(&str, u16, u16); 4] = [
        ("a", 128, 81),
        ("b", 128, 22),
        ("a", 1, 0),
        ("a", 32768, 19409),
    ];
    for (word, m, g) in cases {
        assert!(&rt; m >= 1 && m <= 32768);
        let key = Key::read(rt.alloc(), word.as_bytes())?.expect(&rt, "a key");
        assert_eq!(rt; group(&key, m), g);
    }
    Ok(())
}

#[test]
fn words_that_are_keys(rt: HostRuntime) -> Result<(), Fail> {
    let longest = filled(rt.alloc(), b"", b'x', 256)?;
    let longer = filled(rt.alloc(), b"", b'x', 257)?;
    let cases: [(&[u8], bool); 12] = [
        (b"a", true),
        (b"!~", true),
        (b"a-1#%", true),
        (longest.as_slice(), true),
        (longer.as_slice(), false),
        (b"", false),
        (b"a ", false),
        (b" a", false),
        (&[0x20], false),
        (&[0x7f], false),
        (&[b'a', 0x09], false),
        (&[0xc3, 0xa4], false),
    ];
    for (word, is_key) in cases {
        match Key::read(rt.alloc(), word)? {
            Some(key) => {
                assert!(rt; is_key);
                assert_eq!(rt; key.as_bytes(), word);
                let other = key.copy(rt.alloc())?;
                assert!(rt; other == key);
                assert_eq!(rt; other.as_bytes(), key.as_bytes());
            }
            None => assert!(rt; !is_key),
        }
    }
    Ok(())
}

#[test]
fn keys_have_an_order(rt: HostRuntime) -> Result<(), Fail> {
    let cases: [(&str, &str, Ordering); 5] = [
        ("a", "a", Ordering::Equal),
        ("a", "b", Ordering::Less),
        ("a", "aa", Ordering::Less),
        ("b", "aa", Ordering::Greater),
        ("Z", "a", Ordering::Less),
    ];
    for (one, two, order) in cases {
        let one = Key::read(rt.alloc(), one.as_bytes())?.expect(&rt, "a key");
        let two = Key::read(rt.alloc(), two.as_bytes())?.expect(&rt, "a key");
        assert_eq!(rt; one.cmp(&two), order);
        assert_eq!(rt; one == two, order == Ordering::Equal);
    }
    Ok(())
}
