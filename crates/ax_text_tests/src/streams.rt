//! What no clause says: worked values, that calls succeed, faults in mid-stream, and what is asked
//! for.
ghost use Rattle.std.specs.Prelude.{None};

use crate::fills::filled;
use ax_base::lines::{LineFault, Lines};
use ax_base::lists::{Bytes, Duplicate, ListOf, Nums, Pair, Pairs};
use ax_base::memory::{MemSink, MemSource, SureSink, SureSource};
use ax_base::numbers::{put_i64, read_i64};
use ax_base::outside::{Failed, NoMemory, Sink, SinkFault, Source, write_all};
use ax_base::stream::{ReadSource, WriteSink};
use ax_base::words::{first_word, split_words};
use std::alloc::Global;
use std::process::Abort;
use std::test::Fail;

// So many bytes lie within the limit of the program.
const LIMIT: u64 = 1099511627776;
// Reads to the end or to the first fault. Each line that came is added to `found`, with a `|`.
fn read_lines<S: Source>(
    rt: &impl Abort,
    lines: &mut Lines,
    input: &mut S,
    found: &mut Bytes,
) -> Result<Result<(), LineFault>, NoMemory> {
    for number in 1..100 {
        assert!(rt; !lines.failed());
        match lines.next(input) {
            Ok(Some(line)) => {
                assert_eq!(rt; line.number, number);
                found.extend_from_slice(line.text.as_slice())?;
                found.push(b'|')?;
            }
            Ok(None) => return Ok(Ok(())),
            Err(fault) => {
                assert!(rt; lines.failed());
                return Ok(Err(fault));
            }
        }
    }
    Ok(Ok(()))
}

// What the lines of these bytes are at this limit.
fn gives(
    rt: &impl Abort,
    alloc: Global,
    bytes: Bytes,
    limit: u64,
    want: &[u8],
    end: Result<(), LineFault>,
) -> Result<(), Fail> {
    assert!(rt; limit < 9223372036854775808);
    let mut input = SureSource::new(bytes);
    let mut lines = Lines::with_limit(alloc, limit)?;
    let mut found = Bytes::new(alloc);
    assert_eq!(rt; read_lines(rt, &mut lines, &mut input, &mut found)?, end);
    assert_eq!(rt; found.as_slice(), want);
    Ok(())
}

fn text_gives(
    rt: &impl Abort,
    alloc: Global,
    text: &str,
    limit: u64,
    want: &str,
    end: Result<(), LineFault>,
) -> Result<(), Fail> {
    let bytes = Bytes::from_slice(alloc, text.as_bytes())?;
    gives(rt, alloc, bytes, limit, want.as_bytes(), end)
}

#[test]
fn lines_of_small_inputs(rt: HostRuntime) -> Result<(), Fail> {
    text_gives(&rt, rt.alloc(), "", LIMIT, "", Ok(()))?;
    text_gives(&rt, rt.alloc(), "", 0, "", Ok(()))?;
    text_gives(
        &rt,
        rt.alloc(),
        "a",
        0,
        "",
        Err(LineFault::TooMuch { number: 1 }),
    )?;
    text_gives(&rt, rt.alloc(), "ab\ncd", LIMIT, "ab|cd|", Ok(()))?;
    text_gives(&rt, rt.alloc(), "ab\ncd", 5, "ab|cd|", Ok(()))?;
    text_gives(&rt, rt.alloc(), "\n\n a\r\n\n", LIMIT, "|| a\r||", Ok(()))
}

#[test]
fn lines_within_a_limit(rt: HostRuntime) -> Result<(), Fail> {
    text_gives(&rt, rt.alloc(), "ab\n", 3, "ab|", Ok(()))?;
    let second = LineFault::TooMuch { number: 2 };
    text_gives(&rt, rt.alloc(), "ab\ncd", 4, "ab|", Err(second))?;
    text_gives(&rt, rt.alloc(), "ab\ncd", 3, "ab|", Err(second))?;
    let first = LineFault::TooMuch { number: 1 };
    text_gives(&rt, rt.alloc(), "ab\ncd", 2, "", Err(first))
}

// What comes of a first line `a` and a second of so many bytes, with a line feed or none.
fn second_line(
    rt: &impl Abort,
    alloc: Global,
    length: usize,
    feed: &[u8],
    limit: u64,
    end: Result<(), LineFault>,
) -> Result<(), Fail> {
    let mut bytes = filled(alloc, b"a\n", b'x', length)?;
    bytes.extend_from_slice(feed)?;
    let mut want = Bytes::from_slice(alloc, b"a|")?;
    if end.is_ok() {
        want = filled(alloc, b"a|", b'x', length)?;
        want.push(b'|')?;
    }
    gives(rt, alloc, bytes, limit, want.as_slice(), end)
}

#[test]
fn long_lines(rt: HostRuntime) -> Result<(), Fail> {
    let long = Err(LineFault::TooLong { number: 2 });
    second_line(&rt, rt.alloc(), 65536, b"\n", LIMIT, Ok(()))?;
    second_line(&rt, rt.alloc(), 65536, b"", LIMIT, Ok(()))?;
    second_line(&rt, rt.alloc(), 65537, b"\n", LIMIT, long)?;
    second_line(&rt, rt.alloc(), 65537, b"", LIMIT, long)?;
    second_line(&rt, rt.alloc(), 65537, b"", 65539, long)?;
    let much = Err(LineFault::TooMuch { number: 2 });
    second_line(&rt, rt.alloc(), 65537, b"\n", 65538, much)
}

// A source of `x` and `\n` that notes what it was asked for, and fails once.
#[derive(Drop)]
struct Noting {
    byte: u8,
    most: usize,
    failing: u64,
    calls: u64,
    faults: u64,
    asked: Vec<usize>,
}

impl Source for Noting {
    ghost left = { λ s. None };

    ghost faults = { λ s. s.faults };

    fn read(&mut self, buf: &mut [u8]) -> Result<usize, Failed> {
        let _ = self.asked.push(buf.len());
        self.calls = self.calls.saturating_add(1);
        if self.calls == self.failing {
            self.faults = self.faults.saturating_add(1);
            return Err(Failed);
        }
        let n = buf.len().min(self.most);
        buf[..n].fill(self.byte);
        Ok(n)
    }
}

// What the reads of a source of `x` ask for, and the fault that ends them.
fn asks(
    rt: &impl Abort,
    alloc: Global,
    limit: u64,
    most: usize,
    failing: u64,
    asked: &[usize],
    fault: LineFault,
) -> Result<(), Fail> {
    assert!(rt; limit < 9223372036854775808);
    let mut input = Noting {
        byte: b'x',
        most,
        failing,
        calls: 0,
        faults: 0,
        asked: Vec::new(alloc),
    };
    let mut lines = Lines::with_limit(alloc, limit)?;
    let mut found = Bytes::new(alloc);
    assert_eq!(rt;
        read_lines(rt, &mut lines, &mut input, &mut found)?,
        Err(fault)
    );
    assert!(rt; found.is_empty());
    assert_eq!(rt; input.asked.as_slice(), asked, "at limit {limit}");
    Ok(())
}

#[test]
fn what_reads_ask_for(rt: HostRuntime) -> Result<(), Fail> {
    let long = LineFault::TooLong { number: 1 };
    asks(&rt, rt.alloc(), LIMIT, 65536, 0, &[65536, 65536], long)?;
    asks(&rt, rt.alloc(), LIMIT, 40000, 0, &[65536, 65536], long)?;
    asks(&rt, rt.alloc(), 65540, 65536, 0, &[65536, 5], long)?;
    let much = LineFault::TooMuch { number: 1 };
    asks(&rt, rt.alloc(), 65535, 65536, 0, &[65536], much)?;
    asks(&rt, rt.alloc(), 10, 4, 0, &[11, 7, 3], much)?;
    asks(&rt, rt.alloc(), 10, 4, 3, &[11, 7, 3], LineFault::Read)
}

#[test]
fn a_fault_comes_after_the_lines_before_it(rt: HostRuntime) -> Result<(), Fail> {
    let mut input = Noting {
        byte: b'\n',
        most: 2,
        failing: 2,
        calls: 0,
        faults: 0,
        asked: Vec::new(rt.alloc()),
    };
    let mut lines = Lines::with_limit(rt.alloc(), LIMIT)?;
    let mut found = Bytes::new(rt.alloc());
    assert_eq!(rt;
        read_lines(&rt, &mut lines, &mut input, &mut found)?,
        Err(LineFault::Read)
    );
    assert_eq!(rt; found.as_slice(), b"||".as_slice());
    assert_eq!(rt; lines.number(), 2);
    Ok(())
}

#[test]
fn read_numbers(rt: HostRuntime) -> Result<(), Fail> {
    let zeros = b"00000000000000000000000000000000000000000000000000000000000001";
    assert_eq!(rt; read_i64(zeros), Some(1));
    assert_eq!(rt; read_i64(b"-0"), Some(0));
    assert_eq!(rt; read_i64(b"007"), Some(7));
    assert_eq!(rt; read_i64(b"9223372036854775807"), Some(i64::MAX));
    assert_eq!(rt; read_i64(b"-9223372036854775808"), Some(i64::MIN));
    Ok(())
}

#[test]
fn words_that_are_no_numbers(rt: HostRuntime) -> Result<(), Fail> {
    let words = "9223372036854775808 -9223372036854775809 +1 - --1 1a \
        100000000000000000000000000000000000000000000000000000000000000";
    for word in split_words(words.as_bytes()) {
        assert_eq!(rt; read_i64(word), None, "of {word:?}");
    }
    assert_eq!(rt; read_i64(b""), None);
    Ok(())
}

#[test]
fn written_numbers(rt: HostRuntime) -> Result<(), Fail> {
    let mut text = Bytes::new(rt.alloc());
    for n in [0, -7, i64::MAX, i64::MIN] {
        put_i64(rt.alloc(), &mut text, n)?;
        text.push(b' ')?;
    }
    let mut out = SureSink::new(rt.alloc());
    write_all(&mut out, text.as_slice())?;
    write_all(&mut out, b"")?;
    write_all(&mut out, b"end")?;
    assert_eq!(rt;
        out.bytes(),
        b"0 -7 9223372036854775807 -9223372036854775808 end".as_slice()
    );
    Ok(())
}

// What the words of a text are.
fn splits(rt: &impl Abort, alloc: Global, text: &str, want: &str) -> Result<(), Fail> {
    let mut found = Bytes::new(alloc);
    for word in split_words(text.as_bytes()) {
        found.extend_from_slice(word)?;
        found.push(b'|')?;
    }
    assert_eq!(rt; found.as_slice(), want.as_bytes());
    assert_eq!(rt; first_word(text.as_bytes()).is_none(), want.is_empty());
    Ok(())
}

#[test]
fn words(rt: HostRuntime) -> Result<(), Fail> {
    splits(&rt, rt.alloc(), "", "")?;
    splits(&rt, rt.alloc(), " \t\r \r", "")?;
    splits(&rt, rt.alloc(), "a", "a|")?;
    splits(&rt, rt.alloc(), "\ton  row\r", "on|row|")?;
    splits(&rt, rt.alloc(), "a\tb,c \x0b\r#", "a|b,c|\x0b|#|")
}

#[test]
fn a_source_fails_at_the_calls_that_are_named(rt: HostRuntime) -> Result<(), Fail> {
    let bytes = Bytes::from_slice(rt.alloc(), b"abcde")?;
    let mut input = MemSource::new(bytes, 2, Nums::from_slice(rt.alloc(), &[2, 4])?);
    let mut room = [b'.'; 3];
    assert_eq!(rt; input.read(&mut room), Ok(2));
    assert_eq!(rt; room, *b"ab.");
    assert_eq!(rt; input.read(&mut room), Err(Failed));
    assert_eq!(rt; input.read(&mut room[1..2]), Ok(1));
    assert_eq!(rt; room, *b"ac.");
    assert_eq!(rt; input.read(&mut room), Err(Failed));
    assert_eq!(rt; input.read(&mut room), Ok(2));
    assert_eq!(rt; input.read(&mut room), Ok(0));
    assert_eq!(rt; room, *b"de.");
    Ok(())
}

#[test]
fn a_sink_fails_at_the_calls_that_are_named(rt: HostRuntime) -> Result<(), Fail> {
    let mut out = MemSink::new(rt.alloc(), 2, Nums::from_slice(rt.alloc(), &[2, 5])?);
    assert_eq!(rt; out.write(b"abc"), Ok(2));
    assert_eq!(rt; out.write(b"c"), Err(SinkFault::Failed));
    assert_eq!(rt; write_all(&mut out, b"cd"), Ok(()));
    assert_eq!(rt; write_all(&mut out, b"efg"), Err(SinkFault::Failed));
    assert_eq!(rt; out.bytes(), b"abcdef".as_slice());
    Ok(())
}

#[test]
fn lists(rt: HostRuntime) -> Result<(), Fail> {
    let mut pairs = Pairs::new(rt.alloc());
    assert!(rt; pairs.is_empty());
    pairs.push(Pair { at: -1, number: 5 })?;
    pairs.push(Pair { at: 2, number: 6 })?;
    assert_eq!(rt; pairs.copy(rt.alloc())?.as_slice(), pairs.as_slice());
    assert_eq!(rt; pairs.len(), 2);
    let mut lists: ListOf<Nums> = ListOf::new(rt.alloc());
    lists.push(Nums::from_slice(rt.alloc(), &[3, 4])?)?;
    for nums in lists.copy(rt.alloc())?.as_slice() {
        assert_eq!(rt; nums.as_slice(), [3, 4].as_slice());
    }
    Ok(())
}

#[test]
fn over_a_reader_and_a_writer(rt: HostRuntime) -> Result<(), Fail> {
    let mut input = ReadSource::new(&b"ab\n\ncd"[..]);
    let mut lines = Lines::with_limit(rt.alloc(), LIMIT)?;
    let mut found = Bytes::new(rt.alloc());
    assert_eq!(rt;
        read_lines(&rt, &mut lines, &mut input, &mut found)?,
        Ok(())
    );
    assert_eq!(rt; found.as_slice(), b"ab||cd|".as_slice());
    let mut all = Vec::new(rt.alloc());
    let mut sink = WriteSink::new(&mut all);
    assert_eq!(rt; write_all(&mut sink, b"hello"), Ok(()));
    assert_eq!(rt; all.as_slice(), b"hello".as_slice());
    let mut room = [0u8; 3];
    let mut sink = WriteSink::new(&mut room[..]);
    assert_eq!(rt; write_all(&mut sink, b"hello"), Err(SinkFault::Failed));
    assert_eq!(rt; room, *b"hel");
    Ok(())
}
