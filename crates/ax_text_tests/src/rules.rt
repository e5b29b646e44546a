//! First faults of programs of the whole language.
use crate::sections::{
    add_numbered, add_text, fault_in, fault_of, first_wrong, program_of, section,
};
use ax_base::{Line, NoMemory};
use std::alloc::Global;

// A line of these tables has a program with `;` between its lines, and behind `|` the line and kind of its first fault;
// 0 and 0 where there is none.

const WHOLE: &str = "\
input 0;on row;end|0 0
input 1;state c value;on row;x = get c or 0;put c x + v1;emit x + v1;end|0 0
input 0;state p value;state q value;on row;both;x = get p or 3;with;y = get q or 4;end;put p y;put q x;emit x , y;end|0 0
input 1;state clicks list;state pages map;state last value;on row;add clicks v1;both;n = get pages v1 or 0;put pages v1 , n + 1;with;old = get last or 0;put last time + 500;end;untimer old;timer time + 500;emit 1 , v1;end;on timer;let n = 0;let s = 0;each x in clicks;let n = n + 1;let s = s + x;end;clear clicks;clear pages;clear last;emit 2 , n , s;end|0 0
input 1;state c value;on row;if v1 == 0;clear c;else;put c v1;end;x = get c or 0 - 1;emit x;end|0 0
input 1;state n value;state l list;state m map;on row;put n v1;add l v1;put m v1 , time;timer v1;clear n;clear l;clear m;end|0 0
input 0;state m map;on row;each k n in m;emit k , n;end;end|0 0
input 0;state m map;on row;x = has m 1;y = empty m;z = get m x or y;remove m z * 2;end|0 0
input 0;on row;both;let a = 1;with;let b = 2;end;both;let a = 2;with;let b = 1;end;end|0 0
input 0;on row;let a = 0;both;let b = a;with;let c = a;end;end|0 0
input 0;state s value;on row;both;a = get s or 0;with;b = get s or 0;end;end|0 0
input 0;state s value;state t list;on row;both;put s 1;with;put t 1;end;end|0 0
input 0;on row;let a = 1;end;on timer;let b = 1;emit b;end|0 0
input 1;state l list;on row;put l v1 , 2 , 3 , 4 , 5 , 6 , 7 , 8 , 9 , 10 , 11 , 12 , 13 , 14 , 15 , 16;end|0 0
input 16;on row;emit v1 , 2 , 3 , 4 , 5 , 6 , 7 , 8 , 9 , 10 , 11 , 12 , 13 , 14 , 15 , v16;end|0 0
input 0;state l list;on row;both;each i in l;end;with;each j in l;end;end;end|0 0
input 0;state m map;on row;both;x = has m 1;with;y = empty m;end;each x y in m;emit x , y;end;end|0 0
input 0;on row;both;let a = 1;with;end;both;let b = 1;with;let c = a;end;emit a + b + c;end|0 0
input 0;on row;both;with;let a = 1;let b = a;let a = 2;end;if 1;let d = b;end;emit d;end|0 0
input 0;on row;both;both;let a = 1;with;let b = 1;end;with;both;let c = 1;with;let d = 1;end;end;end|0 0";

const WORD: &str = "\
foo|1 1
state a value|1 1
on row|1 1
input 0;let a = 1|2 1
input 0;on timer|2 1
input 0;on row;else|3 1
input 0;on row;with|3 1
input 0;on row;if 1;with|4 1
input 0;on row;if 1;else;else|5 1
input 0;state l list;on row;each x in l;else|5 1
input 0;state l list;on row;each x in l;with|5 1
input 0;on row;both;else|4 1
input 0;on row;both;end|4 1
input 0;on row;both;let a = 1;end|5 1
input 0;on row;both;with;with|5 1
input 0;on row;both;with;else|5 1
input 0;on row;both;with;end;end;end|7 1
input 0;on row;input 0|3 1
input 0;on row;state a value|3 1
input 0;on row;on row|3 1
input 0;on row;end;state a value|4 1
input 0;on row;emit ( 1|3 1
input 0;on row;if 1;else;end;end|0 0
input 0;on row;both;with;end;end|0 0
input 0;on row;if 1;end;else|5 1
input 0;on row;both;with;end;with|6 1
input 0;on row;both;if 1;with|5 1
input 0;on row;both;with;if 1;with|6 1
input 0;on row;if 1;both;with;else|6 1
input 0;state l list;on row;each i in l;else;else|5 1
input 0;on row;both 1|3 1
input 0;on row;let v1 = 1|3 1
input 0;on row;let time = 1|3 1
input 0;on row;each in in l|3 1
input 0;on row;put v1 1|3 1
input 0;on row;emit 1 )|3 1
input 0;on row;emit ( )|3 1
input 0;on row;emit 1 < = 2|3 1
input 0;on row;emit - 1|3 1
input 0;on row;x = get s 1|3 1
input 0;on row;emit 1 , 2 , 3 , 4 , 5 , 6 , 7 , 8 , 9 , 10 , 11 , 12 , 13 , 14 , 15 , 16 , 17|3 1
input 0;state l list;on row;put l 1 , 2 , 3 , 4 , 5 , 6 , 7 , 8 , 9 , 10 , 11 , 12 , 13 , 14 , 15 , 16 , 17|4 1
input 17|1 1";

const TWICE: &str = "\
input 0;input 0|2 3
input 0;on row;end;on row|4 3
input 0;on row;end;on timer;end;on timer|6 3
input 0;on row;end;on timer;end;on row|6 3
input 0;state a map;state a list|3 3
input 0;state m map;on row;each a a in m|4 3";

const UNKNOWN: &str = "\
input 0;on row;emit z|3 2
input 0;on row;let a = 1;end;on timer;emit a|6 2
input 0;on row;let a = a|3 2
input 0;on row;if z < 1|3 2
input 0;on row;emit v1|3 2
input 2;on row;emit v01|3 2
input 2;on row;emit v2;end;on timer;emit v2|6 2
input 0;on row;put s 1|3 2
input 0;on row;each i in j|3 2
input 0;state m map;on row;x = get m z or 1|4 2
input 0;state m map;on row;x = get m 1 or z|4 2
input 0;state m map;on row;put m 1 , ( z )|4 2
input 0;state l list;on row;each x in l;emit y|5 2
input 0;state l list;on row;put l 1 , y|4 2
input 0;state l list;on row;put l 1 , 2 , y|4 2
input 0;on row;x = empty x|3 2
input 0;state m map;on row;x = has m x|4 2
input 0;on row;clear z|3 2
input 0;state m map;on row;each k n in m;remove m z|5 2
input 1;state l list;on row;end;on timer;each x in l;add l v1|7 2
input 0;on row;both;let a = 1;with;let b = c|6 2";

const WRONG_KIND: &str = "\
input 0;on row;each i in i|3 4
input 0;state m map;on row;each k n in n|4 4
input 0;state m map;on row;each k m in m|4 4
input 0;on row;let a = 1;put a 1|4 4
input 0;on row;let a = 1;clear a|4 4
input 0;state s value;on row;let s = 1|4 4
input 0;state s value;on row;s = get s or 1|4 4
input 0;state s value;state l list;on row;each s in l|5 4
input 0;state s value;on row;emit s|4 4
input 0;state s value;on row;put s 1|5 10
input 0;state s value;on row;put s 1 , 2|4 4
input 0;state s value;on row;put s 1 , 2 , 3|4 4
input 0;state l list;on row;put l 1|5 10
input 0;state l list;on row;put l 1 , 2|5 10
input 0;state l list;on row;put l 1 , 2 , 3|5 10
input 0;state m map;on row;put m 1|4 4
input 0;state m map;on row;put m 1 , 2|5 10
input 0;state m map;on row;put m 1 , 2 , 3|4 4
input 0;state m map;on row;x = get m or 1|4 4
input 0;state l list;on row;x = get l or 1|4 4
input 0;state s value;on row;x = get s 1 or 1|4 4
input 0;state s value;on row;add s 1|4 4
input 0;state m map;on row;add m 1|4 4
input 0;state l list;on row;remove l 1|4 4
input 0;state l list;on row;each k n in l|4 4
input 0;state m map;on row;each k in m|4 4
input 0;state s value;on row;each k in s|4 4
input 0;state l list;on row;x = has l 1|4 4
input 0;state l list;on row;x = empty l|4 4
input 0;on row;let i = 1;each i in i|4 4
input 0;on row;each k n in k|3 4
input 0;state s value;state m map;on row;each k s in m|5 4
input 0;state s value;on row;if 1 + s|4 4
input 0;state m map;on row;m = has m 1|4 4
input 0;state m map;on row;m = empty m|4 4
input 0;state m map;on row;x = get m m or 1|4 4
input 0;state m map;on row;put m 1 , m|4 4
input 0;state l list;on row;put l 1 , 2 , l|4 4
input 0;state s value;on row;timer s|4 4
input 0;state s value;on row;x = has s 1|4 4
input 0;state s value;on row;x = empty s|4 4
input 0;state s value;on row;remove s 1|4 4
input 0;state s value;on row;each k n in s|4 4
input 0;on row;let a = 1;x = get a 1 or 2|4 4";

const IN_ARM: &str = "\
input 0;on row;both;emit 1|4 6
input 0;on row;both;with;timer 1|5 6
input 0;on row;both;if 1;untimer 1|5 6
input 0;state l list;on row;both;each x in l;if x;else;emit x|8 6
input 0;on row;both;with;both;with;if 1;timer 1|8 6
input 0;on row;if 1;both;with;end;emit 1;end;emit 1;end|0 0
input 0;on row;end;on timer;both;untimer time|6 6
input 0;state l list;state m map;on row;both;with;each x in l;if x;each k n in m;both;if 1;timer 1|12 6
input 0;on row;both;both;with;both;with;if 0;else;untimer 1|10 6";

const CONFLICT: &str = "\
input 0;on row;both;let a = 1;with;let a = 2|6 5
input 0;on row;both;let a = 1;with;let b = a|6 5
input 0;on row;let a = 0;both;let b = a;with;let a = 1|7 5
input 0;on row;let a = 0;both;let b = 1;with;let a = b|7 5
input 0;on row;both;let a = 1;with;if a|6 5
input 0;on row;let a = 0;both;if a;end;with;let a = 1|8 5
input 0;state s value;on row;both;put s 1;with;x = get s or 0|7 5
input 0;state s value;on row;both;x = get s or 0;with;put s 1|7 5
input 0;state s value;on row;both;put s 1;with;clear s|7 5
input 0;state s list;on row;both;each x in s;end;with;add s 1|8 5
input 0;state s list;on row;both;add s 1;with;each x in s|7 5
input 0;state s map;on row;both;let x = 1;with;each k x in s|7 5
input 0;state s map;on row;both;each x k in s;end;with;let k = 1|8 5
input 0;on row;both;if 1;let a = 1;end;with;if 1;else;let a = 1|10 5
input 0;state l list;on row;both;each x in l;let a = x;end;with;each y in l;let b = a|10 5
input 0;on row;both;both;let a = 1;with;let b = 1;end;with;let b = 2|10 5
input 0;on row;both;let a = 1;with;both;let b = 1;with;let a = 2|9 5
input 0;state s map;on row;both;if 1;both;remove s 1;with;let a = 1;end;end;with;if 1;x = has s 1|14 5
input 0;on row;let a = 1;let b = 1;both;let c = a;let d = a;with;let e = b;let a = 1|10 5
input 0;state m map;on row;let a = 1;both;x = get m 1 or a;with;let a = 1|8 5
input 0;state s value;on row;both;put s 1;with;if 1;x = get s or 0|8 5
input 0;state s value;on row;both;if 1;else;clear s;end;with;x = get s or 0|10 5
input 0;state l list;state s value;on row;both;each i in l;put s i;end;with;each j in l;y = get s or 0|11 5
input 0;state m map;on row;both;put m 1 , 2;with;both;let a = 1;with;x = empty m|10 5
input 0;state m map;on row;both;if 1;remove m 1;end;with;if 1;each k n in m|10 5
input 0;state m map;on row;both;both;each k n in m;end;with;end;with;clear m|11 5
input 0;on row;let a = 0;both;both;with;if a;end;end;with;let a = 1|11 5
input 0;state l list;on row;let a = 0;both;let b = a;with;both;with;each a in l|10 5
input 0;state m map;on row;both;let a = 1;with;x = has m a|7 5
input 0;state m map;on row;both;put m 1 , 1;with;put m 2 , 2|7 5
input 0;on row;end;on timer;both;let a = 1;with;let a = 1|8 5";

const DUE: &str = "\
|1 10
input 0|2 10
input 0;on row|3 10
input 0;on row;if 1;end|5 10
input 0;on row;both;with|5 10
input 0;on row;end;on timer|5 10
input 0;state l list;on row;each i in l|5 10
input 0;state l list;on row;each i in l;end|6 10
input 0;on row;both|4 10
input 0;on row;both;with;end|6 10
input 0;on row;if 1;else|5 10
input 0;on row;end;on timer;if 1;end|7 10";

// A line that has two kinds that follow each other in the order tells the first. (An `end` touches nothing, so that none is
// both in conflict and too wide.)
const ORDER: &str = "\
input 0;on row;each a a in z|3 3
input 0;state l list;on row;x = get l or z|4 2
input 0;state s value;on row;both;emit s|5 4
input 0;on row;both;let a = 1;with;emit a|6 6";

#[test]
fn first_faults(rt: HostRuntime) {
    let alloc = rt.alloc();
    assert_eq!(rt; first_wrong(alloc, WHOLE), None);
    assert_eq!(rt; first_wrong(alloc, WORD), None);
    assert_eq!(rt; first_wrong(alloc, TWICE), None);
    assert_eq!(rt; first_wrong(alloc, UNKNOWN), None);
    assert_eq!(rt; first_wrong(alloc, WRONG_KIND), None);
    assert_eq!(rt; first_wrong(alloc, IN_ARM), None);
    assert_eq!(rt; first_wrong(alloc, CONFLICT), None);
    assert_eq!(rt; first_wrong(alloc, DUE), None);
    assert_eq!(rt; first_wrong(alloc, ORDER), None);
    let unended = fault_in(alloc, "input 0;on row;end", false).unwrap_or((99, 99));
    assert_eq!(rt; unended, (4, 10));
}

fn add_many(
    alloc: Global,
    lines: &mut Vec<Line>,
    count: usize,
    text: &str,
) -> Result<(), NoMemory> {
    for _n in 0..count {
        add_text(alloc, lines, text)?;
    }
    Ok(())
}

// This many blocks in one another, then this line.
fn nested(alloc: Global, count: usize, last: &str) -> Result<(u64, u8), NoMemory> {
    let mut lines = section(alloc, "input 0;state m map;on row")?;
    add_many(alloc, &mut lines, count, "if 1")?;
    add_text(alloc, &mut lines, last)?;
    add_many(alloc, &mut lines, count, "end")?;
    add_text(alloc, &mut lines, "end")?;
    fault_of(alloc, &lines, true)
}

// This many `both` in one another, each with a request beside the next and inside a block of this line, and this many lines in
// the innermost.
fn wide(
    alloc: Global,
    block: &str,
    count: usize,
    inner: usize,
    found: bool,
) -> Result<(u64, u8), NoMemory> {
    let mut lines = section(alloc, "input 0;state s value;state l list;on row")?;
    for n in 0..count {
        add_text(alloc, &mut lines, block)?;
        add_text(alloc, &mut lines, "both")?;
        add_numbered(alloc, &mut lines, "x", n, " = get s or 0")?;
        add_text(alloc, &mut lines, "with")?;
    }
    add_many(alloc, &mut lines, inner, "y = get s or 0")?;
    for _n in 0..count {
        add_many(alloc, &mut lines, 2, "end")?;
    }
    add_text(alloc, &mut lines, "end")?;
    fault_of(alloc, &lines, found)
}

// This many local names, then this line.
fn with_locals(alloc: Global, count: usize, last: &str) -> Result<(u64, u8), NoMemory> {
    let mut lines = section(alloc, "input 0;state s value;state m map;on row")?;
    for n in 0..count {
        add_numbered(alloc, &mut lines, "let n", n, " = 1")?;
    }
    add_text(alloc, &mut lines, last)?;
    add_text(alloc, &mut lines, "end")?;
    fault_of(alloc, &lines, true)
}

// Twice this many blocks in `on row`, this many further lines there and in `on timer`, then this line.
fn with_statements(
    alloc: Global,
    blocks: usize,
    row: usize,
    timer: usize,
    last: &str,
) -> Result<(u64, u8), NoMemory> {
    let mut lines = section(alloc, "input 0;on row")?;
    for _n in 0..blocks {
        for text in ["if 1", "else", "end", "both", "with", "end"] {
            add_text(alloc, &mut lines, text)?;
        }
    }
    add_many(alloc, &mut lines, row, "let a = 1")?;
    add_text(alloc, &mut lines, "end")?;
    add_text(alloc, &mut lines, "on timer")?;
    add_many(alloc, &mut lines, timer, "let b = 1")?;
    add_text(alloc, &mut lines, last)?;
    add_text(alloc, &mut lines, "end")?;
    fault_of(alloc, &lines, true)
}

// This many states, then this line.
fn with_states(alloc: Global, count: usize, last: &str) -> Result<(u64, u8), NoMemory> {
    let mut lines = section(alloc, "input 0")?;
    for n in 0..count {
        add_numbered(alloc, &mut lines, "state s", n, " value")?;
    }
    add_text(alloc, &mut lines, last)?;
    add_text(alloc, &mut lines, "end")?;
    fault_of(alloc, &lines, true)
}

// The number 1, and so many times ` + 1`.
fn add_sum(text: &mut String, count: usize) -> Result<(), NoMemory> {
    if text.push_str("1").is_err() {
        return Err(NoMemory);
    }
    for _n in 0..count {
        if text.push_str(" + 1").is_err() {
            return Err(NoMemory);
        }
    }
    Ok(())
}

// A line of a map with two expressions, each of a number and so many times ` + 1`.
fn two_sums(
    alloc: Global,
    before: &str,
    one: usize,
    between: &str,
    other: usize,
) -> Result<(u64, u8), NoMemory> {
    let mut lines = section(alloc, "input 0;state m map;on row")?;
    let mut text = String::new(alloc);
    if text.push_str(before).is_err() {
        return Err(NoMemory);
    }
    add_sum(&mut text, one)?;
    if text.push_str(between).is_err() {
        return Err(NoMemory);
    }
    add_sum(&mut text, other)?;
    add_text(alloc, &mut lines, text.as_str())?;
    add_text(alloc, &mut lines, "end")?;
    fault_of(alloc, &lines, true)
}

// These lines, then `emit` with this many times a text, a number and as many of another.
fn repeated(
    alloc: Global,
    before: &str,
    count: usize,
    front: &str,
    back: &str,
) -> Result<(u64, u8), NoMemory> {
    let mut lines = section(alloc, before)?;
    let mut text = String::new(alloc);
    if text.push_str("emit 7 , ").is_err() {
        return Err(NoMemory);
    }
    for _n in 0..count {
        if text.push_str(front).is_err() {
            return Err(NoMemory);
        }
    }
    if text.push_str("1").is_err() {
        return Err(NoMemory);
    }
    for _n in 0..count {
        if text.push_str(back).is_err() {
            return Err(NoMemory);
        }
    }
    add_text(alloc, &mut lines, text.as_str())?;
    add_text(alloc, &mut lines, "end")?;
    fault_of(alloc, &lines, true)
}

#[test]
fn limits(rt: HostRuntime) {
    let alloc = rt.alloc();
    let cases = [
        (nested(alloc, 32, "let a = 1"), (0, 0)),
        (nested(alloc, 32, "if 1"), (36, 7)),
        (nested(alloc, 32, "both"), (36, 7)),
        (nested(alloc, 32, "each a b in m"), (36, 7)),
        (nested(alloc, 32, "each a a in m"), (36, 7)),
        (nested(alloc, 31, "each a a in m"), (35, 3)),
        (wide(alloc, "if 1", 15, 9, true), (0, 0)),
        (wide(alloc, "each i in l", 15, 1, true), (0, 0)),
        (wide(alloc, "if 1", 16, 0, true), (0, 0)),
        (wide(alloc, "if 1", 16, 1, true), (100, 9)),
        (wide(alloc, "each i in l", 16, 1, true), (100, 9)),
        (wide(alloc, "each i in l", 16, 1, false), (100, 9)),
        (
            with_statements(alloc, 2000, 3000, 2999, "let b = 1"),
            (0, 0),
        ),
        (
            with_statements(alloc, 2000, 3000, 2999, "if 1"),
            (18006, 10),
        ),
        (with_statements(alloc, 2000, 3000, 3000, "end"), (18006, 1)),
        (
            with_statements(alloc, 2000, 3000, 3000, "emit z"),
            (18005, 8),
        ),
        (with_statements(alloc, 2000, 3000, 3000, "if 1"), (18005, 8)),
        (
            with_statements(alloc, 2000, 3000, 3000, "emit 1 *"),
            (18005, 1),
        ),
        (two_sums(alloc, "x = get m ", 127, " or ", 127), (0, 0)),
        (two_sums(alloc, "x = get m ", 128, " or ", 127), (4, 8)),
        (two_sums(alloc, "x = get m ", 127, " or ", 128), (4, 8)),
        (two_sums(alloc, "put m ", 127, " , ", 127), (0, 0)),
        (two_sums(alloc, "put m ", 128, " , ", 127), (4, 8)),
        (two_sums(alloc, "put m ", 127, " , ", 128), (4, 8)),
        (with_locals(alloc, 256, "let n7 = n255"), (0, 0)),
        (with_locals(alloc, 256, "let a = z"), (261, 8)),
        (with_locals(alloc, 256, "let s = 1"), (261, 4)),
        (with_locals(alloc, 255, "each a b in m"), (260, 8)),
        (with_locals(alloc, 255, "each a a in m"), (260, 3)),
        (with_locals(alloc, 254, "each a b in m"), (261, 10)),
        (with_states(alloc, 64, "on row"), (0, 0)),
        (with_states(alloc, 64, "state s7 list"), (66, 8)),
        (with_states(alloc, 63, "state s7 list"), (65, 3)),
        (repeated(alloc, "input 0;on row", 32, "( ", " )"), (0, 0)),
        (repeated(alloc, "input 0;on row", 33, "( ", " )"), (3, 7)),
        (repeated(alloc, "input 0;on row", 128, "( ", " )"), (3, 8)),
        (repeated(alloc, "input 0;on row", 127, "", " + 1"), (0, 0)),
        (repeated(alloc, "input 0;on row", 128, "", " + 1"), (3, 8)),
        (repeated(alloc, "input 0", 128, "", " + 1"), (2, 1)),
    ];
    let mut at: usize = 0;
    for (found, expected) in cases.iter() {
        let right = match found {
            Ok(fault) => *fault == *expected,
            Err(_) => false,
        };
        assert!(&rt; right, "case {at}");
        at = at.wrapping_add(1);
    }
}

// How many local names a handler has at most, and the width.
fn names_and_width(alloc: Global, text: &str) -> (usize, u8) {
    match program_of(alloc, text) {
        Some(program) => (program.locals(), program.width()),
        None => (99, 99),
    }
}

#[test]
fn widths_and_names(rt: HostRuntime) {
    let alloc = rt.alloc();
    let cases = [
        ("input 0;on row;emit 1;end", (0, 1)),
        (
            "input 0;state s value;on row;x = get s or 0;y = get s or 0;end",
            (2, 1),
        ),
        (
            "input 0;state s map;on row;let c = 0;each a b in s;let c = 1;end;end;on timer;let d = 1;end",
            (3, 1),
        ),
        (
            "input 0;state s value;on row;both;x = get s or 0;x = get s or 0;with;if 1;y = get s or 0;else;both;let z = 1;with;w = get s or 0;end;end;end;end",
            (4, 2),
        ),
        (
            "input 0;state s value;on row;both;x = get s or 0;with;both;y = get s or 0;with;z = get s or 0;end;end;put s 1;end",
            (3, 3),
        ),
    ];
    for (text, expected) in cases {
        assert_eq!(rt; names_and_width(alloc, text), expected);
    }
}
