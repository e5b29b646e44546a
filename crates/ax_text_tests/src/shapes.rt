//! Lines and the shapes that they have.
use ax_base::{Bytes, NoMemory};
use ax_syntax::shape::{KindWord, Shape, first_part, is_expr, is_exprs, shape_of};
use ax_syntax::words::{
    field_number, is_name, is_operand, is_value_word, keyword_of, same, sign_of, words,
};
use ax_text::{Keyword, Op};
use std::alloc::Global;

// What a line is; `none` where it has no shape.
fn kind_of(shape: Option<Shape<'_>>) -> &'static str {
    let Some(shape) = shape else {
        return "none";
    };
    match shape {
        Shape::Input(_) => "input",
        Shape::State(_, KindWord::Value) => "state value",
        Shape::State(_, KindWord::List) => "state list",
        Shape::State(_, KindWord::Map) => "state map",
        Shape::OnRow => "on row",
        Shape::OnTimer => "on timer",
        Shape::End => "end",
        Shape::Let(_, _) => "let",
        Shape::Get(_, _, _) => "get",
        Shape::GetAt(_, _, _, _) => "get at",
        Shape::Has(_, _, _) => "has",
        Shape::Empty(_, _) => "empty",
        Shape::Put(_, _) => "put",
        Shape::Add(_, _) => "add",
        Shape::Remove(_, _) => "remove",
        Shape::Clear(_) => "clear",
        Shape::If(_) => "if",
        Shape::Else => "else",
        Shape::Each(_, _) => "each",
        Shape::EachPair(_, _, _) => "each pair",
        Shape::Both => "both",
        Shape::With => "with",
        Shape::Emit(_) => "emit",
        Shape::Timer(_) => "timer",
        Shape::Untimer(_) => "untimer",
    }
}

// Whether a line is of this kind.
fn is_kind(alloc: Global, text: &str, kind: &str) -> bool {
    match words(alloc, text.as_bytes()) {
        Ok(list) => kind_of(shape_of(list.as_slice())) == kind,
        Err(NoMemory) => false,
    }
}

// Lines, each behind what it is.
const LINES: &str = "\
input: input 0
input: input 16
input: input 007
input: input -0
state value: state last value
state list: state clicks list
state map: state pages map
state value: state abcdefghijklmnopqrstuvwxyzabcdef value
state value: state v value
state value: state v1x value
state value: state a_1 value
on row: on row
on timer:  on\t\r timer 
end: end
let: let x = 1
let: let x = -9223372036854775808
let: let x = 9223372036854775807
let: let x = ( ( 1 + v2 ) * time ) % wm
let: let x = a < b <= c == d != e >= f > g + h - i * j / k
let: let x = v007
let: let x = v0
let: let x = v1x2y
let: let x = v99999999999999999999
get: x = get s or 0
get at: x = get s ( 1 + k ) or ( 0 )
has: x = has s k
empty: x = empty s
put: put s 1
put: put s 1 , 2
put: put s 1 , 2 , 3 , 4 , 5 , 6 , 7 , 8 , 9 , 10 , 11 , 12 , 13 , 14 , 15 , 16
add: add s 1
remove: remove s 1 + 2
clear: clear s
if: if x == 0
else: else
each: each x in s
each pair: each x x in s
each pair: each k n in s
both: both
with: with
emit: emit 1
emit: emit 1 , ( 2 ) , x
emit: emit 1 , 2 , 3 , 4 , 5 , 6 , 7 , 8 , 9 , 10 , 11 , 12 , 13 , 14 , 15 , 16
timer: timer time + 500
untimer: untimer wm
none: 
none: \t \r 
none: nothing
none: input
none: input 17
none: input -1
none: input x
none: input 1 2
none: input 9223372036854775808
none: Input 1
none: inputs 1
none: state x
none: state 1x value
none: state value value
none: state x reducing
none: state x sum
none: state x values
none: state x value list
none: state X value
none: state xY value
none: state _x value
none: state x-y value
none: state v1 value
none: state abcdefghijklmnopqrstuvwxyzabcdefg value
none: state é value
none: state xé value
none: on
none: on row x
none: on state
none: row
none: end end
none: let x
none: let x =
none: let x 1
none: let x == 1
none: let time = 1
none: let wm = 1
none: let v1 = 1
none: let x = ( 1 + 2
none: let x = 1 + 2 )
none: let x = ) 1 (
none: let x = ( )
none: let x = 1 +
none: let x = + 1
none: let x = 1 2
none: let x = 1 , 2
none: let x = 1+2
none: let x = - 1
none: let x = 1 -1
none: let x = 9223372036854775808
none: let x = -9223372036854775809
none: let x = v1.2
none: let x = v1 v2
none: let x = V1
none: let x = y = 1
none: let x = end
none: let x = é
none: x
none: x =
none: x = 1
none: x = get
none: x = get s
none: x = get s 1
none: x = get s or
none: x = get s 1 or
none: x = get s 1 or 2 or 3
none: x = get s or or 1
none: x = get s 1 2 or 3
none: x = get or 1
none: x get s or 0
none: v1 = get s or 0
none: let = get s or 0
none: x = has s
none: x = has 1 s
none: x = has s 1 , 2
none: x = empty
none: x = empty s 1
none: x = put s 1
none: put
none: put s
none: put 1 s
none: put s 1 ,
none: put s , 1
none: put s 1 , 2 , 3 , 4 , 5 , 6 , 7 , 8 , 9 , 10 , 11 , 12 , 13 , 14 , 15 , 16 , 17
none: add s
none: add s 1 , 2
none: remove s
none: remove s 1 , 2
none: clear
none: clear s 1
none: if
none: if x ==
none: if 1 , 2
none: else if 1
none: each x in
none: each x of s
none: each in s
none: each x , y in s
none: each x y z in s
none: each v1 in s
none: both 1
none: with s
none: emit
none: emit ,
none: emit 1 ,
none: emit , 1
none: emit 1 , , 2
none: emit ( 1 , 2 )
none: emit 1 , 2 , 3 , 4 , 5 , 6 , 7 , 8 , 9 , 10 , 11 , 12 , 13 , 14 , 15 , 16 , 17
none: emit 1 , 2 , 3 , 4 , 5 , 6 , 7 , 8 , 9 , 10 , 11 , 12 , 13 , 14 , 15 , 16 ,
none: timer
none: timer 1 , 2
none: untimer
none: untimer ( time
none: %%
none: # end
none: \u{b}end
none: end\u{0}
";

// Whether a line is what stands before it.
fn is_right(alloc: Global, case: &str) -> bool {
    match case.split_once(':') {
        Some((kind, text)) => is_kind(alloc, text, kind),
        None => false,
    }
}

#[test]
fn lines_have_these_shapes(rt: HostRuntime) {
    let alloc = rt.alloc();
    for case in LINES.lines() {
        let right = is_right(alloc, case);
        assert!(&rt; right, "{case}");
    }
}

// What a word is: a name, `v` and digits, its number or 0, and an operand.
fn is_word(word: &[u8], name: bool, value: bool, number: u8, operand: bool) -> bool {
    is_name(word) == name
        && is_value_word(word) == value
        && field_number(word).unwrap_or(0) == number
        && is_operand(word) == operand
}

fn are_told_apart() -> bool {
    same(b"or", b"or")
        && !same(b"or", b"on")
        && !same(b"o", b"or")
        && keyword_of(b"wm") == Some(Keyword::Wm)
        && keyword_of(b"Wm").is_none()
        && sign_of(b"<=") == Some(Op::AtMost)
        && sign_of(b"=").is_none()
}

#[test]
fn single_words(rt: HostRuntime) {
    let cases: [(&[u8], bool, bool, u8, bool); 20] = [
        (b"x", true, false, 0, true),
        (b"z9_", true, false, 0, true),
        (b"abcdefghijklmnopqrstuvwxyzabcdef", true, false, 0, true),
        (b"abcdefghijklmnopqrstuvwxyzabcdefg", false, false, 0, false),
        (b"v", true, false, 0, true),
        (b"v1", false, true, 1, true),
        (b"v16", false, true, 16, true),
        (b"v17", false, true, 0, true),
        (b"v0", false, true, 0, true),
        (b"v01", false, true, 0, true),
        (b"v-1", false, false, 0, false),
        (b"v1_", true, false, 0, true),
        (b"time", false, false, 0, true),
        (b"wm", false, false, 0, true),
        (b"timer", false, false, 0, false),
        (b"-5", false, false, 0, true),
        (b"-", false, false, 0, false),
        (b"", false, false, 0, false),
        (b"\x80", false, false, 0, false),
        (b"x\xff", false, false, 0, false),
    ];
    let mut at: usize = 0;
    for (word, name, value, number, operand) in cases.iter() {
        let right = is_word(word, *name, *value, *number, *operand);
        assert!(&rt; right, "case {at}");
        at = at.wrapping_add(1);
    }
    let right = are_told_apart();
    assert!(&rt; right);
}

// How many parts there are, and how many of them are expressions.
fn count_parts(words: &[Bytes]) -> (usize, usize) {
    let mut rest = words;
    let mut parts: usize = 0;
    let mut exprs: usize = 0;
    for _part in 0..20_usize {
        let (part, more) = first_part(rest);
        parts = parts.wrapping_add(1);
        exprs = exprs.wrapping_add(usize::from(is_expr(part)));
        let Some(more) = more else {
            return (parts, exprs);
        };
        rest = more;
    }
    (parts, exprs)
}

#[test]
fn parts_between_commas(rt: HostRuntime) {
    let list = words(rt.alloc(), b"1 + x , 2 , , ( 3 )").expect(&rt, "memory");
    assert!(&rt; count_parts(list.as_slice()) == (4, 3) && !is_exprs(list.as_slice()));
}
