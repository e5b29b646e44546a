//! Expressions as they are written, with their values.
use ax_expr::{Expr, Refusal, Scope, Token, read_expr};
use ax_text::{Atom, Op};
use std::alloc::Global;

fn sign_of(word: &str) -> Option<Op> {
    match word {
        "<" => Some(Op::Less),
        "<=" => Some(Op::AtMost),
        "==" => Some(Op::Equal),
        "!=" => Some(Op::Differs),
        ">=" => Some(Op::AtLeast),
        ">" => Some(Op::Greater),
        "+" => Some(Op::Add),
        "-" => Some(Op::Subtract),
        "*" => Some(Op::Multiply),
        "/" => Some(Op::Divide),
        "%" => Some(Op::Remainder),
        _ => None,
    }
}

fn atom_of(word: &str) -> Atom {
    match word {
        "a" => Atom::Name(0),
        "b" => Atom::Name(1),
        "absent" => Atom::Name(2),
        "v1" => Atom::Field(0),
        "v2" => Atom::Field(1),
        "v3" => Atom::Field(2),
        "time" => Atom::Time,
        "wm" => Atom::Watermark,
        _ => Atom::Number(word.parse().unwrap_or(0)),
    }
}

fn token_of(word: &str) -> Token {
    match word {
        "(" => Token::Open,
        ")" => Token::Close,
        _ => match sign_of(word) {
            Some(op) => Token::Sign(op),
            None => Token::Operand(atom_of(word)),
        },
    }
}

fn read(alloc: Global, text: &str) -> Result<Expr, Refusal> {
    let mut tokens = Vec::new(alloc);
    for word in text.split_whitespace() {
        if tokens.push(token_of(word)).is_err() {
            return Err(Refusal::NoMemory);
        }
    }
    read_expr(alloc, &tokens)
}

#[test]
fn values(rt: HostRuntime) {
    let alloc = rt.alloc();
    let scope = Scope {
        time: 1000,
        wm: -5,
        values: &[7, -2],
        names: &[10, 3],
    };
    let cases = [
        ("2 + 3 * 4", 14),
        ("2 * 3 + 4", 10),
        ("2 * ( 3 + 4 )", 14),
        ("10 - 4 - 3", 3),
        ("10 - ( 4 - 3 )", 9),
        ("100 / 10 / 5", 2),
        ("100 / ( 10 / 5 )", 50),
        ("2 * 7 % 4", 2),
        ("2 * ( 7 % 4 )", 6),
        ("( ( 5 ) )", 5),
        ("5 < 2 + 4", 1),
        ("3 < 2 < 1", 1),
        ("2 == 2 >= 1", 1),
        ("2 <= 1", 0),
        ("1 <= 1", 1),
        ("3 != 3", 0),
        ("3 != 4", 1),
        ("1 >= 2", 0),
        ("2 > 1", 1),
        ("9223372036854775807 + 1", i64::MIN),
        ("-9223372036854775808 - 1", i64::MAX),
        ("9223372036854775807 * 2", -2),
        ("7 / 0", 0),
        ("7 % 0", 0),
        ("-7 / 2", -3),
        ("-7 % 2", -1),
        ("7 % -2", 1),
        ("-9223372036854775808 / -1", i64::MIN),
        ("-9223372036854775808 % -1", 0),
        ("time - wm", 1005),
        ("v1 * v2", -14),
        ("a - b", 7),
        ("absent + v3", 0),
    ];
    for (text, expected) in cases.iter() {
        match read(alloc, text) {
            Ok(expr) => assert_eq!(rt; expr.value(&scope), *expected, "{text}"),
            Err(_) => assert!(&rt; false, "{text}"),
        }
    }
}

#[test]
fn refusals(rt: HostRuntime) {
    let alloc = rt.alloc();
    let cases = [
        "",
        "+",
        "- 1",
        "1 +",
        "1 2",
        "1 + * 2",
        "( 1",
        "1 )",
        "( )",
        "1 ( 2 )",
        "( 1 + ) 2",
        ") 1 (",
    ];
    for text in cases.iter() {
        let refused = matches!(read(alloc, text), Err(Refusal::Word));
        assert!(&rt; refused, "{text}");
    }
}
