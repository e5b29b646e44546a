//! Handlers as machines: what each callback asks and says, in whatever order the answers come.
ghost use Rattle.std.specs.Prelude.{◌≡◌, OnOk};
ghost use Rattle.ax_state.specs.Decls.{kinds};
ghost use Rattle.ax_state.specs.KeyCells.{cell_kinds};
ghost use Rattle.ax_lang.specs.Shown.{shown_kinds};
ghost use Rattle.ax_future.specs.Machines.{IsSound};

use crate::sections::section;
use ax_base::{NoMemory, Nums};
use ax_future::{
    Ask, Assign, Cursor, Facts, Frame, Handler, Machine, Next, Node, Turn, combine, compose, then,
};
use ax_keys::Key;
use ax_lang::program::Program;
use ax_lang::reader::{SectionEnd, read_program};
use ax_state::{KeyCells, fits};
use ax_text::Request;
use std::alloc::Global;
use std::process::Abort;
use std::test::Fail;

// The program of a text in which `;` ends a line.
fn program(rt: &impl Abort, alloc: Global, text: &str) -> Program {
    let lines = section(alloc, text).expect(rt, "memory");
    let end = SectionEnd {
        line: 99,
        found: true,
    };
    read_program(alloc, &lines, end).ok().expect(rt, "no fault")
}

// A row of a key at 5, behind the watermark 4, with a value or none.
fn facts(rt: &impl Abort, alloc: Global, value: &str) -> Facts {
    let key = Key::read(alloc, b"k").expect(rt, "memory");
    let mut values = Nums::new(alloc);
    if let Ok(number) = value.parse::<i64>() {
        values.push(number).expect(rt, "memory");
    }
    Facts {
        key: key.expect(rt, "a key"),
        time: 5,
        wm: 4,
        values,
    }
}

// What was told, and the requests that wait. Where not all is told, only lines and timers are.
#[derive(Drop)]
struct Told {
    all: bool,
    text: String,
    waiting: Vec<Ask>,
}

// Nothing told yet.
fn silent(alloc: Global, all: bool) -> Told {
    Told {
        all,
        text: String::new(alloc),
        waiting: Vec::new(alloc),
    }
}

// A callback's lines and timers.
fn note_said(rt: &impl Abort, told: &mut Told, turn: &Turn) {
    for line in turn.outs.as_slice() {
        write!(told.text, " {:?}", line.as_slice()).expect(rt, "memory");
    }
    for op in turn.timer_ops.as_slice() {
        write!(told.text, " {op:?}").expect(rt, "memory");
    }
}

// What a callback leaves: lines and timers, then each request with its slot.
fn note(rt: &impl Abort, told: &mut Told, turn: Turn) {
    note_said(rt, told, &turn);
    for ask in turn.asks.into_vec() {
        if told.all {
            write!(told.text, " {} {:?}", ask.slot, ask.request).expect(rt, "memory");
        }
        told.waiting.push(ask).expect(rt, "memory");
    }
}

// The request that waits at a slot.
fn take_request(told: &mut Told, slot: u8) -> Option<Request> {
    for at in 0..told.waiting.len() {
        if told.waiting[at].slot == slot {
            return Some(told.waiting.remove(at).request);
        }
    }
    None
}

// The slot of a letter, or the least that waits where nothing waits at that one.
fn slot_of(machine: &Machine, letter: u8) -> u8 {
    let named = match letter {
        b'0'..=b'9' => letter.wrapping_sub(b'0'),
        b'a'..=b'f' => letter.wrapping_sub(b'a').wrapping_add(10),
        _ => 99,
    };
    match machine.least_waiting() {
        Some((least, _)) if !machine.waits(named) => least,
        _ => named,
    }
}

// Serves what waits at a slot, and gives the answer.
fn answer(
    rt: &impl Abort,
    program: &Program,
    facts: &Facts,
    machine: &mut Machine,
    cells: &mut KeyCells,
    told: &mut Told,
    slot: u8,
)
    requires sound { IsSound program.now machine.old }
    requires kinds { cell_kinds cells.old ≡ shown_kinds program.now }
    ensures sound { IsSound program.now machine.new }
    ensures kinds { cell_kinds cells.new ≡ shown_kinds program.now }
{
    let request = take_request(told, slot).expect(rt, "a request");
    assert!(rt; machine.waits(slot) && fits(program.decls(), &request));
    let answer = cells.apply(&request).expect(rt, "memory");
    let turn = machine
        .resume(program, facts, slot, answer)
        .expect(rt, "memory");
    if told.all {
        write!(told.text, " {slot}>").expect(rt, "memory");
    }
    note(rt, told, turn);
}

// Runs a handler, whose requests are answered in this order, until it is done.
fn run(
    rt: &impl Abort,
    alloc: Global,
    program: &Program,
    facts: &Facts,
    cells: &mut KeyCells,
    handler: Handler,
    order: &str,
    told: &mut Told,
)
    requires { cell_kinds cells.old ≡ shown_kinds program.now }
    ensures { cell_kinds cells.new ≡ shown_kinds program.now }
{
    let (machine, turn) = Machine::start(alloc, program, handler, facts).expect(rt, "memory");
    let mut machine = machine;
    note(rt, told, turn);
    'next: for letter in order.as_bytes() {
        if !machine.is_done() {
            let slot = slot_of(&machine, *letter);
            answer(rt, program, facts, &mut machine, cells, told, slot);
        }
    }
    assert!(rt; machine.is_done() && told.waiting.is_empty());
}

// Each line has a program with `;` between its lines, which of its handlers runs, the row's value or none, the slots in the
// order of their answers, and what comes of it: the width, then for each callback the slot that was answered, and behind `>`
// its lines and timers, and what it asks at which slot.

const CALLBACKS: &str = "\
input 0;state p value;state q value;on row;both;x = get p or 3;with;y = get q or 4;end;put p y;put q x;emit x , y;end|row||10..|2> 0 ValueGet { state: 0 } 1 ValueGet { state: 1 } 1> 0> 0 ValuePut { state: 0, number: 4 } 0> 0 ValuePut { state: 1, number: 3 } 0> [3, 4]
input 0;state p value;state q value;on row;both;x = get p or 3;with;y = get q or 4;end;put p y;put q x;emit x , y;end|row||01..|2> 0 ValueGet { state: 0 } 1 ValueGet { state: 1 } 0> 1> 0 ValuePut { state: 0, number: 4 } 0> 0 ValuePut { state: 1, number: 3 } 0> [3, 4]
input 0;state p value;state q value;on row;both;x = get p or 3;with;y = get q or 4;end;put p y;put q x;emit x , y;end|timer|||2>
input 1;state s value;on row;let x = v1 + 1;emit x , v1;timer x;untimer 3;emit time , wm;end|row|8||1> [9, 8] [5, 4] Set { time: 9 } Unset { time: 3 }
input 0;on row;end;on timer;emit 1;end|row|||1>
input 0;on row;end;on timer;emit 1;end|timer|||1> [1]
input 1;state a value;state b value;on row;both;if v1;x = get a or 5;put a x + 1;end;let z = x + 10;with;y = get b or 6;end;emit x , y , z;end|row|1|010|2> 0 ValueGet { state: 0 } 1 ValueGet { state: 1 } 0> 0 ValuePut { state: 0, number: 6 } 1> 0> [5, 6, 15]
input 1;state a value;state b value;on row;both;if v1;x = get a or 5;put a x + 1;end;let z = x + 10;with;y = get b or 6;end;emit x , y , z;end|row|1|100|2> 0 ValueGet { state: 0 } 1 ValueGet { state: 1 } 1> 0> 0 ValuePut { state: 0, number: 6 } 0> [5, 6, 15]
input 1;state a value;state b value;on row;both;if v1;x = get a or 5;put a x + 1;end;let z = x + 10;with;y = get b or 6;end;emit x , y , z;end|row|0|0|2> 0 ValueGet { state: 1 } 0> [0, 6, 10]
input 0;state l list;state k list;on row;put l 7 , -1 , 7;each i in l;add k i * 2;emit i;end;each j in k;emit j;end;end|row||......|1> 0 ListPut { state: 0, items: ListOf { items: [7, -1, 7] } } 0> 0 ListGet { state: 0 } 0> 0 ListAdd { state: 1, number: 14 } 0> [7] 0 ListAdd { state: 1, number: -2 } 0> [-1] 0 ListAdd { state: 1, number: 14 } 0> [7] 0 ListGet { state: 1 } 0> [14] [-2] [14]
input 0;state m map;state l list;on row;put m 5 , 1;put m -2 , 3;each k n in m;add l k + n;each i in l;emit k , n , i;end;end;end|row||.......|1> 0 MapPut { state: 0, at: 5, number: 1 } 0> 0 MapPut { state: 0, at: -2, number: 3 } 0> 0 MapEntries { state: 0 } 0> 0 ListAdd { state: 1, number: 1 } 0> 0 ListGet { state: 1 } 0> [-2, 3, 1] 0 ListAdd { state: 1, number: 6 } 0> 0 ListGet { state: 1 } 0> [5, 1, 1] [5, 1, 6]
input 0;state a value;state b list;state c list;on row;put b 3 , 4;both;x = get a or 7;put a x + 1;with;each y in b;add c y * 2;end;end;emit x;end|row||010110|2> 0 ListPut { state: 1, items: ListOf { items: [3, 4] } } 0> 0 ValueGet { state: 0 } 1 ListGet { state: 1 } 1> 1 ListAdd { state: 2, number: 6 } 0> 0 ValuePut { state: 0, number: 8 } 1> 1 ListAdd { state: 2, number: 8 } 1> 0> [7]
input 0;state a value;state b value;state c value;on row;both;x = get a or 1;with;both;y = get b or 2;with;z = get c or 3;put c z;end;end;emit x , y , z;end|row||02..|3> 0 ValueGet { state: 0 } 1 ValueGet { state: 1 } 2 ValueGet { state: 2 } 0> 2> 0 ValuePut { state: 2, number: 3 } 0> 1> [1, 2, 3]
input 0;state z value;on row;both;a = get z or 1;with;both;b = get z or 2;with;both;c = get z or 3;with;both;d = get z or 4;with;both;e = get z or 5;with;both;f = get z or 6;with;both;g = get z or 7;with;both;h = get z or 8;with;both;i = get z or 9;with;both;j = get z or 10;with;both;k = get z or 11;with;both;l = get z or 12;with;both;m = get z or 13;with;both;n = get z or 14;with;both;o = get z or 15;with;p = get z or 16;end;end;end;end;end;end;end;end;end;end;end;end;end;end;end;emit a , b , c , d , e , f , g , h , i , j , k , l , m , n , o , p;end|row||fedcba9876543210|16> 0 ValueGet { state: 0 } 1 ValueGet { state: 0 } 2 ValueGet { state: 0 } 3 ValueGet { state: 0 } 4 ValueGet { state: 0 } 5 ValueGet { state: 0 } 6 ValueGet { state: 0 } 7 ValueGet { state: 0 } 8 ValueGet { state: 0 } 9 ValueGet { state: 0 } 10 ValueGet { state: 0 } 11 ValueGet { state: 0 } 12 ValueGet { state: 0 } 13 ValueGet { state: 0 } 14 ValueGet { state: 0 } 15 ValueGet { state: 0 } 15> 14> 13> 12> 11> 10> 9> 8> 7> 6> 5> 4> 3> 2> 1> 0> [1, 2, 3, 4, 5, 6, 7, 8, 9, 10, 11, 12, 13, 14, 15, 16]
input 0;state z value;on row;both;a = get z or 1;with;both;b = get z or 2;with;both;c = get z or 3;with;both;d = get z or 4;with;both;e = get z or 5;with;both;f = get z or 6;with;both;g = get z or 7;with;both;h = get z or 8;with;both;i = get z or 9;with;both;j = get z or 10;with;both;k = get z or 11;with;both;l = get z or 12;with;both;m = get z or 13;with;both;n = get z or 14;with;both;o = get z or 15;with;p = get z or 16;end;end;end;end;end;end;end;end;end;end;end;end;end;end;end;emit a , b , c , d , e , f , g , h , i , j , k , l , m , n , o , p;end|row||................|16> 0 ValueGet { state: 0 } 1 ValueGet { state: 0 } 2 ValueGet { state: 0 } 3 ValueGet { state: 0 } 4 ValueGet { state: 0 } 5 ValueGet { state: 0 } 6 ValueGet { state: 0 } 7 ValueGet { state: 0 } 8 ValueGet { state: 0 } 9 ValueGet { state: 0 } 10 ValueGet { state: 0 } 11 ValueGet { state: 0 } 12 ValueGet { state: 0 } 13 ValueGet { state: 0 } 14 ValueGet { state: 0 } 15 ValueGet { state: 0 } 0> 1> 2> 3> 4> 5> 6> 7> 8> 9> 10> 11> 12> 13> 14> 15> [1, 2, 3, 4, 5, 6, 7, 8, 9, 10, 11, 12, 13, 14, 15, 16]";

// What comes of a table's line.
fn transcript(
    rt: &impl Abort,
    alloc: Global,
    text: &str,
    handler: Handler,
    value: &str,
    order: &str,
) -> String {
    let program = program(rt, alloc, text);
    let facts = facts(rt, alloc, value);
    let mut cells = KeyCells::new(alloc, program.decls()).expect(rt, "memory");
    let mut told = silent(alloc, true);
    write!(told.text, "{}>", program.width()).expect(rt, "memory");
    run(
        rt, alloc, &program, &facts, &mut cells, handler, order, &mut told,
    );
    told.text
}

#[test]
fn callbacks(rt: HostRuntime) {
    let alloc = rt.alloc();
    for case in CALLBACKS.lines() {
        let mut parts = case.split('|');
        let text = parts.next().unwrap_or("");
        let handler = if parts.next().unwrap_or("") == "row" {
            Handler::Row
        } else {
            Handler::Timer
        };
        let value = parts.next().unwrap_or("");
        let order = parts.next().unwrap_or("");
        let whole = transcript(&rt, alloc, text, handler, value, order);
        assert_eq!(rt; whole.as_str(), parts.next().unwrap_or(""), "{text}");
    }
}

const FOUR_ARMS: &str =
    "input 1;state a value;state b value;state c list;state d map;on row;both;both;x = get a or 1;put a x + v1;with;if v1 < 5;y = get b or 2;else;y = get b or 20;end;put b y * 3;end;with;both;let z = 0;add c v1;each i in c;let z = z * 10 + i;end;with;h = has d v1;put d v1 , h + 7;g = get d v1 or 0;end;let w = z + g;end;emit x , y , z , w;timer w;end;on timer;p = get a or 0;q = get b or 0;emit p , q;each j in c;emit j;end;each k n in d;emit k , n;end;end";

// The lines and timers of two rows with the value 3, and then of a timer.
const FOUR_ARMS_SAY: &str =
    " [1, 2, 3, 10] Set { time: 10 } [4, 6, 33, 41] Set { time: 41 } [7, 18] [3] [3] [3, 8]";

// Orders of answers: a slot where nothing waits stands for the least that waits.
const ORDERS: &str =
    "......... 333333333 321032103 012301230 222333111 103210321 310223100 230130203";

// What two rows say, and then a timer, which looks at all states.
fn said_in(rt: &impl Abort, alloc: Global, text: &str, order: &str) -> String {
    let program = program(rt, alloc, text);
    let facts = facts(rt, alloc, "3");
    let mut cells = KeyCells::new(alloc, program.decls()).expect(rt, "memory");
    let mut told = silent(alloc, false);
    let row = Handler::Row;
    let (p, f) = (&program, &facts);
    run(rt, alloc, p, f, &mut cells, row, order, &mut told);
    run(rt, alloc, p, f, &mut cells, row, order, &mut told);
    let timer = Handler::Timer;
    run(rt, alloc, p, f, &mut cells, timer, order, &mut told);
    told.text
}

#[test]
fn four_arms_in_any_order(rt: HostRuntime) {
    let alloc = rt.alloc();
    for order in ORDERS.split(' ') {
        let said = said_in(&rt, alloc, FOUR_ARMS, order);
        assert_eq!(rt; said.as_str(), FOUR_ARMS_SAY, "{order}");
    }
}

// A get that waits at a slot, whose answer nothing takes.
fn waiting(alloc: Global, slot: u8) -> Node {
    Node::Wait {
        slot,
        request: Request::ValueGet { state: slot },
        next: Next::Take {
            assign: Assign::Ignore,
        },
        cursor: Vec::new(alloc),
    }
}

// The text from a place on.
fn text_at(alloc: Global, place: usize) -> Result<Cursor, NoMemory> {
    let mut cursor = Vec::new(alloc);
    match cursor.push(Frame::Rest { place }) {
        Ok(()) => Ok(cursor),
        Err(_) => Err(NoMemory),
    }
}

// A node as text: where it waits and what takes the answer, or two arms, and then the places where it goes on, the last first.
fn show(rt: &impl Abort, text: &mut String, node: &Node) {
    let cursor = match node {
        Node::Done => {
            write!(text, "done").expect(rt, "memory");
            return;
        }
        Node::Wait {
            slot,
            next,
            cursor,
            ..
        } => {
            write!(text, "{slot}").expect(rt, "memory");
            if let Next::Take {
                assign: Assign::Name { name, missing },
            } = next
            {
                write!(text, " to {name} or {missing}").expect(rt, "memory");
            }
            cursor
        }
        Node::Arms { one, two, cursor } => {
            write!(text, "(").expect(rt, "memory");
            show(rt, text, one);
            write!(text, ", ").expect(rt, "memory");
            show(rt, text, two);
            write!(text, ")").expect(rt, "memory");
            cursor
        }
    };
    for frame in cursor {
        if let Frame::Rest { place } = frame {
            write!(text, " +{place}").expect(rt, "memory");
        }
    }
}

// Looks whether a node is this.
fn expect_node(rt: &impl Abort, alloc: Global, node: Node, expected: &str) {
    let mut text = String::new(alloc);
    show(rt, &mut text, &node);
    assert_eq!(rt; text.as_str(), expected);
}

#[test]
fn nodes_put_together(rt: HostRuntime) -> Result<(), Fail> {
    let alloc = rt.alloc();
    let name = Assign::Name {
        name: 2,
        missing: 9,
    };
    let taken = then(alloc, waiting(alloc, 0), name)?;
    let further = compose(
        alloc,
        compose(alloc, taken, text_at(alloc, 5)?)?,
        text_at(alloc, 3)?,
    )?;
    expect_node(&rt, alloc, further, "0 to 2 or 9 +3 +5");
    let done = then(alloc, Node::Done, name)?;
    expect_node(&rt, alloc, done, "done");
    let behind = compose(alloc, Node::Done, text_at(alloc, 5)?)?;
    expect_node(&rt, alloc, behind, "(done, done) +5");
    let ended = combine(alloc, Node::Done, Node::Done)?;
    expect_node(&rt, alloc, ended, "(done, done)");
    let second = combine(alloc, Node::Done, waiting(alloc, 1))?;
    expect_node(&rt, alloc, second, "(done, 1)");
    let first = compose(
        alloc,
        combine(alloc, waiting(alloc, 0), Node::Done)?,
        text_at(alloc, 7)?,
    )?;
    expect_node(&rt, alloc, first, "(0, done) +7");
    let both = combine(alloc, waiting(alloc, 0), waiting(alloc, 1))?;
    let both = then(alloc, both, name)?;
    expect_node(&rt, alloc, both, "(0, 1)");
    Ok(())
}
