//! Programs, events and ways of a run that are drawn.
ghost use Rattle.std.specs.Prelude.{◌≤◌};

use std::alloc::Global;
use std::test::Fail;

/// Numbers that are drawn, by Knuth's linear congruential generator for 64 bits (MMIX).
#[derive(Drop)]
pub struct Draws {
    last: u64,
}

impl Draws {
    pub fn new(seed: u64) -> Draws {
        Draws { last: seed }
    }

    /// A number below `most`, by the upper bits.
    pub fn below(&mut self, most: u64) -> u64
        ensures { result ≤ most }
    {
        self.last = self
            .last
            .wrapping_mul(6364136223846793005)
            .wrapping_add(1442695040888963407);
        if most == 0 {
            0
        } else {
            (self.last >> 33) % most
        }
    }

    // One of some words.
    fn word<'a>(&mut self, words: &'a str, count: u64) -> &'a str {
        let at = self.below(count) as usize;
        words.split(' ').nth(at).unwrap_or("")
    }

    // One of the lines between two places.
    fn line(&mut self, lines: &'static str, from: u64, to: u64) -> &'static str {
        let at = from.wrapping_add(self.below(to.wrapping_sub(from))) as usize;
        lines.lines().nth(at).unwrap_or("")
    }
}

// What statements are made of: N is a local name, V a value state, E an expression, K a small number, and T a time ahead.

const EXPRESSIONS: &str = "\
N
N + N
N - 3 * N
N % 7
( N < N ) + 2
time
N / 2 - wm % 10
5";

// The states: c and d are values, l is a list, m a map. A first arm may have the first nine, without d; a second arm those from
// the fifth to the fourteenth, without c. Within an `each` the list doesn't grow.
const STATEMENTS: &str = "\
add l E
add l E
put l E , E
clear l
N = get V or E
put V E
clear V
let N = E
let N = E
put m K , E
N = get m K or E
remove m K
N = has m K
N = empty m
emit N , E
emit E
timer T
untimer T";

// A block that is open.
#[derive(Clone, Copy)]
enum Block {
    If,
    Else,
    Each,
    First,
    Second,
}

// A program that is written statement by statement.
#[derive(Drop)]
struct Writer {
    text: String,
    draws: Draws,
    open: Vec<Block>,
    // 0 outside a `both`, else the number of its arm
    arm: u8,
    // how many `each` are open
    loops: u32,
}

impl Writer {
    fn push_line(&mut self, line: &str) -> Result<(), Fail> {
        self.text.push_str(line)?;
        self.text.push('\n')?;
        Ok(())
    }

    fn push_word(&mut self, word: &str) -> Result<(), Fail> {
        self.text.push_str(word)?;
        self.text.push(' ')?;
        Ok(())
    }

    // A name that this arm may use.
    fn name(&mut self) -> &'static str {
        match self.arm {
            0 => self.draws.word("x y z u", 4),
            1 => self.draws.word("x y", 2),
            _ => self.draws.word("z u", 2),
        }
    }

    fn value(&mut self) -> &'static str {
        match self.arm {
            0 => self.draws.word("c d", 2),
            1 => "c",
            _ => "d",
        }
    }

    fn expression(&mut self) -> Result<(), Fail> {
        let line = self.draws.line(EXPRESSIONS, 0, 8);
        for word in line.split(' ') {
            let word = if word == "N" { self.name() } else { word };
            self.push_word(word)?;
        }
        Ok(())
    }

    // A word of a statement.
    fn part(&mut self, word: &str) -> Result<(), Fail> {
        match word {
            "N" => {
                let name = self.name();
                self.push_word(name)
            }
            "V" => {
                let name = self.value();
                self.push_word(name)
            }
            "E" => self.expression(),
            "K" => {
                self.push_word("(")?;
                self.expression()?;
                self.push_word(") % 4")
            }
            "T" => {
                self.push_word("time + 9 + (")?;
                self.expression()?;
                self.push_word(") % 9")
            }
            _ => self.push_word(word),
        }
    }

    fn statement(&mut self) -> Result<(), Fail> {
        let from = match self.arm {
            2 => 4,
            _ if self.loops > 0 => 2,
            _ => 0,
        };
        let to = match self.arm {
            0 => 18,
            1 => 9,
            _ => 14,
        };
        let line = self.draws.line(STATEMENTS, from, to);
        for word in line.split(' ') {
            self.part(word)?;
        }
        self.push_line("")
    }

    fn open(&mut self, block: Block, line: &str) -> Result<(), Fail> {
        self.open.push(block)?;
        self.push_line(line)
    }

    // A block, where one more may be open.
    fn begin(&mut self) -> Result<(), Fail> {
        if self.open.len() >= 4 {
            return self.statement();
        }
        match self.draws.below(4) {
            0 => {
                if self.loops > 0 {
                    return self.statement();
                }
                self.loops = 1;
                let is_map = self.arm == 2 || (self.arm == 0 && self.draws.below(2) == 0);
                let line = if is_map {
                    "each z u in m"
                } else {
                    "each y in l"
                };
                self.open(Block::Each, line)
            }
            1 => {
                if self.arm > 0 {
                    return self.statement();
                }
                self.arm = 1;
                self.open(Block::First, "both")
            }
            _ => {
                let name = self.name();
                self.push_word("if")?;
                self.open(Block::If, name)
            }
        }
    }

    // Ends the innermost block, if there is one, or begins its other half.
    fn end(&mut self) -> Result<(), Fail> {
        match self.open.pop() {
            None => Ok(()),
            Some(Block::If) => {
                if self.draws.below(2) == 0 {
                    self.push_line("end")
                } else {
                    self.open(Block::Else, "else")
                }
            }
            Some(Block::Else) => self.push_line("end"),
            Some(Block::Each) => {
                self.loops = 0;
                self.push_line("end")
            }
            Some(Block::First) => {
                self.arm = 2;
                self.open(Block::Second, "with")
            }
            Some(Block::Second) => {
                self.arm = 0;
                self.push_line("end")
            }
        }
    }

    fn step(&mut self) -> Result<(), Fail> {
        match self.draws.below(8) {
            0 | 1 => self.begin(),
            2 => self.end(),
            _ => self.statement(),
        }
    }

    // The statements of a handler, and its end.
    fn handler(&mut self, head: &str, steps: u64) -> Result<(), Fail> {
        self.push_line(head)?;
        for _step in 0..steps {
            self.step()?;
        }
        for _block in 0..8 {
            self.end()?;
        }
        self.push_line("emit x , y , z , u\nend")
    }
}

/// A program whose rows have two values, with its `%%`.
pub fn drawn_program(alloc: Global, seed: u64) -> Result<String, Fail> {
    let mut writer = Writer {
        text: String::new(alloc),
        draws: Draws::new(seed),
        open: Vec::new(alloc),
        arm: 0,
        loops: 0,
    };
    writer.push_line("input 2\nstate c value\nstate d value\nstate l list\nstate m map")?;
    writer.handler(
        "on row\nlet x = v1\nlet y = v2\nlet z = time\nlet u = 0",
        12,
    )?;
    writer.handler(
        "on timer\nlet x = time\nlet y = 1\nlet z = wm\nlet u = 0",
        8,
    )?;
    writer.push_line("%%")?;
    Ok(writer.text)
}

// Events that are written line by line.
#[derive(Drop)]
struct Clock {
    text: String,
    draws: Draws,
    now: i64,
    barriers: i64,
}

impl Clock {
    // A small number, also below 0.
    fn small(&mut self) -> i64 {
        (self.draws.below(20) as i64).wrapping_sub(8)
    }

    fn row(&mut self) -> Result<(), Fail> {
        let key = self.draws.word("a b c j", 4);
        let time = self.now.wrapping_add(self.small());
        let first = self.small();
        let second = self.small();
        Ok(writeln!(self.text, "r {key} {time} {first} {second}")?)
    }

    // A row, a watermark that may be that of before, or a barrier.
    fn event(&mut self) -> Result<(), Fail> {
        match self.draws.below(10) {
            0 | 1 => {
                self.now = self.now.wrapping_add(self.draws.below(8) as i64);
                Ok(writeln!(self.text, "w {}", self.now)?)
            }
            2 => {
                self.barriers = self.barriers.wrapping_add(1);
                Ok(writeln!(self.text, "b {}", self.barriers)?)
            }
            _ => self.row(),
        }
    }

    fn rows(&mut self, count: u64) -> Result<(), Fail> {
        for _row in 0..count {
            self.row()?;
        }
        Ok(())
    }

    fn events(&mut self, count: u64) -> Result<(), Fail> {
        for _event in 0..count {
            self.event()?;
        }
        Ok(())
    }
}

/// Events of four keys: so many rows with two values, and then so many rows, watermarks and barriers.
pub fn drawn_events(alloc: Global, seed: u64, rows: u64, count: u64) -> Result<String, Fail> {
    let mut clock = Clock {
        text: String::new(alloc),
        draws: Draws::new(seed),
        now: 0,
        barriers: 0,
    };
    clock.rows(rows)?;
    clock.events(count)?;
    Ok(clock.text)
}

// Numbers behind others.
fn push_numbers(text: &mut String, draws: &mut Draws, count: u64) -> Result<(), Fail> {
    for _number in 0..count {
        write!(text, " {}", draws.below(16))?;
    }
    Ok(())
}

/// How many groups the keys fall into.
pub fn drawn_groups(draws: &mut Draws) -> u16
    ensures least { 1 ≤ result }
    ensures most { result ≤ 32768 }
{
    match draws.below(5) {
        0 => 1,
        1 => 2,
        2 => 10,
        3 => 128,
        _ => 32768,
    }
}

/// How many rows may be in flight, how many requests a batch has at most, how many shards and groups of keys there are, and the
/// numbers by which the batch that comes back next is chosen.
pub fn drawn_way(
    alloc: Global,
    draws: &mut Draws,
    in_flight: u32,
    groups: u16,
) -> Result<String, Fail> {
    let mut way = String::new(alloc);
    let batch = draws.word("1 3 1000", 3);
    let shards = draws.below(u64::from(groups.min(9))).wrapping_add(1);
    write!(way, "{in_flight} {batch} {shards} {groups}")?;
    let count = draws.below(100);
    push_numbers(&mut way, draws, count)?;
    Ok(way)
}
