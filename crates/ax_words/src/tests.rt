//! Command lines, and what they ask for.
use crate::{Options, WordFault, read_words};
use ax_base::{ListOf, NoMemory};
use std::alloc::Global;
use std::test::Fail;

// Command lines; behind `|` what they ask for: key groups, rows and firings under way, requests of a batch, and shards.

const ACCEPTED: &str = "\
ax|128 6000 1000 8
ax --|128 6000 1000 8
ax --max-parallelism 1|1 6000 1000 1
ax --max-parallelism=1|1 6000 1000 1
ax --max-parallelism 4|4 6000 1000 4
ax --max-parallelism=4|4 6000 1000 4
ax --max-parallelism 7|7 6000 1000 7
ax --max-parallelism 8|8 6000 1000 8
ax --max-parallelism 9|9 6000 1000 8
ax --max-parallelism 127|127 6000 1000 8
ax --max-parallelism 128|128 6000 1000 8
ax --max-parallelism 32767|32767 6000 1000 8
ax --max-parallelism 32768|32768 6000 1000 8
ax --max-parallelism=32768|32768 6000 1000 8
ax --max-parallelism 0004|4 6000 1000 4
ax --max-parallelism=0000000000000000000000000000000032768|32768 6000 1000 8
ax --max-parallelism 4 --|4 6000 1000 4
ax --max-parallelism=4 --|4 6000 1000 4
ax --in-flight 1|128 1 1000 8
ax --in-flight=6000|128 6000 1000 8
ax --in-flight 65535|128 65535 1000 8
ax --in-flight=65536|128 65536 1000 8
ax --in-flight 007 --|128 7 1000 8
ax --batch 1|128 6000 1 8
ax --batch=1000|128 6000 1000 8
ax --batch 65535|128 6000 65535 8
ax --batch 65536|128 6000 65536 8
ax --batch=00005 --|128 6000 5 8
ax --shards 1|128 6000 1000 1
ax --shards=8|128 6000 1000 8
ax --shards 63|128 6000 1000 63
ax --shards 64|128 6000 1000 64
ax --shards=0064 --|128 6000 1000 64
ax --io-threads 0|128 6000 1000 8
ax --io-threads=0|128 6000 1000 8
ax --io-threads 000 --|128 6000 1000 8
ax --shards 4 --max-parallelism 4|4 6000 1000 4
ax --max-parallelism=4 --shards=3|4 6000 1000 3
ax --max-parallelism=64 --shards=64|64 6000 1000 64
ax --max-parallelism 1 --shards 1|1 6000 1000 1
ax --io-threads 0 --shards 2 --batch 3 --in-flight 5 --max-parallelism 7|7 5 3 2
ax --max-parallelism=7 --in-flight=5 --batch=3 --shards=2 --io-threads=0 --|7 5 3 2";

// All lines below are refused.

const VALUES: &str = "\
ax --max-parallelism
ax --max-parallelism=
ax --max-parallelism\x20
ax --max-parallelism 0
ax --max-parallelism=0
ax --max-parallelism 0000
ax --max-parallelism 32769
ax --max-parallelism=32769
ax --max-parallelism 65537
ax --max-parallelism 4294967300
ax --max-parallelism 9223372036854775807
ax --max-parallelism 9223372036854775808
ax --max-parallelism 18446744073709551620
ax --max-parallelism 340282366920938463463374607431768211460
ax --max-parallelism -1
ax --max-parallelism=-1
ax --max-parallelism -4
ax --max-parallelism=-4
ax --max-parallelism -0
ax --max-parallelism=-0
ax --max-parallelism -
ax --max-parallelism=-
ax --max-parallelism --
ax --max-parallelism=--
ax --max-parallelism -- 4
ax --max-parallelism --4
ax --max-parallelism=--4
ax --max-parallelism -9223372036854775808
ax --max-parallelism -18446744073709551612
ax --max-parallelism +4
ax --max-parallelism=+4
ax --max-parallelism 4.0
ax --max-parallelism 4,
ax --max-parallelism 4e0
ax --max-parallelism 0x4
ax --max-parallelism 1_000
ax --max-parallelism 4x
ax --max-parallelism x4
ax --max-parallelism four
ax --max-parallelism \t4
ax --max-parallelism 4\t
ax --max-parallelism \r4
ax --max-parallelism 4\0
ax --max-parallelism \u{664}
ax --max-parallelism \u{ff14}
ax --max-parallelism \u{2212}4
ax --max-parallelism==4
ax --max-parallelism =4
ax --max-parallelism= 4
ax --max-parallelism = 4
ax --max-parallelism=4=4";

const RANGES: &str = "\
ax --in-flight 0
ax --in-flight=0
ax --in-flight 65537
ax --in-flight 4294967297
ax --in-flight=-1
ax --in-flight
ax --batch 0
ax --batch=65537
ax --batch 4294968296
ax --batch -1
ax --batch=
ax --shards 0
ax --shards 65
ax --shards 128
ax --shards=4294967304
ax --shards 65537
ax --shards -8
ax --io-threads 1
ax --io-threads 4
ax --io-threads=64
ax --io-threads=-0
ax --io-threads 4294967296
ax --shards 8 --max-parallelism 4
ax --max-parallelism 4 --shards 8
ax --shards=5 --max-parallelism=4
ax --max-parallelism=1 --shards=2
ax --max-parallelism 63 --shards 64
ax --batch 5 --batch 5
ax --batch=5 --batch 6
ax --shards 8 --shards=8
ax --in-flight 6000 --in-flight 6000
ax --io-threads 0 --io-threads 0
ax --batch 5 --in-flight
ax --batch --in-flight 5
ax --in-flights 5
ax --in-fligh 5
ax --inflight 5
ax --in_flight 5
ax --shard 1
ax --io-thread 0
ax --iothreads 0
ax --batches 5
ax --b 5";

const NAMES: &str = "\
ax --max-parallelis 4
ax --max-parallelis=4
ax --max-parallel 4
ax --max-p 4
ax --max 4
ax --max=4
ax --m 4
ax --m=4
ax --max-parallelisms 4
ax --max-parallelism\0 4
ax --max-parallelism\t4
ax --MAX-PARALLELISM 4
ax --Max-Parallelism=4
ax --max_parallelism 4
ax --maxparallelism 4
ax --max--parallelism 4
ax -max-parallelism 4
ax -max-parallelism=4
ax ---max-parallelism 4
ax max-parallelism 4
ax max-parallelism=4
ax \u{2013}max-parallelism 4
ax \u{2014}max-parallelism 4
ax \u{2212}\u{2212}max-parallelism 4
ax --\u{feff}max-parallelism 4
ax \u{feff}--max-parallelism 4
ax --m\u{e1}x-parallelism 4
ax -m 4
ax -m4
ax -m=4
ax --=4
ax --=
ax ---
ax --\u{e9}
ax -\u{e9}
ax --help
ax -h
ax -help
ax --version
ax -V
ax help
ax version
ax --mode serial
ax --mode parallel
ax --mode=serial
ax --memtable 4096
ax --trace
ax --generate 10
ax --restore
ax --ordered
ax --inputs 2
ax --subtask 0
ax --subtasks 1";

const WORDS: &str = "\
ax\x20
ax\x20\x20
ax x
ax 4
ax -
ax -4
ax =
ax \0
ax \u{10ffff}
ax program.ax
ax  --
ax --\x20
ax -- --
ax -- x
ax -- 4
ax -- --max-parallelism 4
ax -- --max-parallelism=4
ax x --max-parallelism 4
ax 4 --max-parallelism 4
ax --max-parallelism 4 4
ax --max-parallelism=4 4
ax --max-parallelism 4 x
ax --max-parallelism 4\x20
ax --max-parallelism 4 -
ax --max-parallelism 4 -- --
ax --max-parallelism 4 -- x
ax --max-parallelism 4 -x
ax --max-parallelism 4 --x
ax --max-parallelism 4 --max-parallelism 4
ax --max-parallelism 4 --max-parallelism 5
ax --max-parallelism=4 --max-parallelism=4
ax --max-parallelism 4 --max-parallelism=4
ax --max-parallelism=4 --max-parallelism 4
ax --max-parallelism 128 --max-parallelism 128
ax --max-parallelism 4 --max-parallelism
ax --max-parallelism=4 --max-parallelism
ax --max-parallelism --max-parallelism 4
ax --max-parallelism --max-parallelism=4
ax --max-parallelism=--max-parallelism 4
ax --max-parallelism 4 --trace
ax --trace --max-parallelism 4
ax --max-parallelism 4 --mode serial";

// The words behind the name of the program.
fn words_of<'a>(alloc: Global, line: &'a str) -> Result<ListOf<&'a str>, NoMemory> {
    let mut words = ListOf::new(alloc);
    for word in line.split(' ').skip(1) {
        words.push(word)?;
    }
    Ok(words)
}

#[test]
fn accepted_words(rt: HostRuntime) -> Result<(), Fail> {
    for case in ACCEPTED.lines() {
        let mut parts = case.split('|');
        let line = parts.next().unwrap_or("");
        let mut numbers = parts.next().unwrap_or("").split(' ');
        let words = words_of(rt.alloc(), line)?;
        let expected = Ok(Options {
            max_parallelism: numbers.next().unwrap_or("").parse::<u16>().unwrap_or(0),
            in_flight: numbers.next().unwrap_or("").parse::<u32>().unwrap_or(0),
            batch: numbers.next().unwrap_or("").parse::<u32>().unwrap_or(0),
            shards: numbers.next().unwrap_or("").parse::<u16>().unwrap_or(0),
            io_threads: 0,
        });
        assert_eq!(rt;
            read_words(rt.alloc(), words.as_slice()),
            expected,
            "at {line}"
        );
    }
    Ok(())
}

#[test]
fn refused_words(rt: HostRuntime) -> Result<(), Fail> {
    for table in [VALUES, RANGES, NAMES, WORDS] {
        for line in table.lines() {
            let words = words_of(rt.alloc(), line)?;
            let found = read_words(rt.alloc(), words.as_slice());
            assert_eq!(rt; found, Err(WordFault::Usage), "at {line}");
        }
    }
    Ok(())
}
