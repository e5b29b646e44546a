//! What the process does with its words, and the very bytes that it writes.
use crate::faulty::FaultySource;
use ax_base::SureSink;
use ax_cli::run_program;
use ax_task_tests::inputs::fed;
use std::alloc::{AllocError, AllocGlobal, Global};
use std::io::ErrorKind;
use std::process::Abort;
use std::test::Fail;

// A line of these tables has the name of the program and the words behind it, the code, what is written, and the line on `err`.

// Two keys and a barrier. The states of `b` lie on an earlier shard than those of `a` where there are 128 groups: so its row is finished
// first, though it came second, and its states stand first in the block.
const BLOCK: &str = "\
input 1;state c value;on row;x = get c or 0;put c x + v1;emit x + v1;end;%%;r a 1 5;r b 2 1;b 1;";

const BLOCK_CALLS: &str = "\
ax|0|o b 1;o a 5;s 1 -9223372036854775808;c b c 1;c a c 5;e 1 2;|
ax --|0|o b 1;o a 5;s 1 -9223372036854775808;c b c 1;c a c 5;e 1 2;|
ax --max-parallelism 1|0|o a 5;o b 1;s 1 -9223372036854775808;c a c 5;c b c 1;e 1 2;|
ax --max-parallelism 4|0|o a 5;o b 1;s 1 -9223372036854775808;c a c 5;c b c 1;e 1 2;|
ax --max-parallelism=128|0|o b 1;o a 5;s 1 -9223372036854775808;c b c 1;c a c 5;e 1 2;|
ax --in-flight 1|0|o a 5;o b 1;s 1 -9223372036854775808;c b c 1;c a c 5;e 1 2;|
ax x|2||ax: usage;
ax --batch 0|2||ax: usage;
ax --shards 8 --max-parallelism 4|2||ax: usage;
ax --batch 5 --batch 5|2||ax: usage;
ax --trace|2||ax: usage;
ax --max-parallelism 0|2||ax: usage;
ax --max-parallelism=-4|2||ax: usage;";

// The row of b asks nothing of a shard, and ends before that of a unless only one may be under way.
const ASKS_NOTHING: &str = "\
input 1;state c value;on row;if v1;put c v1;end;emit v1;end;%%;r a 1 5;r b 2 0;";

const ASKS_NOTHING_CALLS: &str = "\
ax|0|o b 0;o a 5;|
ax --io-threads 0|0|o b 0;o a 5;|
ax --batch 1|0|o b 0;o a 5;|
ax --shards 1|0|o b 0;o a 5;|
ax --in-flight 6000|0|o b 0;o a 5;|
ax --in-flight 1|0|o a 5;o b 0;|";

// Seven rows of five keys, and under which words which lines come. Over eight shards those of f, h and b have one, a and g each
// their own.
const OVERTAKING: &str = "\
input 1;state c value;on row;x = get c or 0;put c x + v1;emit x + v1;end;%%;r a 1 5;r b 2 1;r f 3 1;r g 4 1;r h 5 1;r a 5 7;r b 6 1;";

const OVERTAKING_CALLS: &str = "\
ax --batch=1000 --in-flight=1|0|o a 5;o b 1;o f 1;o g 1;o h 1;o a 12;o b 2;|
ax --batch=1000 --in-flight=2|0|o b 1;o f 1;o g 1;o h 1;o a 5;o b 2;o a 12;|
ax --batch=1000 --in-flight=6000|0|o b 1;o f 1;o h 1;o b 2;o g 1;o a 5;o a 12;|
ax --batch=1 --in-flight=6000|0|o g 1;o a 5;o b 1;o a 12;o f 1;o h 1;o b 2;|
ax --batch=2 --in-flight=6000|0|o b 1;o f 1;o h 1;o b 2;o g 1;o a 5;o a 12;|
ax --shards=1 --in-flight=6000|0|o a 5;o b 1;o f 1;o g 1;o h 1;o a 12;o b 2;|
ax --shards=2 --batch=1|0|o a 5;o a 12;o b 1;o f 1;o g 1;o h 1;o b 2;|";

fn args_of(alloc: Global, text: &str) -> Result<Vec<String>, AllocError> {
    let mut args = Vec::new(alloc);
    for word in text.split(' ') {
        args.push(String::from_str(alloc, word)?)?;
    }
    Ok(args)
}

// Calls the program as a line of a table says. Words that are refused leave the whole input.
fn expect_call(rt: &(impl Abort + AllocGlobal), input: &str, case: &str) -> Result<(), Fail> {
    let alloc = rt.alloc();
    let mut parts = case.split('|');
    let args = args_of(alloc, parts.next().unwrap_or(""))?;
    let code = parts.next().unwrap_or("").parse::<u8>().unwrap_or(0);
    let out = fed(alloc, parts.next().unwrap_or(""))?;
    let line = fed(alloc, parts.next().unwrap_or(""))?;
    let mut source = FaultySource::new(fed(alloc, input)?, 65536, 1000);
    let mut sink = SureSink::new(alloc);
    let mut err = SureSink::new(alloc);
    let found = run_program(alloc, Ok(args), &mut source, &mut sink, &mut err);
    assert_eq!(rt; found, code, "{case}");
    assert_eq!(rt; sink.bytes(), out.as_slice(), "{case}");
    assert_eq!(rt; err.bytes(), line.as_slice(), "{case}");
    assert_eq!(rt; source.reads() == 0, code == 2, "{case}");
    Ok(())
}

#[test]
fn words_of_the_process(rt: HostRuntime) -> Result<(), Fail> {
    for (input, calls) in [
        (BLOCK, BLOCK_CALLS),
        (ASKS_NOTHING, ASKS_NOTHING_CALLS),
        (OVERTAKING, OVERTAKING_CALLS),
    ] {
        for case in calls.lines() {
            expect_call(&rt, input, case)?;
        }
    }
    Ok(())
}

// Why there is no list of words, or that it is empty, without a name.
#[test]
fn no_list_of_words(rt: HostRuntime) -> Result<(), Fail> {
    let alloc = rt.alloc();
    let mut source = FaultySource::new(fed(alloc, BLOCK)?, 65536, 1000);
    let mut sink = SureSink::new(alloc);
    let mut err = SureSink::new(alloc);
    let short = Err(ErrorKind::OutOfMemory);
    assert_eq!(rt;
        run_program(alloc, short, &mut source, &mut sink, &mut err),
        1
    );
    let bad = Err(ErrorKind::InvalidData);
    assert_eq!(rt;
        run_program(alloc, bad, &mut source, &mut sink, &mut err),
        2
    );
    assert_eq!(rt; source.reads(), 0);
    assert_eq!(rt; sink.bytes(), b"".as_slice());
    assert_eq!(rt; err.bytes(), b"ax: out of memory\nax: usage\n".as_slice());
    let none = Ok(Vec::new(alloc));
    assert_eq!(rt;
        run_program(alloc, none, &mut source, &mut sink, &mut err),
        0
    );
    let out = fed(
        alloc,
        "o b 1;o a 5;s 1 -9223372036854775808;c b c 1;c a c 5;e 1 2;",
    )?;
    assert_eq!(rt; sink.bytes(), out.as_slice());
    Ok(())
}
