//! In whatever order batches come back, each key's lines and the places of markers are the same.
use crate::by_key::by_key;
use crate::inputs::fed;
use crate::ways::{bytes_by, written_by};
use std::alloc::AllocGlobal;
use std::process::Abort;
use std::test::Fail;

// A line of this table has an input and what it writes.
const ROWS: &str = "\
input 1;state c value;on row;x = get c or 0;put c x + v1;emit x + v1;end;%%;r a 1 1;r a 2 2;r a 3 3;r a 4 4;r a 5 5;r a 6 6;r a 7 7;r a 8 8;r a 9 9;r a 10 10;r a 11 11;r a 12 12;r a 13 13;r a 14 14;r a 15 15;r a 16 16;r a 17 17;r a 18 18;r a 19 19;r a 20 20;|o a 1;o a 3;o a 6;o a 10;o a 15;o a 21;o a 28;o a 36;o a 45;o a 55;o a 66;o a 78;o a 91;o a 105;o a 120;o a 136;o a 153;o a 171;o a 190;o a 210;
input 1;state c value;on row;x = get c or 0;put c x + v1;emit x + v1;end;%%;r a 1 5;w 3;r a 4 7;|o a 5;w 3;o a 12;
input 1;on row;timer v1;emit 1 , time;end;on timer;emit 2 , time , wm;end;%%;w 5;r a 1 3;w 6;|w 5;o a 1 1;o a 2 3 6;w 6;
input 1;state c value;on row;x = get c or 0;put c x + v1;emit x + v1;end;%%;r a 1 5;r b 2 1;r j 3 2;r a 4 7;r j 5 4;r c 6 9;r b 7 3;b 1;r t 8 1;r a 9 1;|o a 5;o b 1;o j 2;o a 12;o j 6;o c 9;o b 4;s 1 -9223372036854775808;c b c 4;c c c 9;c a c 12;c j c 6;e 1 4;o t 1;o a 13;
input 1;on row;timer v1;emit 1 , time;end;on timer;emit 2 , time , wm;end;%%;r a 1 10;r b 2 10;w 10;r b 11 20;|o a 1 1;o b 1 2;o a 2 10 10;o b 2 10 10;w 10;o b 1 11;
input 0;state p value;state q value;on row;both;x = get p or 3;with;y = get q or 4;end;put p y;put q x;emit x , y;end;%%;r a 1;r b 1;r j 1;r a 2;r j 2;|o a 3 4;o b 3 4;o j 3 4;o a 4 3;o j 4 3;
input 1;state n value;state l list;state m map;on row;put n v1;add l v1;put m v1 , time;timer v1;end;%%;r a 1 5;r b 2 6;r a 3 -2;b 1;|s 1 -9223372036854775808;c b n 6;l b l 6;m b m 6 2;t b 6;c a n -2;l a l 5;l a l -2;m a m -2 3;m a m 5 1;t a -2;t a 5;e 1 11;
input 1;state c value;on row;if v1;put c v1;end;emit v1;end;%%;r a 1 5;r b 2 0;|o a 5;o b 0;";

const WAYS: &str = "\
6000 1000 8 128
6000 1000 8 128 1
6000 1000 8 128 1 0 2
6000 1000 8 128 5 3 1
6000 1000 8 128 9 8 7 6 5 4 3 2 1 0
6000 1 8 128
6000 1 8 128 1 0 2 1 0 2
6000 1 8 128 9 8 7 6 5 4 3 2 1 0
6000 1000 1 128 1
6000 1 1 128 5 3 1
1 1000 8 128 1 0 2
1 1 1 128 9 8 7 6
2 1 2 128 1 1 1 1 1 1 1 1
3 2 64 128 3 1 2 3 1 2 3 1 2";

// A key fires 65,536 times at one watermark.
const MANY: &str = "\
input 0;on row;timer 0;end;on timer;timer time + 1;end;%%;r a 1;w 9223372036854775807;b 1;|w 9223372036854775807;s 1 9223372036854775807;t a 65536;e 1 1;";

// A line of this table has a way, an input and the very bytes that it writes. The batch for the shard of b is sent before that for the
// shard of a, and comes back first unless the list of numbers says otherwise.
const EXACT: &str = "\
6000 1 8 128|input 1;state c value;on row;x = get c or 0;put c x + v1;emit x + v1;end;%%;r a 1 5;r b 2 1;|o b 1;o a 5;
6000 1 8 128 1|input 1;state c value;on row;x = get c or 0;put c x + v1;emit x + v1;end;%%;r a 1 5;r b 2 1;|o a 5;o b 1;
6000 1 8 128 0 7|input 1;state c value;on row;x = get c or 0;put c x + v1;emit x + v1;end;%%;r a 1 5;r b 2 1;|o b 1;o a 5;
6000 1 8 128 7|input 1;state c value;on row;x = get c or 0;put c x + v1;emit x + v1;end;%%;r a 1 5;r b 2 1;|o a 5;o b 1;";

// A case under each of some ways.
fn expect_in_ways(rt: &(impl Abort + AllocGlobal), case: &str, ways: &str) -> Result<(), Fail> {
    let alloc = rt.alloc();
    let mut parts = case.split('|');
    let input = fed(alloc, parts.next().unwrap_or(""))?;
    let out = fed(alloc, parts.next().unwrap_or(""))?;
    let sorted = by_key(alloc, out.as_slice())?;
    for way in ways.lines() {
        let written = written_by(rt, way, input.as_slice())?;
        assert_eq!(rt; written.as_str(), sorted.as_str(), "under {way}");
    }
    Ok(())
}

fn expect_bytes(rt: &(impl Abort + AllocGlobal), case: &str) -> Result<(), Fail> {
    let alloc = rt.alloc();
    let mut parts = case.split('|');
    let way = parts.next().unwrap_or("");
    let input = fed(alloc, parts.next().unwrap_or(""))?;
    let out = fed(alloc, parts.next().unwrap_or(""))?;
    let written = bytes_by(rt, way, input.as_slice())?;
    assert_eq!(rt; written.as_slice(), out.as_slice(), "under {way}");
    Ok(())
}

#[test]
fn numbers_choose_the_batch(rt: HostRuntime) -> Result<(), Fail> {
    for case in EXACT.lines() {
        expect_bytes(&rt, case)?;
    }
    Ok(())
}

#[test]
fn batches_come_back_in_any_order(rt: HostRuntime) -> Result<(), Fail> {
    for case in ROWS.lines() {
        expect_in_ways(&rt, case, WAYS)?;
    }
    Ok(())
}

#[test]
fn a_key_fires_65536_times_at_a_watermark(rt: HostRuntime) -> Result<(), Fail> {
    expect_in_ways(&rt, MANY, "6000 1000 8 128 1\n1 1 1 128")
}
