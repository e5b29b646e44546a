//! Worked lines: each form of an event and of an output line both ways, and lines that are none.
use crate::fills::filled;
use ax_base::{Bytes, Nums};
use ax_input::{
    Event, EventFault, OutLine, SnapLine, is_skipped, put_end, put_event, put_head, put_out,
    put_out_line, put_timer, put_value, put_watermark, read_event, read_out_line,
};
use ax_keys::Key;
use std::alloc::Global;
use std::test::Fail;

#[test]
fn lines_that_are_skipped(rt: HostRuntime) -> Result<(), Fail> {
    let cases: [(&str, bool); 6] = [
        ("", true),
        (" \t\r", true),
        ("#", true),
        ("  # r a 1", true),
        ("r # 1", false),
        ("%%", false),
    ];
    for (text, skipped) in cases {
        assert_eq!(rt; is_skipped(text.as_bytes()), skipped);
    }
    Ok(())
}

// Why a line is no event; `None` where it is one.
fn fault_of(alloc: Global, text: &[u8], fields: u8) -> Option<EventFault> {
    read_event(alloc, text, fields).err()
}

#[test]
fn first_faults_of_events(rt: HostRuntime) -> Result<(), Fail> {
    let cases: [(&[u8], u8, Option<EventFault>); 23] = [
        (b"r a 1 5", 1, None),
        (b"  r\ta  1 \r", 0, None),
        (b"r a 1", 1, Some(EventFault::Count)),
        (b"r a 1 5 6", 1, Some(EventFault::Count)),
        (b"r", 1, Some(EventFault::Count)),
        (b"r \x7f 1", 1, Some(EventFault::Count)),
        (b"r \x7f - -", 1, Some(EventFault::Key)),
        (b"r a 1 -", 1, Some(EventFault::Number)),
        (b"r a 9223372036854775808 1", 1, Some(EventFault::Number)),
        (b"w -3", 1, None),
        (b"w", 1, Some(EventFault::Count)),
        (b"w 3 4", 1, Some(EventFault::Count)),
        (b"w x", 1, Some(EventFault::Number)),
        (b"b 1", 1, None),
        (b"b", 1, Some(EventFault::Count)),
        (b"b 0 x", 1, Some(EventFault::Count)),
        (b"b 0", 1, Some(EventFault::Number)),
        (b"b -1", 1, Some(EventFault::Number)),
        (b"b 1x", 1, Some(EventFault::Number)),
        (b"bb 1", 1, Some(EventFault::Word)),
        (b"x", 1, Some(EventFault::Word)),
        (b"rr a 1 5", 1, Some(EventFault::Word)),
        (b"", 1, Some(EventFault::Word)),
    ];
    for (text, fields, wanted) in cases {
        assert_eq!(rt; fault_of(rt.alloc(), text, fields), wanted);
    }
    Ok(())
}

#[test]
fn events_both_ways(rt: HostRuntime) -> Result<(), Fail> {
    let cases: [(&str, u8, &str); 5] = [
        ("r a 1 5", 1, ">r a 1 5\n"),
        (" r\t!~ -0  007\r", 1, ">r !~ 0 7\n"),
        (
            "r k -9223372036854775808 9223372036854775807 -1",
            2,
            ">r k -9223372036854775808 9223372036854775807 -1\n",
        ),
        ("\tw  -03", 1, ">w -3\n"),
        ("b 9223372036854775807 ", 2, ">b 9223372036854775807\n"),
    ];
    for (text, fields, wanted) in cases {
        let mut out = Bytes::from_slice(rt.alloc(), b">")?;
        match read_event(rt.alloc(), text.as_bytes(), fields) {
            Ok(event) => put_event(rt.alloc(), &mut out, &event)?,
            Err(_) => assert!(rt; false),
        }
        assert_eq!(rt; out.as_slice(), wanted.as_bytes());
    }
    Ok(())
}

#[test]
fn output_lines_both_ways(rt: HostRuntime) -> Result<(), Fail> {
    let cases: [(&str, &str); 11] = [
        ("o a 5", "o a 5\n"),
        (
            "o k 1 2 3 4 5 6 7 8 9 10 11 12 13 14 15 16",
            "o k 1 2 3 4 5 6 7 8 9 10 11 12 13 14 15 16\n",
        ),
        ("w 3", "w 3\n"),
        (
            "\ts  1\t-9223372036854775808\r",
            "s 1 -9223372036854775808\n",
        ),
        ("c a n 05", "c a n 5\n"),
        ("l a l -2", "l a l -2\n"),
        ("m a m -2 3", "m a m -2 3\n"),
        ("t a 65536", "t a 65536\n"),
        ("e 1 0", "e 1 0\n"),
        ("e -7 9223372036854775807", "e -7 9223372036854775807\n"),
        ("e 1 -0", "e 1 0\n"),
    ];
    for (text, wanted) in cases {
        let mut out = Bytes::new(rt.alloc());
        match read_out_line(rt.alloc(), text.as_bytes())? {
            Some(line) => put_out_line(rt.alloc(), &mut out, &line)?,
            None => assert!(rt; false),
        }
        assert_eq!(rt; out.as_slice(), wanted.as_bytes());
    }
    Ok(())
}

#[test]
fn texts_that_are_no_output_line(rt: HostRuntime) -> Result<(), Fail> {
    let cases: [&str; 20] = [
        "",
        "q",
        "# w 3",
        "oo a 5",
        "o a",
        "o k 1 2 3 4 5 6 7 8 9 10 11 12 13 14 15 16 17",
        "o \x7f 5",
        "o a 5 x",
        "o a 9223372036854775808",
        "w",
        "w 3 4",
        "s 1",
        "s 1 2 3",
        "c a N 5",
        "c a list 5",
        "l a v1 5",
        "m a m 5",
        "t a",
        "e 1 -1",
        "e 1 9223372036854775808",
    ];
    for text in cases {
        assert!(rt; read_out_line(rt.alloc(), text.as_bytes())?.is_none());
    }
    Ok(())
}

#[test]
fn longest_keys(rt: HostRuntime) -> Result<(), Fail> {
    for length in [256, 257] {
        let mut text = filled(rt.alloc(), b"t ", b'k', length)?;
        text.extend_from_slice(b" 5")?;
        let line = read_out_line(rt.alloc(), text.as_slice())?;
        assert_eq!(rt; line.is_some(), length == 256);
    }
    Ok(())
}

#[test]
fn lines_that_are_built(rt: HostRuntime) -> Result<(), Fail> {
    let Some(key) = Key::read(rt.alloc(), b"a")? else {
        assert!(rt; false);
        return Ok(());
    };
    let mut out = Bytes::new(rt.alloc());
    put_out_line(rt.alloc(), &mut out, &OutLine::Mark { time: 3 })?;
    put_watermark(rt.alloc(), &mut out, -3)?;
    put_out(rt.alloc(), &mut out, &key, &[5, -5])?;
    put_head(rt.alloc(), &mut out, 1, -1)?;
    let state = Bytes::from_slice(rt.alloc(), b"n")?;
    put_value(rt.alloc(), &mut out, &key, &state, -2)?;
    put_timer(rt.alloc(), &mut out, &key, 7)?;
    put_end(rt.alloc(), &mut out, 1, 2)?;
    let line = SnapLine::End { id: 1, count: 11 };
    put_out_line(rt.alloc(), &mut out, &OutLine::Snap { line })?;
    let values = Nums::from_slice(rt.alloc(), &[5])?;
    let row = Event::Row {
        key,
        time: 1,
        values,
    };
    put_event(rt.alloc(), &mut out, &row)?;
    assert_eq!(rt;
        out.as_slice(),
        b"w 3\nw -3\no a 5 -5\ns 1 -1\nc a n -2\nt a 7\ne 1 2\ne 1 11\nr a 1 5\n".as_slice()
    );
    Ok(())
}
