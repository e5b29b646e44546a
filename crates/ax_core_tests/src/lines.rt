//! What was written, by keys.
use std::alloc::Global;
use std::process::Abort;

// Whether a line begins with one of the heads, which commas part.
fn begins(line: &str, heads: &str) -> bool {
    for head in heads.split(',') {
        if line.starts_with(head) {
            return true;
        }
    }
    false
}

/// The lines that begin with one of these heads, in order. In the text each line ends with this letter.
pub fn kept(rt: &impl Abort, alloc: Global, text: &str, end: char, heads: &str) -> String {
    let mut kept = String::new(alloc);
    for line in text.split(end) {
        if begins(line, heads) {
            write!(kept, "{line};").expect(rt, "memory");
        }
    }
    kept
}

/// How many lines begin with one of these heads.
pub fn count(text: &str, end: char, heads: &str) -> u64 {
    let mut count: u64 = 0;
    for line in text.split(end) {
        if begins(line, heads) {
            count = count.wrapping_add(1);
        }
    }
    count
}

// What has to be the same: in serial mode each key's lines and all markers between them; else its lines with the barriers
// between them, and the markers.
fn views(serial: bool) -> &'static str {
    if serial {
        "o a ,w ,s ;o b ,w ,s ;o c ,w ,s "
    } else {
        "o a ,s ;o b ,s ;o c ,s ;w ,s "
    }
}

/// The part in which what was told differs from what was written, if any. Each line that was written ends with this letter.
pub fn differs(
    rt: &impl Abort,
    alloc: Global,
    told: &str,
    written: &str,
    end: char,
    serial: bool,
) -> &'static str {
    for heads in views(serial).split(';') {
        let ours = kept(rt, alloc, told, ';', heads);
        let theirs = kept(rt, alloc, written, end, heads);
        if ours.as_str() != theirs.as_str() {
            return heads;
        }
    }
    ""
}

// For each marker, how many lines with this head stand before it.
fn places(rt: &impl Abort, alloc: Global, text: &str, end: char, head: &str) -> Vec<u64> {
    let mut places = Vec::new(alloc);
    let mut before: u64 = 0;
    for line in text.split(end) {
        if begins(line, head) {
            before = before.wrapping_add(1);
        }
        if begins(line, "w ,s ") {
            places.push(before).expect(rt, "memory");
        }
    }
    places
}

/// Whether a marker was told before a line with this head behind which it was written.
pub fn is_early(rt: &impl Abort, alloc: Global, told: &str, written: &str, head: &str) -> bool {
    let ours = places(rt, alloc, told, ';', head);
    let theirs = places(rt, alloc, written, '\n', head);
    for (our, their) in ours.iter().zip(theirs.iter()) {
        if our < their {
            return true;
        }
    }
    false
}
