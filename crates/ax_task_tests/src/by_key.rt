//! Outputs in which keys may have overtaken each other between two markers.
use std::alloc::{AllocError, Global};

// A line, and behind how many changes between lines of keys and of markers it stands. A marker's line has no key.
#[derive(Drop)]
struct Placed<'a> {
    changes: usize,
    key: &'a str,
    line: &'a str,
}

// The key of an output line, where it has one.
fn key_of(line: &str) -> &str {
    match line.strip_prefix("o ") {
        Some(rest) => rest.split(' ').next().unwrap_or(""),
        None => "",
    }
}

fn lines_of<'a>(alloc: Global, text: &'a str) -> Result<Vec<Placed<'a>>, AllocError> {
    let mut lines = Vec::new(alloc);
    let mut changes = 0usize;
    let mut in_marker = false;
    for line in text.lines() {
        let key = key_of(line);
        if key.is_empty() != in_marker {
            in_marker = key.is_empty();
            changes = changes.saturating_add(1);
        }
        lines.push(Placed { changes, key, line })?;
    }
    Ok(lines)
}

/// The lines of an output, sorted by key between two markers: two outputs give the same where each key has the same lines in
/// the same order, and each marker stands behind the same lines of each key.
pub fn by_key(alloc: Global, output: &[u8]) -> Result<String, AllocError> {
    let mut lines = lines_of(alloc, str::from_utf8(output).unwrap_or(""))?;
    lines.sort_by_key(|placed| (placed.changes, placed.key))?;
    let mut sorted = String::new(alloc);
    for placed in &lines {
        sorted.push_str(placed.line)?;
        sorted.push('\n')?;
    }
    Ok(sorted)
}
