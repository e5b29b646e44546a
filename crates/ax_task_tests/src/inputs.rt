//! Inputs for the tests.
ghost use Rattle.std.specs.Prelude.{◌≡◌, ◌++◌, IfOk};

use ax_base::{Bytes, NoMemory};
use std::alloc::Global;

/// A program, and the events behind it.
pub fn with_events(alloc: Global, program: &[u8], events: &[u8]) -> Result<Bytes, NoMemory>
    ensures { IfOk result (λ input. input ≡ program.now ++ events.now) }
{
    let mut input = Bytes::from_slice(alloc, program)?;
    input.extend_from_slice(events)?;
    Ok(input)
}

/// A text with line feeds in place of `;`.
pub fn fed(alloc: Global, text: &str) -> Result<Bytes, NoMemory> {
    let mut bytes = Bytes::new(alloc);
    for byte in text.as_bytes() {
        bytes.push(if *byte == b';' { b'\n' } else { *byte })?;
    }
    Ok(bytes)
}
