//! Long texts.
ghost use Rattle.std.specs.Prelude.{◌≡◌, ◌++◌, IfOk, replicate};

use ax_base::{Bytes, NoMemory};
use std::alloc::Global;

/// A text, and behind it a byte so many times.
pub fn filled(alloc: Global, text: &[u8], byte: u8, count: usize) -> Result<Bytes, NoMemory>
    ensures { IfOk result (λ bytes. bytes ≡ text.now ++ replicate count byte) }
{
    let mut bytes = Bytes::from_slice(alloc, text)?;
    match vec![in alloc; byte; count] {
        Ok(tail) => bytes.extend_from_slice(&tail)?,
        Err(_) => return Err(NoMemory),
    }
    Ok(bytes)
}
