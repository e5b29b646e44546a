//! Lines that are written.
ghost use Rattle.std.specs.Prelude.{◌≡◌, ◌++◌, ◌∷◌, [], OnOk, OnErr};
ghost use Rattle.std.specs.Fmt.{signed_decimal};
ghost use Rattle.std.specs.Io.KnownBytes.{Appends};
ghost use Rattle.ax_base.specs.Outside.{AppendsSome, OwnCounts};
ghost use Rattle.ax_machine.specs.Entries.{Out, Mark, Watermark, says, text_of, entry_text, numbers_text, marker_text};

use ax_base::{NoMemory, Nums, Sink, SinkFault, write_all};
use ax_keys::Key;
use itoa::Buffer;

fn put_bytes(text: &mut Vec<u8>, bytes: &[u8]) -> Result<(), NoMemory>
    ensures { OnOk result (text.new.items ≡ text.old.items ++ bytes.now) }
{
    match text.extend_from_slice(bytes) {
        Ok(()) => Ok(()),
        Err(_) => Err(NoMemory),
    }
}

fn put_byte(text: &mut Vec<u8>, byte: u8) -> Result<(), NoMemory>
    ensures { OnOk result (text.new.items ≡ text.old.items ++ byte ∷ []) }
{
    match text.push(byte) {
        Ok(()) => Ok(()),
        Err(_) => Err(NoMemory),
    }
}

// Writes a space and a number.
fn put_number(text: &mut Vec<u8>, number: &i64) -> Result<(), NoMemory>
    ensures { OnOk result (text.new.items ≡ text.old.items ++ 32 ∷ signed_decimal number.now) }
{
    let mut digits = Buffer::new();
    put_byte(text, b' ')?;
    put_bytes(text, digits.format(*number).as_bytes())
}

fn put_numbers(text: &mut Vec<u8>, numbers: &[i64]) -> Result<(), NoMemory>
    ensures { OnOk result (text.new.items ≡ text.old.items ++ numbers_text numbers.now) }
{
    for number in numbers {
        put_number(text, number)?;
    }
    Ok(())
}

// The text becomes one output line.
fn put_line(text: &mut Vec<u8>, key: &[u8], numbers: &[i64]) -> Result<(), NoMemory>
    ensures { OnOk result (text.new.items ≡ entry_text (Out key.now numbers.now)) }
{
    text.clear();
    put_bytes(text, b"o ")?;
    put_bytes(text, key)?;
    put_numbers(text, numbers)?;
    put_byte(text, b'\n')
}

// The text becomes the line of a watermark.
fn put_mark(text: &mut Vec<u8>, time: &i64) -> Result<(), NoMemory>
    ensures { OnOk result (text.new.items ≡ marker_text (Watermark time.now)) }
{
    let mut digits = Buffer::new();
    text.clear();
    put_bytes(text, b"w ")?;
    put_bytes(text, digits.format(*time).as_bytes())?;
    put_bytes(text, b"\n")
}

// Writes one output line. After an error the sink took a prefix of it.
fn write_line<K: Sink>(
    text: &mut Vec<u8>,
    key: &Key,
    numbers: &[i64],
    out: &mut K,
) -> Result<(), SinkFault>
    ensures lines { OnOk result (Appends (K.holds out.old) (K.holds out.new) (entry_text (Out key.now numbers.now))) }
    ensures part { OnErr result (AppendsSome (K.holds out.old) (K.holds out.new) (entry_text (Out key.now numbers.now))) }
    ensures counts { OwnCounts (K.counts out.old) (K.counts out.new) result }
    ensures base { K.base out.new ≡ K.base out.old }
{
    let Ok(()) = put_line(text, key.as_bytes(), numbers) else {
        return Err(SinkFault::NoMemory);
    };
    write_all(out, text.as_slice())
}

/// Writes the output lines of a key. `text` is room for a line. After an error the sink took a prefix of them.
pub fn write_lines<K: Sink>(
    text: &mut Vec<u8>,
    key: &Key,
    lines: &[Nums],
    out: &mut K,
) -> Result<(), SinkFault>
    ensures lines { OnOk result (Appends (K.holds out.old) (K.holds out.new) (text_of (says key.now lines.now))) }
    ensures part { OnErr result (AppendsSome (K.holds out.old) (K.holds out.new) (text_of (says key.now lines.now))) }
    ensures counts { OwnCounts (K.counts out.old) (K.counts out.new) result }
    ensures base { K.base out.new ≡ K.base out.old }
{
    'line: for line in lines {
        write_line(text, key, line.as_slice(), out)?;
    }
    Ok(())
}

/// Writes the line of a watermark. `text` is room for a line. After an error the sink took a prefix of it.
pub fn write_mark<K: Sink>(text: &mut Vec<u8>, time: &i64, out: &mut K) -> Result<(), SinkFault>
    ensures lines { OnOk result (Appends (K.holds out.old) (K.holds out.new) (entry_text (Mark (Watermark time.now)))) }
    ensures part { OnErr result (AppendsSome (K.holds out.old) (K.holds out.new) (entry_text (Mark (Watermark time.now)))) }
    ensures counts { OwnCounts (K.counts out.old) (K.counts out.new) result }
    ensures base { K.base out.new ≡ K.base out.old }
{
    let Ok(()) = put_mark(text, time) else {
        return Err(SinkFault::NoMemory);
    };
    write_all(out, text.as_slice())
}
