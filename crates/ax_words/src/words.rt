//! The reader of the command line's words.
ghost use Rattle.std.specs.Prelude.{◌≡◌, ◌≤◌, IfOk, IfErr, IfSome, None, Some, if◌then◌else◌};
ghost use Rattle.std.specs.List.{All};
ghost use Rattle.std.specs.Str.{IsUtf8};
ghost use Rattle.clap.specs.Words.{found_of, first_value};
ghost use Rattle.clap.specs.declared.error.kind.ErrorKind.TheVariants.{OutOfMemory};
ghost use Rattle.ax_words.specs.Words.{Number, is_fine, number_if_on, number_in};
ghost use Rattle.ax_words.specs.Options.{AreInRange, options_of, options_with, shards, shards_of, texts};

use crate::command::command;
use crate::options::{Options, WordFault};
use ax_base::read_i64;
use clap::error::ErrorKind;
use clap::{ArgMatches, Error};
use std::alloc::Global;

// What an error of clap means.
fn fault_of(error: Error) -> WordFault
    ensures { result ≡ WordFault.Usage → error.kind ≡ OutOfMemory → ⊥ }
{
    match error.kind() {
        ErrorKind::OutOfMemory => WordFault::NoMemory,
        _ => WordFault::Usage,
    }
}

// Each word is text.
fn note_texts(words: &[&str])
    ensures { All IsUtf8 (texts words.now) }
{
    for word in words {
        note_text(word);
    }
}

fn note_text(word: &str)
    ensures { IsUtf8 word.now }
{}

// The number in this range that a value spells.
fn number_in(value: &str, least: u32, greatest: u32) -> Option<u32>
    ensures number { result ≡ number_in least greatest value.now }
    ensures range { IfSome result (λ n. (least ≤ n) × (n ≤ greatest)) }
{
    let text = value.as_bytes();
    if let [b'-', ..] = text {
        return None;
    }
    let number = u32::try_from(read_i64(text)?).ok()?;
    if least <= number && number <= greatest {
        Some(number)
    } else {
        None
    }
}

// The number of an option, by the value that clap found or its default.
fn number_found(
    matches: &ArgMatches,
    name: &str,
    least: u32,
    greatest: u32,
    default: &str,
) -> Option<u32>
    ensures number { result ≡ number_if_on (first_value (found_of matches.now)) (record { name = name.now; takes = Number least greatest; default = Some default.now }) }
    ensures range { IfSome result (λ n. (least ≤ n) × (n ≤ greatest)) }
{
    number_in(matches.get_str(name).unwrap_or(default), least, greatest)
}

// The number of shards with so many key groups.
fn shards_found(matches: &ArgMatches, groups: u32) -> Option<u32>
    ensures number { result ≡ (if is_fine shards.takes (first_value (found_of matches.now) shards.name) then shards_of (first_value (found_of matches.now)) groups else None) }
    ensures range { IfSome result (λ n. (n ≤ 64) × (n ≤ groups)) }
{
    let count = match matches.get_str("shards") {
        None => groups.min(8),
        Some(value) => number_in(value, 1, 64)?,
    };
    if count <= groups { Some(count) } else { None }
}

// What the values that clap found ask for.
fn options_found(matches: &ArgMatches) -> Option<Options>
    ensures { result ≡ options_with (first_value (found_of matches.now)) }
{
    let groups = number_found(matches, "max-parallelism", 1, 32768, "128")?;
    let in_flight = number_found(matches, "in-flight", 1, 65536, "6000")?;
    let batch = number_found(matches, "batch", 1, 65536, "1000")?;
    let shards = shards_found(matches, groups)?;
    let io_threads = number_found(matches, "io-threads", 0, 0, "0")?;
    Some(Options {
        max_parallelism: groups as u16,
        in_flight,
        batch,
        shards: shards as u16,
        io_threads: io_threads as u16,
    })
}

/// Reads the words that stand behind the program's name.
///
/// `Usage` comes exactly where the words are refused, but for want of memory, which is free.
pub fn read_words(alloc: Global, words: &[&str]) -> Result<Options, WordFault>
    ensures accepted { IfOk result (λ o. options_of (texts words.now) ≡ Some o) }
    ensures refused { IfErr result (λ e. e ≡ WordFault.Usage → options_of (texts words.now) ≡ None) }
    ensures ranges { IfOk result AreInRange }
{
    note_texts(words);
    let Ok(command) = command(alloc) else {
        return Err(WordFault::NoMemory);
    };
    match command.try_get_matches_from(words) {
        Ok(matches) => options_found(&matches).ok_or(WordFault::Usage),
        Err(error) => Err(fault_of(error)),
    }
}
