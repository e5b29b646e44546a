//! What the process does.
ghost use Rattle.std.specs.Prelude.{◌≡◌, map, drop, string_bytes, None, IfOk, IfErr, OnOk};
ghost use Rattle.ax_cli.specs.Status.{code_of, IsRefused, Leaves};
ghost use Rattle.ax_words.specs.Options.{options_of, texts};
ghost use Rattle.ax_cli.specs.declared.status.Status.{Status as AnyStatus};
ghost use Rattle.ax_cli.specs.Program.{listed, asked_by, IsWithout, IsWithoutWords};

use crate::fault_line::write_fault_line;
use crate::run::run_alone;
use crate::status::Status;
use ax_base::{NoMemory, Sink, Source};
use std::alloc::Global;
use std::io::ErrorKind;

// Words as texts.
fn as_texts(alloc: Global, args: &[String]) -> Result<Vec<&str>, NoMemory>
    ensures { IfOk result (λ words. texts words.items ≡ map string_bytes args.now) }
{
    let mut words = Vec::new(alloc);
    for arg in args {
        if words.push(arg.as_str()).is_err() {
            return Err(NoMemory);
        }
    }
    Ok(words)
}

// The words after the program's name.
fn words_behind(alloc: Global, args: &[String]) -> Result<Vec<&str>, NoMemory>
    ensures { IfOk result (λ words. texts words.items ≡ drop 1 (map string_bytes args.now)) }
{
    match args {
        [] => as_texts(alloc, args),
        [_, words @ ..] => as_texts(alloc, words),
    }
}

// The status where there is no list of words.
fn without_words(kind: ErrorKind) -> Status
    ensures { IsWithoutWords kind result }
{
    if kind == ErrorKind::OutOfMemory {
        Status::NoMemory
    } else {
        Status::Usage
    }
}

// The words behind the program's name, or the status where there is no list of them.
fn own_words(alloc: Global, args: &Result<Vec<String>, ErrorKind>) -> Result<Vec<&str>, Status>
    ensures asked { IfOk result (λ words. asked_by (listed (λ v. map string_bytes v.items) args.now) ≡ options_of (texts words.items)) }
    ensures list { OnOk result ((s : AnyStatus) → IsWithout (listed (λ v. map string_bytes v.items) args.now) s) }
    ensures none { IfErr result (λ status. IsWithout (listed (λ v. map string_bytes v.items) args.now) status) }
    ensures usage { IfErr result (λ status. status ≡ Status.Usage → asked_by (listed (λ v. map string_bytes v.items) args.now) ≡ None) }
    ensures refused { IfErr result IsRefused }
{
    match args {
        Ok(args) => match words_behind(alloc, args) {
            Ok(words) => Ok(words),
            Err(NoMemory) => Err(Status::NoMemory),
        },
        Err(kind) => Err(without_words(*kind)),
    }
}

/// Runs the program as it was called, and gives the code with which the process ends.
///
/// `args` are the program's name and the words behind it, or why there is no list of them: for want of memory the status is
/// NoMemory, and for another cause Usage. Everything else is as `run_alone` says.
pub fn run_program<S: Source, K: Sink, E: Sink>(
    alloc: Global,
    args: Result<Vec<String>, ErrorKind>,
    input: &mut S,
    out: &mut K,
    err: &mut E,
) -> u8
    ensures { (status : Status) × (result ≡ code_of status) × IsWithout (listed (λ v. map string_bytes v.items) args) status × Leaves (asked_by (listed (λ v. map string_bytes v.items) args)) (record {
      left = S.left input.old;
      left_behind = S.left input.new;
      out = record { old = K.holds out.old; new = K.holds out.new };
      counts = record { reads = S.faults input.old; writes = K.counts out.old };
      counts_behind = record { reads = S.faults input.new; writes = K.counts out.new };
      err = record { old = E.holds err.old; new = E.holds err.new };
      err_counts = E.counts err.old;
      err_counts_behind = E.counts err.new;
    }) status }
{
    match own_words(alloc, &args) {
        Ok(words) => run_alone(alloc, &words, input, out, err).code(),
        Err(status) => {
            write_fault_line(err, &status);
            status.code()
        }
    }
}
