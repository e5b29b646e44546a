//! The top call.
ghost use Rattle.std.specs.Prelude.{◌≡◌, ◌<◌, true, None, Some, IfOk, IfErr, OnOk, option_map};
ghost use Rattle.ax_base.specs.Outside.{Told};
ghost use Rattle.ax_core.specs.Sound.{InRange};
ghost use Rattle.ax_task.specs.Parse.{parse};
ghost use Rattle.ax_words.specs.Options.{options_of, texts};
ghost use Rattle.ax_cli.specs.Status.{config_for, groups_by, AreAccepted, StatusOf, StatusStops, StatusCounts, AreUntouched, IsRefused, NoFault, IsNamed, IsProgramNamed};
ghost use Rattle.ax_cli.specs.FaultLine.{WritesLine, line_of};

use crate::fault_line::write_fault_line;
use crate::status::Status;
use ax_base::{Nums, Sink, Source};
use ax_task::{Config, Settings, run_task_alone};
use ax_words::{Options, WordFault, read_words};
use std::alloc::Global;

// How the program works by these options.
fn config_for(options: &Options) -> Config
    ensures { result ≡ config_for options.now }
{
    Config {
        settings: Settings {
            serial: true,
            shards: options.shards,
            groups: options.max_parallelism,
            in_flight: options.in_flight,
        },
        batch: options.batch,
    }
}

// How the program works by the words.
fn config_of(alloc: Global, words: &[&str]) -> Result<Config, WordFault>
    ensures config { IfOk result (λ c. option_map config_for (options_of (texts words.now)) ≡ Some c) }
    ensures refused { IfErr result (λ e. e ≡ WordFault.Usage → options_of (texts words.now) ≡ None) }
    ensures ranges { IfOk result (λ c. InRange c.settings) }
    ensures contexts { IfOk result (λ c. 0 < c.settings.in_flight) }
    ensures batch { IfOk result (λ c. 0 < c.batch) }
    ensures groups { IfOk result (λ c. c.settings.groups ≡ groups_by (options_of (texts words.now))) }
    ensures serial { IfOk result (λ c. c.settings.serial ≡ true) }
    ensures accepted { OnOk result (AreAccepted (options_of (texts words.now))) }
{
    match read_words(alloc, words) {
        Ok(options) => Ok(config_for(&options)),
        Err(fault) => Err(fault),
    }
}

// The run without its line.
fn run_words<S: Source, K: Sink>(
    alloc: Global,
    words: &[&str],
    input: &mut S,
    out: &mut K,
) -> Status
    ensures usage { result ≡ Status.Usage → options_of (texts words.now) ≡ None }
    ensures refused { options_of (texts words.now) ≡ None → IsRefused result }
    ensures untouched { options_of (texts words.now) ≡ None → AreUntouched (S.left input.old) (S.left input.new) (record { old = K.holds out.old; new = K.holds out.new }) (record { reads = S.faults input.old; writes = K.counts out.old }) (record { reads = S.faults input.new; writes = K.counts out.new }) }
    ensures told { Told (S.left input.old) (S.left input.new)
        (λ a b. StatusOf (groups_by (options_of (texts words.now))) (record { old = K.holds out.old; new = K.holds out.new }) (parse a) b result) }
    ensures stopped { Told (S.left input.old) (S.left input.new)
        (λ a b. StatusStops (groups_by (options_of (texts words.now))) (record { old = K.holds out.old; new = K.holds out.new }) a b result) }
    ensures counts { StatusCounts (record { reads = S.faults input.old; writes = K.counts out.old }) (record { reads = S.faults input.new; writes = K.counts out.new }) result }
{
    match config_of(alloc, words) {
        Ok(config) => {
            let order = Nums::new(alloc);
            Status::of_end(run_task_alone(alloc, &config, order, input, out))
        }
        Err(WordFault::Usage) => Status::Usage,
        Err(WordFault::NoMemory) => Status::NoMemory,
    }
}

/// Does all that the program does, in one thread.
///
/// `words` are the words after the program's name; what they ask for is `options_of`, and they are
/// refused where it is nothing. The program and its events come from `input`, the lines of the events go to `out`, and one
/// line that tells of an end other than Ok goes to `err`. No answer of `err` changes the status.
///
/// Want of memory is free. Where the words are refused the status is Usage, and nothing is read or
/// written. Otherwise the status is the one that the bytes of the input name, but
/// Read comes where a read fault was counted, and Write where a write fault of `out` was.
///
/// At Ok and Input a lawful list of lines was written for all events before the end or the fault; at
/// Read, for those of the whole lines that were taken, none of which has a fault. At Write and NoMemory a prefix was written of
/// a list that is lawful so far for them. Nothing was written where there is no program: then Write
/// does not come, and Read only where the section did not end in the whole lines that were taken.
pub fn run_alone<S: Source, K: Sink, E: Sink>(
    alloc: Global,
    words: &[&str],
    input: &mut S,
    out: &mut K,
    err: &mut E,
) -> Status
    ensures usage { result ≡ Status.Usage → options_of (texts words.now) ≡ None }
    ensures refused { options_of (texts words.now) ≡ None → IsRefused result }
    ensures untouched { options_of (texts words.now) ≡ None → AreUntouched (S.left input.old) (S.left input.new) (record { old = K.holds out.old; new = K.holds out.new }) (record { reads = S.faults input.old; writes = K.counts out.old }) (record { reads = S.faults input.new; writes = K.counts out.new }) }
    ensures told { Told (S.left input.old) (S.left input.new)
        (λ a b. StatusOf (groups_by (options_of (texts words.now))) (record { old = K.holds out.old; new = K.holds out.new }) (parse a) b result) }
    ensures stopped { Told (S.left input.old) (S.left input.new)
        (λ a b. StatusStops (groups_by (options_of (texts words.now))) (record { old = K.holds out.old; new = K.holds out.new }) a b result) }
    ensures counts { StatusCounts (record { reads = S.faults input.old; writes = K.counts out.old }) (record { reads = S.faults input.new; writes = K.counts out.new }) result }
    ensures complete { AreAccepted (options_of (texts words.now)) → NoFault (S.faults input.old) (S.faults input.new) → NoFault (K.counts out.old).faults (K.counts out.new).faults →
        Told (S.left input.old) (S.left input.new) (λ a b. IsNamed (parse a) result) }
    ensures no_program { AreAccepted (options_of (texts words.now)) → NoFault (S.faults input.old) (S.faults input.new) →
        Told (S.left input.old) (S.left input.new) (λ a b. IsProgramNamed (parse a) result) }
    ensures line { WritesLine (record { old = E.holds err.old; new = E.holds err.new }) (E.counts err.old) (E.counts err.new) (line_of result) }
{
    let status = run_words(alloc, words, input, out);
    write_fault_line(err, &status);
    status
}
