//! The command line as `clap` is told of it.
ghost use Rattle.std.specs.Prelude.{◌≡◌, [], true, false, IfOk};
ghost use Rattle.clap.specs.Words.{app_of, rule_of};
ghost use Rattle.clap.specs.Simple.{with_rule};
ghost use Rattle.ax_words.specs.Words.{spellings_of};
ghost use Rattle.ax_words.specs.Options.{options};
ghost use Rattle.ax_words.specs.Command.{app_for, rule_for};

use clap::{Arg, ArgAction, Command};
use std::alloc::{AllocError, Global};

// An option with a value.
fn option<'a>(alloc: Global, name: &'a str) -> Arg<'a>
    ensures rule { rule_of result ≡ rule_for (name.entry.now, true) }
    ensures local { result.global ≡ false }
{
    Arg::new(alloc, name).long(name).action(ArgAction::Set)
}

// The command with no option.
fn bare_command<'a>(alloc: Global) -> Command<'a>
    ensures { app_of result ≡ app_for [] }
{
    Command::new(alloc, "ax")
        .no_binary_name(true)
        .disable_help_flag(true)
        .disable_version_flag(true)
}

// A command with one more option.
fn with_option<'a>(
    command: Command<'a>,
    alloc: Global,
    name: &'a str,
) -> Result<Command<'a>, AllocError>
    ensures { IfOk result (λ c. app_of c ≡ with_rule (app_of command.entry) (rule_for (name.entry.now, true))) }
{
    command.arg(option(alloc, name))
}

/// The command with all options.
pub(crate) fn command<'a>(alloc: Global) -> Result<Command<'a>, AllocError>
    ensures { IfOk result (λ c. app_of c ≡ app_for (spellings_of options)) }
{
    let command = with_option(bare_command(alloc), alloc, "max-parallelism")?;
    let command = with_option(command, alloc, "in-flight")?;
    let command = with_option(command, alloc, "batch")?;
    let command = with_option(command, alloc, "shards")?;
    with_option(command, alloc, "io-threads")
}
