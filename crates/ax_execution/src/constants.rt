//! The numbers of epochs.
ghost use Rattle.std.specs.Prelude.{◌≡◌, ℕ, ◌%◌, ◌^◌};
ghost use Rattle.ax_text.specs.Programs.{Program};
ghost use Rattle.ax_execution.specs.Machine.{Closing, Machine, Close, happens, machine_from};
ghost use Rattle.ax_execution.specs.Origins.{Origin};

/// The number of the epoch in which the machine begins.
pub fn first_epoch() -> u64
    ensures { (from : Origin) → result ≡ (machine_from from).epoch }
{
    u64::MIN
}

/// The number of the epoch behind a close: the next one, and 0 behind 2^64 - 1. The machine's own numbers have no end; where a number stands
/// for the current one modulo 2^64, so does the next one behind each close.
pub fn next_epoch(epoch: u64) -> u64
    ensures { (g : ℕ) (p : Program) (c : Closing) (m : Machine) → epoch ≡ m.epoch % 2 ^ 64 → result ≡ (happens g p (Close c) m).epoch % 2 ^ 64 }
{
    epoch.wrapping_add(1)
}
