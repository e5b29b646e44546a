//! The watermark before the first.
ghost use Rattle.std.specs.Prelude.{◌≡◌};
ghost use Rattle.ax_machine.specs.Sync.{first_wm};

/// The watermark that holds before the first one came: -2^63.
pub fn first_watermark() -> i64
    ensures { result ≡ first_wm }
{
    i64::MIN
}
