//! What holds of the definitions. Each is the contract of a function that does nothing, which a
//! caller's proof may cite.
ghost use Rattle.std.specs.Prelude.{◌≡◌, ℤ, Some, FitsSigned};
ghost use Rattle.std.specs.Int.{w64};
ghost use Rattle.std.specs.Fmt.{signed_decimal};
ghost use Rattle.ax_base.specs.Numbers.{number_of};

/// The text that is written of a number of 64 bits spells that number.
pub fn written_number_law()
    ensures { (n : ℤ) → FitsSigned w64 n → number_of (signed_decimal n) ≡ Some n }
{}
