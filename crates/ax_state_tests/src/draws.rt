//! Numbers that look random, the same in each run.
ghost use Rattle.std.specs.Prelude.{◌≡◌, ◌+◌, ◌*◌, ◌%◌, ◌^◌};

/// The number behind a number, by Knuth's linear congruential generator for 64 bits (MMIX).
pub fn next_draw(draw: u64) -> u64
    ensures { result ≡ (draw * 6364136223846793005 + 1442695040888963407) % 2 ^ 64 }
{
    draw.wrapping_mul(6364136223846793005)
        .wrapping_add(1442695040888963407)
}
