//! Draws numbers. The multiplier and the increment are Knuth's, of his MMIX.
ghost use Rattle.std.specs.Prelude.{◌≡◌};
ghost use Rattle.trace_gen.specs.Draws.{next_number, drawn};

/// The number that follows is the last one times this, ..
const MULTIPLIER: u128 = 6364136223846793005;

/// .. plus this, below 2^64.
const INCREMENT: u128 = 1442695040888963407;

const NUMBERS: u128 = 1 << 64;

/// What divides a number, so that its 31 highest bits are left.
const LOW_BITS: u64 = 1 << 33;

/// The number that follows.
pub fn next_number(number: u64) -> u64
    ensures { result ≡ next_number number }
{
    ((u128::from(number) * MULTIPLIER + INCREMENT) % NUMBERS) as u64
}

/// What a number gives.
pub fn drawn(number: u64) -> u64
    ensures { result ≡ drawn number }
{
    number / LOW_BITS
}
