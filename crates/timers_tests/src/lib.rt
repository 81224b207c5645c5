// Tests of the two sets of timers, against a plain search and against each other.
#![tactic(auto)]

ghost use Rattle.std.specs.Prelude.{◌≡◌, ◌+◌, ◌*◌, ◌%◌, ◌^◌};

#[cfg(test)]
mod tests;

// The next number of a sequence that looks random.
pub fn next(seed: u64) -> u64
    ensures { result ≡ (seed * 6364136223846793005 % 2 ^ 64 + 1442695040888963407) % 2 ^ 64 }
{
    seed.wrapping_mul(6364136223846793005)
        .wrapping_add(1442695040888963407)
}
