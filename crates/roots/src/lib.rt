// The integer root, from a number that is near it.
#![tactic(auto)]

ghost use Rattle.std.specs.Prelude.{◌≡◌, ◌+◌, ◌*◌, ◌≤◌, ◌<◌};
ghost use Rattle.rules.specs.SolomonDay.{root};

// A number whose square is above s, nearer to the root than `guess` is: the mean of `guess` and s / guess, rounded up.
fn above(s: u32, guess: u32) -> u32
    requires { (s ≤ 1000000000) × (1 ≤ guess) × (guess ≤ 1000000001) }
    ensures { (s < result * result) × (1 ≤ result) × (result ≤ 1000000001) }
{
    (guess + s / guess) / 2 + 1
}

fn square(r: u32) -> u64
    ensures { result ≡ r * r }
{
    u64::from(r) * u64::from(r)
}

// The greatest whole number whose square is at most s. Two steps come to it, or next to it, from a guess that is off by a tenth.
// std's `isqrt` halves sixteen times for each root, and an import asks for a root for each leg: halving was too slow (docs/DECISIONS.md).
pub fn root_of(s: u32, guess: u32) -> u32
    requires { (s ≤ 1000000000) × (1 ≤ guess) × (guess ≤ 1000000001) }
    ensures { result ≡ root s }
{
    let first = above(s, guess);
    let mut r = above(s, first) - 1;
    // No count of steps: it goes down until the square fits.
    while u64::from(s) < square(r) {
        r -= 1;
    }
    r
}
