// A row of roots, in three loops: estimates, trials, and the roots. The first two have no branch, and
// are compiled to vector instructions.
ghost use Rattle.std.specs.Prelude.{◌≡◌, map, ◌+◌, ◌≤◌, ◌<◌, length};
ghost use Rattle.root.specs.Inner.Trials.{Tried, AllTried};
ghost use Rattle.root.specs.Root.{square_root};

use crate::{bits, operand, seed, trial};

// The bits of an estimate for each element.
fn estimate_all(xs: &[f64], work: &mut [u64])
    requires { length xs.now ≤ length work.old }
{
    for (i, x) in xs.iter().enumerate() {
        work[i] = seed::estimate(operand::reduced(operand::pattern_of(*x)));
    }
}

// Each estimate becomes what the trial of its element says.
fn try_all(xs: &[f64], work: &mut [u64])
    requires { length xs.now ≤ length work.old }
    ensures { AllTried (length xs.now) xs.now work.new }
{
    for (i, x) in xs.iter().enumerate() {
        work[i] = trial::try_root(*x, work[i]);
    }
}

// The root of x, by its trial; without it where there are objections.
fn settled(x: f64, tried: u64) -> f64
    requires { Tried x tried }
    ensures { result ≡ square_root x }
{
    if tried < 0x8000_0000_0000_0000 {
        return f64::from_bits(tried);
    }
    bits::root(x)
}

// Each element becomes its root.
fn settle_all(xs: &mut [f64], work: &[u64])
    requires { (length xs.old ≤ length work.now) × AllTried (length xs.old) xs.old work.now }
    ensures { xs.new ≡ map square_root xs.old }
{
    for i in 0..xs.len() {
        xs[i] = settled(xs[i], work[i]);
    }
}

// Each of at most 64 elements becomes its root.
pub fn roots(xs: &mut [f64])
    requires { length xs.old ≤ 64 }
    ensures { xs.new ≡ map square_root xs.old }
{
    let mut work = [0u64; 64];
    estimate_all(&xs[..], &mut work[..]);
    try_all(&xs[..], &mut work[..]);
    settle_all(xs, &work[..]);
}
