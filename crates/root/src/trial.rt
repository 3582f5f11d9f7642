// A root tried by code without a branch, which a loop compiles to vector instructions. A trial tells
// how many objections it has to its own answer; where there are none, the answer is right.
//
// Two tests find the whole number that is nearest to the root of n, the scaled operand, from an
// estimate q. The square of q as a float is correctly rounded, so where it lies within four floats of
// the operand, n - q² is small; a small difference is known from its last 61 binary digits, and those
// take two small products. The difference then tells which of q - 1, q and q + 1 is nearest.
ghost use Rattle.std.specs.Prelude.{◌≡◌, ◌+◌, ◌*◌, ◌%◌, ◌^◌, ◌≤◌, ◌<◌};
ghost use Rattle.root.specs.Inner.Reduced.{scaled};
ghost use Rattle.root.specs.Inner.Trials.{Near, TriedDigits, Tried};

use crate::operand::{self, Operand};

// The digits that a trial takes for a root's, and how many objections it has to them.
#[derive(Clone, Copy, Debug, PartialEq, Eq)]
pub struct Trial {
    pub digits: u64,
    pub objections: u64,
}

// A number of 53 digits that is tried for a root's.
#[derive(Clone, Copy, Debug, PartialEq, Eq)]
struct Guess {
    digits: u64,
    ghost least: { 2 ^ 52 ≤ digits },
    ghost most: { digits < 2 ^ 53 },
}

// q² but for a multiple of 2 ^ 61, by two products: q is split into 22 and 31 digits. (The remainder
// tells the compiler that the upper ones are 22.)
fn low_square(guess: Guess) -> u64
    ensures { (result < 2 ^ 63) × (result % 2 ^ 61 ≡ guess.digits * guess.digits % 2 ^ 61) }
{
    let q = guess.digits;
    let h = q / 0x8000_0000 % 0x40_0000;
    let l = q % 0x8000_0000;
    h * l % 0x4000_0000 * 0x1_0000_0000 + l * l
}

// n - q² + 3 * 2 ^ 52 but for a multiple of 2 ^ 61, with n the scaled operand.
fn low_difference(operand: Operand, guess: Guess) -> u64
    ensures { let q = guess.digits in
        (result < 2 ^ 61) × ((result + q * q) % 2 ^ 61 ≡ (scaled operand.pattern + 3 * 2 ^ 52) % 2 ^ 61) }
{
    let pattern = operand.pattern;
    let low = pattern % 0x200 * (2 - pattern / 0x10_0000_0000_0000 % 2);
    (low * 0x10_0000_0000_0000 + 0x8030_0000_0000_0000 - low_square(guess)) % 0x2000_0000_0000_0000
}

// How many of two objections there are to q: the float square of q's float lies four floats or more
// below a, or four or more above it.
fn apart(operand: Operand, guess: Guess) -> u64
    ensures { let q = guess.digits in (result ≤ 2) × (result ≡ 0 → Near (scaled operand.pattern) (q * q)) }
{
    let pattern = operand.pattern;
    let q = guess.digits;
    let first = pattern - pattern % 0x10_0000_0000_0000;
    let r = f64::from_bits(first + (q - 0x10_0000_0000_0000));
    let low = f64::from_bits(pattern - 4);
    let high = f64::from_bits(pattern + 4);
    let square = r * r;
    let below = if low < square { 0 } else { 1 };
    let above = if square < high { 0 } else { 1 };
    below + above
}

// The root's 53 digits for a reduced operand, from the bits of an estimate: those of the estimate, or
// of a neighbour. `up` is 1 where n is above q² + q, and `down` where it is not above q² - q; both are
// carries into digit 62. A difference of 3 * 2 ^ 52 or more is an objection.
pub fn try_digits(operand: Operand, estimate: u64) -> Trial
    ensures { TriedDigits operand.pattern result.digits result.objections }
{
    let q = estimate % 0x10_0000_0000_0000 + 0x10_0000_0000_0000;
    let guess = Guess { digits: q };
    let d = low_difference(operand, guess);
    let up = (d + 0x3fcf_ffff_ffff_ffff - q) / 0x4000_0000_0000_0000;
    let down = (0x4030_0000_0000_0000 - q - d) / 0x4000_0000_0000_0000;
    let far = (d + 0x20_0000_0000_0000) / 0x80_0000_0000_0000;
    Trial {
        digits: q + up - down,
        objections: far + apart(operand, guess),
    }
}

// 1 where there are objections, and else 0.
fn mark(objections: u64) -> u64
    requires { objections ≤ 128 }
    ensures { (result ≤ 1) × (result ≡ 0 → objections ≡ 0) }
{
    (objections + 127) / 128
}

// The bits of the root of x, from the bits of an estimate; 2 ^ 63 more where there are objections. That
// x is no normal number above 0 is one.
pub fn try_root(x: f64, estimate: u64) -> u64
    ensures { Tried x result }
{
    let pattern = operand::pattern_of(x);
    let exponent = pattern / 0x10_0000_0000_0000 % 2048;
    let t = try_digits(operand::reduced(pattern), estimate);
    let marked = mark(t.objections + operand::not_normal(pattern));
    (exponent + 1021) / 2 * 0x10_0000_0000_0000 + t.digits + marked * 0x8000_0000_0000_0000
}
