// An estimate of a root, by float arithmetic. Nothing is proved of it: a trial takes any number for
// an estimate, and a poor one costs time and no digit of the result. The code has no branch, so a
// loop over it is compiled to vector instructions.
use crate::operand::{Operand, pattern_of};

// The bits of an estimate of √a, for an operand a: Newton steps on half of 1 / √a, from a shifted bit
// pattern, and a last step on √a.
pub fn estimate(operand: Operand) -> u64 {
    let pattern = operand.pattern;
    let a = f64::from_bits(pattern);
    let twice = a + a;
    let h0 = f64::from_bits(0x5fd6_eb50_c7b5_37a9 - pattern / 2);
    let h1 = h0 * (1.5 - twice * h0 * h0);
    let h2 = h1 * (1.5 - twice * h1 * h1);
    let h3 = h2 * (1.5 - twice * h2 * h2);
    let r = twice * h3;
    pattern_of(r + h3 * (a - r * r))
}
