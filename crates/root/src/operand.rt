// The operand of a root by its bits. A normal number above 0 is reduced by a power of four to a
// number a in [1/2, 2), whose root has the same digits.
ghost use Rattle.std.specs.Prelude.{◌≡◌, ◌*◌, ◌^◌, ◌≤◌, ◌<◌};
ghost use Rattle.std.specs.Float.Ieee.{of_bits};
ghost use Rattle.std.specs.Float.{binary64};
ghost use Rattle.root.specs.Inner.Reduced.{Reduced, top};

// A number in [1/2, 2), by its bit pattern.
#[derive(Clone, Copy, Debug, PartialEq, Eq)]
pub struct Operand {
    pub pattern: u64,
    ghost reduced: { Reduced pattern },
}

// The bits of x; those of 0 for a NaN.
pub fn pattern_of(x: f64) -> u64
    ensures { 2 ^ 52 ≤ result → x ≡ of_bits binary64 result }
{
    let v = if x != x { 0.0 } else { x };
    f64::to_bits(v)
}

// The operand of a normal number above 0: the digits of the number's pattern and the last digit of its
// exponent.
pub fn reduced(pattern: u64) -> Operand
    ensures { top result.pattern ≡ top pattern }
{
    Operand {
        pattern: pattern % 0x20_0000_0000_0000 + 0x3fe0_0000_0000_0000,
    }
}

// 1 where the pattern is not that of a normal number above 0, and else 0: of an exponent and sign from
// 1 to 2046, the number before it is below 2046, and no other's is.
pub fn not_normal(pattern: u64) -> u64
    ensures { (result ≤ 1) × (result ≡ 0 → (2 ^ 52 ≤ pattern) × (pattern < 2047 * 2 ^ 52)) }
{
    ((pattern / 0x10_0000_0000_0000 + 4095) % 4096 + 2050) / 4096
}
