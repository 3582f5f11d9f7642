// A float's bit pattern.
ghost use Rattle.std.specs.Prelude.{◌≡◌, from_bits, to_bits};
ghost use Rattle.std.specs.Float.{binary64};
ghost use Rattle.float.specs.Sign.{abs_of};

// The value with the bits b. Every NaN pattern gives the computed NaN, so its own bits are lost.
pub fn from_bits(b: u64) -> f64
    ensures { result ≡ from_bits binary64 b }
{
    if (b & 0x7fff_ffff_ffff_ffff) > 0x7ff0_0000_0000_0000 {
        return 0.0 / 0.0;
    }
    f64::from_bits(b)
}

// The bits of x, and 7ff8000000000000 for a NaN.
#[tactic(auto, using(crate::proofs::Nan::only_nan, crate::proofs::Nan::no_nan, crate::proofs::Bits::nan_pattern))]
pub fn to_bits(x: f64) -> u64
    ensures { result ≡ to_bits binary64 x }
{
    if x != x {
        return 0x7ff8_0000_0000_0000;
    }
    f64::to_bits(x)
}

// |x|: the sign's bit cleared. A NaN counts as computed.
#[tactic(auto, using(crate::proofs::Sign::cleared_abs))]
pub fn abs(x: f64) -> f64
    ensures { result ≡ abs_of x }
{
    from_bits(to_bits(x) & 0x7fff_ffff_ffff_ffff)
}
