// Which kind of value a float is.
ghost use Rattle.std.specs.Prelude.{◌≡◌, is_nan};
ghost use Rattle.std.specs.Float.Ieee.Scale.{finite};
ghost use Rattle.float.specs.Sign.{negative};

use crate::to_bits;

// The value as it is, and a NaN with the bits 7ff8000000000000 (rule F7). The proofs know one NaN,
// without bits. The machine's operators make NaNs of other bits, so what a public call computes goes
// through here before it is stored or returned.
#[tactic(auto, using(crate::proofs::Nan::only_nan, crate::proofs::Nan::zero_by_zero))]
pub fn computed(x: f64) -> f64
    ensures { result ≡ x }
{
    if x != x { 0.0 / 0.0 } else { x }
}

#[tactic(auto, using(crate::proofs::Nan::ne_self))]
pub fn is_nan(x: f64) -> bool
    ensures { result ≡ is_nan x }
{
    x != x
}

// Neither a NaN nor an infinity.
pub fn is_finite(x: f64) -> bool
    ensures { result ≡ finite x }
{
    -1.0 / 0.0 < x && x < 1.0 / 0.0
}

// Whether the sign of x is a minus: -0 has one, and a NaN has no sign.
#[tactic(auto, using(crate::proofs::Sign::negative_test))]
pub fn is_negative(x: f64) -> bool
    ensures { result ≡ negative x }
{
    to_bits(x) >= 0x8000_0000_0000_0000
}
