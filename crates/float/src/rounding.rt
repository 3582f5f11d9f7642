// Whole numbers: a count as a float, and floor and ceiling.
ghost use Rattle.std.specs.Prelude.{◌≡◌, false, T, pos};
ghost use Rattle.std.specs.Float.{binary64, fin};
ghost use Rattle.std.specs.Float.Ieee.{lt, of_int};
ghost use Rattle.float.specs.Sign.{negative};
ghost use Rattle.float.specs.Whole.{floor_of, ceil_of};

use crate::{abs, computed, is_negative};

// The float nearest to n. It is n itself up to 2^53.
pub fn from_count(n: u64) -> f64
    ensures { result ≡ of_int binary64 (pos n) }
{
    std::num::nearest_u64_to_f64(n)
}

// The floor of a size a below 2^52.
fn floor_size(a: f64) -> f64
    requires plus { negative a ≡ false }
    requires small { T (lt a (fin false 1 (pos 52))) }
    ensures { result ≡ floor_of a }
{
    from_count(std::num::truncating_f64_to_u64(a))
}

// The ceiling of a size a below 2^52.
fn ceil_size(a: f64) -> f64
    requires plus { negative a ≡ false }
    requires small { T (lt a (fin false 1 (pos 52))) }
    ensures { result ≡ ceil_of a }
{
    let n = std::num::truncating_f64_to_u64(a);
    let whole = from_count(n);
    if whole < a { from_count(n + 1) } else { whole }
}

// The greatest whole number that is not above x, with x's sign: the floor of -0 is -0. A value of
// 2^52 or more in size has no fraction, and comes back as it is, as does an infinity. A NaN counts
// as computed.
pub fn floor(x: f64) -> f64
    ensures { result ≡ floor_of x }
{
    let a = abs(x);
    if a < 4503599627370496.0 {
        if is_negative(x) {
            return -ceil_size(a);
        }
        return floor_size(a);
    }
    computed(x)
}

// The least whole number that is not below x, with x's sign: the floor's mirror, so the ceiling of -0.5
// is -0. The rest is as for the floor.
pub fn ceil(x: f64) -> f64
    ensures { result ≡ ceil_of x }
{
    computed(-floor(-x))
}
