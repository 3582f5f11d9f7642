// The order of two floats, and one of the two as it is.
ghost use Rattle.std.specs.Prelude.{◌≡◌};
ghost use Rattle.std.specs.Float.Ieee.{lt, le};
ghost use Rattle.float.specs.Select.{min_of, max_of};

// a < b. -0 and +0 are equal, and a NaN is in no order.
pub fn less(a: f64, b: f64) -> bool
    ensures { result ≡ lt a b }
{
    a < b
}

// a <= b.
pub fn at_most(a: f64, b: f64) -> bool
    ensures { result ≡ le a b }
{
    a <= b
}

// The smaller of the two, a number before a NaN. Of equal ones, as +0 and -0, it is a.
#[tactic(auto, using(crate::proofs::Nan::ne_self), unfolding(crate::specs::Select::min_of))]
pub fn min(a: f64, b: f64) -> f64
    ensures { result ≡ min_of a b }
{
    if b != b {
        return a;
    }
    if a != a || b < a { b } else { a }
}

// The larger of the two, a number before a NaN. Of equal ones it is a.
#[tactic(auto, using(crate::proofs::Nan::ne_self), unfolding(crate::specs::Select::max_of))]
pub fn max(a: f64, b: f64) -> f64
    ensures { result ≡ max_of a b }
{
    if b != b {
        return a;
    }
    if a != a || b > a { b } else { a }
}
