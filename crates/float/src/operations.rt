// The operations on two values, as types: code that is the same for each is written once over the trait.
ghost use Rattle.std.specs.Prelude.{◌≡◌, Float};
ghost use Rattle.std.specs.Float.{binary64};
ghost use Rattle.std.specs.Float.Ieee.{add, sub};
ghost use Rattle.float.specs.Select.{min_of, max_of};

use crate::{computed, max, min};

pub trait Operation {
    // What the operation makes of two values.
    ghost of: { Float → Float → Float };

    fn apply(a: f64, b: f64) -> f64
        ensures { result ≡ of a b };
}

#[derive(Clone, Copy, Debug, PartialEq, Eq)]
pub struct Min;

#[derive(Clone, Copy, Debug, PartialEq, Eq)]
pub struct Max;

#[derive(Clone, Copy, Debug, PartialEq, Eq)]
pub struct Add;

#[derive(Clone, Copy, Debug, PartialEq, Eq)]
pub struct Sub;

impl Operation for Min {
    ghost of = { min_of };

    fn apply(a: f64, b: f64) -> f64 {
        min(a, b)
    }
}

impl Operation for Max {
    ghost of = { max_of };

    fn apply(a: f64, b: f64) -> f64 {
        max(a, b)
    }
}

impl Operation for Add {
    ghost of = { add binary64 };

    fn apply(a: f64, b: f64) -> f64 {
        computed(a + b)
    }
}

impl Operation for Sub {
    ghost of = { sub binary64 };

    fn apply(a: f64, b: f64) -> f64 {
        computed(a - b)
    }
}
