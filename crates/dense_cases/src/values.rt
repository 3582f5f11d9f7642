// The values of a case.
ghost use Rattle.std.specs.Prelude.{◌≡◌, from_bits, map, take};
ghost use Rattle.std.specs.Float.{binary64};

use arrayvec::ArrayVec;
use cases::Numbers;

// The most values of a case.
pub const MOST_VALUES: usize = 150;

// The values that end a case.
pub fn values_of(numbers: Numbers) -> ArrayVec<f64, MOST_VALUES>
    ensures { result.items ≡ map (from_bits binary64) (take 150 numbers.entry.left.now) }
{
    let count = MOST_VALUES.min(numbers.left.len());
    let given = &numbers.left[..count];
    let mut values = ArrayVec::new();
    for n in given {
        values.push(float::from_bits(*n));
    }
    values
}
