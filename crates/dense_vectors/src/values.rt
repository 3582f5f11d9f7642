// Calls that change a field's values. The values end the case, and what they are after ends the
// answer.
ghost use Rattle.cases.specs.Answer.{Given};

use cases::{Answer, Numbers};
use causes::Cause;
use dense_cases::MOST_VALUES;
use geometry::Vec3i;

// What each value of the scratch is before a call.
const BEFORE: f64 = 100.0;

// A call with one number, on the values: the dimensions, the number, the values.
fn changed<F: FnOnce(Vec3i, f64, &mut [f64]) -> Result<(), Cause>>(
    mut numbers: Numbers,
    call: F,
) -> Answer
    requires { F.IsAlwaysCallable call }
    ensures { Given result }
{
    let n = numbers.indices();
    let number = numbers.float();
    let mut values = dense_cases::values_of(numbers);
    let done = call(n, number, &mut values);
    Answer::outcome(done).floats(&values)
}

// `pad`: the number is the value to set.
pub fn pad(numbers: Numbers) -> Answer
    ensures { Given result }
{
    changed(numbers, |n, value, values: &mut [f64]| {
        dense_field::padding(n, value, values)
    })
}

// `threshold`: the number is the limit.
// Kept: beside `pad`, since a function of another crate cannot be handed on by its name.
pub fn threshold(numbers: Numbers) -> Answer
    ensures { Given result }
{
    changed(numbers, |n, limit, values: &mut [f64]| {
        dense_field::threshold(n, limit, values)
    })
}

// Whether every value has the same bits as another.
fn all_are(values: &[f64], other: f64) -> bool {
    values
        .iter()
        .all(|v| float::to_bits(*v) == float::to_bits(other))
}

// What a call left of the scratch: 1 what it was before, 0 every value +0, 2 anything else.
fn scratch_after(scratch: &[f64]) -> u64 {
    if all_are(scratch, BEFORE) {
        1
    } else if all_are(scratch, 0.0) {
        0
    } else {
        2
    }
}

// `smooth`: the dimensions, the factor, the rounds, the scratch's length, the values.
pub fn smooth(mut numbers: Numbers) -> Answer
    ensures { Given result }
{
    let n = numbers.indices();
    let factor = numbers.float();
    let rounds = numbers.short();
    let room = numbers.place().min(MOST_VALUES);
    let mut values = dense_cases::values_of(numbers);
    // Kept: the call is lent a part of a room of fixed size.
    let mut scratch = [BEFORE; MOST_VALUES];
    let done = dense_field::smooth(n, factor, rounds, &mut values, &mut scratch[..room]);
    Answer::outcome(done)
        .number(scratch_after(&scratch[..room]))
        .floats(&values)
}
