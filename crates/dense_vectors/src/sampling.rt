// Sampling of a model that a case holds part by part.
ghost use Rattle.cases.specs.Answer.{Given};

use cases::{Answer, Numbers};
use dense_cases::MOST_VALUES;

// What each value is before a call.
const BEFORE: f64 = 100.0;

// The most parts that a case gives.
const MOST_PARTS: usize = 30;

// `sample`: the origin, a cell's size, the dimensions, how many values are lent, the model's count
// of parts, its parts.
pub fn sample(mut numbers: Numbers) -> Answer
    ensures { Given result }
{
    let origin = numbers.vector();
    let cell = numbers.float();
    let n = numbers.indices();
    let lent = numbers.place().min(MOST_VALUES);
    let count = numbers.short();
    let model = numbers.model(MOST_PARTS.min(count as usize), count);
    // Kept: the call is lent a part of a room of fixed size.
    let mut values = [BEFORE; MOST_VALUES];
    let done = dense_field::sample(&model, origin, cell, n, &mut values[..lent]);
    Answer::outcome(done).floats(&values[..lent])
}
