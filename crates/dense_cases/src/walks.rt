// One step of a walk. After the refusal stands 1 where there is a point or a cell, and 0 where the
// walk is done; then the cursor, and what the walk found.
ghost use Rattle.std.specs.Prelude.{◌≡◌};
ghost use Rattle.arrayvec.specs.ArrayVec.{array_vec_len};
ghost use Rattle.cases.specs.Answer.{Given};

use crate::values::values_of;
use cases::{Answer, Numbers};
use geometry::Vec3i;

// An accepted step, with its cursor.
fn stepped(found: bool, cursor: Vec3i) -> Answer
    ensures { array_vec_len result.numbers ≡ 5 }
{
    Answer::accepted().flag(found).indices(cursor)
}

// `points`: bounds, the counts, the cursor.
pub fn points(mut numbers: Numbers) -> Answer
    ensures { Given result }
{
    let bounds = numbers.bounds();
    let n = numbers.indices();
    let cursor = numbers.indices();
    match dense_field::point_step(bounds, n, cursor) {
        Ok(Some(step)) => stepped(true, step.next).vector(step.found),
        Ok(None) => stepped(false, cursor),
        Err(cause) => Answer::refused(cause),
    }
}

// `cells`: bounds, the counts, the cursor.
// Kept: beside `points`, which makes another call and finds another type. One function for both would
// take the call and what puts its find, and say of the second how much room it needs.
pub fn cells(mut numbers: Numbers) -> Answer
    ensures { Given result }
{
    let bounds = numbers.bounds();
    let n = numbers.indices();
    let cursor = numbers.indices();
    match dense_field::cell_step(bounds, n, cursor) {
        Ok(Some(step)) => stepped(true, step.next).bounds(step.found),
        Ok(None) => stepped(false, cursor),
        Err(cause) => Answer::refused(cause),
    }
}

// `octets`: the dimensions, the cursor, the values.
pub fn octets(mut numbers: Numbers) -> Answer
    ensures { Given result }
{
    let n = numbers.indices();
    let cursor = numbers.indices();
    let values = values_of(numbers);
    let (answer, eight) = match dense_field::walk_octet(&values, n, cursor) {
        Ok(Some(step)) => {
            let eight = step.found;
            (stepped(true, step.next), eight)
        }
        Ok(None) => (stepped(false, cursor), [0.0; 8]),
        Err(cause) => (Answer::refused(cause), [0.0; 8]),
    };
    answer.floats(&eight)
}
