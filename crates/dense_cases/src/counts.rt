// The points of a field over bounds.
ghost use Rattle.cases.specs.Answer.{Given};

use cases::{Answer, Numbers};

// `count`: bounds and a cell's size; the counts along the axes.
pub fn count(mut numbers: Numbers) -> Answer
    ensures { Given result }
{
    let bounds = numbers.bounds();
    let cell = numbers.float();
    match dense_field::point_count(bounds, cell) {
        Ok(n) => Answer::accepted().indices(n),
        Err(cause) => Answer::refused(cause),
    }
}
