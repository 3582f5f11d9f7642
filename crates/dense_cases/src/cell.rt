// One cell: its corners, and the values at them.
ghost use Rattle.cases.specs.Answer.{Given};

use crate::values::values_of;
use cases::{Answer, Numbers};
use geometry::Vec3;

// `corners`: the origin, a cell's size, the dimensions, the cell's indices.
pub fn corners(mut numbers: Numbers) -> Answer
    ensures { Given result }
{
    let origin = numbers.vector();
    let cell = numbers.float();
    let n = numbers.indices();
    let c = numbers.indices();
    let found = dense_field::cell_corners(origin, cell, n, c);
    let mut answer = Answer::outcome(found);
    for p in found.unwrap_or([Vec3::new(0.0, 0.0, 0.0); 8]) {
        answer.put_vector(p);
    }
    answer
}

// `octet`: the dimensions, the cell's indices, the values.
pub fn octet(mut numbers: Numbers) -> Answer
    ensures { Given result }
{
    let n = numbers.indices();
    let c = numbers.indices();
    let values = values_of(numbers);
    let found = dense_field::cell_values(n, &values, c);
    Answer::outcome(found).floats(&found.unwrap_or([0.0; 8]))
}
