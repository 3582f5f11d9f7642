// Corner points, leaf points, and the places of a child's corners.
ghost use Rattle.std.specs.Prelude.{◌≤◌, IfSome};
ghost use Rattle.cases.specs.Answer.{Given};

use cases::{Answer, Numbers};
use geometry::PointRow;

// The most points of an answer, and the most of the first one's number.
const MOST_POINTS: usize = 50;

const MOST_FIRST: u32 = 1_000_000;

// `corner BOX N C`: a corner of a node.
pub fn corner(mut numbers: Numbers) -> Answer
    ensures { Given result }
{
    let b = numbers.bounds();
    let n = numbers.short();
    let c = numbers.place();
    Answer::accepted().vector(grid::corner_point(b, n, c))
}

// `leaf BOX L P`: a point of a leaf.
pub fn leaf(mut numbers: Numbers) -> Option<Answer>
    ensures { IfSome result Given }
{
    let b = numbers.bounds();
    let l = numbers.short();
    let p = numbers.place();
    if l == 0 {
        return None;
    }
    Some(Answer::accepted().vector(grid::leaf_point(b, l, p)))
}

// The first points of a row.
fn row_answer(row: &PointRow, count: usize) -> Answer
    requires { count ≤ 50 }
    ensures { Given result }
{
    let mut answer = Answer::accepted();
    for q in 0..count {
        answer.put_vector(row.get(q));
    }
    answer
}

// The 64 numbers from `first` on.
fn numbers_from(first: u32) -> [u32; 64]
    requires { first ≤ 1000000 }
{
    let mut list = [0u32; 64];
    for (q, n) in list.iter_mut().enumerate() {
        *n = first + q as u32;
    }
    list
}

// `corners BOX N FIRST COUNT`: corners of a node, in a row.
pub fn corners(mut numbers: Numbers) -> Option<Answer>
    ensures { IfSome result Given }
{
    let b = numbers.bounds();
    let n = numbers.short();
    let first = numbers.short();
    let count = numbers.place();
    if first > MOST_FIRST || count > MOST_POINTS {
        return None;
    }
    let list = numbers_from(first);
    let mut row = PointRow::new();
    grid::corner_points(b, n, &list[..count], &mut row);
    Some(row_answer(&row, count))
}

// `leaves BOX L FIRST COUNT`: points of a leaf, in a row.
pub fn leaves(mut numbers: Numbers) -> Option<Answer>
    ensures { IfSome result Given }
{
    let b = numbers.bounds();
    let l = numbers.short();
    let first = numbers.place();
    let count = numbers.place();
    if l == 0 || first > MOST_FIRST as usize || count > MOST_POINTS {
        return None;
    }
    let mut row = PointRow::new();
    grid::leaf_points(b, l, first, count, &mut row);
    Some(row_answer(&row, count))
}

// `places N C`: the places of a child's corners among its node's.
pub fn places(mut numbers: Numbers) -> Option<Answer>
    ensures { IfSome result Given }
{
    let n = numbers.short();
    let c = numbers.place();
    if n == 0 || n > 64 || c >= grid::cube_of(n as usize) {
        return None;
    }
    let octet = grid::octet(n, c).map(|place| place as u64);
    Some(Answer::accepted().copied(&octet))
}
