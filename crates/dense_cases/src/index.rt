// The index of a grid point, both ways.
ghost use Rattle.cases.specs.Answer.{Given};

use cases::{Answer, Numbers};

// `place`: three indices and the dimensions; the place in a flat list.
pub fn place(mut numbers: Numbers) -> Answer
    ensures { Given result }
{
    let c = numbers.indices();
    let n = numbers.indices();
    match geometry::index1d_from_index3d(c.i, c.j, c.k, n.i, n.j, n.k) {
        Ok(at) => Answer::accepted().place(at),
        Err(cause) => Answer::refused(cause),
    }
}

// `indices`: a place and the dimensions; the three indices.
pub fn indices(mut numbers: Numbers) -> Answer
    ensures { Given result }
{
    let at = numbers.place();
    let n = numbers.indices();
    match geometry::index3d_from_index1d(at, n.i, n.j, n.k) {
        Ok(c) => Answer::accepted().indices(c),
        Err(cause) => Answer::refused(cause),
    }
}
