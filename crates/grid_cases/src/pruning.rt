// Half diagonals, the extremes and the mean of an octet, and which children are pruned.
ghost use Rattle.cases.specs.Answer.{Given};

use cases::{Answer, Numbers};

// `half BOX`: the half diagonal.
pub fn half(mut numbers: Numbers) -> Answer
    ensures { Given result }
{
    Answer::accepted().float(grid::half_diagonal(numbers.bounds()))
}

// The values at a child's corners.
fn octet(mut numbers: Numbers) -> [f64; 8] {
    let mut values = [0.0; 8];
    for v in &mut values {
        *v = numbers.float();
    }
    values
}

// `extremes V V V V V V V V`: the least and the greatest of an octet, and the mean.
pub fn extremes(numbers: Numbers) -> Answer
    ensures { Given result }
{
    let values = octet(numbers);
    Answer::accepted()
        .float(grid::lowest(values))
        .float(grid::highest(values))
        .float(grid::average(values))
}

// `pruned MIN MAX H V V V V V V V V`: whether a child with this octet and half diagonal is pruned.
pub fn pruned(mut numbers: Numbers) -> Answer
    ensures { Given result }
{
    let min_val = numbers.float();
    let max_val = numbers.float();
    let h = numbers.float();
    let pruned = grid::is_pruned(min_val, max_val, octet(numbers), h);
    Answer::accepted().flag(pruned)
}
