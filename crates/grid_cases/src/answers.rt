// The answer to a case of this crate.
ghost use Rattle.std.specs.Prelude.{IfSome};
ghost use Rattle.cases.specs.Answer.{Given};

use crate::{Word, nodes, points, pruning};
use cases::{Answer, Numbers};

// The answer to a case with this word. None where the numbers are no case, or the word is of another
// crate's cases.
pub fn answer(word: Word, numbers: Numbers) -> Option<Answer>
    ensures { IfSome result Given }
{
    match word {
        Word::Block => Some(nodes::block(numbers)),
        Word::Size => Some(nodes::size(numbers)),
        Word::Along => Some(nodes::along(numbers)),
        Word::Counts => Some(nodes::counts(numbers)),
        Word::Node => Some(nodes::node(numbers)),
        Word::Axis => Some(nodes::axis(numbers)),
        Word::Child => nodes::child(numbers),
        Word::Active => nodes::active(numbers),
        Word::Corner => Some(points::corner(numbers)),
        Word::Corners => points::corners(numbers),
        Word::Leaf => points::leaf(numbers),
        Word::Leaves => points::leaves(numbers),
        Word::Places => points::places(numbers),
        Word::Half => Some(pruning::half(numbers)),
        Word::Extremes => Some(pruning::extremes(numbers)),
        Word::Pruned => Some(pruning::pruned(numbers)),
        Word::ShortList | Word::LongList | Word::Open => None,
    }
}
