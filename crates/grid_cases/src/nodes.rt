// Block sizes, nodes, their boxes and their children's, and which children are active.
ghost use Rattle.std.specs.Prelude.{IfSome};
ghost use Rattle.cases.specs.Answer.{Given};

use crate::bits::set_bit;
use cases::{Answer, Numbers};
use grid::Axis;

// Kept: the cases here, in `points` and in `pruning` have few shapes among them, and each is a call of
// its own, which a reader finds by its word.

// `block N`: whether a block may have this size.
pub fn block(mut numbers: Numbers) -> Answer
    ensures { Given result }
{
    Answer::accepted().flag(grid::is_block(numbers.short()))
}

// `size CELL N L`: a node's size.
pub fn size(mut numbers: Numbers) -> Answer
    ensures { Given result }
{
    let cell = numbers.float();
    let n = numbers.short();
    let l = numbers.short();
    Answer::accepted().float(grid::node_size(cell, n, l))
}

// `along LEAST MOST S`: the nodes along an axis.
pub fn along(mut numbers: Numbers) -> Answer
    ensures { Given result }
{
    let least = numbers.float();
    let most = numbers.float();
    let s = numbers.float();
    Answer::accepted().place(grid::nodes_along(least, most, s))
}

// `counts GRID`: the nodes along each axis.
pub fn counts(mut numbers: Numbers) -> Answer
    ensures { Given result }
{
    Answer::accepted().indices(grid::node_counts(numbers.grid()))
}

// `node GRID V`: a node's box.
pub fn node(mut numbers: Numbers) -> Answer
    ensures { Given result }
{
    let g = numbers.grid();
    let v = numbers.place();
    Answer::accepted().bounds(grid::node_box(g, v))
}

// `axis LEAST MOST S N I CI`: on one axis, where node I begins and ends, and whether bounds from
// LEAST to MOST meet its child CI.
pub fn axis(mut numbers: Numbers) -> Answer
    ensures { Given result }
{
    let least = numbers.float();
    let most = numbers.float();
    let s = numbers.float();
    let n = numbers.short();
    let i = numbers.place();
    let child = numbers.place();
    let axis = Axis {
        least,
        most,
        size: s,
        n,
    };
    Answer::accepted()
        .float(grid::node_least(least, s, i))
        .float(grid::node_most(least, s, i))
        .flag(axis.is_active(i, child))
}

// `child GRID V C`: a child's box, and whether it is active.
pub fn child(mut numbers: Numbers) -> Option<Answer>
    ensures { IfSome result Given }
{
    let g = numbers.grid();
    let v = numbers.place();
    let c = numbers.place();
    if g.inner == 0 {
        return None;
    }
    let child = grid::child_box(grid::node_box(g, v), g.inner, c);
    let active = grid::is_active(g, v, c);
    Some(Answer::accepted().bounds(child).flag(active))
}

// `active GRID V`: how many children of a node are active, and a bit for each. Of a node that has not
// 8 children along an axis it is the first number of them.
pub fn active(mut numbers: Numbers) -> Option<Answer>
    ensures { IfSome result Given }
{
    let g = numbers.grid();
    let v = numbers.place();
    let n = g.inner as usize;
    if n == 0 || n > 8 {
        return None;
    }
    let mut bits = [0u64; 8];
    for c in 0..grid::cube_of(n) {
        if grid::is_active(g, v, c) {
            set_bit(&mut bits, c);
        }
    }
    let count = grid::active_in(g, v);
    let words = if n == 8 { 8 } else { 1 };
    Some(Answer::accepted().number(count).copied(&bits[..words]))
}
