// What a grid can be: the tests of causes 1, 2 and 5.
ghost use Rattle.std.specs.Prelude.{◌≡◌, false};
ghost use Rattle.grid.specs.Limits.{refused_by_one, refused_by_two, refused_by_five};

use crate::Grid;
use crate::blocks::{cube_of, is_block};
use crate::nodes::{node_counts, node_size};

// The most nodes along an axis.
const MOST_NODES: usize = 1024;

// The most children of all nodes.
const MOST_CHILDREN: usize = 16_777_216;

// Bounds or a cell's size that no grid can have.
// Kept: input's cause 3 is two tests joined as well, but of other things. A function of two tests would be
// `||`.
#[tactic(auto, unfolding(crate::specs::Limits::refused_by_one))]
pub fn cause_one(g: Grid) -> bool
    ensures { result ≡ refused_by_one g }
{
    geometry::box_refused(g.bounds) || geometry::cell_refused(g.cell)
}

// A block's size that is none.
#[tactic(auto, unfolding(crate::specs::Limits::refused_by_two))]
pub fn cause_two(g: Grid) -> bool
    ensures { result ≡ refused_by_two g }
{
    !is_block(g.inner) || !is_block(g.leaf)
}

// A node without a finite size, or too many nodes or children. The product is taken last, when its
// factors are known to be small.
#[tactic(auto, unfolding(crate::specs::Limits::refused_by_five))]
pub fn cause_five(g: Grid) -> bool
    requires { refused_by_two g ≡ false }
    ensures { result ≡ refused_by_five g }
{
    if !float::is_finite(node_size(g.cell, g.inner, g.leaf)) {
        return true;
    }
    let n = node_counts(g);
    if n.i > MOST_NODES || n.j > MOST_NODES || n.k > MOST_NODES {
        return true;
    }
    n.i * n.j * n.k * cube_of(g.inner as usize) > MOST_CHILDREN
}
