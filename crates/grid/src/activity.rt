// How many children of a node are active.
ghost use Rattle.std.specs.Prelude.{◌≡◌, ◌≤◌};
ghost use Rattle.grid.specs.Counting.{active_in};

use crate::Grid;
use crate::nodes::node_counts;

// The active children of node v.
pub fn active_in(g: Grid, v: usize) -> u64
    requires { g.inner ≤ 64 }
    ensures { result ≡ active_in g v }
{
    let nodes = node_counts(g);
    let at = geometry::indices(v, nodes.i, nodes.j);
    let axes = g.axes();
    axes.x.count(at.i) * axes.y.count(at.j) * axes.z.count(at.k)
}
