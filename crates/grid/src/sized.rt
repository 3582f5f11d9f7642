// A grid that causes 2 and 5 do not refuse: all that it has can be counted.
ghost use Rattle.std.specs.Prelude.{◌≡◌, ◌+◌, ◌≤◌, false};
ghost use Rattle.grid.specs.Blocks.{cube};
ghost use Rattle.grid.specs.Nodes.{nodes_of};
ghost use Rattle.grid.specs.Counting.{active_of, counts_of};
ghost use Rattle.grid.specs.Limits.{refused_by_two, refused_by_five, children_of};

use crate::blocks::cube_of;
use crate::nodes::{node_counts, node_total};
use crate::{Grid, GridCounts};

// A grid whose blocks have a size that blocks may have, and whose nodes and children are not too many.
#[derive(Clone, Copy, Debug, PartialEq)]
pub struct SizedGrid {
    pub grid: Grid,
    pub ghost two: { refused_by_two grid ≡ false },
    pub ghost five: { refused_by_five grid ≡ false },
}

impl SizedGrid {
    // Its nodes.
    pub fn nodes(self) -> usize
        ensures is { result ≡ nodes_of self.grid }
        ensures few { result ≤ 2097152 }
    {
        node_total(self.grid)
    }

    // The children of a node.
    pub fn node_children(self) -> usize
        ensures is { result ≡ cube self.grid.inner }
        ensures few { result ≤ 262144 }
    {
        cube_of(self.grid.inner as usize)
    }

    // The corners of a node.
    pub fn node_corners(self) -> usize
        ensures is { result ≡ cube (self.grid.inner + 1) }
        ensures few { result ≤ 274625 }
    {
        cube_of(self.grid.inner as usize + 1)
    }

    // The points of a leaf.
    pub fn leaf_points(self) -> usize
        ensures is { result ≡ cube self.grid.leaf }
        ensures few { result ≤ 262144 }
    {
        cube_of(self.grid.leaf as usize)
    }

    // The children of all nodes, active or not.
    pub fn children(self) -> usize
        ensures is { result ≡ children_of self.grid }
        ensures few { result ≤ 16777216 }
    {
        self.nodes() * self.node_children()
    }

    // Those of them that are active.
    pub fn active_children(self) -> u64
        ensures is { result ≡ active_of self.grid }
        ensures few { result ≤ 16777216 }
    {
        let nodes = node_counts(self.grid);
        let axes = self.grid.axes();
        axes.x.total(nodes.i) * axes.y.total(nodes.j) * axes.z.total(nodes.k)
    }

    // The nodes and the active children.
    pub fn counts(self) -> GridCounts
        ensures { result ≡ counts_of self.grid }
    {
        GridCounts {
            nodes: self.nodes() as u64,
            active: self.active_children(),
        }
    }
}
