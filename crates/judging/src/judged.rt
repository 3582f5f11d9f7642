// A grid with its children's kinds, which a record's counts and cursor are held against.
ghost use Rattle.std.specs.Prelude.{◌≡◌, ◌+◌, ◌*◌, ◌≤◌, ◌<◌, length};
ghost use Rattle.grid.specs.Blocks.{cube};
ghost use Rattle.grid.specs.Nodes.{nodes_of};
ghost use Rattle.schedule.specs.Opened.{ActiveKinds};
ghost use Rattle.plans.specs.Inner.GridPlan.{grid_plan};

use grid::{NodeKinds, SizedGrid};

// A grid, and kinds that are long enough for it and as rule R8 wants them.
#[derive(Clone, Copy, Debug, PartialEq)]
pub struct RightKinds<'a> {
    pub grid: SizedGrid,
    pub kinds: &'a [u8],
    pub ghost long: { nodes_of grid.grid * cube grid.grid.inner ≤ length kinds.now },
    pub ghost right: { ActiveKinds (grid_plan grid.grid) kinds.now },
}

impl<'a> RightKinds<'a> {
    // Whether an active child of a node has a corner, by the node's part of the kinds.
    pub(crate) fn is_needed(&self, v: usize, corner: usize) -> bool
        requires { (v < nodes_of self.now.grid.grid) × (corner < cube (self.now.grid.grid.inner + 1)) }
        ensures { result ≡ (grid_plan self.now.grid.grid).needed v corner }
    {
        let children = self.grid.node_children();
        let from = v * children;
        let node = NodeKinds {
            n: self.grid.grid.inner,
            kinds: &self.kinds[from..from + children],
        };
        rows::is_needed(&node, corner)
    }
}
