// Which children of a node are active. A child is active exactly where it is on each of the three axes, so
// that a table for each axis is enough.
ghost use Rattle.std.specs.Prelude.{ℕ, ◌≤◌, ◌<◌, ◌≡◌};
ghost use Rattle.grid.specs.Inner.Activity.{axis_active};
ghost use Rattle.kinds.specs.Inner.Tables.{table_test};

use grid::{Axis, SizedGrid};

// Which of the children of node i the bounds meet on an axis.
fn axis_table(axis: Axis, i: usize) -> [bool; 64]
    requires { axis.n ≤ 64 }
    ensures { (c : ℕ) → c < axis.n → table_test result c ≡ axis_active axis.least axis.most axis.size axis.n i c }
{
    let side = axis.n as usize;
    let mut table = [false; 64];
    for c in 0..side {
        table[c] = axis.is_active(i, c);
    }
    table
}

// The tables of a node that has n children along each axis.
#[derive(Clone, Copy, Debug, PartialEq, Eq)]
pub struct NodeTables {
    pub n: usize,
    pub xs: [bool; 64],
    pub ys: [bool; 64],
    pub zs: [bool; 64],
    ghost small: { n ≤ 64 },
}

impl NodeTables {
    ghost use Rattle.grid.specs.Blocks.{cube};
    ghost use Rattle.grid.specs.Boxes.{active};
    ghost use Rattle.kinds.specs.Inner.Tables.{node_test};

    // Those of node v. Inlined, so that a loop over the nodes works out once what is the same for all.
    #[inline(always)]
    pub fn of(g: SizedGrid, v: usize) -> NodeTables
        ensures size { result.n ≡ g.grid.inner }
        ensures tests { (c : ℕ) → c < cube g.grid.inner
            → node_test result.n result.xs result.ys result.zs c ≡ active g.grid v c }
    {
        let nodes = grid::node_counts(g.grid);
        let at = geometry::indices(v, nodes.i, nodes.j);
        let axes = g.grid.axes();
        NodeTables {
            n: g.grid.inner as usize,
            xs: axis_table(axes.x, at.i),
            ys: axis_table(axes.y, at.j),
            zs: axis_table(axes.z, at.k),
        }
    }
}
