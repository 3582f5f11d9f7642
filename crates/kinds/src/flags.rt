// The kinds of all children, as open sets them: an axis is tested once for a slab and once for a row.
ghost use Rattle.std.specs.Prelude.{◌≡◌, false, ◌&&◌, ◌*◌, ◌≤◌, length};
ghost use Rattle.lists.specs.Sums.{bit};
ghost use Rattle.lists.specs.Flags.{flags_from};
ghost use Rattle.grid.specs.Blocks.{cube};
ghost use Rattle.grid.specs.Boxes.{active};
ghost use Rattle.grid.specs.Limits.{children_of};
ghost use Rattle.kinds.specs.Inner.Tables.{table_test, slab_test, node_test, grid_test, active_child};

use crate::tables::NodeTables;
use grid::{Kind, SizedGrid};

// The kind that open gives a child.
fn flag(active: bool) -> u8
    ensures { result ≡ bit active }
{
    u8::from(if active { Kind::Active } else { Kind::Empty })
}

// Sets the kinds of a row of children by the first axis. None is active where the row is not met.
fn set_row(xs: &[bool; 64], met: bool, row: &mut [u8])
    requires { length row.old ≤ 64 }
    ensures { row.new ≡ flags_from (λ i. met && table_test xs.now i) (length row.old) 0 }
{
    if !met {
        row.fill(0);
        return;
    }
    for i in 0..row.len() {
        row[i] = flag(xs[i]);
    }
}

impl NodeTables {
    // Sets those of a slab of n rows by two axes. None is active where the slab is not met.
    fn set_slab(&self, met: bool, slab: &mut [u8])
        requires { length slab.old ≡ self.now.n * self.now.n }
        ensures { slab.new
            ≡ flags_from (λ p. met && slab_test self.now.n self.now.xs self.now.ys p) (self.now.n * self.now.n) 0 }
    {
        if !met {
            slab.fill(0);
            return;
        }
        for j in 0..self.n {
            let from = j * self.n;
            let to = from + self.n;
            set_row(&self.xs, self.ys[j], &mut slab[from..to]);
        }
    }

    // Sets those of a node of n slabs by three axes.
    fn set_node(&self, part: &mut [u8])
        requires { length part.old ≡ cube self.now.n }
        ensures { part.new
            ≡ flags_from (node_test self.now.n self.now.xs self.now.ys self.now.zs) (cube self.now.n) 0 }
    {
        let area = self.n * self.n;
        for k in 0..self.n {
            let from = k * area;
            let to = from + area;
            self.set_slab(self.zs[k], &mut part[from..to]);
        }
    }
}

// Sets those of node v.
fn set_node(g: SizedGrid, v: usize, part: &mut [u8])
    requires { length part.old ≡ cube g.grid.inner }
    ensures { part.new ≡ flags_from (active g.grid v) (cube g.grid.inner) 0 }
{
    NodeTables::of(g, v).set_node(part);
}

// Sets those of all nodes, each through its own part of the slice.
fn set_nodes(g: SizedGrid, kinds: &mut [u8])
    requires { length kinds.old ≡ children_of g.grid }
    ensures { kinds.new ≡ flags_from (grid_test g.grid) (children_of g.grid) 0 }
{
    let nodes = g.nodes();
    let children = g.node_children();
    for v in 0..nodes {
        let from = v * children;
        let to = from + children;
        set_node(g, v, &mut kinds[from..to]);
    }
}

// Sets all kinds: 1 at the active children, and 0 elsewhere.
pub fn set_kinds(g: SizedGrid, kinds: &mut [u8])
    requires { children_of g.grid ≤ length kinds.old }
    ensures { kinds.new ≡ flags_from (active_child g.grid) (length kinds.old) 0 }
{
    let total = g.children();
    set_nodes(g, &mut kinds[..total]);
    kinds[total..].fill(0);
}
