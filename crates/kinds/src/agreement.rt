// Whether lent kinds are as rule R8 wants them: nonzero at just the active children.
ghost use Rattle.std.specs.Prelude.{◌≡◌, false, ◌&&◌, ◌*◌, ◌≤◌, length};
ghost use Rattle.lists.specs.Flags.{agrees_from};
ghost use Rattle.grid.specs.Blocks.{cube};
ghost use Rattle.grid.specs.Boxes.{active};
ghost use Rattle.grid.specs.Limits.{children_of};
ghost use Rattle.kinds.specs.Inner.Tables.{table_test, slab_test, node_test, grid_test, active_child};

use crate::tables::NodeTables;
use grid::SizedGrid;

// Whether no kind is that of an active child.
fn all_zero(kinds: &[u8]) -> bool
    ensures { result ≡ agrees_from (λ _. false) 0 kinds.now }
{
    for i in 0..kinds.len() {
        if kinds[i] != 0 {
            return false;
        }
    }
    true
}

// Whether the kinds of a row are right by the first axis. None is active where the row is not met.
fn row_right(xs: &[bool; 64], met: bool, row: &[u8]) -> bool
    requires { length row.now ≤ 64 }
    ensures { result ≡ agrees_from (λ i. met && table_test xs.now i) 0 row.now }
{
    if !met {
        return all_zero(row);
    }
    for i in 0..row.len() {
        if (row[i] != 0) != xs[i] {
            return false;
        }
    }
    true
}

impl NodeTables {
    // Whether those of a slab of n rows are, by two axes. None is active where the slab is not met.
    fn slab_right(&self, met: bool, slab: &[u8]) -> bool
        requires { length slab.now ≡ self.now.n * self.now.n }
        ensures { result ≡ agrees_from (λ p. met && slab_test self.now.n self.now.xs self.now.ys p) 0 slab.now }
    {
        if !met {
            return all_zero(slab);
        }
        for j in 0..self.n {
            let from = j * self.n;
            let to = from + self.n;
            if !row_right(&self.xs, self.ys[j], &slab[from..to]) {
                return false;
            }
        }
        true
    }

    // Whether those of a node of n slabs are, by three axes.
    fn node_right(&self, part: &[u8]) -> bool
        requires { length part.now ≡ cube self.now.n }
        ensures { result ≡ agrees_from (node_test self.now.n self.now.xs self.now.ys self.now.zs) 0 part.now }
    {
        let area = self.n * self.n;
        for k in 0..self.n {
            let from = k * area;
            let to = from + area;
            if !self.slab_right(self.zs[k], &part[from..to]) {
                return false;
            }
        }
        true
    }
}

// Whether those of node v are.
fn node_right(g: SizedGrid, v: usize, part: &[u8]) -> bool
    requires { length part.now ≡ cube g.grid.inner }
    ensures { result ≡ agrees_from (active g.grid v) 0 part.now }
{
    NodeTables::of(g, v).node_right(part)
}

// Whether those of all nodes are, each in its own part of the slice.
fn nodes_right(g: SizedGrid, kinds: &[u8]) -> bool
    requires { length kinds.now ≡ children_of g.grid }
    ensures { result ≡ agrees_from (grid_test g.grid) 0 kinds.now }
{
    let nodes = g.nodes();
    let children = g.node_children();
    for v in 0..nodes {
        let from = v * children;
        let to = from + children;
        if !node_right(g, v, &kinds[from..to]) {
            return false;
        }
    }
    true
}

// Whether kinds are as rule R8 wants them, also past the last node's.
pub fn kinds_right(g: SizedGrid, kinds: &[u8]) -> bool
    requires { children_of g.grid ≤ length kinds.now }
    ensures { result ≡ agrees_from (active_child g.grid) 0 kinds.now }
{
    let total = g.children();
    if !nodes_right(g, &kinds[..total]) {
        return false;
    }
    all_zero(&kinds[total..])
}
