// Where nodes and children lie, and which children are active.
ghost use Rattle.std.specs.Prelude.{◌≡◌, ◌<◌};
ghost use Rattle.grid.specs.Boxes.{node_least, node_most, node_box_at, node_box, child_box_at, child_box, active};

use crate::Grid;
use crate::nodes::{node_counts, node_size};
use crate::points::step_from;
use geometry::{BoundingBox, Vec3, Vec3i};

// Where node i of an axis begins.
#[tactic(auto, unfolding(crate::specs::Boxes::node_least))]
pub fn node_least(least: f64, s: f64, i: usize) -> f64
    ensures { result ≡ node_least least s i }
{
    step_from(least, s, i)
}

// Where it ends: a node's size after its beginning, wherever the bounds end.
pub fn node_most(least: f64, s: f64, i: usize) -> f64
    ensures { result ≡ node_most least s i }
{
    float::computed(node_least(least, s, i) + s)
}

// The box of the node at (i, j, k).
fn node_box_at(g: Grid, at: Vec3i) -> BoundingBox
    ensures { result ≡ node_box_at g at }
{
    let b = g.bounds.min;
    let s = node_size(g.cell, g.inner, g.leaf);
    let min = Vec3::new(
        node_least(b.x, s, at.i),
        node_least(b.y, s, at.j),
        node_least(b.z, s, at.k),
    );
    let max = Vec3::new(
        node_most(b.x, s, at.i),
        node_most(b.y, s, at.j),
        node_most(b.z, s, at.k),
    );
    BoundingBox::new(min, max)
}

// The box of node v.
pub fn node_box(g: Grid, v: usize) -> BoundingBox
    ensures { result ≡ node_box g v }
{
    let n = node_counts(g);
    node_box_at(g, geometry::indices(v, n.i, n.j))
}

// The box of the child at (i, j, k) of a node that has the box b and n children along an axis.
fn child_box_at(b: BoundingBox, n: u32, at: Vec3i) -> BoundingBox
    ensures { result ≡ child_box_at b n at }
{
    let p = b.min;
    let q = b.max;
    let steps = n as u64;
    let min = Vec3::new(
        geometry::along(p.x, q.x, steps, at.i as u64),
        geometry::along(p.y, q.y, steps, at.j as u64),
        geometry::along(p.z, q.z, steps, at.k as u64),
    );
    let max = Vec3::new(
        geometry::along_end(p.x, q.x, steps, at.i as u64),
        geometry::along_end(p.y, q.y, steps, at.j as u64),
        geometry::along_end(p.z, q.z, steps, at.k as u64),
    );
    BoundingBox::new(min, max)
}

// The box of child c.
pub fn child_box(b: BoundingBox, n: u32, c: usize) -> BoundingBox
    requires { 0 < n }
    ensures { result ≡ child_box b n c }
{
    child_box_at(b, n, geometry::indices(c, n as usize, n as usize))
}

// Whether the bounds meet child c of node v.
pub fn is_active(g: Grid, v: usize, c: usize) -> bool
    requires { 0 < g.inner }
    ensures { result ≡ active g v c }
{
    let bounds = g.bounds;
    bounds.intersects(child_box(node_box(g, v), g.inner, c))
}
