// How large a node is, and how many there are along an axis and in all.
ghost use Rattle.std.specs.Prelude.{◌≡◌, ◌-◌, ◌^◌, ◌<◌};
ghost use Rattle.grid.specs.Nodes.{node_size, nodes_along, node_counts, nodes_of};

use crate::Grid;
use geometry::Vec3i;

// The steps between l points: one less than the points, and none where there are no points.
pub fn steps_between(l: u32) -> u64
    ensures { result ≡ l - 1 }
{
    if l == 0 {
        return 0;
    }
    (l as u64) - 1
}

// The size of a node along each axis: its cells, n children of l - 1 each.
pub fn node_size(cell: f64, n: u32, l: u32) -> f64
    ensures { result ≡ node_size cell n l }
{
    float::computed(cell * float::from_count((n as u64) * steps_between(l)))
}

// The nodes along an axis. The quotient is compared as a float before it is cast: it can be a NaN,
// negative, or past every count.
pub fn nodes_along(least: f64, most: f64, s: f64) -> usize
    ensures { result ≡ nodes_along least most s }
{
    let n = float::ceil((most - least) / s);
    if n > 1.0 {
        if n < 18446744073709551616.0 {
            return std::num::truncating_f64_to_u64(n) as usize;
        }
        return 18446744073709551615;
    }
    1
}

// The nodes along each axis.
pub fn node_counts(g: Grid) -> Vec3i
    ensures { result ≡ node_counts g }
{
    let min = g.bounds.min;
    let max = g.bounds.max;
    let s = node_size(g.cell, g.inner, g.leaf);
    Vec3i::new(
        nodes_along(min.x, max.x, s),
        nodes_along(min.y, max.y, s),
        nodes_along(min.z, max.z, s),
    )
}

// All nodes, where their number fits.
pub fn node_total(g: Grid) -> usize
    requires { nodes_of g < 2 ^ 64 }
    ensures { result ≡ nodes_of g }
{
    let n = node_counts(g);
    n.i * n.j * n.k
}
