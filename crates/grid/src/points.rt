// The points of a node's corners and of a leaf, one at a time and in rows, and a child's octet.
ghost use Rattle.std.specs.Prelude.{◌≡◌, ◌+◌, ◌^◌, ◌<◌, ◌≤◌, length, slice_index};
ghost use Rattle.geometry.specs.Axis.{step_along};
ghost use Rattle.geometry.specs.PointRow.{with_points};
ghost use Rattle.geometry.specs.Octet.{octet_places};
ghost use Rattle.grid.specs.Blocks.{cube};
ghost use Rattle.grid.specs.Corners as corners;
ghost use Rattle.grid.specs.Leaves.{leaf_point};
ghost use Rattle.grid.specs.Inner.Octets.{octet_values};
ghost use Rattle.grid.specs.Inner.Steps.{leaf_steps, step_from, stepped_point, corner_along, corner_at};

use crate::nodes::steps_between;
use geometry::{BoundingBox, PointRow, Vec3, Vec3i};

// Corner i along an axis, with the step c.
fn corner_along(origin: f64, c: f64, i: usize) -> f64
    ensures { result ≡ corner_along origin c i }
{
    float::computed(origin + c * float::from_count(i as u64))
}

// The corner at (i, j, k), with the step c on all three axes.
fn corner_at(origin: Vec3, c: f64, at: Vec3i) -> Vec3
    ensures { result ≡ corner_at origin c at }
{
    Vec3::new(
        corner_along(origin.x, c, at.i),
        corner_along(origin.y, c, at.j),
        corner_along(origin.z, c, at.k),
    )
}

// The step between the corners of a node that has the box b and n children along an axis: the x
// dimension's on all three axes.
fn corner_step(b: BoundingBox, n: u32) -> f64
    ensures { result ≡ step_along b.min.x b.max.x n }
{
    let min = b.min;
    let max = b.max;
    geometry::step_along(min.x, max.x, n as u64)
}

// A corner of such a node.
pub fn corner_point(b: BoundingBox, n: u32, corner: usize) -> Vec3
    ensures { result ≡ corners.corner_point b n corner }
{
    let min = b.min;
    let c = corner_step(b, n);
    let side = (n as usize) + 1;
    corner_at(min, c, geometry::indices(corner, side, side))
}

// The steps between the points of a leaf that has the box b and l points along an axis.
fn leaf_steps(b: BoundingBox, l: u32) -> Vec3
    ensures { result ≡ leaf_steps b l }
{
    let min = b.min;
    let max = b.max;
    let steps = steps_between(l);
    Vec3::new(
        geometry::step_along(min.x, max.x, steps),
        geometry::step_along(min.y, max.y, steps),
        geometry::step_along(min.z, max.z, steps),
    )
}

// What stands i steps from the least end of an axis: a point of a leaf, or where a node begins.
pub fn step_from(min: f64, step: f64, i: usize) -> f64
    ensures { result ≡ step_from min step i }
{
    float::computed(min + float::from_count(i as u64) * step)
}

// The point at (i, j, k).
fn stepped_point(min: Vec3, steps: Vec3, at: Vec3i) -> Vec3
    ensures { result ≡ stepped_point min steps at }
{
    Vec3::new(
        step_from(min.x, steps.x, at.i),
        step_from(min.y, steps.y, at.j),
        step_from(min.z, steps.z, at.k),
    )
}

// Point p of a leaf.
// Kept: a leaf's box and its points along an axis are two parameters. Callers have them apart, the box from
// a child and l from the grid.
pub fn leaf_point(b: BoundingBox, l: u32, p: usize) -> Vec3
    requires { 0 < l }
    ensures { result ≡ leaf_point b l p }
{
    let side = l as usize;
    stepped_point(b.min, leaf_steps(b, l), geometry::indices(p, side, side))
}

// The places of the eight corners of the child at (i, j, k), in rows of n + 1.
#[tactic(auto, using(crate::proofs::Octets::from_first))]
fn octet_at(at: Vec3i, n: usize) -> [usize; 8]
    requires { (at.i < n) × (at.j < n) × (at.k < n) × (n ≤ 64) }
    ensures { result ≡ octet_places (n + 1) (n + 1) at }
{
    let row = n + 1;
    let slab = row * row;
    let a = at.k * slab + at.j * row + at.i;
    let b = a + row;
    let d = a + slab;
    let e = b + slab;
    [a, a + 1, b + 1, b, d, d + 1, e + 1, e]
}

// The places of a child's eight corners among its node's.
pub fn octet(n: u32, c: usize) -> [usize; 8]
    requires { (0 < n) × (n ≤ 64) × (c < cube n) }
    ensures { result ≡ corners.octet n c }
{
    let side = n as usize;
    let at = geometry::indices(c, side, side);
    octet_at(at, side)
}

// The values at a child's eight corners.
pub fn octet_values(values: &[f64], n: u32, c: usize) -> [f64; 8]
    requires { (0 < n) × (n ≤ 64) × (c < cube n) × (cube (n + 1) ≤ length values.now) }
    ensures { result ≡ octet_values values.now n c }
{
    let places = octet(n, c);
    let mut eight = [0.0; 8];
    for q in 0..8 {
        eight[q] = values[places[q]];
    }
    eight
}

// Writes `count` points of a leaf, from point `first` on, to the front of a row.
pub fn leaf_points(b: BoundingBox, l: u32, first: usize, count: usize, row: &mut PointRow)
    requires { (0 < l) × (count ≤ 64) × (first + count < 2 ^ 64) }
    ensures { row.new ≡ with_points count (λ q. leaf_point b l (first + q)) row.old }
{
    let min = b.min;
    let side = l as usize;
    let steps = leaf_steps(b, l);
    let mut at = geometry::indices(first, side, side);
    for q in 0..count {
        row.set(q, stepped_point(min, steps, at));
        at = geometry::next_indices(at, side, side);
    }
}

// Writes the points of a list of at most 64 corners of a node to the front of a row.
pub fn corner_points(b: BoundingBox, n: u32, list: &[u32], row: &mut PointRow)
    requires { length list.now ≤ 64 }
    ensures { row.new
        ≡ with_points (length list.now) (λ q. corners.corner_point b n (slice_index list.now q)) row.old }
{
    let min = b.min;
    let c = corner_step(b, n);
    let side = (n as usize) + 1;
    for (q, corner) in list.iter().enumerate() {
        row.set(
            q,
            corner_at(min, c, geometry::indices(*corner as usize, side, side)),
        );
    }
}
