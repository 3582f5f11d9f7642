// The points of a leaf, evaluated in rows into the leaf's own stretch of the store.
ghost use Rattle.std.specs.Prelude.{◌≡◌, min, ◌+◌, ◌-◌, ◌<◌, ◌≤◌, length};
ghost use Rattle.lists.specs.Filled.{filled};
ghost use Rattle.geometry.specs.Axis.{along};
ghost use Rattle.geometry.specs.PointRow.{with_points};
ghost use Rattle.geometry.specs.Values.{at};
ghost use Rattle.grid.specs.Blocks.{cube};
ghost use Rattle.grid.specs.Leaves.{leaf_point};
ghost use Rattle.rows.specs.Inner.Axes.{axes_of, axes_point};
ghost use Rattle.rows.specs.Inner.ModelValue.{model_at};

use crate::budget::allowed;
use geometry::{BoundingBox, PointRow, Vec3};
use model::ImplicitModel;

// Writes where the l points of an axis from `least` to `most` stand, to the front of a list.
fn axis_points(least: f64, most: f64, l: u32, axis: &mut [f64; 64])
    requires { l ≤ 64 }
    ensures { axis.new ≡ filled 0 l (along least most (l - 1)) axis.old }
{
    let step = geometry::step_along(least, most, grid::steps_between(l));
    for i in 0..l as usize {
        axis[i] = float::computed(least + float::from_count(i as u64) * step);
    }
}

// Where the points of a leaf that has the box b stand on each axis.
fn leaf_axes(b: BoundingBox, l: u32) -> PointRow
    requires { l ≤ 64 }
    ensures { result ≡ axes_of b l }
{
    let mut axes = PointRow::new();
    axis_points(b.min.x, b.max.x, l, &mut axes.xs);
    axis_points(b.min.y, b.max.y, l, &mut axes.ys);
    axis_points(b.min.z, b.max.z, l, &mut axes.zs);
    axes
}

// Writes `count` points of a leaf, from point p on, to the front of a row, out of where the points of
// each axis stand.
fn place_points(l: u32, p: usize, count: usize, axes: &PointRow, row: &mut PointRow)
    requires { (0 < l) × (l ≤ 64) × (count ≤ 64) × (p + count ≤ cube l) }
    ensures { row.new ≡ with_points count (λ q. axes_point l axes.now (p + q)) row.old }
{
    let side = l as usize;
    let mut at = geometry::indices(p, side, side);
    for q in 0..count {
        row.set(q, Vec3::new(axes.xs[at.i], axes.ys[at.j], axes.zs[at.k]));
        at = geometry::next_indices(at, side, side);
    }
}

// Evaluates a leaf's points from point p on, while the budget lasts, into its stretch of the store. The
// answer is the next point, or how many a leaf has. Where the points of each axis stand is worked out
// once, and the rows are made once.
// Kept: the loop takes up to 64 points at a turn; over `chunks_mut` the proof follows the borrow of each
// part, and is no plainer.
pub fn fill_points(
    model: &ImplicitModel,
    b: BoundingBox,
    l: u32,
    p: usize,
    budget: u64,
    scratch: &mut [f64; 4096],
    stretch: &mut [f64],
) -> usize
    requires { (0 < l) × (l ≤ 64) × (p ≤ cube l) × (cube l ≡ length stretch.old) }
    ensures answer { result ≡ p + min budget (cube l - p) }
    ensures stretch { stretch.new
        ≡ filled p (min budget (cube l - p)) (λ q. at (model_at model.now) (leaf_point b l q)) stretch.old }
{
    let made = allowed(budget, grid::cube_of(l as usize) - p);
    let axes = leaf_axes(b, l);
    let mut row = PointRow::new();
    let mut values = [0.0; 64];
    let mut t = 0;
    while t < made {
        let first = p + t;
        let n = allowed((made - t) as u64, 64);
        place_points(l, first, n, &axes, &mut row);
        model::evaluate_row_into(model, &row, n, scratch, &mut values);
        stretch[first..first + n].copy_from_slice(&values[..n]);
        t += n;
    }
    p + made
}
