// The corners that a node's active children need, found in ascending order and evaluated in rows.
ghost use Rattle.std.specs.Prelude.{◌≡◌, ℕ, ◌+◌, ◌*◌, ◌<◌, ◌≤◌, length, get_or};
ghost use Rattle.geometry.specs.Values.{at};
ghost use Rattle.grid.specs.Blocks.{cube};
ghost use Rattle.grid.specs.Corners.{needed, corner_point};
ghost use Rattle.grid.specs.CornerList.{nonzero_at};
ghost use Rattle.rows.specs.Inner.Around.{row_has, slab_has, around};
ghost use Rattle.rows.specs.Inner.CornerRun.{CornerRun};
ghost use Rattle.rows.specs.Inner.Gathered.{Gathered};
ghost use Rattle.rows.specs.Inner.ModelValue.{model_at};
ghost use Rattle.rows.specs.Inner.Written.{scattered};

use crate::budget::allowed;
use geometry::{BoundingBox, PointRow, Vec3i};
use grid::NodeKinds;
use model::ImplicitModel;

// How many needed corners a search found, and where it ended.
#[derive(Clone, Copy, Debug, PartialEq, Eq)]
pub struct Found {
    pub count: usize,
    pub next: usize,
}

// Where a run of corners ended, and what is left of its budget.
#[derive(Clone, Copy, Debug, PartialEq, Eq)]
pub struct CornersEnd {
    pub next: usize,
    pub left: u64,
}

// Whether one of the two children at i of a row is active. The row starts at child `first`.
#[tactic(auto, unfolding(crate::specs::Inner::Around::either, grid::specs::CornerList::nonzero_at))]
fn row_has(node: &NodeKinds, first: usize, i: usize) -> bool
    requires { (i ≤ node.now.n) × (first + node.now.n ≤ length node.now.kinds.now) }
    ensures { result ≡ row_has node.now.n (nonzero_at node.now.kinds.now) first i }
{
    (i > 0 && node.kinds[first + (i - 1)] != 0)
        || (i < node.n as usize && node.kinds[first + i] != 0)
}

// Whether one of the four children at (i, j) of a slab is active. The slab starts at child `first`.
#[tactic(auto, unfolding(crate::specs::Inner::Around::either, grid::specs::CornerList::nonzero_at))]
fn slab_has(node: &NodeKinds, first: usize, i: usize, j: usize) -> bool
    requires { (i ≤ node.now.n) × (j ≤ node.now.n) × (first + node.now.n * node.now.n ≤ length node.now.kinds.now) }
    ensures { result ≡ slab_has node.now.n (nonzero_at node.now.kinds.now) first i j }
{
    let n = node.n as usize;
    (j > 0 && row_has(node, first + (j - 1) * n, i)) || (j < n && row_has(node, first + j * n, i))
}

// Whether one of the eight children around the corner at (i, j, k) is active.
#[tactic(auto, unfolding(crate::specs::Inner::Around::either, grid::specs::CornerList::nonzero_at))]
fn has_child(node: &NodeKinds, at: Vec3i) -> bool
    requires { (at.i ≤ node.now.n) × (at.j ≤ node.now.n) × (at.k ≤ node.now.n) }
    ensures { result ≡ around node.now.n (nonzero_at node.now.kinds.now) at }
{
    let n = node.n as usize;
    (at.k > 0 && slab_has(node, (at.k - 1) * n * n, at.i, at.j))
        || (at.k < n && slab_has(node, at.k * n * n, at.i, at.j))
}

// Whether an active child has the corner, by the kinds of one node.
pub fn is_needed(node: &NodeKinds, corner: usize) -> bool
    requires { corner < cube (node.now.n + 1) }
    ensures { result ≡ needed node.now.n (nonzero_at node.now.kinds.now) corner }
{
    let side = node.n as usize + 1;
    has_child(node, geometry::indices(corner, side, side))
}

// Lists the needed corners from corner i on, at most `most` of them, and runs on to the next needed
// corner or past the last. The indices go along, so that no corner needs a division.
fn gather(node: &NodeKinds, i: usize, most: usize, list: &mut [u32]) -> Found
    requires { (i ≤ cube (node.now.n + 1)) × (most ≤ length list.old) }
    ensures { Gathered (needed node.now.n (nonzero_at node.now.kinds.now)) (cube (node.now.n + 1)) i most
        result.count result.next list.new }
{
    let side = node.n as usize + 1;
    let total = grid::cube_of(side);
    let mut at = geometry::indices(i, side, side);
    let mut count: usize = 0;
    for corner in i..total {
        if has_child(node, at) {
            if count == most {
                return Found {
                    count,
                    next: corner,
                };
            }
            list[count] = corner as u32;
            count += 1;
        }
        at = geometry::next_indices(at, side, side);
    }
    Found { count, next: total }
}

// Stores a row of values, each at the place that is listed for it.
fn scatter(places: &[u32], values: &[f64; 64], corners: &mut [f64])
    requires { (length places.now ≤ 64) × ((q : ℕ) → q < length places.now → get_or places.now q 0 < length corners.old) }
    ensures { corners.new
        ≡ scattered (length places.now) places.now values.now corners.old }
{
    for (q, place) in places.iter().enumerate() {
        corners[*place as usize] = values[q];
    }
}

// Evaluates a node's needed corners from corner i on, in ascending order and in rows, while the budget
// lasts, and runs on to the next needed corner or past the last. The rows are made once.
// Kept: how many turns the loop takes hangs on where each search ends, which nothing tells before. The list
// and the values have the room of a row, and what lends them lends `count` of them.
pub fn run_corners(
    model: &ImplicitModel,
    b: BoundingBox,
    node: &NodeKinds,
    i: usize,
    budget: u64,
    scratch: &mut [f64; 4096],
    corners: &mut [f64],
) -> CornersEnd
    requires { (cube (node.now.n + 1) ≤ length corners.old) × (i ≤ cube (node.now.n + 1)) }
    ensures { CornerRun (needed node.now.n (nonzero_at node.now.kinds.now)) (λ c. at (model_at model.now) (corner_point b node.now.n c))
        (cube (node.now.n + 1)) i budget result.next result.left corners.old corners.new }
{
    let total = grid::cube_of(node.n as usize + 1);
    let mut list = [0u32; 64];
    let mut row = PointRow::new();
    let mut values = [0.0; 64];
    let mut next = i;
    let mut left = budget;
    loop {
        let found = gather(node, next, allowed(left, 64), &mut list);
        let count = found.count;
        grid::corner_points(b, node.n, &list[..count], &mut row);
        model::evaluate_row_into(model, &row, count, scratch, &mut values);
        scatter(&list[..count], &values, corners);
        next = found.next;
        left -= count as u64;
        if next == total {
            return CornersEnd { next, left };
        }
        if left == 0 {
            return CornersEnd { next, left };
        }
    }
}
