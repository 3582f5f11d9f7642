// Walks over the points and the cells of a grid that fills a box, after PointGridIter and
// CellGridIter. The cursor goes by value: it stands at the next point or cell.
ghost use Rattle.std.specs.Prelude.{◌≡◌, ◌≤◌, IfOk, IfSome};
ghost use Rattle.dense_field.specs.Walks.{count_refused, walk_refused, next_place, walk_point, walk_cell, point_step, cell_step};

use crate::Step;
use causes::Cause;
use geometry::{BoundingBox, Vec3, Vec3i};

// Whether a count along an axis is too small or too large.
#[tactic(auto, unfolding(crate::specs::Walks::count_refused))]
fn count_refused(least: usize, n: usize) -> bool
    ensures { result ≡ count_refused least n }
{
    n < least || geometry::LARGEST_PRODUCT < n
}

// Whether a walk is refused: cause 11.
#[tactic(auto, unfolding(crate::specs::Walks::walk_refused))]
fn walk_refused(least: usize, n: Vec3i, cursor: Vec3i) -> bool
    ensures { result ≡ walk_refused least n cursor }
{
    count_refused(least, n.i)
        || count_refused(least, n.j)
        || count_refused(least, n.k)
        || cursor.i >= n.i
        || cursor.j >= n.j
}

// The place after the one at the cursor of a walk, or none where k has gone through. Refused by 1,
// then 11.
// Kept: bounds, n and cursor stay three parameters. With a struct of them and methods a step of a walk
// over points took 1.3 times as long, and one over cells 1.5 times.
#[tactic(auto, using(crate::proofs::WalkLaws::walk_passed), unfolding(crate::specs::Walks::next_place, causes::specs::First::first_of))]
fn next_place(
    least: usize,
    bounds: BoundingBox,
    n: Vec3i,
    cursor: Vec3i,
) -> Result<Option<Vec3i>, Cause>
    ensures next { result ≡ next_place least bounds n cursor }
    ensures counted { IfOk result (λ place. IfSome place (λ _. (least ≤ n.i) × (least ≤ n.j) × (least ≤ n.k))) }
{
    if geometry::box_refused(bounds) {
        return Err(Cause::Bounds);
    }
    if walk_refused(least, n, cursor) {
        return Err(Cause::Walk);
    }
    if cursor.k >= n.k {
        return Ok(None);
    }
    Ok(Some(geometry::next_indices(cursor, n.i, n.j)))
}

// The point at a cursor. The first point of an axis is its least end and the last its most.
#[tactic(auto, unfolding(crate::specs::Walks::walk_point))]
fn walk_point(bounds: BoundingBox, n: Vec3i, cursor: Vec3i) -> Vec3
    requires { (1 ≤ n.i) × (1 ≤ n.j) × (1 ≤ n.k) }
    ensures { result ≡ walk_point bounds n cursor }
{
    let min = bounds.min;
    let max = bounds.max;
    Vec3::new(
        geometry::along(min.x, max.x, (n.i - 1) as u64, cursor.i as u64),
        geometry::along(min.y, max.y, (n.j - 1) as u64, cursor.j as u64),
        geometry::along(min.z, max.z, (n.k - 1) as u64, cursor.k as u64),
    )
}

// The box of the cell at a cursor.
#[tactic(auto, unfolding(crate::specs::Walks::walk_cell))]
fn walk_cell(bounds: BoundingBox, n: Vec3i, cursor: Vec3i) -> BoundingBox
    ensures { result ≡ walk_cell bounds n cursor }
{
    let min = bounds.min;
    let max = bounds.max;
    let (nx, ny, nz) = (n.i as u64, n.j as u64, n.k as u64);
    let (i, j, k) = (cursor.i as u64, cursor.j as u64, cursor.k as u64);
    BoundingBox::new(
        Vec3::new(
            geometry::along(min.x, max.x, nx, i),
            geometry::along(min.y, max.y, ny, j),
            geometry::along(min.z, max.z, nz, k),
        ),
        Vec3::new(
            geometry::along_end(min.x, max.x, nx, i),
            geometry::along_end(min.y, max.y, ny, j),
            geometry::along_end(min.z, max.z, nz, k),
        ),
    )
}

// The point at the cursor and the next cursor, or none past the last point. There are n.i by n.j by
// n.k points.
// Kept: `cell_step` differs in its least count and in what stands at a cursor, and each says both in
// its one line.
pub fn point_step(bounds: BoundingBox, n: Vec3i, cursor: Vec3i) -> Result<Option<Step<Vec3>>, Cause>
    ensures { result ≡ point_step bounds n cursor }
{
    Ok(next_place(2, bounds, n, cursor)?.map(|next| Step {
        found: walk_point(bounds, n, cursor),
        next,
    }))
}

// The box of the cell at the cursor and the next cursor, or none past the last cell. There are n.i by
// n.j by n.k cells.
pub fn cell_step(
    bounds: BoundingBox,
    n: Vec3i,
    cursor: Vec3i,
) -> Result<Option<Step<BoundingBox>>, Cause>
    ensures { result ≡ cell_step bounds n cursor }
{
    Ok(next_place(1, bounds, n, cursor)?.map(|next| Step {
        found: walk_cell(bounds, n, cursor),
        next,
    }))
}
