// A cell's eight corners and the values there, in octet order (rule B9).
ghost use Rattle.std.specs.Prelude.{◌≡◌, ◌+◌, ◌<◌, length, IsTrue, IfOk, IfSome};
ghost use Rattle.std.specs.Float.{binary64};
ghost use Rattle.std.specs.Float.Ieee.{add, mul};
ghost use Rattle.dense_field.specs.Inner.Lent.{Found};
ghost use Rattle.dense_field.specs.Octets.{cell_inside, corner_index, corners_of, octet_of};
ghost use Rattle.dense_field.specs.Cells.{cell_corners_of, cell_values_of};
ghost use Rattle.dense_field.specs.Walks.{no_cells, next_cell, octet_step};

use crate::{Step, counts};
use causes::Cause;
use geometry::{Vec3, Vec3i};

// Whether the point after a cell on each axis is one of the field.
#[tactic(auto, unfolding(crate::specs::Octets::cell_inside))]
fn cell_inside(n: Vec3i, c: Vec3i) -> bool
    ensures answer { result ≡ cell_inside n c }
    ensures inside { IsTrue result → (c.i + 1 < n.i) × (c.j + 1 < n.j) × (c.k + 1 < n.k) }
{
    c.i < n.i && c.j < n.j && c.k < n.k && c.i + 1 < n.i && c.j + 1 < n.j && c.k + 1 < n.k
}

// Where a cell's corner stands along an axis: `index` is the cell's own, or the one after it.
fn corner(origin: f64, cell: f64, index: f64) -> f64
    ensures { result ≡ add binary64 origin (mul binary64 index cell) }
{
    float::computed(origin + index * cell)
}

// The index of the point after a cell, computed as a float.
#[tactic(auto, unfolding(crate::specs::Octets::corner_index))]
fn after(i: usize) -> f64
    ensures { result ≡ corner_index i 1 }
{
    float::computed(float::from_count(i as u64) + 1.0)
}

// The eight corners of a cell.
#[tactic(auto, unfolding(crate::specs::Octets::corners_of, crate::specs::Octets::corner_at, crate::specs::Octets::corner_index, geometry::specs::Octet::octet_order))]
fn corners(origin: Vec3, cell: f64, c: Vec3i) -> [Vec3; 8]
    ensures { result ≡ corners_of origin cell c }
{
    let x0 = corner(origin.x, cell, float::from_count(c.i as u64));
    let y0 = corner(origin.y, cell, float::from_count(c.j as u64));
    let z0 = corner(origin.z, cell, float::from_count(c.k as u64));
    let x1 = corner(origin.x, cell, after(c.i));
    let y1 = corner(origin.y, cell, after(c.j));
    let z1 = corner(origin.z, cell, after(c.k));
    [
        Vec3::new(x0, y0, z0),
        Vec3::new(x1, y0, z0),
        Vec3::new(x1, y1, z0),
        Vec3::new(x0, y1, z0),
        Vec3::new(x0, y0, z1),
        Vec3::new(x1, y0, z1),
        Vec3::new(x1, y1, z1),
        Vec3::new(x0, y1, z1),
    ]
}

// The eight corners of a field's cell.
#[tactic(auto, unfolding(crate::specs::Cells::cell_corners_of, causes::specs::First::first_of))]
pub fn cell_corners(origin: Vec3, cell: f64, n: Vec3i, c: Vec3i) -> Result<[Vec3; 8], Cause>
    ensures { result ≡ cell_corners_of origin cell n c }
{
    if geometry::point_refused(origin) || geometry::cell_refused(cell) {
        return Err(Cause::Bounds);
    }
    if geometry::dimensions_refused(n.i, n.j, n.k) {
        return Err(Cause::Dimensions);
    }
    if !cell_inside(n, c) {
        return Err(Cause::Outside);
    }
    Ok(corners(origin, cell, c))
}

// The values at the corners of a cell that is inside.
#[tactic(auto, using(crate::proofs::OctetLaws::reach))]
fn octet(n: Vec3i, values: &[f64], c: Vec3i) -> [f64; 8]
    requires { Found n (length values.now) c }
    ensures { result ≡ octet_of n values.now c }
{
    let row = n.i;
    let slab = n.i * n.j;
    let p = c.k * slab + c.j * row + c.i;
    let q = p + slab;
    [
        values[p],
        values[p + 1],
        values[p + row + 1],
        values[p + row],
        values[q],
        values[q + 1],
        values[q + row + 1],
        values[q + row],
    ]
}

// The eight values at the corners of a cell.
// Kept: `n`, `values` and a cell are three parameters here, as they are in C. The struct of them is the
// walker, `DenseCellValueIterator`.
#[tactic(auto, unfolding(crate::specs::Cells::cell_values_of, crate::specs::Outcomes::outcome_of, causes::specs::First::first_of))]
pub fn cell_values(n: Vec3i, values: &[f64], c: Vec3i) -> Result<[f64; 8], Cause>
    ensures { result ≡ cell_values_of n values.now c }
{
    counts::tested(n, values.len())?;
    if !cell_inside(n, c) {
        return Err(Cause::Outside);
    }
    Ok(octet(n, values, c))
}

// Whether a field has no cell.
#[tactic(auto, unfolding(crate::specs::Walks::no_cells))]
fn no_cells(cells: Vec3i) -> bool
    ensures { result ≡ no_cells cells }
{
    cells.i == 0 || cells.j == 0 || cells.k == 0
}

// The cell after the one at the cursor of a walk over octets, or none where the walk is done.
#[tactic(auto, unfolding(crate::specs::Walks::next_cell, crate::specs::Outcomes::outcome_of, causes::specs::First::first_of))]
fn next_cell(n: Vec3i, len: usize, c: Vec3i) -> Result<Option<Vec3i>, Cause>
    ensures next { result ≡ next_cell n len c }
    ensures found { IfOk result (λ place. IfSome place (λ _. Found n len c)) }
{
    counts::tested(n, len)?;
    let cells = Vec3i::new(n.i - 1, n.j - 1, n.k - 1);
    if no_cells(cells) || c.k >= cells.k {
        return Ok(None);
    }
    if c.i >= cells.i || c.j >= cells.j {
        return Err(Cause::Outside);
    }
    Ok(Some(geometry::next_indices(c, cells.i, cells.j)))
}

// One step of the walk over a field's octets: the values at the cursor's cell with the next cursor,
// or none where the walk is done.
pub fn octet_step(n: Vec3i, values: &[f64], c: Vec3i) -> Result<Option<Step<[f64; 8]>>, Cause>
    ensures { result ≡ octet_step n values.now c }
{
    Ok(next_cell(n, values.len(), c)?.map(|next| Step {
        found: octet(n, values, c),
        next,
    }))
}
