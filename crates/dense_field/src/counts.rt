// How many points a field has: from its bounds, and in a lent slice.
ghost use Rattle.std.specs.Prelude.{◌≡◌, min, OnOk};
ghost use Rattle.std.specs.Float.Ieee.{to_unsigned};
ghost use Rattle.dense_field.specs.Inner.Lent.{Lent};
ghost use Rattle.dense_field.specs.Outcomes.{outcome_of};
ghost use Rattle.dense_field.specs.Points.{points_along, point_count_of};

use causes::Cause;
use geometry::{BoundingBox, Vec3i};

// Refuses dimensions that no field has, and `len` values that are not what they ask for: cause 9.
#[tactic(auto, using(geometry::proofs::Grid::accepted), unfolding(crate::specs::Outcomes::outcome_of, crate::specs::Field::values_refused, causes::specs::First::first_of))]
pub fn tested(n: Vec3i, len: usize) -> Result<(), Cause>
    ensures answer { result ≡ outcome_of n len }
    ensures lent { OnOk result (Lent n len) }
{
    if geometry::dimensions_refused(n.i, n.j, n.k) || len != n.i * n.j * n.k {
        return Err(Cause::Dimensions);
    }
    Ok(())
}

// A whole number as a count, and one above 16,777,216 as that. A NaN or a number below 0 counts as 0.
fn small_count(q: f64) -> usize
    ensures { result ≡ min (to_unsigned 64 q) 16777216 }
{
    if q < 16777216.0 {
        if -1.0 < q {
            return std::num::truncating_f64_to_u64(q) as usize;
        }
        return 0;
    }
    if q != q {
        return 0;
    }
    16777216
}

// The points along an axis, and 16,777,217 where there are more.
fn points_along(least: f64, most: f64, cell: f64) -> usize
    ensures { result ≡ min (points_along least most cell) 16777217 }
{
    small_count(float::floor((most - least) / cell)) + 1
}

// The number of points along each axis of a field in bounds. A quotient is compared as a float
// before it becomes a count, since it may be infinite.
#[tactic(auto, unfolding(crate::specs::Points::point_count_of, causes::specs::First::first_of))]
pub fn point_count(bounds: BoundingBox, cell: f64) -> Result<Vec3i, Cause>
    ensures { result ≡ point_count_of bounds cell }
{
    if geometry::box_refused(bounds) || geometry::cell_refused(cell) {
        return Err(Cause::Bounds);
    }
    let min = bounds.min;
    let max = bounds.max;
    let nx = points_along(min.x, max.x, cell);
    let ny = points_along(min.y, max.y, cell);
    let nz = points_along(min.z, max.z, cell);
    if geometry::dimensions_refused(nx, ny, nz) {
        return Err(Cause::Dimensions);
    }
    Ok(Vec3i::new(nx, ny, nz))
}
