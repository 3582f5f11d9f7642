// The tests of causes 1 and 9.
ghost use Rattle.std.specs.Prelude.{◌≡◌};
ghost use Rattle.geometry.specs.Index.{dimensions_refused};
ghost use Rattle.geometry.specs.Bounds.{point_refused, box_refused, cell_refused};

use crate::{BoundingBox, LARGEST_PRODUCT, Vec3};

// Whether a coordinate of a point is not finite: cause 1.
#[tactic(auto, unfolding(crate::specs::Bounds::point_refused))]
pub fn point_refused(p: Vec3) -> bool
    ensures { result ≡ point_refused p }
{
    !float::is_finite(p.x) || !float::is_finite(p.y) || !float::is_finite(p.z)
}

// Whether bounds are not finite, or end below their beginning on an axis: cause 1.
#[tactic(auto, unfolding(crate::specs::Bounds::box_refused))]
pub fn box_refused(b: BoundingBox) -> bool
    ensures { result ≡ box_refused b }
{
    point_refused(b.min)
        || point_refused(b.max)
        || b.max.x < b.min.x
        || b.max.y < b.min.y
        || b.max.z < b.min.z
}

// Whether a cell's size is infinite, NaN, 0 or negative: cause 1.
#[tactic(auto, unfolding(crate::specs::Bounds::cell_refused))]
pub fn cell_refused(cell: f64) -> bool
    ensures { result ≡ cell_refused cell }
{
    !float::is_finite(cell) || !(0.0 < cell)
}

// Whether a grid has a dimension of 0 or too many points. No product is taken before its factors are known to be small.
// Kept: the dimensions go one by one, since the two calls on flat indices carry them so.
#[tactic(auto, unfolding(crate::specs::Index::dimensions_refused))]
pub fn dimensions_refused(nx: usize, ny: usize, nz: usize) -> bool
    ensures { result ≡ dimensions_refused nx ny nz }
{
    if nx == 0 || ny == 0 || nz == 0 {
        return true;
    }
    if nx > LARGEST_PRODUCT || ny > LARGEST_PRODUCT || nz > LARGEST_PRODUCT {
        return true;
    }
    if nx * ny > LARGEST_PRODUCT {
        return true;
    }
    nx * ny * nz > LARGEST_PRODUCT
}
