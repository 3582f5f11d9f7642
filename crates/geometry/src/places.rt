// The indices of a grid: a place in a flat list, both ways, and the indices that come next.
ghost use Rattle.std.specs.Prelude.{◌≡◌, ◌+◌, ◌^◌, ◌<◌};
ghost use Rattle.geometry.specs.Values.{vec3i};
ghost use Rattle.geometry.specs.Index.{indices_of, index1d_of, index3d_of, next_indices};

use crate::Vec3i;
use crate::refusals::dimensions_refused;
use causes::Cause;

impl Vec3i {
    pub fn new(i: usize, j: usize, k: usize) -> Self
        ensures { result ≡ vec3i i j k }
    {
        Vec3i { i, j, k }
    }
}

// The place of (i, j, k) in a flat list, i fastest.
// Kept: the indices and the dimensions go one by one, here and below, as in the original's functions of these
// names (math_helper.rs).
#[tactic(auto, unfolding(crate::specs::Index::index1d_of, crate::specs::Index::place_of, causes::specs::First::first_of))]
pub fn index1d_from_index3d(
    i: usize,
    j: usize,
    k: usize,
    nx: usize,
    ny: usize,
    nz: usize,
) -> Result<usize, Cause>
    ensures { result ≡ index1d_of i j k nx ny nz }
{
    if dimensions_refused(nx, ny, nz) {
        return Err(Cause::Dimensions);
    }
    if i >= nx || j >= ny || k >= nz {
        return Err(Cause::Outside);
    }
    Ok(k * nx * ny + j * nx + i)
}

// The indices of a place in a flat list, i fastest.
#[tactic(auto, unfolding(crate::specs::Index::index3d_of, causes::specs::First::first_of))]
pub fn index3d_from_index1d(index: usize, nx: usize, ny: usize, nz: usize) -> Result<Vec3i, Cause>
    ensures { result ≡ index3d_of index nx ny nz }
{
    if dimensions_refused(nx, ny, nz) {
        return Err(Cause::Dimensions);
    }
    if index >= nx * ny * nz {
        return Err(Cause::Outside);
    }
    Ok(indices(index, nx, ny))
}

// The indices of number `index` in a grid of nx by ny, i fastest. Two divisions, and no product.
#[tactic(auto, using(crate::proofs::Division::by_rows))]
pub fn indices(index: usize, nx: usize, ny: usize) -> Vec3i
    requires { (0 < nx) × (0 < ny) }
    ensures { result ≡ indices_of index nx ny }
{
    let row = index / nx;
    Vec3i::new(index % nx, row % ny, row / ny)
}

// The indices after (i, j, k) in a grid of nx by ny, i fastest.
#[tactic(auto, unfolding(crate::specs::Index::next_indices))]
pub fn next_indices(at: Vec3i, nx: usize, ny: usize) -> Vec3i
    requires { (at.i < nx) × (at.j < ny) × (at.k + 1 < 2 ^ 64) }
    ensures { result ≡ next_indices at nx ny }
{
    if at.i + 1 < nx {
        return Vec3i::new(at.i + 1, at.j, at.k);
    }
    if at.j + 1 < ny {
        return Vec3i::new(0, at.j + 1, at.k);
    }
    Vec3i::new(0, 0, at.k + 1)
}
