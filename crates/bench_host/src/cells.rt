// The cells of a dense field.
ghost use Rattle.std.specs.Prelude.{◌≡◌, ◌%◌, get_or, replicate};
ghost use Rattle.std.specs.Result.{result_unwrap_or};
ghost use Rattle.float.specs.Zero.{plus_zero};
ghost use Rattle.geometry.specs.Values.{vec3, vec3i};
ghost use Rattle.model.specs.Part.{past};
ghost use Rattle.dense_field.specs.Cells.{cell_corners_of};
ghost use Rattle.field_host.specs.Answers.{coordinates, outcome_number};

use field_host::put_point;
use geometry::{Vec3, Vec3i};

// One corner of a cell: they are counted round, so that corner 8 is the first again. A refusal has
// eight times the point (0, 0, 0).
#[unsafe(no_mangle)]
pub extern "C" fn bench_cell_corner(
    x: f64,
    y: f64,
    z: f64,
    cell: f64,
    nx: usize,
    ny: usize,
    nz: usize,
    i: usize,
    j: usize,
    k: usize,
    corner: usize,
    out: &mut [f64; 3],
) -> u32
    ensures answer { result ≡ outcome_number (cell_corners_of (vec3 x y z) cell (vec3i nx ny nz) (vec3i i j k)) }
    ensures out { out.new
        ≡ coordinates (get_or (result_unwrap_or (cell_corners_of (vec3 x y z) cell (vec3i nx ny nz) (vec3i i j k))
        (replicate 8 (vec3 plus_zero plus_zero plus_zero))) (corner % 8) (vec3 past past past)) }
{
    let n = Vec3i::new(nx, ny, nz);
    let found = dense_field::cell_corners(Vec3::new(x, y, z), cell, n, Vec3i::new(i, j, k));
    let points = found.unwrap_or([Vec3::new(0.0, 0.0, 0.0); 8]);
    put_point(points[corner % 8], out);
    match found {
        Ok(_) => 0,
        Err(cause) => cause.number(),
    }
}
