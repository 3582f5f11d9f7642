// The dense field's calls. Each answers the number of the cause that refused it, and 0 for none.
// Kept: the parameters, arrays with a count beside them too, are what C lends.
ghost use Rattle.std.specs.Prelude.{◌≡◌, cond, map, is_ok, length, replicate};
ghost use Rattle.float.specs.Zero.{plus_zero};
ghost use Rattle.geometry.specs.Values.{vec3, vec3i};
ghost use Rattle.model.specs.Flat.{flat_in};
ghost use Rattle.model.specs.Part.{part_in};
ghost use Rattle.dense_field.specs.Field.{values_refused};
ghost use Rattle.dense_field.specs.Outcomes.{outcome_of, smooth_outcome};
ghost use Rattle.dense_field.specs.Points.{point_count_of};
ghost use Rattle.dense_field.specs.Sampling.{sample_outcome};
ghost use Rattle.dense_field.specs.Sampling.{sampled};
ghost use Rattle.dense_field.specs.Padding.{padded};
ghost use Rattle.dense_field.specs.Threshold.{thresholded};
ghost use Rattle.dense_field.specs.Smoothing.{smooth_refused, smoothed};
ghost use Rattle.field_host.specs.Answers.{outcome_number, counts_left};
ghost use Rattle.field_host.specs.Given.{box_in, model_given};

use crate::answers::number;
use crate::given::{box_in, model_given};
use geometry::{Vec3, Vec3i};

// How many points a field over bounds has along each axis. Refused as rule D3 says.
pub fn jisampode_point_count(bounds: &[f64; 6], cell: f64, counts: &mut [usize; 3]) -> u32
    ensures answer { result ≡ outcome_number (point_count_of (box_in bounds.now) cell) }
    ensures counts { counts.new ≡ counts_left counts.old (point_count_of (box_in bounds.now) cell) }
{
    let answer = dense_field::point_count(box_in(bounds), cell);
    if let Ok(n) = answer {
        *counts = [n.i, n.j, n.k];
    }
    number(answer)
}

// The values of a model at all points of a field: its origin (x, y, z) and so many cells along each
// axis. Refused by 1, then 4, then 9.
pub fn jisampode_sample(
    parts: &[u32; 192],
    reals: &[f64; 256],
    count: u32,
    x: f64,
    y: f64,
    z: f64,
    cell: f64,
    nx: usize,
    ny: usize,
    nz: usize,
    values: &mut [f64],
) -> u32
    ensures answer { result
        ≡ outcome_number
        (sample_outcome (model_given (flat_in parts reals) count) (vec3 x y z) cell (vec3i nx ny nz) (length values.old)) }
    ensures values { values.new
        ≡ cond (is_ok (sample_outcome (model_given (flat_in parts reals) count) (vec3 x y z) cell (vec3i nx ny nz) (length values.old)))
        (sampled (map part_in (model_given (flat_in parts reals) count).parts) count (vec3 x y z) cell (vec3i nx ny nz)) values.old }
{
    let model = model_given(parts, reals, count);
    let origin = Vec3::new(x, y, z);
    let n = Vec3i::new(nx, ny, nz);
    number(dense_field::sample(&model, origin, cell, n, values))
}

// Every point on the outside set to a value. Refused by 9.
// Kept: C calls padding and threshold by names of their own, and each leaves other values.
pub fn jisampode_padding(nx: usize, ny: usize, nz: usize, value: f64, values: &mut [f64]) -> u32
    ensures answer { result ≡ outcome_number (outcome_of (vec3i nx ny nz) (length values.old)) }
    ensures values { values.new
        ≡ cond (values_refused (vec3i nx ny nz) (length values.old)) values.old
        (padded (vec3i nx ny nz) value values.old) }
{
    let n = Vec3i::new(nx, ny, nz);
    number(dense_field::padding(n, value, values))
}

// Values below a limit in size set to +0. Refused by 9.
pub fn jisampode_threshold(nx: usize, ny: usize, nz: usize, limit: f64, values: &mut [f64]) -> u32
    ensures answer { result ≡ outcome_number (outcome_of (vec3i nx ny nz) (length values.old)) }
    ensures values { values.new
        ≡ cond (values_refused (vec3i nx ny nz) (length values.old)) values.old (thresholded limit values.old) }
{
    let n = Vec3i::new(nx, ny, nz);
    number(dense_field::threshold(n, limit, values))
}

// Rounds of smoothing. The scratch is zeroed whole. Refused by 9.
pub fn jisampode_smooth(
    nx: usize,
    ny: usize,
    nz: usize,
    factor: f64,
    rounds: u32,
    values: &mut [f64],
    scratch: &mut [f64],
) -> u32
    ensures answer { result
        ≡ outcome_number (smooth_outcome (vec3i nx ny nz) (length values.old) (length scratch.old)) }
    ensures values { values.new
        ≡ cond (smooth_refused (vec3i nx ny nz) (length values.old) (length scratch.old)) values.old
        (smoothed (vec3i nx ny nz) factor rounds values.old) }
    ensures scratch { scratch.new
        ≡ cond (smooth_refused (vec3i nx ny nz) (length values.old) (length scratch.old)) scratch.old
        (replicate (length scratch.old) plus_zero) }
{
    let n = Vec3i::new(nx, ny, nz);
    number(dense_field::smooth(n, factor, rounds, values, scratch))
}
