// Models in two flat arrays, as C lends them: a part is read as its turn comes.
ghost use Rattle.std.specs.Prelude.{◌≡◌, ◌++◌, ◌<◌, min, drop};
ghost use Rattle.model.specs.Flat.{flat_in, part_from, part_read, parts_of};
ghost use Rattle.model.specs.Model.{values_to, model_value};
ghost use Rattle.model.specs.Row.{evaluated_rows, model_row};

use super::copies::copy_values;
use super::lanes::row_of;
use super::points::Points;
use super::{Part, point, row};
use geometry::Vec3;

// The part of a code with its vector, number and inputs. A code that no part has stands for the constant +0.
pub fn part_from(code: u32, v: Vec3, w: f64, a: u32, b: u32) -> Part
    ensures { result ≡ part_from code v w a b }
{
    match code {
        0 => Part::Constant(w),
        1 => Part::Sphere(v, w),
        2 => Part::Plane(v, w),
        3 => Part::Min(a, b),
        4 => Part::Max(a, b),
        5 => Part::Add(a, b),
        6 => Part::Sub(a, b),
        7 => Part::Neg(a),
        _ => Part::Constant(0.0),
    }
}

// The part that the arrays have at a place, whatever its inputs are.
#[tactic(auto, unfolding(crate::specs::Flat::part_read))]
fn part_read(words: &[u32; 192], numbers: &[f64; 256], p: usize) -> Part
    requires { p < 64 }
    ensures { result ≡ part_read (flat_in words numbers) p }
{
    let v = Vec3::new(numbers[p], numbers[64 + p], numbers[128 + p]);
    part_from(words[p], v, numbers[192 + p], words[64 + p], words[128 + p])
}

// The value at a point of the first `count` parts that flat arrays of any contents stand for, 64 at most. The parts'
// values are left in `values`, in order.
// Kept: a loop of its own, here and below, beside the one over a slice of components. The arrays are read part by part,
// and no array of parts is made, which would take longer than a short model's value.
pub fn evaluate_flat(
    words: &[u32; 192],
    numbers: &[f64; 256],
    count: usize,
    x: f64,
    y: f64,
    z: f64,
    values: &mut [f64; 64],
) -> f64
    ensures answer { result ≡ model_value (parts_of (flat_in words numbers) (min count 64)) (min count 64) x y z }
    ensures values { values.new
        ≡ values_to (parts_of (flat_in words numbers) (min count 64)) x y z (min count 64) ++ drop (min count 64) values.old }
{
    let parts = count.min(64);
    let at = Vec3 { x, y, z };
    for p in 0..parts {
        values[p] = point::part_value(part_read(words, numbers, p), p, at, values);
    }
    if parts == 0 {
        return 0.0;
    }
    values[parts - 1]
}

// The values of the first `count` parts at n points, 64 at most of each: part p's value at point i is left at p * 64 + i.
pub fn evaluate_flat_row(
    words: &[u32; 192],
    numbers: &[f64; 256],
    count: usize,
    px: &[f64; 64],
    py: &[f64; 64],
    pz: &[f64; 64],
    n: usize,
    values: &mut [f64; 4096],
)
    ensures { values.new
        ≡ evaluated_rows (parts_of (flat_in words numbers) (min count 64)) (min count 64) (min n 64)
        (record { xs = px.now; ys = py.now; zs = pz.now }) values.old }
{
    let points = Points {
        xs: px,
        ys: py,
        zs: pz,
    };
    let lanes = n.min(64);
    for p in 0..count.min(64) {
        let (earlier, rest) = values.split_at_mut(p * 64);
        row::fill_part(
            part_read(words, numbers, p),
            p,
            &points,
            earlier,
            &mut rest[..lanes],
        );
    }
}

// The same, with the model's value at each point left at the front of `results`.
pub fn evaluate_flat_row_into(
    words: &[u32; 192],
    numbers: &[f64; 256],
    count: usize,
    px: &[f64; 64],
    py: &[f64; 64],
    pz: &[f64; 64],
    n: usize,
    values: &mut [f64; 4096],
    results: &mut [f64; 64],
)
    ensures values { values.new
        ≡ evaluated_rows (parts_of (flat_in words numbers) (min count 64)) (min count 64) (min n 64)
        (record { xs = px.now; ys = py.now; zs = pz.now }) values.old }
    ensures results { results.new
        ≡ model_row (parts_of (flat_in words numbers) (min count 64)) (min count 64) (min n 64)
        (record { xs = px.now; ys = py.now; zs = pz.now }) results.old }
{
    evaluate_flat_row(words, numbers, count, px, py, pz, n, values);
    let lanes = n.min(64);
    if count == 0 {
        results[..lanes].fill(0.0);
        return;
    }
    copy_values(
        row_of(values, count.min(64) - 1, lanes),
        &mut results[..lanes],
    );
}
