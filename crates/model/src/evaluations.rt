// The calls that evaluate: a model at a point, and models of any contents at a point and at a row of points.
ghost use Rattle.std.specs.Prelude.{◌≡◌, ◌++◌, min, take, drop};
ghost use Rattle.model.specs.Row.{evaluated_rows, model_row};
ghost use Rattle.model.specs.Model.{values_to, parts_in, parts_of, parts_value, evaluation_of};

use super::copies::copy_values;
use super::lanes::row_of;
use super::points::Points;
use super::refusals::cause_four;
use super::{ImplicitModel, ModelComponent, point, row};
use causes::Cause;
use geometry::{PointRow, Vec3};

// The parts of a model that count: its first 64 at most.
fn counted(model: &ImplicitModel) -> &[ModelComponent]
    ensures { result.now ≡ take (min model.now.count 64) model.now.parts }
{
    &model.parts[..(model.count as usize).min(64)]
}

// The value at a point of a model of any contents, of which 64 parts count at most. The parts' values are left in
// `values`, in order.
pub fn evaluate_parts(model: &ImplicitModel, at: Vec3, values: &mut [f64; 64]) -> f64
    ensures answer { result ≡ parts_value (parts_in model.now) (min model.now.count 64) at.x at.y at.z }
    ensures values { values.new
        ≡ values_to (parts_of (parts_in model.now) (min model.now.count 64)) at.x at.y at.z (min model.now.count 64)
        ++ drop (min model.now.count 64) values.old }
{
    let parts = counted(model);
    point::fill_values(parts, at, values);
    let count = parts.len();
    if count == 0 {
        return 0.0;
    }
    values[count - 1]
}

// The model's value at a point: its last part's. A model that cause 4 refuses has none.
pub fn evaluate_at_coord(model: &ImplicitModel, x: f64, y: f64, z: f64) -> Result<f64, Cause>
    ensures { result ≡ evaluation_of model.now x y z }
{
    if cause_four(model) {
        return Err(Cause::Parts);
    }
    let mut values = [0.0; 64];
    Ok(evaluate_parts(model, Vec3::new(x, y, z), &mut values))
}

// The values of the parts of a model of any contents at n points, 64 at most of each: part p's value at point i is
// left at p * 64 + i. Kept: any n goes, here and below, and a slice of n results would ask for n ≤ 64.
pub fn evaluate_row(model: &ImplicitModel, points: &PointRow, n: usize, values: &mut [f64; 4096])
    ensures { values.new
        ≡ evaluated_rows (parts_in model.now) (min model.now.count 64) (min n 64) points.now values.old }
{
    row::fill_parts(counted(model), &Points::of(points), n.min(64), values);
}

// The same, with the model's value at each point left at the front of `results`.
pub fn evaluate_row_into(
    model: &ImplicitModel,
    points: &PointRow,
    n: usize,
    values: &mut [f64; 4096],
    results: &mut [f64; 64],
)
    ensures values { values.new
        ≡ evaluated_rows (parts_in model.now) (min model.now.count 64) (min n 64) points.now values.old }
    ensures results { results.new
        ≡ model_row (parts_in model.now) (min model.now.count 64) (min n 64) points.now results.old }
{
    let parts = counted(model);
    let lanes = n.min(64);
    row::fill_parts(parts, &Points::of(points), lanes, values);
    let count = parts.len();
    if count == 0 {
        results[..lanes].fill(0.0);
        return;
    }
    copy_values(row_of(values, count - 1, lanes), &mut results[..lanes]);
}
