// What each way of evaluating a model gives, and whether it is what is stored.
ghost use Rattle.std.specs.Prelude.{◌≡◌, slice_index_or};
ghost use Rattle.model.specs.Part.{past};
ghost use Rattle.model.specs.Model.{parts_in, evaluation_of};
ghost use Rattle.model.specs.Flat.{flat_of, layout_of};
ghost use Rattle.model_vectors.specs.Compare.{any_value, refused_right, same_bits, value_right};

use causes::Cause;
use geometry::{PointRow, Vec3};
use model::ImplicitModel;

// Whether a float has the bits that are stored. Any NaN counts as any other.
pub fn same_bits(v: f64, stored: u64) -> bool
    ensures { result ≡ same_bits v stored }
{
    float::to_bits(v) == float::to_bits(float::from_bits(stored))
}

// Whether evaluation at a point gives the value that is stored.
pub fn point_right(model: &ImplicitModel, p: Vec3, stored: u64) -> bool
    ensures { result ≡ value_right (evaluation_of model.now p.x p.y p.z) stored }
{
    match model::evaluate_at_coord(model, p.x, p.y, p.z) {
        Ok(v) => same_bits(v, stored),
        Err(_) => false,
    }
}

// Whether evaluation at a point refuses the model by 4.
pub fn refusal_right(model: &ImplicitModel, p: Vec3) -> bool
    ensures { result ≡ refused_right (evaluation_of model.now p.x p.y p.z) }
{
    match model::evaluate_at_coord(model, p.x, p.y, p.z) {
        Ok(_) => false,
        Err(cause) => cause == Cause::Parts,
    }
}

// A model's parts, laid out in two arrays.
fn laid(model: &ImplicitModel) -> ([u32; 192], [f64; 256])
    ensures { flat_of result.0 result.1 ≡ layout_of (parts_in model.now) }
{
    let mut words = [0; 192];
    let mut numbers = [0.0; 256];
    model::lay_out(model, &mut words, &mut numbers);
    (words, numbers)
}

// The value of the laid out model at a point.
pub fn flat_value(model: &ImplicitModel, p: Vec3) -> f64
    ensures { result ≡ any_value model.now p.x p.y p.z }
{
    let (words, numbers) = laid(model);
    let mut values = [0.0; 64];
    model::evaluate_flat(
        &words,
        &numbers,
        model.count as usize,
        p.x,
        p.y,
        p.z,
        &mut values,
    )
}

// A row of coordinates with x in lane 3, among others.
fn around(x: f64) -> [f64; 64]
    ensures { slice_index_or result 3 past ≡ x }
{
    let mut row = [0.0; 64];
    row[0] = x + 1.0;
    row[1] = x - 1.0;
    row[2] = -x;
    row[3] = x;
    row[4] = x + x;
    row
}

// The model's value at a point, from lane 3 of a row of 5 points. The parts' values are lent room, since
// clearing it takes longer than the row.
pub fn row_value(model: &ImplicitModel, p: Vec3, values: &mut [f64; 4096]) -> f64
    ensures { result ≡ any_value model.now p.x p.y p.z }
{
    let points = PointRow {
        xs: around(p.x),
        ys: around(p.y),
        zs: around(p.z),
    };
    let mut results = [0.0; 64];
    model::evaluate_row_into(model, &points, 5, values, &mut results);
    results[3]
}

// The same of the laid out model.
pub fn flat_row_value(model: &ImplicitModel, p: Vec3, values: &mut [f64; 4096]) -> f64
    ensures { result ≡ any_value model.now p.x p.y p.z }
{
    let (words, numbers) = laid(model);
    let mut results = [0.0; 64];
    model::evaluate_flat_row_into(
        &words,
        &numbers,
        model.count as usize,
        &around(p.x),
        &around(p.y),
        &around(p.z),
        5,
        values,
        &mut results,
    );
    results[3]
}
