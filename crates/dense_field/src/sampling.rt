// A model's values at a field's points, in runs of up to 64 consecutive places. A row is the points
// of one j and k, and a run goes on over row ends.
ghost use Rattle.std.specs.Prelude.{◌≡◌, ◌+◌, ◌-◌, ◌≤◌, length, is_ok, OnOk, if◌then◌else◌};
ghost use Rattle.lists.specs.Tabulate.{tabulate};
ghost use Rattle.lists.specs.Filled.{filled};
ghost use Rattle.geometry.specs.PointRow.{with_points};
ghost use Rattle.model.specs.Model.{parts_in};
ghost use Rattle.dense_field.specs.Field.{points_of};
ghost use Rattle.dense_field.specs.Inner.Lent.{Lent, Run};
ghost use Rattle.dense_field.specs.Sampling.{sampled, sample_outcome};
ghost use Rattle.dense_field.specs.Inner.Runs.{axis_point, place_point, with_stretch, place_value};

use crate::counts;
use causes::Cause;
use geometry::{PointRow, Vec3, Vec3i};
use model::ImplicitModel;

// Where a field's points stand: its origin, its cell's size and its numbers of points.
#[derive(Clone, Copy, Debug, PartialEq)]
struct Lattice {
    origin: Vec3,
    cell: f64,
    n: Vec3i,
}

// Where point number i of an axis stands.
fn axis_point(origin: f64, cell: f64, i: usize) -> f64
    ensures { result ≡ axis_point origin cell i }
{
    origin + cell * float::from_count(i as u64)
}

// Where `count` points of an axis stand, from number `from` on, at the places from `at` on.
fn fill_along(origin: f64, cell: f64, from: usize, places: &mut [f64], at: usize, count: usize)
    requires { (at + count ≤ length places.old) × (from + count ≤ 16777216) }
    ensures { places.new ≡ filled at count (λ q. axis_point origin cell (from + (q - at))) places.old }
{
    for t in 0..count {
        places[at + t] = axis_point(origin, cell, from + t);
    }
}

// Where `count` points of a row stand, from `first` on, at the places from `at` on.
fn fill_stretch(field: Lattice, first: Vec3i, points: &mut PointRow, at: usize, count: usize)
    requires { (at + count ≤ 64) × (first.i + count ≤ 16777216) }
    ensures { points.new ≡ with_stretch field first at count points.old }
{
    let origin = field.origin;
    fill_along(origin.x, field.cell, first.i, &mut points.xs, at, count);
    let y = axis_point(origin.y, field.cell, first.j);
    points.ys[at..at + count].fill(y);
    let z = axis_point(origin.z, field.cell, first.k);
    points.zs[at..at + count].fill(z);
}

// Where the points of `len` places stand, from place `at` on. Those of one row go together.
#[tactic(auto, using(crate::proofs::RunLaws::next_stretch))]
fn fill_points(field: Lattice, at: usize, len: usize, points: &mut PointRow)
    requires { Run field.n at len }
    ensures { points.new ≡ with_points len (λ q. place_point field (at + q)) points.old }
{
    let n = field.n;
    let mut first = geometry::indices(at, n.i, n.j);
    let mut t: usize = 0;
    // Kept: a stretch ends where its row does, so that its length is not the same at each turn.
    while t < len {
        let count = (n.i - first.i).min(len - t);
        fill_stretch(field, first, points, t, count);
        let last = Vec3i::new(first.i + (count - 1), first.j, first.k);
        first = geometry::next_indices(last, n.i, n.j);
        t += count;
    }
}

// The values at all places, in runs of up to 64, whatever rows their places are in. `scratch` holds
// the values of a run's parts.
fn sample_places(model: &ImplicitModel, field: Lattice, values: &mut [f64])
    requires { Lent field.n (length values.old) }
    ensures { values.new ≡ tabulate (points_of field.n) (place_value model.now field) }
{
    let mut scratch = [0.0; 4096];
    let mut points = PointRow::new();
    let mut results = [0.0; 64];
    for run in 0..values.len().div_ceil(64) {
        let at = run * 64;
        let len = (values.len() - at).min(64);
        fill_points(field, at, len, &mut points);
        model::evaluate_row_into(model, &points, len, &mut scratch, &mut results);
        values[at..at + len].copy_from_slice(&results[..len]);
    }
}

// Why sampling is refused, where it is.
#[tactic(auto, unfolding(crate::specs::Sampling::sample_outcome, crate::specs::Outcomes::outcome_of, causes::specs::First::first_of))]
fn tested(model: &ImplicitModel, field: Lattice, len: usize) -> Result<(), Cause>
    ensures answer { result ≡ sample_outcome model.now field.origin field.cell field.n len }
    ensures lent { OnOk result (Lent field.n len) }
{
    if geometry::point_refused(field.origin) || geometry::cell_refused(field.cell) {
        return Err(Cause::Bounds);
    }
    if model::cause_four(model) {
        return Err(Cause::Parts);
    }
    counts::tested(field.n, len)
}

// Sets every value to the model's at its point. A refusal changes nothing.
pub fn sample(
    model: &ImplicitModel,
    origin: Vec3,
    cell: f64,
    n: Vec3i,
    values: &mut [f64],
) -> Result<(), Cause>
    ensures answer { result ≡ sample_outcome model.now origin cell n (length values.old) }
    ensures values { values.new
        ≡ (if is_ok (sample_outcome model.now origin cell n (length values.old)) then sampled (parts_in model.now) model.now.count origin cell n
        else values.old) }
{
    let field = Lattice { origin, cell, n };
    tested(model, field, values.len())?;
    sample_places(model, field, values);
    Ok(())
}
