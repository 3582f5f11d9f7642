// A part's values at a row of points, one loop for each kind of part, each loop over lanes that do not depend on each
// other. Each fills the row that it is lent, and an operation reads the rows of earlier parts.
// Kept: what reads points asks for a row of 64 lanes at most, as `Points` has no more. A type that says so would be a
// struct of one slice with a ghost field, made anew for each part, and every loop and root would reach through it.
ghost use Rattle.std.specs.Prelude.{◌≡◌, ◌≤◌, length, get_or};
ghost use Rattle.std.specs.Float.{binary64};
ghost use Rattle.std.specs.Float.Ieee.{sub, neg};
ghost use Rattle.lists.specs.Tabulate.{tabulate};
ghost use Rattle.geometry.specs.Distance.{distance_squared_of};
ghost use Rattle.geometry.specs.PointRow.{point_in};
ghost use Rattle.model.specs.Part.{past, sphere_value, plane_value};
ghost use Rattle.model.specs.Inner.Lanes.{lane_at, points_lent};

use super::point;
use super::points::Points;
use float::Operation;
use geometry::Vec3;

// The first n lanes of row p.
pub fn row_of(values: &[f64], p: usize, n: usize) -> &[f64]
    requires { lane_at p n ≤ length values.now }
    ensures lanes { result.now ≡ tabulate n (λ k. get_or values.now (lane_at p k) past) }
    ensures long { length result.now ≡ n }
{
    let from = p * 64;
    &values[from..from + n]
}

// How far each point is above a plane.
pub fn fill_plane(row: &mut [f64], points: &Points, normal: Vec3, offset: f64)
    requires { length row.old ≤ 64 }
    ensures { row.new
        ≡ tabulate (length row.old)
        (λ k. let at = point_in (points_lent points.now) k in plane_value normal offset at.x at.y at.z) }
{
    for i in 0..row.len() {
        row[i] = point::plane_value(normal, offset, points.get(i));
    }
}

// What an operation makes of two earlier rows.
pub fn fill_two<O: Operation>(row: &mut [f64], a: &[f64], b: &[f64])
    requires { (length row.old ≤ length a.now) × (length row.old ≤ length b.now) }
    ensures { row.new
        ≡ tabulate (length row.old) (λ k. O.of (get_or a.now k past) (get_or b.now k past)) }
{
    for i in 0..row.len() {
        row[i] = O::apply(a[i], b[i]);
    }
}

pub fn fill_neg(row: &mut [f64], a: &[f64])
    requires { length row.old ≤ length a.now }
    ensures { row.new ≡ tabulate (length row.old) (λ k. neg (get_or a.now k past)) }
{
    for i in 0..row.len() {
        row[i] = float::computed(-a[i]);
    }
}

// The square of the distance between two points. It is not brought to the computed NaN: its root is.
#[tactic(auto, unfolding(geometry::specs::Distance::square, geometry::specs::Distance::distance_squared_of))]
fn square_distance(c: Vec3, at: Vec3) -> f64
    ensures { result ≡ distance_squared_of c at.x at.y at.z }
{
    let dx = c.x - at.x;
    let dy = c.y - at.y;
    let dz = c.z - at.z;
    (dx * dx + dy * dy) + dz * dz
}

fn fill_squares(row: &mut [f64], points: &Points, c: Vec3)
    requires { length row.old ≤ 64 }
    ensures { row.new
        ≡ tabulate (length row.old)
        (λ k. let at = point_in (points_lent points.now) k in distance_squared_of c at.x at.y at.z) }
{
    for i in 0..row.len() {
        row[i] = square_distance(c, points.get(i));
    }
}

fn take_radius(row: &mut [f64], r: f64)
    ensures { row.new ≡ tabulate (length row.old) (λ k. sub binary64 (get_or row.old k past) r) }
{
    for i in 0..row.len() {
        row[i] = float::computed(row[i] - r);
    }
}

// The distance to a sphere's centre c, less its radius, at each lane.
pub fn fill_sphere(row: &mut [f64], points: &Points, c: Vec3, r: f64)
    requires { length row.old ≤ 64 }
    ensures { row.new
        ≡ tabulate (length row.old)
        (λ k. let at = point_in (points_lent points.now) k in sphere_value c r at.x at.y at.z) }
{
    fill_squares(row, points, c);
    root::sqrt_row(row);
    take_radius(row, r);
}
