// The values of parts at a row of points, part by part: part p's value at lane i stands at p * 64 + i. A part's row
// is lent behind the rows of the parts before it.
// Kept: a row of points goes with the number of them that is used, here and in the public calls. `PointRow` is public
// and says no number: with one in it, whoever makes a row would owe that it is 64 at most, which no call asks.
ghost use Rattle.std.specs.Prelude.{◌≡◌, ◌*◌, ◌≤◌, ◌<◌, length, map, get_or};
ghost use Rattle.lists.specs.Tabulate.{tabulate};
ghost use Rattle.geometry.specs.PointRow.{point_in};
ghost use Rattle.model.specs.Part.{past, part_in, part_value, placed};
ghost use Rattle.model.specs.Row.{evaluated_rows};
ghost use Rattle.model.specs.Inner.Lanes.{lane_at, lane, points_lent};

use super::lanes::{fill_neg, fill_plane, fill_sphere, fill_two, row_of};
use super::points::Points;
use super::refusals::inputs_below;
use super::{ModelComponent, Part};
use float::{Add, Max, Min, Sub};

// The row of an input at place a, among the rows before p.
fn input(earlier: &[f64], p: usize, a: u32, n: usize) -> &[f64]
    requires { (p * 64 ≤ length earlier.now) × (a < p) × (n ≤ 64) }
    ensures lanes { result.now ≡ tabulate n (λ k. get_or earlier.now (lane_at a k) past) }
    ensures long { length result.now ≡ n }
{
    row_of(earlier, a as usize, n)
}

// The row of the part at place p, from the rows of the parts before it. Its inputs are tested once.
#[tactic(auto, unfolding(crate::specs::Part::inputs_below))]
pub fn fill_part(part: Part, p: usize, points: &Points, earlier: &[f64], row: &mut [f64])
    requires { (p * 64 ≤ length earlier.now) × (length row.old ≤ 64) }
    ensures { row.new
        ≡ tabulate (length row.old)
        (λ k. let at = point_in (points_lent points.now) k in
        part_value (placed p part) at.x at.y at.z (lane earlier.now k p)) }
{
    if !inputs_below(part, p) {
        row.fill(0.0);
        return;
    }
    let n = row.len();
    match part {
        Part::Constant(value) => row.fill(value),
        Part::Sphere(centre, radius) => fill_sphere(row, points, centre, radius),
        Part::Plane(normal, offset) => fill_plane(row, points, normal, offset),
        Part::Min(a, b) => fill_two::<Min>(row, input(earlier, p, a, n), input(earlier, p, b, n)),
        Part::Max(a, b) => fill_two::<Max>(row, input(earlier, p, a, n), input(earlier, p, b, n)),
        Part::Add(a, b) => fill_two::<Add>(row, input(earlier, p, a, n), input(earlier, p, b, n)),
        Part::Sub(a, b) => fill_two::<Sub>(row, input(earlier, p, a, n), input(earlier, p, b, n)),
        Part::Neg(a) => fill_neg(row, input(earlier, p, a, n)),
    }
}

// The rows of some parts, in order.
pub fn fill_parts(parts: &[ModelComponent], points: &Points, n: usize, values: &mut [f64; 4096])
    requires { (length parts.now ≤ 64) × (n ≤ 64) }
    ensures { values.new
        ≡ evaluated_rows (map part_in parts.now) (length parts.now) n (points_lent points.now) values.old }
{
    for (p, component) in parts.iter().enumerate() {
        let (earlier, rest) = values.split_at_mut(p * 64);
        fill_part(component.part, p, points, earlier, &mut rest[..n]);
    }
}
