// The values of parts at a point.
// Kept: a part's value and a sphere's are inlined by hand. Where a program has more than one caller the compiler would
// pass the part and the point through memory, which takes longer than a plane's value.
ghost use Rattle.std.specs.Prelude.{◌≡◌, ◌++◌, ◌≤◌, length, map, drop};
ghost use Rattle.model.specs.Part.{part_in, sphere_value, plane_value, part_value, placed};
ghost use Rattle.model.specs.Model.{values_to, parts_of};

use super::refusals::inputs_below;
use super::{ModelComponent, Part};
use float::{Add, Max, Min, Operation, Sub};
use geometry::Vec3;

// The distance to a sphere's centre, less its radius.
#[tactic(auto, unfolding(crate::specs::Part::sphere_value))]
#[inline(always)]
pub fn sphere_value(centre: Vec3, radius: f64, at: Vec3) -> f64
    ensures { result ≡ sphere_value centre radius at.x at.y at.z }
{
    float::computed(centre.distance_to_vec3(at) - radius)
}

// How far a point is above the plane with this normal and offset.
#[tactic(auto, unfolding(crate::specs::Part::plane_value))]
pub fn plane_value(normal: Vec3, offset: f64, at: Vec3) -> f64
    ensures { result ≡ plane_value normal offset at.x at.y at.z }
{
    float::computed(((at.x * normal.x + at.y * normal.y) + at.z * normal.z) - offset)
}

// The value at a point of a part at place p, from the values of the parts before it. A part with an input
// that does not stand before it counts as the constant +0.
#[tactic(auto, unfolding(crate::specs::Part::inputs_below, crate::specs::Part::placed, crate::specs::Part::part_value))]
#[inline(always)]
pub fn part_value(part: Part, p: usize, at: Vec3, values: &[f64]) -> f64
    requires { p ≤ length values.now }
    ensures { result ≡ part_value (placed p part) at.x at.y at.z values.now }
{
    if !inputs_below(part, p) {
        return 0.0;
    }
    match part {
        Part::Constant(value) => value,
        Part::Sphere(centre, radius) => sphere_value(centre, radius, at),
        Part::Plane(normal, offset) => plane_value(normal, offset, at),
        Part::Min(a, b) => Min::apply(values[a as usize], values[b as usize]),
        Part::Max(a, b) => Max::apply(values[a as usize], values[b as usize]),
        Part::Add(a, b) => Add::apply(values[a as usize], values[b as usize]),
        Part::Sub(a, b) => Sub::apply(values[a as usize], values[b as usize]),
        Part::Neg(a) => float::computed(-values[a as usize]),
    }
}

// The values of some parts, in order.
pub fn fill_values(parts: &[ModelComponent], at: Vec3, values: &mut [f64])
    requires { length parts.now ≤ length values.old }
    ensures values { values.new
        ≡ values_to (parts_of (map part_in parts.now) (length parts.now)) at.x at.y at.z (length parts.now)
        ++ drop (length parts.now) values.old }
    ensures fits { length parts.now ≤ length values.old }
{
    for (p, component) in parts.iter().enumerate() {
        values[p] = part_value(component.part, p, at, values);
    }
}
