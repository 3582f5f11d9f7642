// A model: parts in a list, each a shape or an operation on parts before it, after computation_graph.rs and
// model_component.rs.
#![tactic(auto)]

use geometry::Vec3;

mod copies; // copies.rt: floats, copied
mod evaluations; // evaluations.rt: the calls that evaluate, at a point and at a row of points
mod flat; // flat.rt: models in two flat arrays, as C lends them
mod layout; // layout.rt: a model's parts in two flat arrays, as hosts carry them
mod lanes; // lanes.rt: a part's values at a row of points
mod point; // point.rt: the parts' values at a point
mod points; // points.rt: a row of points, as three arrays that are lent
mod refusals; // refusals.rt: the test of cause 4
mod row; // row.rt: all parts' values at a row of points

pub use copies::copy_values;
pub use evaluations::{evaluate_at_coord, evaluate_parts, evaluate_row, evaluate_row_into};
pub use flat::{evaluate_flat, evaluate_flat_row, evaluate_flat_row_into, part_from};
pub use layout::lay_out;
pub use refusals::{cause_four, inputs_below};

// The most parts that a model has.
pub const MOST_PARTS: usize = 64;

// One part of a model. An operation names its inputs by their places in the list.
#[derive(Clone, Copy, Debug, PartialEq)]
pub enum Part {
    Constant(f64),
    Sphere(Vec3, f64),
    Plane(Vec3, f64),
    Min(u32, u32),
    Max(u32, u32),
    Add(u32, u32),
    Sub(u32, u32),
    Neg(u32),
}

// A part as a model holds it.
#[derive(Clone, Copy, Debug, PartialEq)]
pub struct ModelComponent {
    pub part: Part,
}

// A model is its first `count` parts.
// Kept: an array with its count, since an engine has no heap and the parts past the count go along in a record.
// Kept: no derived equality, which would compare the parts past the count too.
#[derive(Clone, Copy, Debug)]
pub struct ImplicitModel {
    pub parts: [ModelComponent; 64],
    pub count: u32,
}
