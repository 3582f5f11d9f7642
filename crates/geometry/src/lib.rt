// Points, boxes and grid indices by value, after vec3f.rs, vec3i.rs, bounding_box.rs and math_helper.rs.
#![tactic(auto)]

mod axes; // axes.rt: steps along an axis
mod boxes; // boxes.rt: sizes of boxes, and which boxes meet
mod places; // places.rt: indices of a grid, and places in a flat list
mod points; // points.rt: points and distances
mod refusals; // refusals.rt: the tests of causes 1 and 9
mod rows; // rows.rt: a row of points

pub use axes::{along, along_end, step_along};
pub use places::{index1d_from_index3d, index3d_from_index1d, indices, next_indices};
pub use refusals::{box_refused, cell_refused, dimensions_refused, point_refused};

// The largest number of points or cells that a field may have.
pub const LARGEST_PRODUCT: usize = 16_777_216;

// A point, or a vector between points.
#[derive(Clone, Copy, Debug, PartialEq)]
pub struct Vec3 {
    pub x: f64,
    pub y: f64,
    pub z: f64,
}

// The indices of a point or a cell of a grid.
#[derive(Clone, Copy, Debug, PartialEq, Eq)]
pub struct Vec3i {
    pub i: usize,
    pub j: usize,
    pub k: usize,
}

// The coordinates of up to 64 points.
#[derive(Clone, Copy, Debug, PartialEq)]
pub struct PointRow {
    pub xs: [f64; 64],
    pub ys: [f64; 64],
    pub zs: [f64; 64],
}

// A box with its faces along the axes. Any two points make one.
#[derive(Clone, Copy, Debug, PartialEq)]
pub struct BoundingBox {
    pub min: Vec3,
    pub max: Vec3,
}
