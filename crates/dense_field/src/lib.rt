// The dense field and the walks over its points, cells and octets, after dense_field.rs and
// field_iterator.rs. A field is its origin, its cell's size, its numbers of points along the axes,
// and a lent slice of values.
#![tactic(auto)]

use geometry::Vec3i;

mod counts; // counts.rt: how many points a field has
mod octets; // octets.rt: a cell's corners and values, and a walk's octet
mod paddings; // paddings.rt: the outside points set to one value
mod sampling; // sampling.rt: a model's values at every point
mod smoothing; // smoothing.rt: rounds of smoothing
mod thresholds; // thresholds.rt: small values made +0
mod walker; // walker.rt: the octet walker
mod walks; // walks.rt: walks over points and cells

pub use counts::point_count;
pub use octets::{cell_corners, cell_values, octet_step};
pub use paddings::padding;
pub use sampling::sample;
pub use smoothing::smooth;
pub use thresholds::threshold;
pub use walker::{DenseCellValueIterator, walk_octet};
pub use walks::{cell_step, point_step};

// What a step of a walk finds, and the cursor that comes next.
#[derive(Clone, Copy, Debug, PartialEq)]
pub struct Step<T> {
    pub found: T,
    pub next: Vec3i,
}
