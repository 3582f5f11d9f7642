// The stored cases about a dense field's points, indices, cells and walks; and the values of
// a case.
#![tactic(auto)]

mod cell; // cell.rt: one cell
mod counts; // counts.rt: the points of a field
mod index; // index.rt: the index of a grid point
mod values; // values.rt: the values of a case
mod walks; // walks.rt: one step of a walk

pub use cell::{corners, octet};
pub use counts::count;
pub use index::{indices, place};
pub use values::{MOST_VALUES, values_of};
pub use walks::{cells, octets, points};
