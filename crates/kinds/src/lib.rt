// The kinds of a grid's children: as open sets them, and whether lent kinds agree with the grid.
#![tactic(auto)]

mod agreement; // agreement.rt: whether kinds are nonzero at just the active children
mod flags; // flags.rt: the kinds that open sets
mod tables; // tables.rt: which children are active, along each axis

pub use agreement::kinds_right;
pub use flags::set_kinds;
