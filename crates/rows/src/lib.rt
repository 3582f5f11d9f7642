// Evaluation in rows of up to 64 points: a node's needed corners, and the points of a leaf.
#![tactic(auto)]

mod budget; // budget.rt: how far a budget goes
mod corners; // corners.rt: a node's needed corners, found and evaluated in rows
mod points; // points.rt: a leaf's points, evaluated in rows

pub use corners::{CornersEnd, is_needed, run_corners};
pub use points::fill_points;
