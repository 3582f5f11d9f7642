// A job's work, from a cursor on while a budget lasts: a node's corners, then its children, each decided,
// and a leaf's points; then the next node. The memory is the five slices that the job is lent.
#![tactic(auto)]

ghost use Rattle.engine.specs.Inner.Sizes.{Sized};

use geometry::BoundingBox;
use grid::Grid;
use input::Band;
use model::ImplicitModel;
use schedule::Cursor;

mod children; // children.rt: a node's children, decided in order
mod jobs; // jobs.rt: a job's work on its own model
mod nodes; // nodes.rt: node after node, from a cursor on

pub use jobs::run_job;

// What the work is about: a grid of sizes that no engine's work goes beyond, the band, and the model.
// Kept: no derived equality, as a model has none.
#[derive(Clone, Copy, Debug)]
pub struct Task<'a> {
    pub grid: Grid,
    pub band: Band,
    pub model: &'a ImplicitModel,
    ghost sized: { Sized grid },
}

// Where a job goes on: its cursor, the leaves so far, and the budget that is left.
#[derive(Clone, Copy, Debug, PartialEq, Eq)]
pub struct Standing {
    pub cursor: Cursor,
    pub leaves: u64,
    pub left: u64,
}

// A node's corners at work: the corner that comes next, the leaves so far, and the budget that is left.
#[derive(Clone, Copy, Debug, PartialEq, Eq)]
pub struct CornerVisit {
    pub node: usize,
    pub corner: usize,
    pub leaves: u64,
    pub left: u64,
}

// A node's children at work: its number and its box, the child that comes next, the leaves so far, and
// the budget that is left.
#[derive(Clone, Copy, Debug, PartialEq)]
pub struct Visit {
    pub node: usize,
    pub bounds: BoundingBox,
    pub place: usize,
    pub leaves: u64,
    pub left: u64,
}

// A leaf at work, the last of so many: its node and its child, the point that comes next, and the
// budget that is left.
#[derive(Clone, Copy, Debug, PartialEq, Eq)]
pub struct LeafVisit {
    pub node: usize,
    pub child: usize,
    pub point: usize,
    pub leaves: u64,
    pub left: u64,
}

// How many leaves there are, how much of the budget is left, and before which evaluation the work has
// stopped, if it has not come through.
#[derive(Clone, Copy, Debug, PartialEq, Eq)]
pub struct Progress {
    pub leaves: u64,
    pub left: u64,
    pub stop: Option<Cursor>,
}
