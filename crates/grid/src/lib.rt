// The grid of a sparse field, after sparse_field.rs: its nodes and their children, where they lie,
// which are active, which corners they need, and when a child is pruned.
#![tactic(auto)]

use geometry::BoundingBox;

mod activity; // activity.rt: how many children of a node are active
mod axes; // axes.rt: a grid's axes, and which children are active on each
mod blocks; // blocks.rt: the sizes of blocks, and their cubes
mod boxes; // boxes.rt: where nodes and children lie, and which are active
mod kinds; // kinds.rt: the number of a child's kind
mod limits; // limits.rt: what a grid can be: causes 1, 2 and 5
mod needed; // needed.rt: the kinds of a node, and the list of the corners that it needs
mod nodes; // nodes.rt: the size and the number of nodes
mod points; // points.rt: corner points, leaf points and octets
mod pruning; // pruning.rt: which children become constants
mod sized; // sized.rt: a grid that causes 2 and 5 do not refuse, and what it has

pub use activity::active_in;
pub use axes::{Axes, Axis};
pub use blocks::{cube_of, is_block};
pub use boxes::{child_box, is_active, node_box, node_least, node_most};
pub use limits::{cause_five, cause_one, cause_two};
pub use needed::{NodeKinds, corner_list};
pub use nodes::{node_counts, node_size, node_total, nodes_along, steps_between};
pub use points::{corner_point, corner_points, leaf_point, leaf_points, octet, octet_values};
pub use pruning::{average, decide_child, half_diagonal, highest, is_pruned, lowest};
pub use sized::SizedGrid;

// What a grid is made from: the bounds, the cell's size, and how many children (inner) and leaf
// points (leaf) a node and a leaf have along an axis.
#[derive(Clone, Copy, Debug, PartialEq)]
pub struct Grid {
    pub bounds: BoundingBox,
    pub cell: f64,
    pub inner: u32,
    pub leaf: u32,
}

// How many nodes a grid has, and how many active children.
#[derive(Clone, Copy, Debug, PartialEq, Eq)]
pub struct GridCounts {
    pub nodes: u64,
    pub active: u64,
}

// The kinds of a child (rule S2): it is not active; it is active and not decided, or a constant; it is a
// leaf. A lent slice holds their numbers.
#[derive(Clone, Copy, Debug, PartialEq, Eq)]
pub enum Kind {
    Empty = 0,
    Active = 1,
    Leaf = 2,
}

// What an active child becomes: a constant, with its kind and its number, or a leaf.
#[derive(Clone, Copy, Debug, PartialEq)]
pub enum Verdict {
    Constant(Kind, f64),
    Leaf,
}
