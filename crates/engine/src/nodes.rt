// A job's work from a cursor on, while the budget lasts: the corners or points at the cursor, then the
// node's children, then the next node.
// Kept: contracts ask the same of memory and visit, as in children.rt.
ghost use Rattle.std.specs.Prelude.{◌≡◌, [], ◌+◌, ◌≤◌, ◌<◌, length, replicate};
ghost use Rattle.float.specs.Zero.{plus_zero};
ghost use Rattle.grid.specs.Blocks.{cube};
ghost use Rattle.grid.specs.Boxes.{node_box};
ghost use Rattle.grid.specs.Nodes.{nodes_of};
ghost use Rattle.schedule.specs.declared.Cursor.TheVariants.{Corner, Point};
ghost use Rattle.schedule.specs.Resume.{events_from, children_left, nodes_left};
ghost use Rattle.schedule.specs.Totals.{active_all, active_before};
ghost use Rattle.schedule.specs.Lent.{held, SameSlices};
ghost use Rattle.engine.specs.Inner.Progress.{plan, Ready, Advanced, NodeAdvanced, reading_in};
ghost use Rattle.engine.specs.Inner.Turns.{Standable, NodesReady, Continued, SameBehind, CleanBehind};

use crate::{CornerVisit, LeafVisit, Progress, Standing, Task, Visit, children};
use grid::NodeKinds;
use model::ImplicitModel;
use schedule::{Cursor, Slices};

// A node's corners, from one on.
fn run_corners(
    task: &Task,
    visit: CornerVisit,
    scratch: &mut [f64; 4096],
    slices: &mut Slices,
) -> Progress
    requires within { (visit.corner ≤ cube (task.now.grid.inner + 1)) }
    requires ready { Ready (plan task.now) visit.node 0 visit.leaves (held slices.old) }
    ensures slices { SameSlices slices.old slices.new }
    ensures advanced { Advanced (plan task.now) visit.left visit.leaves (held slices.old) (held slices.new)
        (events_from (plan task.now) (Corner visit.node visit.corner) (reading_in (held slices.old)))
        (children_left (plan task.now) visit.node 0 (reading_in (held slices.new))) result
        (active_before (plan task.now) visit.node 0) }
    ensures behind { SameBehind (cube (task.now.grid.inner + 1)) (held slices.old).corners (held slices.new).corners }
{
    let bounds = grid::node_box(task.grid, visit.node);
    let children = grid::cube_of(task.grid.inner as usize);
    let first = visit.node * children;
    let all_kinds = &mut *slices.kinds;
    let corners = &mut *slices.corners;
    let kinds = &*all_kinds;
    let node = NodeKinds {
        n: task.grid.inner,
        kinds: &kinds[first..first + children],
    };
    let end = rows::run_corners(
        task.model,
        bounds,
        &node,
        visit.corner,
        visit.left,
        scratch,
        corners,
    );
    let stop = if end.next < grid::cube_of(task.grid.inner as usize + 1) {
        Some(Cursor::Corner(visit.node, end.next))
    } else {
        None
    };
    Progress {
        leaves: visit.leaves,
        left: end.left,
        stop,
    }
}

// The points of a leaf, from one on.
fn run_points(
    task: &Task,
    leaf: LeafVisit,
    scratch: &mut [f64; 4096],
    slices: &mut Slices,
) -> Progress
    requires within { (leaf.child < cube task.now.grid.inner) × (leaf.point ≤ cube task.now.grid.leaf) × (0 < leaf.leaves) }
    requires ready { Ready (plan task.now) leaf.node (leaf.child + 1) leaf.leaves (held slices.old) }
    ensures slices { SameSlices slices.old slices.new }
    ensures advanced { Advanced (plan task.now) leaf.left leaf.leaves (held slices.old) (held slices.new)
        (events_from (plan task.now) (Point leaf.node leaf.child leaf.point) (reading_in (held slices.old)))
        (children_left (plan task.now) leaf.node (leaf.child + 1) (reading_in (held slices.new))) result
        (active_before (plan task.now) leaf.node (leaf.child + 1)) }
    ensures corners { (held slices.new).corners ≡ (held slices.old).corners }
{
    let g = task.grid;
    let bounds = grid::node_box(g, leaf.node);
    let child = grid::child_box(bounds, g.inner, leaf.child);
    children::leaf_from(task.model, child, g.leaf, leaf, scratch, slices.store)
}

// Clears the corners up to `used`, where the others are +0 already: then all are.
fn clear_corners(used: usize, corners: &mut [f64])
    requires { CleanBehind used corners.old }
    ensures { corners.new ≡ replicate (length corners.old) plus_zero }
{
    corners[..used].fill(0.0);
}

// A node's children from one on. Past the last the corners up to `used` are cleared; the others are +0
// already.
fn finish_node(
    task: &Task,
    visit: Visit,
    used: usize,
    scratch: &mut [f64; 4096],
    slices: &mut Slices,
) -> Progress
    requires within { (visit.bounds ≡ node_box task.now.grid visit.node) × (visit.place ≤ cube task.now.grid.inner) }
    requires ready { Ready (plan task.now) visit.node visit.place visit.leaves (held slices.old) }
    requires clean { CleanBehind used (held slices.old).corners }
    ensures slices { SameSlices slices.old slices.new }
    ensures node { NodeAdvanced (plan task.now) visit.node visit.left visit.leaves (held slices.old) (held slices.new)
        (children_left (plan task.now) visit.node visit.place (reading_in (held slices.old))) result }
{
    let done = children::run_children(task, visit, scratch, slices);
    if done.stop.is_none() {
        clear_corners(used, slices.corners);
    }
    done
}

// A node from one of its corners on.
fn run_from_corner(
    task: &Task,
    visit: CornerVisit,
    used: usize,
    scratch: &mut [f64; 4096],
    slices: &mut Slices,
) -> Progress
    requires within { (visit.corner ≤ cube (task.now.grid.inner + 1)) }
    requires ready { Ready (plan task.now) visit.node 0 visit.leaves (held slices.old) }
    requires clean { (cube (task.now.grid.inner + 1) ≤ used) × CleanBehind used (held slices.old).corners }
    ensures slices { SameSlices slices.old slices.new }
    ensures node { NodeAdvanced (plan task.now) visit.node visit.left visit.leaves (held slices.old) (held slices.new)
        (events_from (plan task.now) (Corner visit.node visit.corner) (reading_in (held slices.old))) result }
{
    let came = run_corners(task, visit, scratch, slices);
    if came.stop.is_some() {
        return came;
    }
    let visit = Visit {
        node: visit.node,
        bounds: grid::node_box(task.grid, visit.node),
        place: 0,
        leaves: came.leaves,
        left: came.left,
    };
    finish_node(task, visit, used, scratch, slices)
}

// A node from a point of one of its leaves on.
fn run_from_point(
    task: &Task,
    leaf: LeafVisit,
    used: usize,
    scratch: &mut [f64; 4096],
    slices: &mut Slices,
) -> Progress
    requires within { (leaf.child < cube task.now.grid.inner) × (leaf.point ≤ cube task.now.grid.leaf) × (0 < leaf.leaves) }
    requires ready { Ready (plan task.now) leaf.node (leaf.child + 1) leaf.leaves (held slices.old) }
    requires clean { CleanBehind used (held slices.old).corners }
    ensures slices { SameSlices slices.old slices.new }
    ensures node { NodeAdvanced (plan task.now) leaf.node leaf.left leaf.leaves (held slices.old) (held slices.new)
        (events_from (plan task.now) (Point leaf.node leaf.child leaf.point) (reading_in (held slices.old))) result }
{
    let came = run_points(task, leaf, scratch, slices);
    if came.stop.is_some() {
        return came;
    }
    let visit = Visit {
        node: leaf.node,
        bounds: grid::node_box(task.grid, leaf.node),
        place: leaf.child + 1,
        leaves: came.leaves,
        left: came.left,
    };
    finish_node(task, visit, used, scratch, slices)
}

// The nodes from one on, after work that has gone so far; if it has stopped already, none. Each clears
// its own corners.
fn run_nodes(
    task: &Task,
    first: usize,
    so_far: Progress,
    scratch: &mut [f64; 4096],
    slices: &mut Slices,
) -> Progress
    requires within { (first ≤ nodes_of task.now.grid) }
    requires ready { NodesReady (plan task.now) first so_far (held slices.old) }
    ensures slices { SameSlices slices.old slices.new }
    ensures continued { Continued (plan task.now) so_far (held slices.old) (held slices.new)
        (nodes_left (plan task.now) first) [] result (active_all (plan task.now)) }
{
    let own = grid::cube_of(task.grid.inner as usize + 1);
    let mut done = so_far;
    for node in first..grid::node_total(task.grid) {
        if done.stop.is_some() {
            return done;
        }
        let visit = CornerVisit {
            node,
            corner: 0,
            leaves: done.leaves,
            left: done.left,
        };
        done = run_from_corner(task, visit, own, scratch, slices);
    }
    done
}

// What is left from where a job stands. Its first node clears all corners that are lent, which may hold
// anything.
pub fn run_from(
    task: &Task,
    at: Standing,
    scratch: &mut [f64; 4096],
    slices: &mut Slices,
) -> Progress
    requires standable { Standable (plan task.now) at (held slices.old) }
    ensures slices { SameSlices slices.old slices.new }
    ensures advanced { Advanced (plan task.now) at.left at.leaves (held slices.old) (held slices.new)
        (events_from (plan task.now) at.cursor (reading_in (held slices.old))) [] result
        (active_all (plan task.now)) }
{
    let leaves = at.leaves;
    let left = at.left;
    let all = slices.corners.len();
    match at.cursor {
        Cursor::End => Progress {
            leaves,
            left,
            stop: None,
        },
        Cursor::Corner(node, corner) => {
            let visit = CornerVisit {
                node,
                corner,
                leaves,
                left,
            };
            let done = run_from_corner(task, visit, all, scratch, slices);
            run_nodes(task, node + 1, done, scratch, slices)
        }
        Cursor::Point(node, child, point) => {
            let leaf = LeafVisit {
                node,
                child,
                point,
                leaves,
                left,
            };
            let done = run_from_point(task, leaf, all, scratch, slices);
            run_nodes(task, node + 1, done, scratch, slices)
        }
    }
}
