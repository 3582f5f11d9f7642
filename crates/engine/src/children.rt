// A node's children, in order: each active one is decided, and a leaf's points are evaluated into
// the stretch of the store that is its own (rule S8).
// Kept: contracts ask the same of memory and visit, at the moment of the call. A type that held it would
// hold the lent slices, and be made anew after each child.
ghost use Rattle.std.specs.Prelude.{◌≡◌, ◌+◌, ◌-◌, ◌*◌, ◌≤◌, ◌<◌, min, length};
ghost use Rattle.lists.specs.Filled.{filled};
ghost use Rattle.grid.specs.Blocks.{cube};
ghost use Rattle.grid.specs.Boxes.{node_box};
ghost use Rattle.grid.specs.Leaves.{leaf_point};
ghost use Rattle.schedule.specs.Lent.{held, SameSlices};
ghost use Rattle.rows.specs.Inner.ModelValue.{model_at};
ghost use Rattle.geometry.specs.Values.{at};
ghost use Rattle.engine.specs.Inner.Progress.{plan, Ready, ChildrenAdvanced, leaf_progress};
ghost use Rattle.engine.specs.Inner.Children.{Decidable, leaf_box, decided};

use crate::{LeafVisit, Progress, Task, Visit};
use geometry::BoundingBox;
use grid::{Kind, Verdict};
use model::ImplicitModel;
use schedule::{Cursor, Slices};

// Evaluates points of a leaf that has the box b, from point p on while the budget lasts, into the
// stretch of the store that its ordinal names. Answers the next point.
fn fill_leaf(
    model: &ImplicitModel,
    b: BoundingBox,
    l: u32,
    p: usize,
    ordinal: usize,
    budget: u64,
    scratch: &mut [f64; 4096],
    store: &mut [f64],
) -> usize
    requires { (0 < l) × (l ≤ 64) × (p ≤ cube l) × ((ordinal + 1) * cube l ≤ length store.old) }
    ensures answer { result ≡ p + min budget (cube l - p) }
    ensures store { store.new
        ≡ filled (ordinal * cube l + p) (min budget (cube l - p)) (λ q. at (model_at model.now) (leaf_point b l (q - ordinal * cube l)))
        store.old }
{
    let points = grid::cube_of(l as usize);
    let from = ordinal * points;
    rows::fill_points(
        model,
        b,
        l,
        p,
        budget,
        scratch,
        &mut store[from..from + points],
    )
}

// Points of the last of so many leaves, which has the box b, while the budget lasts.
pub fn leaf_from(
    model: &ImplicitModel,
    b: BoundingBox,
    l: u32,
    leaf: LeafVisit,
    scratch: &mut [f64; 4096],
    store: &mut [f64],
) -> Progress
    requires { (0 < l) × (l ≤ 64) × (leaf.point ≤ cube l) × (0 < leaf.leaves) × (leaf.leaves * cube l ≤ length store.old) }
    ensures answer { result ≡ leaf_progress leaf.leaves leaf.left leaf.node leaf.child leaf.point (cube l) }
    ensures store { store.new
        ≡ filled ((leaf.leaves - 1) * cube l + leaf.point) (min leaf.left (cube l - leaf.point))
        (λ q. at (model_at model.now) (leaf_point b l (q - (leaf.leaves - 1) * cube l))) store.old }
{
    let p = leaf.point;
    let leaves = leaf.leaves;
    let budget = leaf.left;
    let ordinal = (leaves as usize) - 1;
    let next = fill_leaf(model, b, l, p, ordinal, budget, scratch, store);
    let left = budget - ((next - p) as u64);
    let stop = if next < grid::cube_of(l as usize) {
        Some(Cursor::Point(leaf.node, leaf.child, next))
    } else {
        None
    };
    Progress { leaves, left, stop }
}

// Decides the child at a visit's place. An active child becomes a constant or a leaf, and the answer is
// the box of a leaf.
fn decide_at(task: &Task, visit: Visit, slices: &mut Slices) -> Option<BoundingBox>
    requires { Decidable task.now visit (held slices.old) }
    ensures slices { SameSlices slices.old slices.new }
    ensures answer { result ≡ leaf_box task.now visit (held slices.old) }
    ensures memory { held slices.new ≡ decided task.now visit (held slices.old) }
{
    let n = task.grid.inner;
    let c = visit.place;
    let j = visit.node * grid::cube_of(task.grid.inner as usize) + c;
    let empty = slices.kinds[j] == 0;
    if empty {
        return None;
    }
    let band = task.band;
    let child = grid::child_box(visit.bounds, n, c);
    let octet = grid::octet_values(slices.view().corners, n, c);
    let verdict = grid::decide_child(band.min, band.max, child, octet);
    match verdict {
        Verdict::Constant(kind, number) => {
            slices.kinds[j] = kind.into();
            slices.numbers[j] = number;
            None
        }
        Verdict::Leaf => {
            slices.kinds[j] = Kind::Leaf.into();
            slices.places[j] = visit.leaves as u32;
            Some(child)
        }
    }
}

// The child at a visit's place: it is decided, and the points of a leaf are evaluated while the budget
// lasts.
fn run_child(task: &Task, visit: Visit, scratch: &mut [f64; 4096], slices: &mut Slices) -> Progress
    requires within { (visit.bounds ≡ node_box task.now.grid visit.node) × (visit.place < cube task.now.grid.inner) }
    requires ready { Ready (plan task.now) visit.node visit.place visit.leaves (held slices.old) }
    ensures slices { SameSlices slices.old slices.new }
    ensures advanced { ChildrenAdvanced (plan task.now) visit.node visit.place (visit.place + 1) visit.left visit.leaves
        (held slices.old) (held slices.new) result }
    ensures corners { (held slices.new).corners ≡ (held slices.old).corners }
{
    let Some(child) = decide_at(task, visit, slices) else {
        return Progress {
            leaves: visit.leaves,
            left: visit.left,
            stop: None,
        };
    };
    let leaf = LeafVisit {
        node: visit.node,
        child: visit.place,
        point: 0,
        leaves: visit.leaves + 1,
        left: visit.left,
    };
    leaf_from(
        task.model,
        child,
        task.grid.leaf,
        leaf,
        scratch,
        slices.store,
    )
}

// The children of a node, from the one at a visit's place on.
pub fn run_children(
    task: &Task,
    visit: Visit,
    scratch: &mut [f64; 4096],
    slices: &mut Slices,
) -> Progress
    requires within { (visit.bounds ≡ node_box task.now.grid visit.node) × (visit.place ≤ cube task.now.grid.inner) }
    requires ready { Ready (plan task.now) visit.node visit.place visit.leaves (held slices.old) }
    ensures slices { SameSlices slices.old slices.new }
    ensures advanced { ChildrenAdvanced (plan task.now) visit.node visit.place (cube task.now.grid.inner) visit.left visit.leaves
        (held slices.old) (held slices.new) result }
    ensures corners { (held slices.new).corners ≡ (held slices.old).corners }
{
    let mut done = Progress {
        leaves: visit.leaves,
        left: visit.left,
        stop: None,
    };
    for place in visit.place..grid::cube_of(task.grid.inner as usize) {
        let child = Visit {
            place,
            leaves: done.leaves,
            left: done.left,
            ..visit
        };
        done = run_child(task, child, scratch, slices);
        if done.stop.is_some() {
            return done;
        }
    }
    done
}
