// The counts of a record, held against its grid.
ghost use Rattle.std.specs.Prelude.{◌≡◌, ◌*◌, eqb};
ghost use Rattle.grid.specs.Blocks.{cube};
ghost use Rattle.schedule.specs.Totals.{evaluations_bound};
ghost use Rattle.schedule.specs.Counts.{counts_with, same_counts};
ghost use Rattle.plans.specs.Inner.GridPlan.{grid_plan};

use grid::SizedGrid;
use schedule::Counts;

// Whether the sampled points are those of the leaves.
fn sampled_right(g: SizedGrid, sampled: u64, leaves: u64) -> bool
    ensures { result ≡ eqb sampled (leaves * cube g.grid.leaf) }
{
    let points = g.leaf_points() as u64;
    sampled % points == 0 && sampled / points == leaves
}

// Whether nodes and active children are the grid's, and the sampled points those of the leaves (rule R9).
pub fn counts_right(g: SizedGrid, counts: Counts) -> bool
    ensures { result ≡ same_counts counts (counts_with (grid_plan g.grid) counts.leaves counts.evaluations) }
{
    counts.grid == g.counts() && sampled_right(g, counts.sampled, counts.leaves)
}

// The most evaluations that a job can need: all corners, and all points of all children.
#[tactic(auto, unfolding(schedule::specs::Totals::evaluations_bound, plans::specs::Plan::plan_with))]
pub fn evaluations_bound(g: SizedGrid) -> u64
    ensures { result ≡ evaluations_bound (grid_plan g.grid) }
{
    let of_node = g.node_corners() + g.node_children() * g.leaf_points();
    (g.nodes() * of_node) as u64
}
