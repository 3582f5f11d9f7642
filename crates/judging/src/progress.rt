// How far a record says that its job is, held against its grid.
ghost use Rattle.std.specs.Prelude.{◌≡◌};
ghost use Rattle.plans.specs.Inner.GridPlan.{grid_plan};
ghost use Rattle.judging.specs.Inner.Judged.{wrong_progress};

use crate::RightKinds;
use crate::counts::{counts_right, evaluations_bound};
use schedule::{Counts, Cursor};

impl<'a> RightKinds<'a> {
    // Whether no job of the grid has these counts and this cursor.
    #[tactic(auto, unfolding(crate::specs::Inner::Judged::wrong_progress))]
    pub fn wrong_progress(&self, counts: Counts, cursor: Cursor) -> bool
        ensures { result ≡ wrong_progress (grid_plan self.now.grid.grid) counts cursor }
    {
        !counts_right(self.grid, counts)
            || counts.evaluations > evaluations_bound(self.grid)
            || !self.cursor_right(cursor)
            || self.wrong_leaves(cursor, counts.leaves)
    }
}
