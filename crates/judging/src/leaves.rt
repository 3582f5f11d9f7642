// The leaves of a record, held against its cursor.
ghost use Rattle.std.specs.Prelude.{◌≡◌, true};
ghost use Rattle.schedule.specs.Totals.{active_up_to};
ghost use Rattle.schedule.specs.Possible.{valid_cursor};
ghost use Rattle.plans.specs.Inner.GridPlan.{grid_plan};
ghost use Rattle.judging.specs.Inner.Judged.{count_nonzero, wrong_leaves};

use crate::RightKinds;
use crate::cursors::inside_child;
use schedule::Cursor;

// How many kinds are nonzero.
fn count_nonzero(kinds: &[u8]) -> u64
    ensures { result ≡ count_nonzero kinds.now }
{
    let mut count: u64 = 0;
    for i in 0..kinds.len() {
        if kinds[i] != 0 {
            count += 1;
        }
    }
    count
}

impl<'a> RightKinds<'a> {
    // The active children that can be decided at a cursor (rule R12).
    fn active_up_to(&self, cursor: Cursor) -> u64
        requires { valid_cursor (grid_plan self.now.grid.grid) cursor ≡ true }
        ensures { result ≡ active_up_to (grid_plan self.now.grid.grid) cursor }
    {
        let children = self.grid.node_children();
        match cursor {
            Cursor::End => self.grid.active_children(),
            Cursor::Corner(v, _) => count_nonzero(&self.kinds[..v * children]),
            Cursor::Point(v, c, _) => count_nonzero(&self.kinds[..v * children + (c + 1)]),
        }
    }

    // Whether there are too many leaves for the cursor (rule R12), or none inside a child (rule R13).
    #[tactic(auto, unfolding(crate::specs::Inner::Judged::wrong_leaves))]
    pub(crate) fn wrong_leaves(&self, cursor: Cursor, leaves: u64) -> bool
        requires { valid_cursor (grid_plan self.now.grid.grid) cursor ≡ true }
        ensures { result ≡ wrong_leaves (grid_plan self.now.grid.grid) cursor leaves }
    {
        leaves > self.active_up_to(cursor) || (inside_child(cursor) && leaves == 0)
    }
}
