// The cursor of a record, held against its grid: its numbers are compared before they are multiplied.
ghost use Rattle.std.specs.Prelude.{◌≡◌};
ghost use Rattle.schedule.specs.declared.Cursor.TheVariants.{Corner, Point};
ghost use Rattle.schedule.specs.Possible.{valid_cursor, inside_child};
ghost use Rattle.plans.specs.Inner.GridPlan.{grid_plan};

use crate::RightKinds;
use grid::SizedGrid;
use schedule::Cursor;

// Whether a cursor at a point is at one of an active child.
#[tactic(auto, unfolding(schedule::specs::Possible::valid_cursor, plans::specs::Plan::plan_with))]
fn point_right(g: SizedGrid, v: usize, c: usize, p: usize) -> bool
    ensures { result ≡ valid_cursor (grid_plan g.grid) (Point v c p) }
{
    v < g.nodes() && c < g.node_children() && grid::is_active(g.grid, v, c) && p < g.leaf_points()
}

impl<'a> RightKinds<'a> {
    // Whether a cursor at a corner is at a needed one.
    #[tactic(auto, unfolding(schedule::specs::Possible::valid_cursor, plans::specs::Plan::plan_with))]
    fn corner_right(&self, v: usize, i: usize) -> bool
        ensures { result ≡ valid_cursor (grid_plan self.now.grid.grid) (Corner v i) }
    {
        v < self.grid.nodes() && i < self.grid.node_corners() && self.is_needed(v, i)
    }

    // Whether a cursor is one that its plan has (rule R11).
    #[tactic(auto, unfolding(schedule::specs::Possible::valid_cursor))]
    pub(crate) fn cursor_right(&self, cursor: Cursor) -> bool
        ensures { result ≡ valid_cursor (grid_plan self.now.grid.grid) cursor }
    {
        match cursor {
            Cursor::End => true,
            Cursor::Corner(v, i) => self.corner_right(v, i),
            Cursor::Point(v, c, p) => point_right(self.grid, v, c, p),
        }
    }
}

// Whether a cursor is at a point of a child.
pub fn inside_child(cursor: Cursor) -> bool
    ensures { result ≡ inside_child cursor }
{
    matches!(cursor, Cursor::Point(_, _, _))
}
