// The octet walker: a field's values, its numbers of points and the cell that the walk stands at,
// after `DenseCellValueIterator`. It leaves the work to `octet_step` and `after_walk`.
ghost use Rattle.std.specs.Prelude.{◌≡◌};
ghost use Rattle.geometry.specs.Values.{vec3i};
ghost use Rattle.dense_field.specs.Walks.{octet_step};
ghost use Rattle.dense_field.specs.Traces.{after_step};
ghost use Rattle.dense_field.specs.Walker.{walker_at};

use crate::{Step, octets};
use causes::Cause;
use geometry::Vec3i;

// Kept: it is no Copy, since a copy would be moved on in its place; and no std Iterator, whose `None`
// could not tell the end from a refusal.
#[derive(Clone, Debug, PartialEq, Drop)]
pub struct DenseCellValueIterator<'a> {
    pub data: &'a [f64],
    pub current: Vec3i,
    pub point_count: Vec3i,
}

// The cell that a walk stands at after a step: the next one, or the same where it is done or refused.
#[tactic(auto, unfolding(crate::specs::Traces::after_step))]
fn after_walk(found: Result<Option<Step<[f64; 8]>>, Cause>, current: Vec3i) -> Vec3i
    ensures { result ≡ after_step found current }
{
    match found {
        Ok(Some(step)) => step.next,
        Ok(None) => current,
        Err(_) => current,
    }
}

impl<'a> DenseCellValueIterator<'a> {
    // A walker over a field's values, at the first cell.
    pub fn new(data: &'a [f64], point_count: Vec3i) -> DenseCellValueIterator<'a>
        ensures { result ≡ walker_at «data».entry point_count (vec3i 0 0 0) }
    {
        let current = Vec3i { i: 0, j: 0, k: 0 };
        DenseCellValueIterator {
            data,
            current,
            point_count,
        }
    }

    // The same walker at another cell.
    pub fn moved(self, current: Vec3i) -> DenseCellValueIterator<'a>
        ensures { result ≡ walker_at self.entry.«data» self.entry.point_count current }
    {
        DenseCellValueIterator {
            data: self.data,
            current,
            point_count: self.point_count,
        }
    }

    // What the walker finds at its cell.
    pub fn step(self) -> Result<Option<Step<[f64; 8]>>, Cause>
        ensures { result ≡ octet_step self.entry.point_count self.entry.«data».now self.entry.current }
    {
        octets::octet_step(self.point_count, self.data, self.current)
    }

    // A step that moves the walker's own cell on. Where it finds none the cell stays.
    pub fn next<'s>(&'s mut self) -> Result<Option<Step<[f64; 8]>>, Cause>
        ensures { (result ≡ octet_step self.old.point_count self.old.«data».now self.old.current)
            ×
            (self.new ≡ walker_at self.old.«data» self.old.point_count
            (after_step result self.old.current)) }
    {
        let current = self.current;
        let found = octets::octet_step(self.point_count, self.data, current);
        self.current = after_walk(found, current);
        found
    }
}

// One step of a walker that is made for it: for every other caller, who then needs no walker.
pub fn walk_octet(
    values: &[f64],
    point_count: Vec3i,
    current: Vec3i,
) -> Result<Option<Step<[f64; 8]>>, Cause>
    ensures { result ≡ octet_step point_count values.now current }
{
    DenseCellValueIterator::new(values, point_count)
        .moved(current)
        .step()
}
