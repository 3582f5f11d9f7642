// The axes of a grid. A child is active exactly where it is on each of the three, so that counts along the
// axes are enough: their product is the count.
ghost use Rattle.std.specs.Prelude.{◌≡◌, ◌≤◌, ◌&&◌};
ghost use Rattle.std.specs.Float.Ieee.{le};
ghost use Rattle.lists.specs.Sums.{bit};
ghost use Rattle.grid.specs.Axes.{axes_of};
ghost use Rattle.grid.specs.Inner.Activity.{axis_active, axis_count, axis_total};

use crate::Grid;
use crate::boxes::{node_least, node_most};
use crate::nodes::node_size;

// One axis of a grid: the ends of its bounds, the size of a node, and how many children a node has.
#[derive(Clone, Copy, Debug, PartialEq)]
pub struct Axis {
    pub least: f64,
    pub most: f64,
    pub size: f64,
    pub n: u32,
}

// All three.
#[derive(Clone, Copy, Debug, PartialEq)]
pub struct Axes {
    pub x: Axis,
    pub y: Axis,
    pub z: Axis,
}

impl Grid {
    // Its axes.
    pub fn axes(self) -> Axes
        ensures { result ≡ axes_of self }
    {
        let min = self.bounds.min;
        let max = self.bounds.max;
        let size = node_size(self.cell, self.inner, self.leaf);
        let axis = |least: f64, most: f64| Axis {
            least,
            most,
            size,
            n: self.inner,
        };
        Axes {
            x: axis(min.x, max.x),
            y: axis(min.y, max.y),
            z: axis(min.z, max.z),
        }
    }
}

// 1 where bounds from `least` to `most` meet what lies from `begin` to `end`, and 0 elsewhere.
fn met(least: f64, most: f64, begin: f64, end: f64) -> u64
    ensures { result ≡ bit (le least end && le begin most) }
{
    u64::from(least <= end && begin <= most)
}

impl Axis {
    // Whether the bounds meet child c of node i.
    #[tactic(auto, unfolding(crate::specs::Inner::Activity::axis_active))]
    pub fn is_active(self, i: usize, c: usize) -> bool
        ensures { result ≡ axis_active self.least self.most self.size self.n i c }
    {
        let from = node_least(self.least, self.size, i);
        let to = node_most(self.least, self.size, i);
        let steps = self.n as u64;
        self.least <= geometry::along_end(from, to, steps, c as u64)
            && geometry::along(from, to, steps, c as u64) <= self.most
    }

    // How many of the children of node i the bounds meet.
    pub(crate) fn count(self, i: usize) -> u64
        ensures is { result ≡ axis_count self.least self.most self.size self.n i }
        ensures few { result ≤ self.n }
    {
        let from = node_least(self.least, self.size, i);
        let steps = self.n as u64;
        let step = geometry::step_along(from, from + self.size, steps);
        let mut count: u64 = 0;
        for c in 0..steps {
            let begin = from + float::from_count(c) * step;
            count += met(self.least, self.most, begin, begin + step);
        }
        count
    }

    // How many children of all nodes they meet.
    pub(crate) fn total(self, nodes: usize) -> u64
        requires { (self.n ≤ 64) × (nodes ≤ 1024) }
        ensures is { result ≡ axis_total self.least self.most self.size self.n nodes }
        ensures few { result ≤ 65536 }
    {
        let mut total: u64 = 0;
        for i in 0..nodes {
            total += self.count(i);
        }
        total
    }
}
