// The numbers of a stored case, read one after the other.
ghost use Rattle.std.specs.Prelude.{◌≡◌, drop, slice_index};
ghost use Rattle.cases.specs.Numbers.{box_at, float_at, grid_at, indices_at, lengths_at, short_at, vector_at};

use geometry::{BoundingBox, Vec3, Vec3i};
use grid::Grid;
use input::Lengths;

// The numbers that are left to read. Past the last each is 0.
#[derive(Clone, Copy, Debug)]
pub struct Numbers<'a> {
    pub left: &'a [u64],
}

impl<'a> Numbers<'a> {
    pub fn new(numbers: &'a [u64]) -> Self
        ensures { result.left.now ≡ numbers.entry.now }
    {
        Numbers { left: numbers }
    }

    pub fn number(&mut self) -> u64
        ensures value { result ≡ slice_index self.old.left.now 0 }
        ensures rest { self.new.left.now ≡ drop 1 self.old.left.now }
    {
        let Some((first, rest)) = self.left.split_first() else {
            return 0;
        };
        self.left = rest;
        *first
    }

    // A count or an index.
    pub fn place(&mut self) -> usize
        ensures value { result ≡ slice_index self.old.left.now 0 }
        ensures rest { self.new.left.now ≡ drop 1 self.old.left.now }
    {
        self.number() as usize
    }

    // A number of 32 bits; a larger one counts as the largest.
    pub fn short(&mut self) -> u32
        ensures value { result ≡ short_at self.old.left.now 0 }
        ensures rest { self.new.left.now ≡ drop 1 self.old.left.now }
    {
        u32::try_from(self.number()).unwrap_or(u32::MAX)
    }

    // The float with these bits.
    pub fn float(&mut self) -> f64
        ensures value { result ≡ float_at self.old.left.now 0 }
        ensures rest { self.new.left.now ≡ drop 1 self.old.left.now }
    {
        float::from_bits(self.number())
    }

    pub fn vector(&mut self) -> Vec3
        ensures value { result ≡ vector_at self.old.left.now 0 }
        ensures rest { self.new.left.now ≡ drop 3 self.old.left.now }
    {
        let x = self.float();
        let y = self.float();
        let z = self.float();
        Vec3::new(x, y, z)
    }

    // The indices or the counts along the axes.
    // Kept: beside `vector`, which reads another type and makes another. One function for both would
    // take the reading and the making, to save two lines.
    pub fn indices(&mut self) -> Vec3i
        ensures value { result ≡ indices_at self.old.left.now 0 }
        ensures rest { self.new.left.now ≡ drop 3 self.old.left.now }
    {
        let i = self.place();
        let j = self.place();
        let k = self.place();
        Vec3i::new(i, j, k)
    }

    pub fn bounds(&mut self) -> BoundingBox
        ensures value { result ≡ box_at self.old.left.now 0 }
        ensures rest { self.new.left.now ≡ drop 6 self.old.left.now }
    {
        let min = self.vector();
        let max = self.vector();
        BoundingBox::new(min, max)
    }

    // The slices' lengths: KINDS NUMBERS PLACES STORE CORNERS.
    pub fn lengths(&mut self) -> Lengths
        ensures value { result ≡ lengths_at self.old.left.now 0 }
        ensures rest { self.new.left.now ≡ drop 5 self.old.left.now }
    {
        Lengths {
            kinds: self.place(),
            numbers: self.place(),
            places: self.place(),
            store: self.place(),
            corners: self.place(),
        }
    }

    // A grid: its bounds, its cell, its blocks.
    pub fn grid(&mut self) -> Grid
        ensures value { result ≡ grid_at self.old.left.now 0 }
        ensures rest { self.new.left.now ≡ drop 9 self.old.left.now }
    {
        Grid {
            bounds: self.bounds(),
            cell: self.float(),
            inner: self.short(),
            leaf: self.short(),
        }
    }
}
