// The list of the corners that a node's active children need.
ghost use Rattle.std.specs.Prelude.{◌≡◌, ◌+◌, ◌*◌, ◌<◌, ◌≤◌, length};
ghost use Rattle.lists.specs.Ranges.{count_below};
ghost use Rattle.grid.specs.Blocks.{cube};
ghost use Rattle.grid.specs.Corners.{needed};
ghost use Rattle.grid.specs.CornerList.{nonzero_at, corner_list_of, CornersOnce, HoldsCorners};
ghost use Rattle.grid.specs.Inner.CornerMarks.{marked, eight_from, Marks, Gathered};

use crate::blocks::{cube_of, is_block};
use causes::Cause;

// Marks the eight corners of a child whose first corner is p, where an axis has m corners.
fn mark_octet(p: usize, m: usize, list: &mut [u32])
    requires { p + m * m + m + 1 < length list.old }
    ensures { list.new ≡ marked list.old (eight_from p m) }
{
    let side = p + m;
    let over = p + m * m;
    let far = over + m;
    list[p] = 1;
    list[p + 1] = 1;
    list[side + 1] = 1;
    list[side] = 1;
    list[over] = 1;
    list[over + 1] = 1;
    list[far + 1] = 1;
    list[far] = 1;
}

// Moves the marked places below `corners` to the list's front and counts them. The place that is
// written is never past the one that is read.
fn gather(corners: usize, list: &mut [u32]) -> usize
    requires { (corners ≤ length list.old) × (corners ≤ 274625) }
    ensures { Gathered corners list.old list.new result }
{
    let mut count: usize = 0;
    for corner in 0..corners {
        if list[corner] != 0 {
            list[count] = corner as u32;
            count += 1;
        }
    }
    count
}

// The kinds of one node, n children along each axis. A kind that is not 0 is an active child.
#[derive(Clone, Copy, Debug, PartialEq, Eq)]
pub struct NodeKinds<'a> {
    pub n: u32,
    pub kinds: &'a [u8],
    pub ghost some: { 0 < n },
    pub ghost few: { n ≤ 64 },
    pub ghost whole: { length kinds.now ≡ cube n },
}

impl<'a> NodeKinds<'a> {
    // Marks the corners of the active children of one row, after those of the rows before it.
    fn mark_row(&self, row: usize, list: &mut [u32])
        requires { (row < self.now.n * self.now.n) × Marks self.now.n self.now.kinds.now (row * self.now.n) list.old }
        ensures { (length list.new ≡ length list.old)
            × Marks self.now.n self.now.kinds.now (row * self.now.n + self.now.n) list.new }
    {
        let n = self.n as usize;
        let m = n + 1;
        let first = row * n;
        let corner = (row / n * m + row % n) * m;
        for i in 0..n {
            if self.kinds[first + i] != 0 {
                mark_octet(corner + i, m, list);
            }
        }
    }

    // Marks the corners of all active children, in a list that has no mark yet.
    fn mark(&self, list: &mut [u32])
        requires { Marks self.now.n self.now.kinds.now 0 list.old }
        ensures { (length list.new ≡ length list.old)
            × Marks self.now.n self.now.kinds.now (self.now.n * self.now.n * self.now.n) list.new }
    {
        let n = self.n as usize;
        for row in 0..n * n {
            self.mark_row(row, list);
        }
    }

    // Writes each needed corner once, zeroes the rest of the list, and counts them.
    fn list_needed(&self, list: &mut [u32]) -> usize
        requires { cube (self.now.n + 1) ≤ length list.old }
        ensures { (length list.new ≡ length list.old)
            × (result ≡ count_below (cube (self.now.n + 1)) (needed self.now.n (nonzero_at self.now.kinds.now)))
            × CornersOnce (needed self.now.n (nonzero_at self.now.kinds.now)) result list.new }
    {
        list.fill(0);
        self.mark(list);
        let corners = cube_of(self.n as usize + 1);
        let count = gather(corners, list);
        list[count..].fill(0);
        count
    }
}

// Writes each corner that an active child of the node needs once, in no promised order, zeroes the
// rest of the list, and answers how many they are. A kind that is not 0 is an active child.
#[tactic(auto, unfolding(crate::specs::CornerList::corner_list_of, crate::specs::CornerList::corner_list_causes, causes::specs::First::first_of))]
pub fn corner_list(inner: u32, kinds: &[u8], list: &mut [u32]) -> Result<usize, Cause>
    ensures { (result ≡ corner_list_of inner kinds.now (length list.old))
        × HoldsCorners result inner kinds.now list.old list.new }
{
    if !is_block(inner) {
        return Err(Cause::BlockSize);
    }
    let n = inner as usize;
    if kinds.len() != cube_of(n) {
        return Err(Cause::TooShort);
    }
    if list.len() < cube_of(n + 1) {
        return Err(Cause::TooShort);
    }
    Ok(NodeKinds { n: inner, kinds }.list_needed(list))
}
