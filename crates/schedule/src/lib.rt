// The schedule of a job as a list of events, the ledger, and their laws, over any plan: see
// specs/Lib.antt and proofs/Lib.antt. The code has the words that the definitions share with calls:
// what a job counts, where it stands, the job itself, and the slices that it is lent. What calls hand on
// is an `Option<Job>` (rule R1).
#![tactic(auto)]

use grid::GridCounts;
use input::{Input, Lengths};

mod slices; // slices.rt: the five slices that a job is lent

pub use slices::{Slices, View};

// What a record counts: of its grid, leaves so far, their points, and evaluations so far (rule R2).
#[derive(Clone, Copy, Debug, PartialEq, Eq)]
pub struct Counts {
    pub grid: GridCounts,
    pub leaves: u64,
    pub sampled: u64,
    pub evaluations: u64,
}

// Where a job stands (rule S12): at the end, or before a corner of a node or a point of a node's child.
#[derive(Clone, Copy, Debug, PartialEq, Eq)]
pub enum Cursor {
    End,
    Corner(usize, usize),
    Point(usize, usize, usize),
}

// A job: its input, the lengths of the slices that it was opened with, its counts and its cursor
// (rule R1).
// Kept: no derived equality, as a model has none.
#[derive(Clone, Copy, Debug)]
pub struct Job {
    pub input: Input,
    pub lengths: Lengths,
    pub counts: Counts,
    pub cursor: Cursor,
}
