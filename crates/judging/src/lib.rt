// The judgement of a record, as far as its grid decides it: which counts and which cursor no job has
// (rules R9 to R13). Nothing wraps, whatever numbers a record holds.
#![tactic(auto)]

mod counts; // counts.rt: nodes, active children, sampled points, and the bound on evaluations
mod cursors; // cursors.rt: which cursors a grid has
mod judged; // judged.rt: a grid with its kinds, as rule R8 wants them
mod leaves; // leaves.rt: how many leaves there can be at a cursor
mod progress; // progress.rt: counts and cursor together

pub use judged::RightKinds;
