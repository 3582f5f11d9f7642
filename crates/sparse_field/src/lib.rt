// The sparse field, after sparse_field.rs: open, step and drop of a job on five lent slices.
//
// A grid's nodes have `inner`³ children each. Child c of node v stands at place v × inner³ + c of three
// slices: `kinds` says what it is (0 where it is not active, 1 where it is active and not decided, or a
// constant, 2 where it is a leaf), `numbers` holds a constant's value, and `places` a leaf's ordinal. The
// `store` holds the leaves' points, `leaf`³ for each ordinal, and `corners` the values at the corners of
// the node in work. Every element that is not in use is 0.
//
// A record is an `Option<Job>`: calls take it and leave it as they hand it on, with a job or without.
#![tactic(auto)]

mod calls; // calls.rt: open, step and drop
mod jobs; // jobs.rt: the job that an accepted call hands on
mod judgement; // judgement.rt: which records are impossible

pub use calls::{drop, open, step};
pub use judgement::is_impossible;
