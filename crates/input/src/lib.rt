// What a job is made from: a grid, a band and a model; the lengths of the slices that it is lent, and
// the causes by which open refuses it.
#![tactic(auto)]

use grid::Grid;
use model::ImplicitModel;

mod needed; // needed.rt: how long the slices have to be
mod refusals; // refusals.rt: the causes of open

pub use needed::needed_lengths;
pub use refusals::open_refusal;

// What a job is made from.
// Kept: no derived equality, as a model has none.
#[derive(Clone, Copy, Debug)]
pub struct Input {
    pub grid: Grid,
    pub band: Band,
    pub model: ImplicitModel,
}

// The values that matter: a child whose values all lie outside becomes a constant.
#[derive(Clone, Copy, Debug, PartialEq)]
pub struct Band {
    pub min: f64,
    pub max: f64,
}

// How long the five slices are that a job is lent.
#[derive(Clone, Copy, Debug, PartialEq, Eq)]
pub struct Lengths {
    pub kinds: usize,
    pub numbers: usize,
    pub places: usize,
    pub store: usize,
    pub corners: usize,
}
