// What the field engine needs of floats beyond their operators. Every public function takes any
// value and has a result for it.
#![tactic(auto)]

mod class; // class.rt: which kind of value a float is
mod operations; // operations.rt: the operations on two values, as types
mod order; // order.rt: the order of two floats, and one of the two as it is
mod pattern; // pattern.rt: a float's bit pattern
mod rounding; // rounding.rt: a count as a float, floor and ceiling

pub use class::{computed, is_finite, is_nan, is_negative};
pub use operations::{Add, Max, Min, Operation, Sub};
pub use order::{at_most, less, max, min};
pub use pattern::{abs, from_bits, to_bits};
pub use rounding::{ceil, floor, from_count};
