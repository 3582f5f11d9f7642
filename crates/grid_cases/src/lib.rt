// The stored cases about a grid's nodes and children, its points, and pruning; and what all cases of the
// grid share: their words, and bits.
#![tactic(auto)]

mod answers; // answers.rt: the answer to a case
mod bits; // bits.rt: sets as bits, 64 to a number
mod nodes; // nodes.rt: nodes, children, activity
mod points; // points.rt: corner and leaf points
mod pruning; // pruning.rt: the pruning rule
mod words; // words.rt: the words of the cases

pub use answers::answer;
pub use bits::{has_bit, set_bit};
pub use words::Word;
