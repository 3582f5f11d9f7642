// What the numbers of a stored case stand for: floats by their bits, points, boxes, grids and models.
#![tactic(auto)]

mod answer; // answer.rt: numbers written one after the other
mod lines; // lines.rt: a line taken apart, and the line that answers it
mod numbers; // numbers.rt: a case's numbers, read one after the other
mod parts; // parts.rt: parts of a model

pub use answer::{Answer, Written};
pub use lines::{Line, read_line, write_answer};
pub use numbers::Numbers;
pub use parts::part_numbers;
